// Lists of directions: directions for a whole list of points and targets. The field record is checked once for the list.
#![tactic(auto)]

ghost use Rattle.std.specs.Prelude.{◌≡◌, ◌+◌, ◌≤◌, length};
ghost use Rattle.std.proofs.lemmas.List.Edits.{sets};
ghost use Rattle.outline.specs.Refusals.{refused, numbered};
ghost use Rattle.field_direction.specs.Record.{field_lent};
ghost use Rattle.field_direction.specs.Cells.{FieldLent};
ghost use Rattle.field_directions.specs.Directions.{record_lent, direction_floats, lists_unfit, directions_refusal, DirectionsGiven};
ghost use Rattle.field_directions.specs.Laws.{point_answer, Fit, points_answered};

use field_direction::{CrossField, Grid};
use outline::{Point, Refusal};

// A list of direction queries: the points, x then y, and each one's target, which may be any two floats.
#[derive(Clone, Copy)]
struct DirectionQueries<'a> {
    points: &'a [f64],
    targets: &'a [f64],
}

// ---- the refusals

impl DirectionQueries<'_> {
    // 14's test. Lengths are divided, so that no product can overflow.
    #[tactic(auto, unfolding(crate::specs::Directions::lists_unfit), using(crate::proofs::Laws::third_of))]
    fn lists_unfit(self, answers: &[f64]) -> bool
        ensures { result ≡ lists_unfit self.entry.points.now self.entry.targets.now answers.now }
    {
        self.points.len() != self.targets.len()
            || self.points.len() % 2 == 1
            || answers.len() / 3 < self.points.len() / 2
    }
}

// 14, then 11.
#[tactic(auto, using(crate::proofs::Laws::lists_refused, crate::proofs::Laws::lists_pass))]
fn check_directions(
    field: CrossField<'_>,
    marks: &[u8],
    queries: DirectionQueries<'_>,
    answers: &[f64],
) -> Result<(), Refusal>
    ensures { refused result
        ≡ directions_refusal (field_lent field.entry marks.now) queries.entry.points.now
        queries.entry.targets.now answers.now }
{
    if queries.lists_unfit(answers) {
        return Err(Refusal::AnswerLists);
    }
    field_direction::check_record(field, marks)
}

// ---- the answers

// The single query's answer where 11 doesn't refuse the record.
#[tactic(auto, using(outline::proofs::Refused::refusal_some, outline::proofs::RefusalLaws::answer_refused), unfolding(crate::specs::Laws::point_answer))]
fn point_answer(field: CrossField<'_>, p: Point, target: Point) -> Result<Point, Refusal>
    requires { FieldLent field.grid field.values.now }
    ensures { numbered result
        ≡ point_answer field.entry.grid field.entry.values.now p target }
{
    outline_loops::check_point(p)?;
    Ok(field_direction::nearest_direction(field, p, target))
}

// An answer at the three places from k on.
fn write_answer(answers: &mut [f64], k: usize, answer: Result<Point, Refusal>)
    requires { k + 3 ≤ length answers.old }
    ensures { answers.new ≡ sets answers.old k (direction_floats (numbered answer)) }
{
    let floats = match answer {
        Err(refusal) => [numbers::to_f64(u32::from(refusal) as usize), 0.0, 0.0],
        Ok(direction) => [0.0, direction.x, direction.y],
    };
    answers[k..k + 3].copy_from_slice(&floats);
}

// The answers of all points, where none of 14 and 11 refuses.
// LIMITS.md, 1: indexed.
fn write_answers(field: CrossField<'_>, queries: DirectionQueries<'_>, answers: &mut [f64])
    requires { FieldLent field.grid field.values.now
        × Fit queries.points.now queries.targets.now answers.old }
    ensures { answers.new
        ≡ points_answered field.entry.grid field.entry.values.now queries.entry.points.now
        queries.entry.targets.now answers.old }
{
    for i in 0..queries.points.len() / 2 {
        let p = outline_loops::point_at(queries.points, i);
        let target = outline_loops::point_at(queries.targets, i);
        let answer = point_answer(field, p, target);
        write_answer(answers, 3 * i, answer);
    }
}

// Of the field's four directions at each point the one nearest to its target, which may be any two floats: three floats a point, 0 and the direction, or
// the number of what refuses the point and two zeros. Nothing is written where the whole list is refused.
#[unsafe(no_mangle)]
pub extern "C" fn sitjorbe_directions(
    xmin: f64,
    ymin: f64,
    h: f64,
    nx: usize,
    ny: usize,
    values: &[f64],
    marks: &[u8],
    points: &[f64],
    targets: &[f64],
    answers: &mut [f64],
) -> u32
    ensures { DirectionsGiven (record_lent xmin ymin h nx ny values.now marks.now) points.now
        targets.now answers.old result answers.new }
{
    let grid = Grid {
        xmin,
        ymin,
        h,
        nx,
        ny,
    };
    let field = CrossField { grid, values };
    let queries = DirectionQueries { points, targets };
    match check_directions(field, marks, queries, answers) {
        Err(refusal) => u32::from(refusal),
        Ok(()) => {
            write_answers(field, queries, answers);
            0
        }
    }
}
