// A field record, refusal 11, and the direction query of src/alt_crossfield.rs.
#![tactic(auto)]

ghost use Rattle.std.specs.Prelude.{◌≡◌, ◌+◌, ◌≤◌};
ghost use Rattle.numbers.specs.Whole.{floor_quotient};
ghost use Rattle.outline.specs.Outline.{any_float};
ghost use Rattle.field_direction.specs.Record.{field_lent};
ghost use Rattle.field_direction.specs.Direction.{within, value_unsound, counts_sound, grid_sound, record_refusal, grid_cell, weighed, raw_at};
ghost use Rattle.field_direction.specs.Direction.{scaled, half, direction_of, dot, closer_of, nearest_of, direction_at, direction_refusal};
ghost use Rattle.field_direction.specs.Direction.{direction_answer};
ghost use Rattle.outline.specs.Refusals.{refused, numbered};
ghost use Rattle.field_direction.specs.Cells.{FieldLent};

use outline::{Point, Refusal, Settings};

// A field record's three floats and two counts; its values and marks are lent beside it.
#[derive(Clone, Copy)]
pub struct Grid {
    pub xmin: f64,
    pub ymin: f64,
    pub h: f64,
    pub nx: usize,
    pub ny: usize,
}

// A cross field as it is read (src/alt_crossfield.rs: `CrossField`): its grid, and two floats for each of its nodes.
#[derive(Clone, Copy)]
pub struct CrossField<'a> {
    pub grid: Grid,
    pub values: &'a [f64],
}

// The limits of refusal 11.
impl Grid {
    pub const LEAST_SPACING: f64 = 0.001;

    pub const MOST_SPACING: f64 = 1000.0;

    pub const MOST_ORIGIN: f64 = 2000.0;

    pub const MOST_VALUE: f64 = 4.0;
}

// ---- refusal 11

// Finite, and at most m either way.
#[tactic(auto, unfolding(crate::specs::Direction::within))]
pub fn is_within(m: f64, x: f64) -> bool
    ensures { result ≡ within m x }
{
    numbers::is_finite_f64(x) && numbers::abs_at_most(x, m)
}

fn any_unsound(values: &[f64]) -> bool
    ensures { result ≡ any_float value_unsound values.now }
{
    values.iter().any(|&v| !is_within(Grid::MOST_VALUE, v))
}

// The floats' part of 11, but for the values.
#[tactic(auto, unfolding(crate::specs::Direction::grid_sound))]
fn grid_sound(g: Grid) -> bool
    ensures { result ≡ grid_sound g }
{
    numbers::is_finite_f64(g.h)
        && Grid::LEAST_SPACING <= g.h
        && g.h <= Grid::MOST_SPACING
        && is_within(Grid::MOST_ORIGIN, g.xmin)
        && is_within(Grid::MOST_ORIGIN, g.ymin)
}

impl CrossField<'_> {
    // The counts' part of 11.
    #[tactic(auto, unfolding(crate::specs::Direction::counts_sound))]
    fn counts_sound(self, marks: &[u8]) -> bool
        ensures { result ≡ counts_sound (field_lent self.entry marks.now) }
    {
        let Some(nodes) = self.grid.nx.checked_mul(self.grid.ny) else {
            return false;
        };
        2 <= self.grid.nx
            && 2 <= self.grid.ny
            && nodes <= Settings::MOST_FIELD_NODES
            && nodes == marks.len()
            && 2 * nodes == self.values.len()
    }
}

// Refusal 11.
// The marks stand beside the field, here and below: only how many there are is asked, and an attempt reads the field
// without them.
#[tactic(auto, unfolding(crate::specs::Direction::record_refusal))]
pub fn check_record(field: CrossField<'_>, marks: &[u8]) -> Result<(), Refusal>
    ensures { refused result ≡ record_refusal (field_lent field.entry marks.now) }
{
    if !field.counts_sound(marks) || !grid_sound(field.grid) || any_unsound(field.values) {
        return Err(Refusal::NoFieldRecord);
    }
    Ok(())
}

// ---- the direction

// `((d / h).floor() as i64).clamp(0, n - 2)`
fn cell_of(d: f64, h: f64, n: usize) -> usize
    requires { 2 ≤ n }
    ensures value { result ≡ grid_cell (floor_quotient d h) n }
    ensures result_bound { result + 2 ≤ n }
{
    let z = numbers::floor_quotient(d, h);
    if z < 0 {
        return 0;
    }
    (z as usize).min(n - 2)
}

#[tactic(auto, unfolding(crate::specs::Direction::weighed))]
fn weighed(tx: f64, ty: f64, v00: f64, v10: f64, v01: f64, v11: f64) -> f64
    ensures { result ≡ weighed tx ty v00 v10 v01 v11 }
{
    (1.0 - tx) * (1.0 - ty) * v00 + tx * (1.0 - ty) * v10 + (1.0 - tx) * ty * v01 + tx * ty * v11
}

impl CrossField<'_> {
    // The values at the corners of p's cell, interpolated.
    #[tactic(auto, using(crate::specs::Cells::corner_in, crate::specs::Cells::corner_small, crate::specs::Cells::column_small, crate::specs::Cells::row_small))]
    fn raw_at(self, p: Point) -> Point
        requires { FieldLent self.grid self.values.now }
        ensures { result ≡ raw_at self.entry.grid self.entry.values.now p }
    {
        let grid = self.grid;
        let nx = grid.nx;
        let dx = p.x - grid.xmin;
        let dy = p.y - grid.ymin;
        let i = cell_of(dx, grid.h, nx);
        let j = cell_of(dy, grid.h, grid.ny);
        let tx = numbers::clamp_f64(dx / grid.h - numbers::to_f64(i), 0.0, 1.0);
        let ty = numbers::clamp_f64(dy / grid.h - numbers::to_f64(j), 0.0, 1.0);
        let id = j * nx + i;
        let p00 = outline_loops::point_at(self.values, id);
        let p10 = outline_loops::point_at(self.values, id + 1);
        let p01 = outline_loops::point_at(self.values, id + nx);
        let p11 = outline_loops::point_at(self.values, id + nx + 1);
        Point {
            x: weighed(tx, ty, p00.x, p10.x, p01.x, p11.x),
            y: weighed(tx, ty, p00.y, p10.y, p01.y, p11.y),
        }
    }
}

// Both divided by the norm of the pair.
#[tactic(auto, unfolding(crate::specs::Direction::scaled))]
fn scaled(a: f64, b: f64) -> Point
    ensures { result ≡ scaled a b }
{
    let n = geometry::norm(a, b);
    Point { x: a / n, y: b / n }
}

// Half the angle of v.
#[tactic(auto, unfolding(crate::specs::Direction::half))]
fn half(v: Point) -> Point
    ensures { result ≡ half v }
{
    let n = geometry::norm(v.x, v.y);
    if 0.0 <= v.x {
        return scaled(v.x + n, v.y);
    }
    let up = n - v.x;
    let side = numbers::abs_f64(v.y);
    if v.y < 0.0 {
        return scaled(side, -up);
    }
    scaled(side, up)
}

#[tactic(auto, unfolding(crate::specs::Direction::direction_of))]
fn direction_of(v: Point) -> Point
    ensures { result ≡ direction_of v }
{
    if geometry::norm(v.x, v.y) <= Settings::TOLERANCE {
        Point { x: 1.0, y: 0.0 }
    } else {
        half(half(v))
    }
}

#[tactic(auto, unfolding(crate::specs::Direction::dot))]
fn dot(u: Point, v: Point) -> f64
    ensures { result ≡ dot u v }
{
    u.x * v.x + u.y * v.y
}

// The other one where its dot product with the target is greater.
#[tactic(auto, unfolding(crate::specs::Direction::closer_of))]
fn closer_of(target: Point, best: Point, other: Point) -> Point
    ensures { result ≡ closer_of target best other }
{
    if dot(best, target) < dot(other, target) {
        other
    } else {
        best
    }
}

// Of the four directions of d the one closest to the target, the first of equals.
#[tactic(auto, unfolding(crate::specs::Direction::nearest_of))]
fn nearest_of(target: Point, d: Point) -> Point
    ensures { result ≡ nearest_of target d }
{
    let first = closer_of(target, d, Point { x: -d.y, y: d.x });
    let second = closer_of(target, first, Point { x: -d.x, y: -d.y });
    closer_of(target, second, Point { x: d.y, y: -d.x })
}

pub fn nearest_direction(field: CrossField<'_>, p: Point, target: Point) -> Point
    requires { FieldLent field.grid field.values.now }
    ensures { result ≡ direction_at field.entry.grid field.entry.values.now p target }
{
    nearest_of(target, direction_of(field.raw_at(p)))
}

#[tactic(auto, unfolding(crate::specs::Direction::direction_refusal), using(outline::proofs::Refused::first_refused))]
fn check_query(field: CrossField<'_>, marks: &[u8], p: Point) -> Result<(), Refusal>
    ensures { refused result ≡ direction_refusal (field_lent field.entry marks.now) p }
{
    check_record(field, marks)?;
    outline_loops::check_point(p)
}

// The direction query, refusals first.
#[tactic(auto, using(outline::proofs::Refused::refusal_some, outline::proofs::RefusalLaws::answer_refused, crate::proofs::RecordLaws::direction_lent), unfolding(crate::specs::Direction::direction_answer, crate::specs::Direction::nearest_direction))]
pub fn query_direction(
    field: CrossField<'_>,
    marks: &[u8],
    p: Point,
    target: Point,
) -> Result<Point, Refusal>
    ensures { numbered result ≡ direction_answer (field_lent field.entry marks.now) p target }
{
    check_query(field, marks, p)?;
    Ok(nearest_direction(field, p, target))
}
