ghost use Rattle.field_directions.specs.Directions.{record_lent, DirectionsGiven};

// Of the field's four directions at each point the one nearest to its target, which may be any two floats: three floats a point, 0 and the direction, or
// the number of what refuses the point and two zeros. Nothing is written where the whole list is refused.
#[unsafe(no_mangle)]
pub extern "C" fn sitjorbe_directions(
    xmin: f64,
    ymin: f64,
    h: f64,
    nx: usize,
    ny: usize,
    values: &[f64],
    marks: &[u8],
    points: &[f64],
    targets: &[f64],
    answers: &mut [f64],
) -> u32
    ensures { DirectionsGiven (record_lent xmin ymin h nx ny values.now marks.now) points.now
        targets.now answers.old result answers.new }
{
    field_directions::sitjorbe_directions(
        xmin, ymin, h, nx, ny, values, marks, points, targets, answers,
    )
}
