ghost use Rattle.std.specs.Prelude.{◌≡◌};
ghost use Rattle.outline.specs.Outline.{outline, point};
ghost use Rattle.outline_queries.specs.Answers.{contains_answer, distance_answer, contains_numbers, NearestGiven, distance_numbers};

use outline_queries::{ContainsAnswer, DistanceAnswer, NearestAnswer};

// Whether the point is inside the outer loop and outside every hole.
#[unsafe(no_mangle)]
pub extern "C" fn sitjorbe_contains<'a>(
    outer: &'a [f64],
    holes: &'a [f64],
    hole_lengths: &[usize],
    x: f64,
    y: f64,
) -> ContainsAnswer
    ensures { result ≡ contains_numbers (contains_answer (outline outer.now holes.now hole_lengths.now) (point x y)) }
{
    outline_queries::sitjorbe_contains(outer, holes, hole_lengths, x, y)
}

// The segment of the outline nearest to the point, from a to b, and its distance; its loop, 0 for the outer one, and its place there.
#[unsafe(no_mangle)]
pub extern "C" fn sitjorbe_nearest_segment<'a>(
    outer: &'a [f64],
    holes: &'a [f64],
    hole_lengths: &[usize],
    x: f64,
    y: f64,
) -> NearestAnswer
    ensures { NearestGiven (outline outer.now holes.now hole_lengths.now) (point x y) result }
{
    outline_queries::sitjorbe_nearest_segment(outer, holes, hole_lengths, x, y)
}

// The distance from the point to the nearest segment of the outline.
#[unsafe(no_mangle)]
pub extern "C" fn sitjorbe_distance_to_boundary<'a>(
    outer: &'a [f64],
    holes: &'a [f64],
    hole_lengths: &[usize],
    x: f64,
    y: f64,
) -> DistanceAnswer
    ensures { result ≡ distance_numbers (distance_answer (outline outer.now holes.now hole_lengths.now) (point x y)) }
{
    outline_queries::sitjorbe_distance_to_boundary(outer, holes, hole_lengths, x, y)
}
