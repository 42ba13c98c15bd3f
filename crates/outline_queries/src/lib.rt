// The queries `contains`, `nearest_segment` and `distance_to_boundary`, refusals first, and their entries: what a host calls, on numbers and slices. None has
// a `requires`, and none writes what is lent. A query files no blocks: it asks every segment once.
#![tactic(auto)]

ghost use Rattle.std.specs.Prelude.{◌≡◌};
ghost use Rattle.outline.specs.Outline.{outline, outline_of, point, query_refusal};
ghost use Rattle.outline.specs.Refusals.{refused, numbered};
ghost use Rattle.outline_queries.specs.Answers.{contains_answer, nearest_answer, distance_answer, contains_numbers, NearestGiven, distance_numbers};

use outline::{Domain, Near, Point, Refusal};
use outline_blocks::DrawnOutline;

// `refusal` is the refusal's number, 0 where nothing is refused. The values of a refused query are false, 0.0 or 0.
#[repr(C)]
#[derive(Clone, Copy, Default)]
pub struct ContainsAnswer {
    pub refusal: u32,
    pub inside: bool,
}

#[repr(C)]
#[derive(Clone, Copy, Default)]
pub struct NearestAnswer {
    pub refusal: u32,
    pub ax: f64,
    pub ay: f64,
    pub bx: f64,
    pub by: f64,
    pub distance: f64,
    pub loop_index: usize,
    pub segment_index: usize,
}

#[repr(C)]
#[derive(Clone, Copy, Default)]
pub struct DistanceAnswer {
    pub refusal: u32,
    pub distance: f64,
}

// ---- the queries, refusals first

#[tactic(auto, unfolding(outline::specs::Outline::query_refusal), using(outline::proofs::Refused::first_refused))]
fn check_query(domain: Domain<'_>, p: Point) -> Result<(), Refusal>
    ensures { refused result ≡ query_refusal (outline_of domain.entry) p }
{
    outline_loops::check_outline(domain)?;
    outline_loops::check_point(p)
}

// Each of the two is its check and its search.
#[tactic(auto, unfolding(crate::specs::Answers::contains_answer), using(outline::proofs::Refused::refused_answer))]
pub fn query_contains(domain: Domain<'_>, p: Point) -> Result<bool, Refusal>
    ensures { numbered result ≡ contains_answer (outline_of domain.entry) p }
{
    check_query(domain, p)?;
    let plain = DrawnOutline {
        domain,
        blocks: &[],
    };
    Ok(plain.contains_point(p))
}

#[tactic(auto, unfolding(crate::specs::Answers::nearest_answer), using(outline::proofs::Refused::refused_answer))]
pub fn query_nearest(domain: Domain<'_>, p: Point) -> Result<Near, Refusal>
    ensures { numbered result ≡ nearest_answer (outline_of domain.entry) p }
{
    check_query(domain, p)?;
    let plain = DrawnOutline {
        domain,
        blocks: &[],
    };
    Ok(outline_nearest::search_outline(plain, p))
}

#[tactic(auto, using(crate::proofs::Mapped::distance_found, crate::proofs::Mapped::distance_refused))]
pub fn query_distance(domain: Domain<'_>, p: Point) -> Result<f64, Refusal>
    ensures { numbered result ≡ distance_answer (outline_of domain.entry) p }
{
    query_nearest(domain, p).map(|near| near.distance)
}

// ---- the entries

// Whether the point is inside the outer loop and outside every hole.
#[unsafe(no_mangle)]
#[tactic(auto, unfolding(crate::specs::Answers::contains_numbers))]
pub extern "C" fn sitjorbe_contains<'a>(
    outer: &'a [f64],
    holes: &'a [f64],
    hole_lengths: &[usize],
    x: f64,
    y: f64,
) -> ContainsAnswer
    ensures { result ≡ contains_numbers (contains_answer (outline outer.now holes.now hole_lengths.now) (point x y)) }
{
    let domain = Domain {
        outer,
        holes,
        lens: hole_lengths,
    };
    match query_contains(domain, Point { x, y }) {
        Err(refusal) => ContainsAnswer {
            refusal: u32::from(refusal),
            ..ContainsAnswer::default()
        },
        Ok(inside) => ContainsAnswer { refusal: 0, inside },
    }
}

// The segment of the outline nearest to the point, from a to b, and its distance; its loop, 0 for the outer one, and its place there.
#[unsafe(no_mangle)]
pub extern "C" fn sitjorbe_nearest_segment<'a>(
    outer: &'a [f64],
    holes: &'a [f64],
    hole_lengths: &[usize],
    x: f64,
    y: f64,
) -> NearestAnswer
    ensures { NearestGiven (outline outer.now holes.now hole_lengths.now) (point x y) result }
{
    let domain = Domain {
        outer,
        holes,
        lens: hole_lengths,
    };
    match query_nearest(domain, Point { x, y }) {
        Err(refusal) => NearestAnswer {
            refusal: u32::from(refusal),
            ..NearestAnswer::default()
        },
        Ok(near) => NearestAnswer {
            refusal: 0,
            ax: near.a.x,
            ay: near.a.y,
            bx: near.b.x,
            by: near.b.y,
            distance: near.distance,
            loop_index: near.loop_index,
            segment_index: near.segment_index,
        },
    }
}

// The distance from the point to the nearest segment of the outline.
#[unsafe(no_mangle)]
#[tactic(auto, unfolding(crate::specs::Answers::distance_numbers))]
pub extern "C" fn sitjorbe_distance_to_boundary<'a>(
    outer: &'a [f64],
    holes: &'a [f64],
    hole_lengths: &[usize],
    x: f64,
    y: f64,
) -> DistanceAnswer
    ensures { result ≡ distance_numbers (distance_answer (outline outer.now holes.now hole_lengths.now) (point x y)) }
{
    let domain = Domain {
        outer,
        holes,
        lens: hole_lengths,
    };
    match query_distance(domain, Point { x, y }) {
        Err(refusal) => DistanceAnswer {
            refusal: u32::from(refusal),
            ..DistanceAnswer::default()
        },
        Ok(distance) => DistanceAnswer {
            refusal: 0,
            distance,
        },
    }
}
