// An outline's loops and points, its refusals 1 to 4, and what `contains` and `nearest_segment` of src/two_d.rs's `Domain` do at one segment.
#![tactic(auto)]

ghost use Rattle.std.specs.Prelude.{◌≡◌, false, ◌+◌, ◌*◌, ◌<◌, eqb, length};
ghost use Rattle.outline.specs.Outline.{outline_of, hole_start, loop_at, LoopPlace, point_at, after, point_after, any_float, not_finite, beyond, misshapen};
ghost use Rattle.outline.specs.Outline.{loop_refusal, loops_refusal, outline_refusal, point_refusal};
ghost use Rattle.outline.specs.Refusals.{refused};
ghost use Rattle.std.specs.Iterator.{YieldsFirstBy, item_count};
ghost use Rattle.outline_loops.specs.Order.{lower_of, higher_of};
ghost use Rattle.outline_loops.specs.Holes.{placed, cut, hole_list, Filled};
ghost use Rattle.outline_loops.specs.Loops.{looped, loops_from, loop_list, LoopsAhead};
ghost use Rattle.outline.specs.Queries.{ray_crosses, squared_distance, foot_of};
ghost use Rattle.outline.specs.Search.{search_start, searched};

use outline::{Domain, Near, Point, Refusal, Search, Settings};

// ---- the refusals

fn is_not_finite(x: f64) -> bool
    ensures { result ≡ not_finite x }
{
    !numbers::is_finite_f64(x)
}

fn is_beyond(x: f64) -> bool
    ensures { result ≡ beyond x }
{
    numbers::abs_f64(x) > Settings::FARTHEST
}

// Whether the lengths add up to the total. They are taken off it one by one, so that no sum overflows.
// LIMITS.md, 4: a loop, and no `try_fold` with `checked_sub`.
fn add_up(lens: &[usize], total: usize) -> bool
    ensures { result ≡ eqb (hole_start lens.now (length lens.now)) total }
{
    let mut left = total;
    for &n in lens {
        if left < n {
            return false;
        }
        left -= n;
    }
    left == 0
}

// Refusal 1.
#[tactic(auto, unfolding(outline::specs::Outline::misshapen))]
fn is_misshapen(domain: Domain<'_>) -> bool
    ensures { result ≡ misshapen (outline_of domain.entry) }
{
    domain.outer.len() % 2 == 1
        || domain.holes.len() % 2 == 1
        || !add_up(domain.lens, domain.holes.len() / 2)
        || domain.outer.len() / 2 + domain.holes.len() / 2 > Settings::MOST_POINTS
}

// Refusals 2 and 3 of one loop.
#[tactic(auto, unfolding(outline::specs::Outline::loop_refusal, outline::specs::Outline::any_float), using(laws::proofs::Lists::any_list))]
fn check_loop(s: &[f64]) -> Result<(), Refusal>
    ensures { refused result ≡ loop_refusal s.now }
{
    if s.len() / 2 < 3 {
        return Err(Refusal::ShortLoop);
    }
    if s.iter().any(|&x| is_not_finite(x)) {
        return Err(Refusal::NotFinite);
    }
    Ok(())
}

// A hole of an outline: its index, how many hole points stand before it, and its coordinates.
#[derive(Clone, Copy)]
pub struct Hole<'a> {
    pub index: usize,
    pub start: usize,
    pub points: &'a [f64],
}

// The holes of an outline, one after another.
#[derive(Clone, Copy)]
pub struct Holes<'a> {
    index: usize,
    start: usize,
    points: &'a [f64],
    lens: &'a [usize],
    ghost filled: { Filled index start lens.now points.now },
}

impl<'a> Iterator for Holes<'a> {
    type Item = Hole<'a>;

    ghost next_gives = { YieldsFirstBy placed (λ s. cut s.index s.start s.lens.now s.points.now) };

    ghost remaining = { item_count (λ s. cut s.index s.start s.lens.now s.points.now) };

    fn next(&mut self) -> Option<Hole<'a>> {
        let (n, lens) = self.lens.split_first()?;
        let (points, others) = self.points.split_at(2 * *n);
        let hole = Hole {
            index: self.index,
            start: self.start,
            points,
        };
        *self = Holes {
            index: self.index + 1,
            start: self.start + *n,
            points: others,
            lens,
        };
        Some(hole)
    }
}

pub fn holes_of<'a>(domain: Domain<'a>) -> Holes<'a>
    requires { misshapen (outline_of domain) ≡ false }
    ensures { cut result.index result.start result.lens.now result.points.now ≡ hole_list (outline_of domain.entry) }
{
    Holes {
        index: 0,
        start: 0,
        points: domain.holes,
        lens: domain.lens,
    }
}

// The points of loop k, a part of one of the two slices: loop 0 is the outer one, and `start` hole points stand before loop k.
pub fn loop_points<'a>(domain: Domain<'a>, k: usize, start: usize) -> &'a [f64]
    requires { LoopPlace (outline_of domain) k start }
    ensures { result.now ≡ loop_at (outline_of domain.entry) k }
{
    if k == 0 {
        return domain.outer;
    }
    let from = 2 * start;
    let to = from + 2 * domain.lens[k - 1];
    &domain.holes[from..to]
}

// A hole's index is its place among the lengths, and the definitions (`hole_at`, `in_hole`) go by that; so `Hole` has
// these fields too.
// A loop of an outline: 0 for the outer one and k + 1 for hole k, how many hole points stand before it, and its coordinates.
#[derive(Clone, Copy)]
pub struct Loop<'a> {
    pub index: usize,
    pub start: usize,
    pub points: &'a [f64],
}

// The loops of an outline from the one with this index on, before which so many hole points stand; the outer one is the first.
#[derive(Clone, Copy)]
pub struct Loops<'a> {
    domain: Domain<'a>,
    index: usize,
    start: usize,
    ghost ahead: { LoopsAhead (outline_of domain) index start },
}

impl<'a> Iterator for Loops<'a> {
    type Item = Loop<'a>;

    ghost next_gives = { YieldsFirstBy looped (λ s. loops_from (outline_of s.domain) s.index) };

    ghost remaining = { item_count (λ s. loops_from (outline_of s.domain) s.index) };

    fn next(&mut self) -> Option<Loop<'a>> {
        let domain = self.domain;
        let index = self.index;
        let start = self.start;
        if index > domain.lens.len() {
            return None;
        }
        let each = Loop {
            index,
            start,
            points: loop_points(domain, index, start),
        };
        let passed = if index == 0 {
            0
        } else {
            domain.lens[index - 1]
        };
        *self = Loops {
            domain,
            index: index + 1,
            start: start + passed,
        };
        Some(each)
    }
}

pub fn loops_of<'a>(domain: Domain<'a>) -> Loops<'a>
    requires { misshapen (outline_of domain) ≡ false }
    ensures { loops_from (outline_of result.domain) result.index ≡ loop_list (outline_of domain.entry) }
{
    Loops {
        domain,
        index: 0,
        start: 0,
    }
}

// Refusals 2 and 3, loop by loop.
fn check_loops(domain: Domain<'_>) -> Result<(), Refusal>
    requires { misshapen (outline_of domain) ≡ false }
    ensures { refused result ≡ loops_refusal (outline_of domain.entry) }
{
    for each in loops_of(domain) {
        check_loop(each.points)?;
    }
    Ok(())
}

// Refusals 1 to 4.
#[tactic(auto, unfolding(outline::specs::Outline::outline_refusal, outline::specs::Outline::far_refusal), using(outline::proofs::Refused::first_refused))]
pub fn check_outline(domain: Domain<'_>) -> Result<(), Refusal>
    ensures { refused result ≡ outline_refusal (outline_of domain.entry) }
{
    if is_misshapen(domain) {
        return Err(Refusal::Lists);
    }
    check_loops(domain)?;
    if domain.outer.iter().any(|&x| is_beyond(x)) || domain.holes.iter().any(|&x| is_beyond(x)) {
        return Err(Refusal::TooFar);
    }
    Ok(())
}

// Refusals 3 and 4 of a query's point.
#[tactic(auto, unfolding(outline::specs::Outline::point_refusal))]
pub fn check_point(p: Point) -> Result<(), Refusal>
    ensures { refused result ≡ point_refusal p }
{
    if is_not_finite(p.x) || is_not_finite(p.y) {
        return Err(Refusal::NotFinite);
    }
    if is_beyond(p.x) || is_beyond(p.y) {
        return Err(Refusal::TooFar);
    }
    Ok(())
}

// ---- points, and `contains` at one segment

#[tactic(auto, unfolding(outline::specs::Outline::point_at))]
pub fn point_at(s: &[f64], i: usize) -> Point
    requires { 2 * i + 1 < length s.now }
    ensures { result ≡ point_at s.now i }
{
    Point {
        x: s[2 * i],
        y: s[2 * i + 1],
    }
}

// The index after i among n, in a ring.
pub fn after(n: usize, i: usize) -> usize
    requires { i < n }
    ensures { (result ≡ after n i) × (result < n) }
{
    if i + 1 < n { i + 1 } else { 0 }
}

#[tactic(auto, unfolding(outline::specs::Outline::point_after))]
pub fn point_after(s: &[f64], i: usize) -> Point
    requires { 2 * i + 1 < length s.now }
    ensures { result ≡ point_after s.now i }
{
    point_at(s, after(s.len() / 2, i))
}

// Two ends, here and below, as the definitions name them one by one.
#[tactic(auto, unfolding(outline::specs::Queries::ray_crosses))]
pub fn ray_crosses(p: Point, a: Point, b: Point) -> bool
    ensures { result ≡ ray_crosses p a b }
{
    (a.y > p.y) != (b.y > p.y) && p.x < a.x + (p.y - a.y) / (b.y - a.y) * (b.x - a.x)
}

// ---- the lower and the higher of two numbers, neither of which is a NaN

// One instruction tells them apart, here and below; `min_f64` and `max_f64` ask for a NaN first (docs/DECISIONS.md,
// "Blocks of the outline").
pub fn lower_of(x: f64, y: f64) -> f64
    ensures { result ≡ lower_of x y }
{
    if y < x { y } else { x }
}

pub fn higher_of(x: f64, y: f64) -> f64
    ensures { result ≡ higher_of x y }
{
    if x < y { y } else { x }
}

// ---- `nearest_segment` at one segment

#[tactic(auto, unfolding(outline::specs::Queries::squared_distance))]
pub fn squared_distance(p: Point, q: Point) -> f64
    ensures { result ≡ squared_distance p q }
{
    let dx = p.x - q.x;
    let dy = p.y - q.y;
    dx * dx + dy * dy
}

// The point of the segment a to b that is next to p.
#[tactic(auto, unfolding(outline::specs::Queries::foot_of))]
pub fn foot_of(p: Point, a: Point, b: Point) -> Point
    ensures { result ≡ foot_of p a b }
{
    let abx = b.x - a.x;
    let aby = b.y - a.y;
    let length2 = abx * abx + aby * aby;
    if length2 <= 0.0 {
        return a;
    }
    let t = numbers::clamp_f64(((p.x - a.x) * abx + (p.y - a.y) * aby) / length2, 0.0, 1.0);
    Point {
        x: a.x + t * abx,
        y: a.y + t * aby,
    }
}

// One segment of the search: the root is taken only where the square beats the best one's.
#[tactic(auto, unfolding(outline::specs::Search::searched))]
pub fn search_segment(
    p: Point,
    a: Point,
    b: Point,
    loop_index: usize,
    segment_index: usize,
    best: Search,
) -> Search
    ensures { result ≡ searched p a b loop_index segment_index best }
{
    let squared = squared_distance(p, foot_of(p, a, b));
    if squared < best.squared {
        let distance = numbers::sqrt_f64(squared);
        if distance < best.near.distance {
            let near = Near {
                a,
                b,
                distance,
                loop_index,
                segment_index,
            };
            return Search { near, squared };
        }
    }
    best
}

pub fn search_start() -> Search
    ensures { result ≡ search_start }
{
    let origin = Point { x: 0.0, y: 0.0 };
    let near = Near {
        a: origin,
        b: origin,
        distance: f64::INFINITY,
        loop_index: 0,
        segment_index: 0,
    };
    Search {
        near,
        squared: f64::INFINITY,
    }
}
