// Blocks of the outline's segments, so that a search passes over those that can't matter; and `contains` by blocks, whose answer is proved to be that of the
// definition in crate domain, which asks every segment. The lent list may have any length: a block that it doesn't have is looked through.
#![tactic(auto)]

ghost use Rattle.std.specs.Prelude.{◌≡◌, ◌+◌, ◌*◌, ◌≤◌, ◌<◌, length};
ghost use Rattle.laws.specs.Loop.{any_up};
ghost use Rattle.outline.specs.Outline.{outline_of, points, most_points, outline_refusal};
ghost use Rattle.outline.specs.Queries.{polygon_turn, point_in_polygon, in_hole, contains};
ghost use Rattle.outline_loops.specs.Holes.{HolePlace};
ghost use Rattle.outline_blocks.specs.Blocks.{for_between, coordinate_of_side, reach, is_farther, Farthest, block_end, is_listed, BlockThere, BlockFiles, LoopFiles};
ghost use Rattle.outline_blocks.specs.Blocks.{LoopDrawn, first_block_at, Drawn, block_extent, ray_misses};

use outline::{Domain, Point};
use outline_loops::Hole;

// A box round segments.
#[derive(Clone, Copy)]
pub struct Extent {
    pub xmin: f64,
    pub xmax: f64,
    pub ymin: f64,
    pub ymax: f64,
}

// An outline that isn't refused, with its blocks.
#[derive(Clone, Copy)]
pub struct DrawnOutline<'a> {
    pub domain: Domain<'a>,
    pub blocks: &'a [u32],
    ghost drawn: { Drawn (outline_of domain) blocks.now },
}

// How many segments a block has at most.
pub const BLOCK: usize = 16;

// ---- how far segments reach

// The coordinate that side d bounds.
// A side is a number, here, below and in `outline_nearest`: it is also its place among the four numbers of a block,
// and the lent list has these flat.
fn coordinate_of_side(d: usize, p: Point) -> f64
    ensures { result ≡ coordinate_of_side d p }
{
    if d < 2 { p.x } else { p.y }
}

// On the sides 0, least x; 1, greatest x; 2, least y; 3, greatest y.
#[tactic(auto, unfolding(crate::specs::Blocks::reach_of))]
pub fn reach(d: usize, s: &[f64], i: usize) -> f64
    requires { 2 * i + 1 < length s.now }
    ensures { result ≡ reach d s.now i }
{
    let u = coordinate_of_side(d, outline_loops::point_at(s, i));
    let v = coordinate_of_side(d, outline_loops::point_after(s, i));
    let w = u + (v - u);
    if d % 2 == 1 {
        outline_loops::higher_of(outline_loops::higher_of(u, v), w)
    } else {
        outline_loops::lower_of(outline_loops::lower_of(u, v), w)
    }
}

#[tactic(auto, unfolding(crate::specs::Blocks::is_farther))]
fn is_farther(d: usize, x: f64, y: f64) -> bool
    ensures { result ≡ is_farther d x y }
{
    if d % 2 == 1 { y < x } else { x < y }
}

// ---- filing

pub fn block_end(n: usize, from: usize) -> usize
    requires { from ≤ most_points }
    ensures { result ≡ block_end n from }
{
    (from + BLOCK).min(n)
}

// Of the segments `from` up to `to` one that reaches farthest out on side d.
fn farthest(d: usize, s: &[f64], from: usize, to: usize) -> u32
    requires { (from < to) × (to ≤ points s.now) × (points s.now ≤ most_points) }
    ensures { Farthest s.now d from to result }
{
    (from + 1..to).fold(
        from,
        |far, i|
            requires { (far < points s.now) × (i < points s.now) }
        {
            if is_farther(d, reach(d, s, i), reach(d, s, far)) {
                i
            } else {
                far
            }
        },
    ) as u32
}

// The number of the first block of loop k, before which `start` hole points stand.
pub fn first_block(outer: &[f64], k: usize, start: usize) -> usize
    requires { (points outer.now ≤ most_points) × (start ≤ most_points) × (k ≤ most_points) }
    ensures { result ≡ first_block_at outer.now k start }
{
    if k == 0 {
        return 0;
    }
    (outer.len() / 2 + start) / BLOCK + k
}

// Whether the list has the numbers of block b.
pub fn is_listed(blocks: &[u32], b: usize) -> bool
    requires { b ≤ 3 * most_points }
    ensures { result ≡ is_listed blocks.now b }
{
    4 * b + 3 < blocks.len()
}

// The four numbers of block b, which begins with segment `from`.
fn file_block(s: &[f64], from: usize, b: usize, blocks: &mut [u32])
    requires { (from < points s.now) × (points s.now ≤ most_points) × (4 * b + 3 < length blocks.old) }
    ensures { BlockFiles s.now blocks.old blocks.new b from }
{
    let to = block_end(s.len() / 2, from);
    let xmin = farthest(0, s, from, to);
    let xmax = farthest(1, s, from, to);
    let ymin = farthest(2, s, from, to);
    let ymax = farthest(3, s, from, to);
    let at = 4 * b;
    blocks[at] = xmin;
    blocks[at + 1] = xmax;
    blocks[at + 2] = ymin;
    blocks[at + 3] = ymax;
}

// The blocks of a loop, the first of which has the number `first`, as far as the list goes.
fn file_loop(s: &[f64], first: usize, blocks: &mut [u32])
    requires { (points s.now ≤ most_points) × (first ≤ 2 * most_points) }
    ensures { LoopFiles s.now blocks.old blocks.new first }
{
    for c in 0..(s.len() / 2).div_ceil(BLOCK) {
        if is_listed(blocks, first + c) {
            file_block(s, BLOCK * c, first + c, blocks);
        }
    }
}

// The blocks of an outline that isn't refused.
pub fn file(domain: Domain<'_>, blocks: &mut [u32])
    requires { outline_refusal (outline_of domain) ≡ 0 }
    ensures { Drawn (outline_of domain.entry) blocks.new }
{
    for each in outline_loops::loops_of(domain) {
        let first = first_block(domain.outer, each.index, each.start);
        file_loop(each.points, first, blocks);
    }
}

// ---- `contains`

// Whether the ray from p can't change sides at a segment of block b. The heights are asked first: most blocks are above p or below it.
#[tactic(auto, unfolding(crate::specs::Blocks::ray_misses))]
fn ray_misses(p: Point, s: &[f64], blocks: &[u32], b: usize) -> bool
    requires { BlockThere s.now blocks.now b }
    ensures { result ≡ ray_misses p (block_extent s.now blocks.now b) }
{
    let at = 4 * b;
    p.y < reach(2, s, blocks[at + 2] as usize)
        || !(p.y < reach(3, s, blocks[at + 3] as usize))
        || !(p.x < reach(1, s, blocks[at + 1] as usize))
}

// Whether p's side, so far, changes with the segments `from` up to `to`.
// A fold over the segments' numbers, as `outline_nearest::search_part` and `farthest` are: the search and `farthest`
// answer the number.
fn crossings(p: Point, s: &[f64], from: usize, to: usize, inside: bool) -> bool
    requires { (from ≤ to) × (to ≤ points s.now) }
    ensures { result ≡ for_between from to (polygon_turn p s.now) inside }
{
    (from..to).fold(
        inside,
        |odd, i| odd
            ^ outline_loops::ray_crosses(
                p,
                outline_loops::point_at(s, i),
                outline_loops::point_after(s, i),
            ),
    )
}

// LIMITS.md, 3: a loop, as `outline_nearest::search_loop` is, and no fold.
fn point_in_polygon(p: Point, s: &[f64], blocks: &[u32], first: usize) -> bool
    requires { LoopDrawn s.now blocks.now first × (first ≤ 2 * most_points) }
    ensures { result ≡ point_in_polygon p s.now }
{
    let n = s.len() / 2;
    let mut inside = false;
    for c in 0..n.div_ceil(BLOCK) {
        if !(is_listed(blocks, first + c) && ray_misses(p, s, blocks, first + c)) {
            inside = crossings(p, s, BLOCK * c, block_end(n, BLOCK * c), inside);
        }
    }
    inside
}

impl DrawnOutline<'_> {
    // Whether p is inside the hole.
    fn is_in_hole(self, p: Point, hole: Hole<'_>) -> bool
        requires { HolePlace (outline_of self.domain) hole.index hole }
        ensures { result ≡ point_in_polygon p hole.entry.points.now }
    {
        let first = first_block(self.domain.outer, hole.index + 1, hole.start);
        point_in_polygon(p, hole.points, self.blocks, first)
    }

    fn in_some_hole(self, p: Point) -> bool
        ensures { result ≡ any_up (length self.entry.domain.lens.now) (in_hole (outline_of self.entry.domain) p) }
    {
        outline_loops::holes_of(self.domain).any(|hole| self.is_in_hole(p, hole))
    }

    // `contains` of the outline.
    #[tactic(auto, unfolding(outline::specs::Queries::contains))]
    pub fn contains_point(self, p: Point) -> bool
        ensures { result ≡ contains (outline_of self.entry.domain) p }
    {
        point_in_polygon(p, self.domain.outer, self.blocks, 0) && !self.in_some_hole(p)
    }
}
