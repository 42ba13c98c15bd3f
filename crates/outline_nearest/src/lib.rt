// `nearest_segment` of the outline by blocks (crate blocks): those no nearer to the point than the best so far are passed over. The answer is proved to be
// that of the definition in crate domain, which asks every segment.
#![tactic(auto)]

ghost use Rattle.std.specs.Prelude.{◌≡◌, true, ◌+◌, ◌*◌, ◌≤◌, ◌<◌, length};
ghost use Rattle.exact.specs.Units.{Within};
ghost use Rattle.outline.specs.Outline.{outline_of, points, most_points};
ghost use Rattle.outline.specs.Queries.{nearest_segment};
ghost use Rattle.outline.specs.Search.{search_turn, search_loop, search_from};
ghost use Rattle.outline_blocks.specs.Blocks.{for_between, reach, side_at, BlockThere, LoopDrawn, block_extent};
ghost use Rattle.outline_nearest.specs.Far.{moderate_bound, ModeratePoint, span_gap, is_far, is_passed};

use outline::{Near, Point, Search, Settings};
use outline_blocks::{BLOCK, DrawnOutline, Extent};

// A coordinate beyond this either way is too far out for the search by blocks.
const MODERATE: f64 = 1048576.0;

#[tactic(auto, unfolding(crate::specs::Far::span_gap))]
fn span_gap(x: f64, least: f64, most: f64) -> f64
    ensures { result ≡ span_gap x least most }
{
    if x < least {
        x - least
    } else if most < x {
        x - most
    } else {
        0.0
    }
}

// Whether no segment in the box is nearer to p than the best so far.
#[tactic(auto, unfolding(crate::specs::Far::is_far, crate::specs::Far::extent_squared))]
fn is_far(p: Point, e: Extent, squared: f64) -> bool
    ensures { result ≡ is_far p e squared }
{
    let dx = span_gap(p.x, e.xmin, e.xmax);
    let dy = span_gap(p.y, e.ymin, e.ymax);
    !(dx * dx + dy * dy < squared)
}

// Side d of the box of block b.
// Of a loop, the blocks and a number, here and below: whether a block is listed is asked first, and most blocks are
// passed over.
fn side(s: &[f64], blocks: &[u32], b: usize, d: usize) -> f64
    requires { BlockThere s.now blocks.now b × (d < 4) }
    ensures { result ≡ reach d s.now (side_at blocks.now b d) }
{
    outline_blocks::reach(d, s, blocks[4 * b + d] as usize)
}

fn block_extent(s: &[f64], blocks: &[u32], b: usize) -> Extent
    requires { BlockThere s.now blocks.now b }
    ensures { result ≡ block_extent s.now blocks.now b }
{
    Extent {
        xmin: side(s, blocks, b, 0),
        xmax: side(s, blocks, b, 1),
        ymin: side(s, blocks, b, 2),
        ymax: side(s, blocks, b, 3),
    }
}

// Whether block b is listed and no segment of it is nearer to p than the best so far.
#[tactic(auto, unfolding(crate::specs::Far::is_passed))]
fn is_passed(p: Point, s: &[f64], blocks: &[u32], b: usize, squared: f64) -> bool
    requires { (b ≤ 3 * most_points) × (4 * b + 3 < length blocks.now → BlockThere s.now blocks.now b) }
    ensures { result ≡ is_passed p s.now blocks.now b squared }
{
    outline_blocks::is_listed(blocks, b) && is_far(p, block_extent(s, blocks, b), squared)
}

// The search over the segments `from` up to `to` of a loop. To ask each one's box first would take longer than the division that it spares.
fn search_part(
    p: Point,
    s: &[f64],
    loop_index: usize,
    from: usize,
    to: usize,
    best: Search,
) -> Search
    requires { (from ≤ to) × (to ≤ points s.now) }
    ensures { result ≡ for_between from to (search_turn p s.now loop_index) best }
{
    (from..to).fold(best, |found, i| {
        let a = outline_loops::point_at(s, i);
        let b = outline_loops::point_after(s, i);
        outline_loops::search_segment(p, a, b, loop_index, i, found)
    })
}

// LIMITS.md, 3: a loop.
fn search_loop(
    p: Point,
    s: &[f64],
    loop_index: usize,
    blocks: &[u32],
    first: usize,
    best: Search,
) -> Search
    requires { LoopDrawn s.now blocks.now first × (first ≤ 2 * most_points) × (0 < length blocks.now → ModeratePoint p) }
    ensures { result ≡ search_loop p s.now loop_index best }
{
    let n = s.len() / 2;
    let mut found = best;
    for c in 0..n.div_ceil(BLOCK) {
        if !is_passed(p, s, blocks, first + c, found.squared) {
            let from = BLOCK * c;
            found = search_part(
                p,
                s,
                loop_index,
                from,
                outline_blocks::block_end(n, from),
                found,
            );
        }
    }
    found
}

// LIMITS.md, 3: a loop.
fn search_all(outline: DrawnOutline<'_>, p: Point, best: Search) -> Search
    requires { 0 < length outline.blocks.now → ModeratePoint p }
    ensures { result ≡ search_from (outline_of outline.entry.domain) p best }
{
    let DrawnOutline { domain, blocks, .. } = outline;
    let mut found = best;
    for each in outline_loops::loops_of(domain) {
        let first = outline_blocks::first_block(domain.outer, each.index, each.start);
        found = search_loop(p, each.points, each.index, blocks, first, found);
    }
    found
}

// `nearest_segment` of the outline, with no guess. Without blocks every segment is asked, and p may be anywhere.
pub fn search_outline(outline: DrawnOutline<'_>, p: Point) -> Near
    requires { 0 < length outline.blocks.now → ModeratePoint p }
    ensures { result ≡ nearest_segment (outline_of outline.entry.domain) p }
{
    search_all(outline, p, outline_loops::search_start()).near
}

// ---- from a guess

fn is_moderate(x: f64) -> bool
    ensures { result ≡ true → Within moderate_bound x }
{
    numbers::abs_at_most(x, MODERATE)
}

// Whether p is near enough for the search by blocks.
fn is_near(p: Point) -> bool
    ensures { result ≡ true → ModeratePoint p }
{
    is_moderate(p.x) && is_moderate(p.y)
}

// Slightly more than the squared distance of p from the segment guessed. The answer is the same with any other number, so nothing is promised of it.
fn limit(p: Point, guess: Near) -> f64 {
    outline_loops::squared_distance(p, outline_loops::foot_of(p, guess.a, guess.b)) * 1.000001
        + Settings::TOLERANCE
}

// `nearest_segment` of the outline. With a guess of a segment near p the search begins at its distance, so that most blocks are passed over. The guess may
// be anything: where nothing nearer than a little beyond it is found, the search begins anew without it.
pub fn nearest_segment(outline: DrawnOutline<'_>, p: Point, guess: Near) -> Near
    ensures { result ≡ nearest_segment (outline_of outline.entry.domain) p }
{
    if !is_near(p) {
        let plain = DrawnOutline {
            domain: outline.domain,
            blocks: &[],
        };
        return search_outline(plain, p);
    }
    let start = outline_loops::search_start();
    let squared = limit(p, guess);
    let guessed = Search {
        near: start.near,
        squared,
    };
    let near = search_all(outline, p, guessed).near;
    if near.distance < numbers::sqrt_f64(squared) {
        return near;
    }
    search_outline(outline, p)
}
