// Keys as numbers, and their rectangles: under which keys nodes and edges are filed, and those that a query goes through.
#![tactic(auto)]

ghost use Rattle.std.specs.Prelude.{◌≡◌};
ghost use Rattle.index_key_rects.specs.Rects.{shifted, rect_of, rect_at, rect_around, rect_empty, node_rect, edge_rect};

use geometry::{Key, KeyRect};
use index_pools::Rect;
use outline::Point;

// A key from -2^20 to 2^20, moved up by 2^20 + 2; one beyond is taken for the nearest of these.
fn shifted(k: i64) -> u32
    ensures { result ≡ shifted k }
{
    (k.clamp(-1048576, 1048576) + 1048578) as u32
}

// The rectangle of shifted keys, where one of keys is given.
pub fn rect_of(r: KeyRect) -> Rect
    ensures { result ≡ rect_of r.k r.l }
{
    let ki = shifted(r.k.i);
    let li = shifted(r.l.i);
    let kj = shifted(r.k.j);
    let lj = shifted(r.l.j);
    Rect {
        left: ki.min(li),
        right: ki.max(li),
        low: kj.min(lj),
        high: kj.max(lj),
    }
}

// A key's own rectangle.
pub fn rect_at(k: Key) -> Rect
    ensures { result ≡ rect_at k }
{
    let i = shifted(k.i);
    let j = shifted(k.j);
    Rect {
        left: i,
        right: i,
        low: j,
        high: j,
    }
}

// Two keys each way.
pub fn rect_around(k: Key) -> Rect
    ensures { result ≡ rect_around k }
{
    let i = shifted(k.i);
    let j = shifted(k.j);
    Rect {
        left: i - 2,
        right: i + 2,
        low: j - 2,
        high: j + 2,
    }
}

// No key.
// A rectangle with no columns and no rows, which filing and walks go over without a question.
fn rect_empty() -> Rect
    ensures { result ≡ rect_empty }
{
    Rect {
        left: 1,
        right: 0,
        low: 1,
        high: 0,
    }
}

// Under which keys a node is filed.
pub fn node_rect(size: f64, p: Point) -> Rect
    ensures { result ≡ node_rect size p }
{
    rect_at(geometry::key_of(size, p))
}

// Under which keys the edge c to d is filed: none where its spans are above 4,096, which makes it no candidate for any query.
pub fn edge_rect(size: f64, c: Point, d: Point) -> Rect
    ensures { result ≡ edge_rect size c d }
{
    let r = KeyRect::of(2.0 * size, c, d);
    if r.spans_kept() {
        rect_of(r)
    } else {
        rect_empty()
    }
}
