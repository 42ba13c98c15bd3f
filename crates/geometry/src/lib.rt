// The geometry tests of src/alt_crossfield.rs, and the keys that replace its two indexes. Each function equals its definition on every input.
#![tactic(auto)]

ghost use Rattle.std.specs.Prelude.{◌≡◌, if◌then◌else◌, Float};
ghost use Rattle.exact.specs.Corner.{norm};
ghost use Rattle.geometry.specs.Plane.{distance, tangent, area_term, cross2, doubled_area, left_of, point_in_convex, on_segment, opposite};
ghost use Rattle.geometry.specs.Plane.{touches, segments_cross, centroid, convex_ccw};
ghost use Rattle.geometry.specs.Sides.{side_of, turn_ok};
ghost use Rattle.geometry.specs.LeftTurns.{no_left_turn, lacks_left_turn, corners_turn};
ghost use Rattle.geometry.specs.Keys.{key_of, rect_between, spans_of, spans_kept, ranges_meet, rectangles_meet, candidate_at};
ghost use Rattle.geometry.specs.Keys.{is_candidate, near_keys, too_close_at, is_too_close, picked, lowest, highest, between, in_box_at, is_in_box};

use outline::{Point, Settings};

// The corners of a quad, in the order in which it runs.
#[derive(Clone, Copy)]
pub struct Corners {
    pub a: Point,
    pub b: Point,
    pub d: Point,
    pub c: Point,
}

// `(i64, i64)`
#[derive(Clone, Copy)]
pub struct Key {
    pub i: i64,
    pub j: i64,
}

// The rectangle of keys with the opposite corners k and l, either first.
#[derive(Clone, Copy)]
pub struct KeyRect {
    pub k: Key,
    pub l: Key,
}

// How far a key rectangle reaches, each way.
#[derive(Clone, Copy)]
struct Spans {
    i: u64,
    j: u64,
}

// A side of a quad: the step along it, and its length.
#[derive(Clone, Copy)]
struct Side {
    x: f64,
    y: f64,
    length: f64,
}

// ---- lengths

// The root of x·x + y·y.
#[tactic(auto, unfolding(exact::specs::Corner::norm))]
pub fn norm(x: f64, y: f64) -> f64
    ensures { result ≡ norm x y }
{
    numbers::sqrt_f64(x * x + y * y)
}

#[tactic(auto, unfolding(crate::specs::Plane::distance))]
pub fn distance(a: Point, b: Point) -> f64
    ensures { result ≡ distance a b }
{
    norm(a.x - b.x, a.y - b.y)
}

// The direction from a to b: (1, 0) for a segment no longer than 1e-12.
#[tactic(auto, unfolding(crate::specs::Plane::tangent))]
pub fn tangent(a: Point, b: Point) -> Point
    ensures { result ≡ tangent a b }
{
    let dx = b.x - a.x;
    let dy = b.y - a.y;
    let length = norm(dx, dy);
    if length <= Settings::TOLERANCE {
        Point { x: 1.0, y: 0.0 }
    } else {
        Point {
            x: dx / length,
            y: dy / length,
        }
    }
}

// ---- orientation

// The summand of an area, doubled, of the side a to b.
#[tactic(auto, unfolding(crate::specs::Plane::area_term))]
pub fn area_term(a: Point, b: Point) -> f64
    ensures { result ≡ area_term a b }
{
    a.x * b.y - b.x * a.y
}

// Twice the signed area of the triangle a, b, c.
// Three points, here and below, as the definitions name them one by one.
#[tactic(auto, unfolding(crate::specs::Plane::cross2))]
pub fn cross2(a: Point, b: Point, c: Point) -> f64
    ensures { result ≡ cross2 a b c }
{
    (b.x - a.x) * (c.y - a.y) - (b.y - a.y) * (c.x - a.x)
}

#[tactic(auto, unfolding(crate::specs::Plane::doubled_area))]
pub fn doubled_area(p: Corners) -> f64
    ensures { result ≡ doubled_area p }
{
    let Corners { a, b, d, c } = p;
    0.0 + area_term(a, b) + area_term(b, d) + area_term(d, c) + area_term(c, a)
}

// ---- the quad's corners

// The side a to b.
fn side_of(a: Point, b: Point) -> Side
    ensures { result ≡ side_of a b }
{
    let x = b.x - a.x;
    let y = b.y - a.y;
    let length = norm(x, y);
    Side { x, y, length }
}

// One corner of `convex_ccw`, where u ends and v starts: both sides above 1e-12, and the sine of the turn above sin 20°.
#[tactic(auto, unfolding(crate::specs::Sides::turn_ok))]
fn turns(u: Side, v: Side) -> bool
    ensures { result ≡ turn_ok u v }
{
    if u.length <= Settings::TOLERANCE || v.length <= Settings::TOLERANCE {
        return false;
    }
    let sine = (u.x * v.y - u.y * v.x) / (u.length * v.length);
    !(sine <= Settings::LEAST_SINE)
}

// Whether the corner b, from a to c, is seen to fail without a length: the cross product of its steps is finite and not above 0.
#[tactic(auto, unfolding(crate::specs::LeftTurns::no_left_turn))]
fn no_left_turn(a: Point, b: Point, c: Point) -> bool
    ensures { result ≡ no_left_turn a b c }
{
    let cross = (b.x - a.x) * (c.y - b.y) - (b.y - a.y) * (c.x - b.x);
    cross <= 0.0 && numbers::is_finite_f64(cross)
}

// Whether a corner of the quad is seen to fail without a length.
#[tactic(auto, unfolding(crate::specs::LeftTurns::lacks_left_turn))]
fn lacks_left_turn(p: Corners) -> bool
    ensures { result ≡ lacks_left_turn p }
{
    let Corners { a, b, d, c } = p;
    no_left_turn(c, a, b) || no_left_turn(a, b, d) || no_left_turn(b, d, c) || no_left_turn(d, c, a)
}

// The side a to b, where the corner at which u ends and it starts turns.
#[tactic(auto, unfolding(crate::specs::Sides::turn_ok))]
fn turned(u: Side, a: Point, b: Point) -> Option<Side>
    ensures { result ≡ (if turn_ok u (side_of a b) then Some (side_of a b) else None) }
{
    let v = side_of(a, b);
    turns(u, v).then_some(v)
}

// Whether each corner turns left by more than 20°. A side's length, a root, is taken once for both its corners, and only where the corners before it turn.
#[tactic(auto, unfolding(crate::specs::LeftTurns::corners_turn), using(crate::specs::Sides::turn_is))]
fn corners_turn(p: Corners) -> bool
    ensures { result ≡ corners_turn p }
{
    let Corners { a, b, d, c } = p;
    let ca = side_of(c, a);
    turned(ca, a, b)
        .and_then(|ab| turned(ab, b, d))
        .and_then(|bd| turned(bd, d, c))
        .is_some_and(|dc| turns(dc, ca))
}

// Whether the quad turns left by more than 20° at each corner. One that lacks a left turn fails without a root.
#[tactic(auto, unfolding(crate::specs::Plane::convex_ccw))]
pub fn convex_ccw(p: Corners) -> bool
    ensures { result ≡ convex_ccw p }
{
    !(doubled_area(p) <= Settings::TOLERANCE) && !lacks_left_turn(p) && corners_turn(p)
}

#[tactic(auto, unfolding(crate::specs::Plane::centroid))]
pub fn centroid(p: Corners) -> Point
    ensures { result ≡ centroid p }
{
    let Corners { a, b, d, c } = p;
    Point {
        x: (a.x + b.x + d.x + c.x) / 4.0,
        y: (a.y + b.y + d.y + c.y) / 4.0,
    }
}

// ---- points and segments

// Whether q is strictly left of a to b.
#[tactic(auto, unfolding(crate::specs::Plane::left_of))]
pub fn left_of(a: Point, b: Point, q: Point) -> bool
    ensures { result ≡ left_of a b q }
{
    !(cross2(a, b, q) <= 0.0)
}

#[tactic(auto, unfolding(crate::specs::Plane::point_in_convex))]
pub fn point_in_convex(p: Corners, q: Point) -> bool
    ensures { result ≡ point_in_convex p q }
{
    let Corners { a, b, d, c } = p;
    left_of(a, b, q) && left_of(b, d, q) && left_of(d, c, q) && left_of(c, a, q)
}

// Whether p lies in the box of the segment a to b, widened by 1e-12.
#[tactic(auto, unfolding(crate::specs::Plane::on_segment))]
pub fn on_segment(a: Point, b: Point, p: Point) -> bool
    ensures { result ≡ on_segment a b p }
{
    numbers::min_f64(a.x, b.x) - Settings::TOLERANCE <= p.x
        && p.x <= numbers::max_f64(a.x, b.x) + Settings::TOLERANCE
        && numbers::min_f64(a.y, b.y) - Settings::TOLERANCE <= p.y
        && p.y <= numbers::max_f64(a.y, b.y) + Settings::TOLERANCE
}

// Whether one orientation is above 1e-12 and the other below -1e-12.
#[tactic(auto, unfolding(crate::specs::Plane::opposite))]
pub fn opposite(o: f64, u: f64) -> bool
    ensures { result ≡ opposite o u }
{
    o > Settings::TOLERANCE && u < -Settings::TOLERANCE
        || o < -Settings::TOLERANCE && u > Settings::TOLERANCE
}

// Whether p, of orientation o towards a to b, lies on it, by the tolerance 1e-12.
#[tactic(auto, unfolding(crate::specs::Plane::touches))]
pub fn touches(o: f64, a: Point, b: Point, p: Point) -> bool
    ensures { result ≡ touches o a b p }
{
    numbers::abs_at_most(o, Settings::TOLERANCE) && on_segment(a, b, p)
}

// Whether a to b and c to d cross or touch.
#[tactic(auto, unfolding(crate::specs::Plane::segments_cross))]
pub fn segments_cross(a: Point, b: Point, c: Point, d: Point) -> bool
    ensures { result ≡ segments_cross a b c d }
{
    let o1 = cross2(a, b, c);
    let o2 = cross2(a, b, d);
    let o3 = cross2(c, d, a);
    let o4 = cross2(c, d, b);
    opposite(o1, o2) && opposite(o3, o4)
        || touches(o1, a, b, c)
        || touches(o2, a, b, d)
        || touches(o3, c, d, a)
        || touches(o4, c, d, b)
}

// ---- keys

// The key of p for a bucket size.
#[tactic(auto, unfolding(crate::specs::Keys::key_of))]
pub fn key_of(bucket: f64, p: Point) -> Key
    ensures { result ≡ key_of bucket p }
{
    Key {
        i: numbers::floor_quotient(p.x, bucket),
        j: numbers::floor_quotient(p.y, bucket),
    }
}

// Whether the ranges from k to l and from m to n, either end first, have a number in common.
#[tactic(auto, unfolding(crate::specs::Keys::ranges_meet))]
pub fn ranges_meet(k: i64, l: i64, m: i64, n: i64) -> bool
    ensures { result ≡ ranges_meet k l m n }
{
    k.min(l) <= m.max(n) && m.min(n) <= k.max(l)
}

// Whether k lies from l to m.
// `has_node` calls `contains` through this: of two calls of its own the search finds no proof.
fn between(k: i64, l: i64, m: i64) -> bool
    ensures { result ≡ between k l m }
{
    (l..=m).contains(&k)
}

impl KeyRect {
    // With the keys of p and q for a bucket size as its corners.
    pub fn of(bucket: f64, p: Point, q: Point) -> Self
        ensures { result ≡ rect_between bucket p q }
    {
        KeyRect {
            k: key_of(bucket, p),
            l: key_of(bucket, q),
        }
    }

    // How far it reaches.
    fn spans(self) -> Spans
        ensures { result ≡ spans_of self.k self.l }
    {
        Spans {
            i: self.k.i.abs_diff(self.l.i),
            j: self.k.j.abs_diff(self.l.j),
        }
    }

    // Whether its spans add up to 4,096 at most.
    #[tactic(auto, unfolding(crate::specs::Keys::spans_kept))]
    pub fn spans_kept(self) -> bool
        ensures { result ≡ spans_kept self.k self.l }
    {
        let s = self.spans();
        s.i <= Settings::MOST_SPANS && s.j <= Settings::MOST_SPANS - s.i
    }

    // Whether it overlaps another.
    #[tactic(auto, unfolding(crate::specs::Keys::rectangles_meet))]
    pub fn meets(self, r: KeyRect) -> bool
        ensures { result ≡ rectangles_meet self.k self.l r.k r.l }
    {
        ranges_meet(self.k.i, self.l.i, r.k.i, r.l.i)
            && ranges_meet(self.k.j, self.l.j, r.k.j, r.l.j)
    }

    // Whether the columns of the edge c to d meet its own.
    #[tactic(auto, unfolding(crate::specs::Keys::key_of))]
    fn columns_meet(self, bucket: f64, c: Point, d: Point) -> bool
        ensures { result ≡ ranges_meet self.k.i self.l.i (key_of bucket c).i (key_of bucket d).i }
    {
        let m = numbers::floor_quotient(c.x, bucket);
        let n = numbers::floor_quotient(d.x, bucket);
        ranges_meet(self.k.i, self.l.i, m, n)
    }

    // Whether the edge c to d is a candidate for a query with this rectangle. Most edges leave at the columns.
    #[tactic(auto, unfolding(crate::specs::Keys::candidate_at, crate::specs::Keys::rectangles_meet))]
    pub fn has_candidate(self, size: f64, c: Point, d: Point) -> bool
        ensures { result ≡ candidate_at self.k self.l size c d }
    {
        let bucket = 2.0 * size;
        self.columns_meet(bucket, c, d)
            && {
                let r = KeyRect::of(bucket, c, d);
                self.meets(r) && self.spans_kept() && r.spans_kept()
            }
    }

    // Whether the key of the node q lies from its first corner to its second.
    #[tactic(auto, unfolding(crate::specs::Keys::in_box_at, crate::specs::Keys::key_of))]
    pub fn has_node(self, size: f64, q: Point) -> bool
        ensures { result ≡ in_box_at self.k self.l size q }
    {
        between(numbers::floor_quotient(q.x, size), self.k.i, self.l.i)
            && between(numbers::floor_quotient(q.y, size), self.k.j, self.l.j)
    }

    // Whether its corners are within two of each other, each way.
    #[tactic(auto, unfolding(crate::specs::Keys::near_keys))]
    fn is_near(self) -> bool
        ensures { result ≡ near_keys self.k self.l }
    {
        let s = self.spans();
        s.i <= Settings::REACH && s.j <= Settings::REACH
    }
}

// Whether the edge c to d is a candidate for the query a to b.
#[tactic(auto, unfolding(crate::specs::Keys::is_candidate))]
pub fn is_candidate(size: f64, a: Point, b: Point, c: Point, d: Point) -> bool
    ensures { result ≡ is_candidate size a b c d }
{
    KeyRect::of(2.0 * size, a, b).has_candidate(size, c, d)
}

// Whether the node q is too close to p, whose key is k; `radius2` is the square of the clearance. The distance is the cheaper test.
#[tactic(auto, unfolding(crate::specs::Keys::too_close_at))]
pub fn too_close_at(k: Key, p: Point, radius2: f64, size: f64, q: Point) -> bool
    ensures { result ≡ too_close_at k p radius2 size q }
{
    let dx = q.x - p.x;
    let dy = q.y - p.y;
    dx * dx + dy * dy < radius2
        && {
            let l = key_of(size, q);
            KeyRect { k, l }.is_near()
        }
}

// Whether the node q is too close to p: nearer than 0.45 × size.
#[tactic(auto, unfolding(crate::specs::Keys::is_too_close))]
pub fn is_too_close(size: f64, p: Point, q: Point) -> bool
    ensures { result ≡ is_too_close size p q }
{
    let radius = Settings::CLEARANCE * size;
    too_close_at(key_of(size, p), p, radius * radius, size, q)
}

// ---- a quad's box

// The point with what `pick` picks of the corners' coordinates, from `start` on.
fn picked<F: Fn(f64, f64) -> f64>(p: Corners, start: f64, pick: F) -> Point
    requires { (x y : _) → F.pre pick x y }
    ensures { (g : Float → Float → Float) → ((x y r : _) → F.post pick x y r → r ≡ g x y) → result ≡ picked g start p }
{
    let Corners { a, b, d, c } = p;
    Point {
        x: pick(pick(pick(pick(start, a.x), b.x), d.x), c.x),
        y: pick(pick(pick(pick(start, a.y), b.y), d.y), c.y),
    }
}

// The lower left corner of the quad's box.
pub fn lowest(p: Corners) -> Point
    ensures { result ≡ lowest p }
{
    picked(p, f64::INFINITY, |x, y| numbers::min_f64(x, y))
}

// The upper right corner of the quad's box.
pub fn highest(p: Corners) -> Point
    ensures { result ≡ highest p }
{
    picked(p, f64::NEG_INFINITY, |x, y| numbers::max_f64(x, y))
}

// Whether the key of the node q lies in the quad's key rectangle.
#[tactic(auto, unfolding(crate::specs::Keys::is_in_box))]
pub fn is_in_box(size: f64, p: Corners, q: Point) -> bool
    ensures { result ≡ is_in_box size p q }
{
    KeyRect::of(size, lowest(p), highest(p)).has_node(size, q)
}
