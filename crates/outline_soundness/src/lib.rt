// Whether a drawn outline is sound (SCOPE, sound outlines): no two segments of one loop meet except neighbours at their common end, no two loops touch,
// every hole lies inside the outer loop, and no hole lies in another. Each float is taken as the fraction it is; nothing is rounded.
#![tactic(auto)]

ghost use Rattle.std.specs.Prelude.{◌≡◌, ◌≤◌, ◌<◌, length};
ghost use Rattle.laws.specs.Loop.{any_up};
ghost use Rattle.exact.specs.Units.{units, Within};
ghost use Rattle.outline.specs.Outline.{outline_of, points, hole_at, outline_refusal};
ghost use Rattle.outline_orientation.specs.Orient.{in_units};
ghost use Rattle.outline_sound.specs.Sound.{segment_start, segment_end, overlap, parted, meets, folds_back, folds_at, clash, crosses_itself, touch};
ghost use Rattle.outline_sound.specs.Sound.{ray_meets, is_inside, outline_sound};
ghost use Rattle.outline_sound.specs.Whole.{is_whole};
ghost use Rattle.outline_sound.specs.FoldsLaws.{is_extreme};
ghost use Rattle.outline_soundness.specs.AcceptedLoops.{AcceptedPoint, AcceptedLoop};
ghost use Rattle.outline_soundness.specs.WalkLaws.{any_point, holes_clash, hole_unsound, Judged};

use outline::{Domain, Point};

// ---- segments

// Whether the numbers from u to v and those from s to t have one in common.
fn overlaps(u: f64, v: f64, s: f64, t: f64) -> bool
    requires { Within 1000 u × Within 1000 v × Within 1000 s × Within 1000 t }
    ensures { result ≡ overlap (units u) (units v) (units s) (units t) }
{
    !(outline_loops::higher_of(u, v) < outline_loops::lower_of(t, s))
        && !(outline_loops::higher_of(s, t) < outline_loops::lower_of(v, u))
}

// Whether v is above both u and w, or below both.
#[tactic(auto, unfolding(outline_sound::specs::FoldsLaws::is_extreme), using(crate::proofs::SegmentLaws::lt_lt_z))]
fn is_extreme(u: f64, v: f64, w: f64) -> bool
    requires { Within 1000 u × Within 1000 v × Within 1000 w }
    ensures { result ≡ is_extreme (units u) (units v) (units w) }
{
    (u < v && w < v) || (v < u && v < w)
}

// A segment between two points that refusals 3 and 4 let pass.
#[derive(Clone, Copy)]
struct Segment {
    a: Point,
    b: Point,
    ghost start: { AcceptedPoint a },
    ghost end: { AcceptedPoint b },
}

impl Segment {
    // Whether both ends of the other are on the same side of its line, neither of them on it.
    fn is_parted(self, other: Segment) -> bool
        ensures { result ≡ parted (in_units self.a) (in_units self.b) (in_units other.a) (in_units other.b) }
    {
        let first = outline_orientation::side(self.a, self.b, other.a);
        first.is_ne() && first == outline_orientation::side(self.a, self.b, other.b)
    }

    // Whether they have a point in common, ends included.
    #[tactic(auto, unfolding(outline_sound::specs::Sound::meets))]
    fn meets(self, other: Segment) -> bool
        ensures { result ≡ meets (in_units self.a) (in_units self.b) (in_units other.a) (in_units other.b) }
    {
        overlaps(self.a.x, self.b.x, other.a.x, other.b.x)
            && overlaps(self.a.y, self.b.y, other.a.y, other.b.y)
            && !self.is_parted(other)
            && !other.is_parted(self)
    }

    // Whether the way along it and on to the end of the next one goes back on itself at its own end.
    fn folds_back(self, next: Segment) -> bool
        ensures { result ≡ folds_back (in_units self.a) (in_units self.b) (in_units next.b) }
    {
        (is_extreme(self.a.x, self.b.x, next.b.x) || is_extreme(self.a.y, self.b.y, next.b.y))
            && outline_orientation::side(self.a, self.b, next.b).is_eq()
    }

    // Whether the ray to the right from the start of the other meets it, the lower end counted.
    fn meets_ray(self, other: Segment) -> bool
        ensures { result ≡ ray_meets (in_units other.a) (in_units self.a) (in_units self.b) }
    {
        let p = other.a;
        match (p.y < self.a.y, p.y < self.b.y) {
            (true, false) => outline_orientation::side(self.a, self.b, p).is_lt(),
            (false, true) => outline_orientation::side(self.a, self.b, p).is_gt(),
            _ => false,
        }
    }
}

// ---- loops

// A loop of an outline, whose points refusals 3 and 4 let pass.
#[derive(Clone, Copy)]
struct PointRing<'a> {
    points: &'a [f64],
    ghost accepted: { AcceptedLoop points.now },
}

impl<'a> PointRing<'a> {
    fn new(points: &'a [f64]) -> PointRing<'a>
        requires { AcceptedLoop points.now }
        ensures { result.points.now ≡ points.now }
    {
        PointRing { points }
    }

    // How many points it has, and segments.
    fn len(self) -> usize
        ensures { result ≡ points self.entry.points.now }
    {
        self.points.len() / 2
    }

    // By number, here and below: whether a segment comes after another is told by their numbers (`folds_at`).
    fn segment(self, i: usize) -> Segment
        requires { i < points self.points.now }
        ensures start { in_units result.a ≡ segment_start self.entry.points.now i }
        ensures end { in_units result.b ≡ segment_end self.entry.points.now i }
    {
        Segment {
            a: outline_loops::point_at(self.points, i),
            b: outline_loops::point_after(self.points, i),
        }
    }

    // Whether segment j comes after segment i and folds back on it.
    fn folds_at(self, i: usize, j: usize) -> bool
        requires { (i < points self.points.now) × (j < points self.points.now) }
        ensures { result ≡ folds_at self.entry.points.now i j }
    {
        j == outline_loops::after(self.len(), i) && self.segment(i).folds_back(self.segment(j))
    }

    // Whether segments i and j have in common what they may not: neighbours more than their common end, others anything.
    #[tactic(auto, unfolding(outline_sound::specs::Sound::clash))]
    fn clash(self, i: usize, j: usize) -> bool
        requires { (i < points self.points.now) × (j < points self.points.now) }
        ensures { result ≡ clash self.entry.points.now i j }
    {
        let n = self.len();
        self.folds_at(i, j)
            || self.folds_at(j, i)
            || (j != outline_loops::after(n, i)
                && i != outline_loops::after(n, j)
                && self.segment(i).meets(self.segment(j)))
    }

    // Whether some two of its segments clash. The pairs are left at the first that do.
    fn crosses_itself(self) -> bool
        ensures { result ≡ crosses_itself self.entry.points.now }
    {
        let mut found = false;
        'pairs: for i in 0..self.len() {
            for j in 0..i {
                if self.clash(j, i) {
                    found = true;
                    break 'pairs;
                }
            }
        }
        found
    }

    // Whether the segment meets some segment of it.
    fn meets(self, segment: Segment) -> bool
        ensures { result ≡ any_up (points self.entry.points.now) (λ j. meets (in_units segment.a) (in_units segment.b)
            (segment_start self.entry.points.now j) (segment_end self.entry.points.now j)) }
    {
        (0..self.len()).any(|j| segment.meets(self.segment(j)))
    }

    // Whether some segment of it meets some segment of the other.
    fn touches(self, other: PointRing<'_>) -> bool
        ensures { result ≡ touch self.entry.points.now other.entry.points.now }
    {
        (0..self.len()).any(|i| other.meets(self.segment(i)))
    }

    // Whether the segment starts inside: the ray from its start meets an odd number of segments.
    fn surrounds(self, segment: Segment) -> bool
        ensures { result ≡ is_inside (in_units segment.a) self.entry.points.now }
    {
        (0..self.len()).fold(
            false,
            |inside, i| inside ^ self.segment(i).meets_ray(segment),
        )
    }

    // Whether some point of it is inside the other; where `inside` is false, whether some point of it isn't.
    fn any_point(self, other: PointRing<'_>, inside: bool) -> bool
        ensures { result ≡ any_point self.entry.points.now other.entry.points.now inside }
    {
        (0..self.len()).any(|i| other.surrounds(self.segment(i)) == inside)
    }

    // Whether two holes touch, or one has a point inside the other.
    #[tactic(auto, unfolding(crate::specs::WalkLaws::holes_clash))]
    fn clashes(self, other: PointRing<'_>) -> bool
        ensures { result ≡ holes_clash self.entry.points.now other.entry.points.now }
    {
        self.touches(other) || self.any_point(other, true) || other.any_point(self, true)
    }

    // Whether it clashes with one of the first k holes.
    fn clashes_before(self, domain: Domain<'_>, k: usize) -> bool
        requires { Judged (outline_of domain) × (k ≤ length domain.lens.now) }
        ensures { result ≡ any_up k (λ l. holes_clash self.entry.points.now (hole_at (outline_of domain.entry) l)) }
    {
        outline_loops::holes_of(domain)
            .take(k)
            .any(|hole| self.clashes(PointRing::new(hole.points)))
    }

    // What is asked of it as hole k: whether it crosses itself, touches or strays out of the outer loop, or clashes with a hole before it.
    #[tactic(auto, unfolding(crate::specs::WalkLaws::hole_unsound))]
    fn is_unsound(self, domain: Domain<'_>, k: usize) -> bool
        requires { Judged (outline_of domain) × (k ≤ length domain.lens.now) }
        ensures { result ≡ hole_unsound (outline_of domain.entry) self.entry.points.now k }
    {
        let outer = PointRing::new(domain.outer);
        self.crosses_itself()
            || self.touches(outer)
            || self.any_point(outer, false)
            || self.clashes_before(domain, k)
    }
}

// ---- the outline

// Whether the outline, which refusals 1 to 4 let pass, is sound.
pub fn is_sound(domain: Domain<'_>) -> bool
    requires { outline_refusal (outline_of domain) ≡ 0 }
    ensures { result ≡ outline_sound (outline_of domain.entry) }
{
    let outer = PointRing::new(domain.outer);
    !outer.crosses_itself()
        && !outline_loops::holes_of(domain).any(|hole| {
            let ring = PointRing::new(hole.points);
            ring.is_unsound(domain, hole.index)
        })
}

// Whether a run is whole: so many loops of its front are listed, that is none, and the outline, which refusals 1 to 4 let pass, is sound. It is judged
// only where nothing is listed.
#[tactic(auto, unfolding(outline_sound::specs::Whole::is_whole))]
pub fn is_whole(domain: Domain<'_>, listed: usize) -> bool
    requires { outline_refusal (outline_of domain) ≡ 0 }
    ensures { result ≡ is_whole (outline_of domain.entry) listed }
{
    listed == 0 && is_sound(domain)
}
