// The outline as lent, and the refusals with their numbers; in `specs/` the refusals 1 to 4, and `contains` and `nearest_segment` of src/two_d.rs's `Domain`, whose
// code `outlines`, `blocks` and `nearest` have.
#![tactic(auto)]

ghost use Rattle.std.specs.Prelude.{◌≡◌};
ghost use Rattle.outline.specs.Doubles.{Doubles};
ghost use Rattle.outline.specs.Refusals.{refusal_number, refused};

// `[f64; 2]`
#[derive(Clone, Copy)]
pub struct Point {
    pub x: f64,
    pub y: f64,
}

// An outline as it is lent: the coordinates of the outer loop, x then y; those of all holes; and each hole's length in points.
#[derive(Clone, Copy)]
pub struct Domain<'a> {
    pub outer: &'a [f64],
    pub holes: &'a [f64],
    pub lens: &'a [usize],
    ghost doubles: { Doubles outer.now holes.now },
}

// A segment's ends and its distance; its loop, 0 for the outer one and k + 1 for hole k; and its place there, 0 for the segment from the loop's first point.
#[derive(Clone, Copy)]
pub struct Near {
    pub a: Point,
    pub b: Point,
    pub distance: f64,
    pub loop_index: usize,
    pub segment_index: usize,
}

// The nearest segment so far, and the square of its distance.
#[derive(Clone, Copy)]
pub struct Search {
    pub near: Near,
    pub squared: f64,
}

// What an exam is set to. Its constants are SCOPE's limits and factors.
#[derive(Clone, Copy)]
pub struct Settings {
    pub size: f64,
    pub sweeps: usize,
    pub passes: usize,
}

impl Settings {
    pub const LEAST_SIZE: f64 = 0.01;

    pub const MOST_SIZE: f64 = 100.0;

    pub const MOST_SWEEPS: usize = 1000;

    pub const MOST_FIELD_NODES: usize = 250000;
    // While a grid has more, its spacing grows by this, so often at most.
    pub const GROWTH: f64 = 1.25;

    pub const MOST_GROWTHS: usize = 64;
    // A sweep in which no node's two values change by this much in sum is the last.
    pub const QUIET: f64 = 1.0e-7;
    // A node inside the outline and at most this many spacings from its boundary is fixed.
    pub const BAND: f64 = 1.5;

    // Of all loops together.
    pub const MOST_POINTS: usize = 4096;

    pub const FARTHEST: f64 = 1000.0;
    // Lengths, areas and orientations up to this count as none.
    pub const TOLERANCE: f64 = 1.0e-12;
    // Of the size: no part of a segment is longer than this.
    pub const STRETCH: f64 = 1.05;
    // Of the size: two new nodes are farther apart than this, and no node is nearer to a new one.
    pub const CLEARANCE: f64 = 0.45;
    // Of the size: a front node within this of a corner is reused for it.
    pub const REUSE: f64 = 0.35;
    // A corner's sine is above this, which is sin 20°.
    pub const LEAST_SINE: f64 = 0.3420201433256687;
    // An edge whose key rectangle has more spans is no candidate.
    pub const MOST_SPANS: u64 = 4096;
    // How many keys each way `too_close` looks.
    pub const REACH: u64 = 2;
    // So many quads end a run.
    pub const MOST_QUADS: usize = 250000;

    pub const MOST_PASSES: usize = 600;
    // Node places past this many count as not lent.
    pub const MOST_NODES: usize = 4294967294;
}

// Why a call is refused.
#[derive(Clone, Copy, Debug, PartialEq, Eq)]
pub enum Refusal {
    // A coordinate list of odd length, hole lengths that don't add up to the hole points, or more than 4,096 points.
    Lists = 1,
    // A loop of fewer than three points.
    ShortLoop = 2,
    // A coordinate not finite, in the outline or in a query's point.
    NotFinite = 3,
    // A coordinate beyond 1,000 either way, in the outline or in a query's point.
    TooFar = 4,
    // A size not finite, or not above 0.
    NoSize = 5,
    // A size below 0.01 or above 100.
    SizeOutOfRange = 6,
    // An outline whose bounding box has no width or no height.
    Flat = 7,
    // More than 1,000 sweeps.
    TooManySweeps = 8,
    // The field has more nodes than were lent.
    FieldNeedsSpace = 9,
    // The sampled outline has more nodes than the lent node places or edge places, or more loops than there are places for their lengths.
    FrontNeedsSpace = 10,
    // A field record that isn't one.
    NoFieldRecord = 11,
    // A file's block has a wrong check.
    WrongCheck = 12,
    // A file with a wrong length, count or fill.
    WrongFile = 13,
    // A list for answers that is too short, or lists of points and targets that differ in length or end in half a point.
    AnswerLists = 14,
    // A node id that isn't in the mesh, or is past the lent list of thresholds.
    NoNode = 15,
    // A threshold above 500.
    ThresholdTooHigh = 16,
    // A withdrawal where no threshold stands.
    NoThreshold = 17,
    // A quad that isn't in the mesh, or lacks a threshold where its estimate is asked for.
    NoQuad = 18,
    // A weight above 256.
    WeightTooHigh = 19,
    // An unknown role, or an operation that its role lacks.
    NotAllowed = 20,
    // A presentation order in which some quad is absent, repeated or unknown.
    NotEachOnce = 21,
    // A presentation order in which a quad stands before one that laid a front edge which it used up.
    TooEarly = 22,
    // A lent mesh that isn't sound, or a list lent beside it that is too short.
    UnsoundMesh = 23,
    // An edge that isn't on the front.
    NotOnFront = 24,
    // A quad that doesn't turn left at all four corners in steps of the bowl.
    NotShown = 25,
    // The lent list is too short for every small quad.
    FoursNeedSpace = 26,
}

// Its number: up to 13 a run's and a file's, above the other entries'.
impl From<Refusal> for u32 {
    ghost from_gives = { λ refusal number. number ≡ refusal_number refusal };

    fn from(refusal: Refusal) -> u32 {
        refusal as u32
    }
}

// The number as an answer has it: 0 where nothing is refused.
pub fn number_of(checked: Result<(), Refusal>) -> u32
    ensures { result ≡ refused checked }
{
    match checked {
        Ok(()) => 0,
        Err(refusal) => u32::from(refusal),
    }
}
