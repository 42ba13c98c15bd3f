// The answers of hand stepping as they cross to the host.
#![tactic(auto)]

ghost use Rattle.std.specs.Prelude.{◌≡◌, ◌≤◌, Ok};
ghost use Rattle.outline.specs.Refusals.{refusal_number, numbered};
ghost use Rattle.hand_step_answers.specs.Answers.{refused_step, step_numbers, refused_preview, fresh_x, fresh_y, view_numbers, preview_numbers};

use front::{Corner, Counts, FarCorners};
use hand_previews::View;
use hand_steps::StepOutcome;
use outline::Refusal;

// What became of the edge (0 placed, 1 none, 2 full, 3 cap), and how many nodes, quads, distinct edges and front edges there are after it. All is 0 on a
// refusal.
#[repr(C)]
#[derive(Clone, Copy, Default)]
pub struct StepAnswer {
    pub refusal: u32,
    pub outcome: u32,
    pub nodes: u32,
    pub quads: usize,
    pub edges: usize,
    pub front: usize,
}

// What would become of the edge; the quad that would be placed, how many of its nodes would be new, and where: corners c and d have 0 for coordinates
// where they aren't new, and all of the quad is 0 where none would be placed; and how many front edges there would be. All is 0 on a refusal.
#[repr(C)]
#[derive(Clone, Copy, Default)]
pub struct PreviewAnswer {
    pub refusal: u32,
    pub outcome: u32,
    pub a: u32,
    pub b: u32,
    pub d: u32,
    pub c: u32,
    pub new_nodes: u32,
    pub cx: f64,
    pub cy: f64,
    pub dx: f64,
    pub dy: f64,
    pub front: usize,
}

// What a step answers, refused by whatever number, with the counts after it.
pub fn step_numbers(step: Result<StepOutcome, u32>, counts: Counts) -> StepAnswer
    ensures { result ≡ step_numbers step counts }
{
    match step {
        Err(refusal) => StepAnswer {
            refusal,
            ..StepAnswer::default()
        },
        Ok(outcome) => StepAnswer {
            refusal: 0,
            outcome: u32::from(outcome),
            nodes: counts.nodes,
            quads: counts.quads,
            edges: counts.edges,
            front: counts.front,
        },
    }
}

// A step refused by whatever number.
pub fn refused_step(number: u32) -> StepAnswer
    ensures { result ≡ refused_step number }
{
    step_numbers(Err(number), Counts::default())
}

// A refused step.
impl From<Refusal> for StepAnswer {
    ghost from_gives = { λ refusal answer. answer ≡ refused_step (refusal_number refusal) };

    fn from(refusal: Refusal) -> StepAnswer {
        refused_step(u32::from(refusal))
    }
}

impl StepAnswer {
    // What a step answers, with the counts after it.
    pub fn new(step: Result<StepOutcome, Refusal>, counts: Counts) -> StepAnswer
        ensures { result ≡ step_numbers (numbered step) counts }
    {
        match step {
            Err(refusal) => StepAnswer::from(refusal),
            Ok(outcome) => step_numbers(Ok(outcome), counts),
        }
    }
}

// A preview refused by whatever number.
pub fn refused_preview(number: u32) -> PreviewAnswer
    ensures { result ≡ refused_preview number }
{
    PreviewAnswer {
        refusal: number,
        ..PreviewAnswer::default()
    }
}

// A refused preview.
impl From<Refusal> for PreviewAnswer {
    ghost from_gives = { λ refusal answer. answer ≡ refused_preview (refusal_number refusal) };

    fn from(refusal: Refusal) -> PreviewAnswer {
        refused_preview(u32::from(refusal))
    }
}

// The coordinates of a new corner.
fn fresh(c: Corner) -> (f64, f64)
    ensures { (result.0 ≡ fresh_x c) × (result.1 ≡ fresh_y c) }
{
    match c {
        Corner::Reused(_) => (0.0, 0.0),
        Corner::Fresh(x, y) => (x, y),
    }
}

impl PreviewAnswer {
    // What a preview on the edge a to b answers, where there are n nodes.
    pub fn new(preview: Result<View, Refusal>, n: u32, a: u32, b: u32) -> PreviewAnswer
        requires { (v : View) → preview ≡ Ok v → n ≤ 4294967294 }
        ensures { result ≡ preview_numbers (numbered preview) n a b }
    {
        match preview {
            Err(refusal) => PreviewAnswer::from(refusal),
            Ok(v) => PreviewAnswer::of_view(v, n, a, b),
        }
    }

    // One that isn't refused.
    fn of_view(v: View, n: u32, a: u32, b: u32) -> PreviewAnswer
        requires { n ≤ 4294967294 }
        ensures { result ≡ view_numbers v n a b }
    {
        let outcome = u32::from(v.outcome);
        let front = v.front;
        let Some(quad) = v.quad else {
            return PreviewAnswer {
                outcome,
                front,
                ..PreviewAnswer::default()
            };
        };
        let FarCorners { c, d } = quad;
        let (cx, cy) = fresh(c);
        let (dx, dy) = fresh(d);
        PreviewAnswer {
            refusal: 0,
            outcome,
            a,
            b,
            d: quad.id_d(n),
            c: c.id(n),
            new_nodes: quad.added(),
            cx,
            cy,
            dx,
            dy,
            front,
        }
    }
}
