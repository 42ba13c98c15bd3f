// A front stepped by hand: one named edge, one quad placed or none. Any mesh may be lent.
#![tactic(auto)]

ghost use Rattle.std.specs.Prelude.{◌≡◌, List, [], ℕ, ◌<◌, ◌≤◌, leb, length};
ghost use Rattle.outline.specs.Outline.{outline_of, outline_refusal};
ghost use Rattle.outline.specs.Refusals.{refused, numbered};
ghost use Rattle.field_direction.specs.Record.{field_lent};
ghost use Rattle.front.specs.Lent.{mesh_state, SameLists};
ghost use Rattle.paving.specs.Attempt.{try_edge};
ghost use Rattle.paving.specs.Advance.{most_quads};
ghost use Rattle.paving_attempts.specs.Seen.{seen_of, TryLent};
ghost use Rattle.hand_mesh_check.specs.Check.{lent_in, lent_paving};
ghost use Rattle.hand_steps.specs.Hand.{hand_refusal, handled, quad_on, place_on, new_origins, StepTaken};
ghost use Rattle.hand_steps.specs.Lent.{Around, OnFront};

use front::{Counts, FarCorners, Mesh, Paving};
use hand_mesh_check::NumberedMesh;
use hand_steps::{Given, StepOutcome};
use outline::{Refusal, Settings};
use paving::Surroundings;
use paving_indexed::Pools;

// Refusal 23, then 24: on every input.
pub fn check_hand(lent: NumberedMesh<'_, '_>, a: u32, b: u32) -> Result<(), Refusal>
    ensures { refused result ≡ hand_refusal (lent_in lent.entry.mesh lent.entry.origins.now) a b }
{
    lent.check()?;
    hand_mesh_check::check_edge(&lent.mesh, a, b)
}

// The two attempts on the edge a to b. Nothing is filed, since a step reads the whole mesh in any case.
// An edge is two ids, here and below: hosts give two, and each definition that a contract names takes a and b one by
// one.
pub fn attempt_on(around: &Given<'_>, mesh: &Mesh<'_>, a: u32, b: u32) -> Option<FarCorners>
    requires taken { outline_refusal (outline_of around.now.domain) ≡ 0 }
    requires lent { TryLent around.now.field.grid around.now.field.values.now around.now.size mesh.now.xs.now mesh.now.ys.now
        mesh.now.next.now mesh.now.prev.now mesh.now.edges.now [] [] mesh.now.counts }
    ensures { result ≡ try_edge (outline_of around.now.domain) around.now.size (field_lent around.now.field []) (seen_of (mesh_state mesh.now)) a b }
{
    let around = Surroundings {
        domain: around.domain,
        blocks: &[],
        size: around.size,
        field: around.field,
    };
    let pools = Pools {
        nodes: &[],
        edges: &[],
    };
    paving_attempts::try_edge(&around, mesh, pools, a, b)
}

// Whether as many quads stand as a run may lay.
pub fn is_capped(k: Counts) -> bool
    ensures { result ≡ leb most_quads k.quads }
{
    k.quads >= Settings::MOST_QUADS
}

// The quad that a placing on the front edge a to b places, or why it places none. None at all is placed where 250,000 quads stand.
// `Around` stands in the `requires`, here, below and in `hand_previews`: refusals 1 to 7 and 11 are asked of a
// `Given` too, before it holds.
pub fn quad_on(
    around: &Given<'_>,
    lent: NumberedMesh<'_, '_>,
    a: u32,
    b: u32,
) -> Result<FarCorners, StepOutcome>
    requires { Around (outline_of around.now.domain) around.now.field.grid around.now.field.values.now
        × OnFront (lent_in lent.mesh lent.origins.now) a b }
    ensures { (marks : List ℕ) → result
        ≡ quad_on (outline_of around.now.domain) around.now.size (field_lent around.now.field marks) a b
        (lent_in lent.entry.mesh lent.entry.origins.now) }
{
    let NumberedMesh { mesh, origins } = lent;
    if is_capped(mesh.counts) {
        return Err(StepOutcome::Cap);
    }
    let Some(far) = attempt_on(around, &mesh, a, b) else {
        return Err(StepOutcome::None);
    };
    if hand_placing::is_full(NumberedMesh { mesh, origins }, a, b, far) {
        return Err(StepOutcome::Full);
    }
    Ok(far)
}

// One placing on the front edge a to b.
#[tactic(auto, using(front::proofs::Lent::lists_same))]
fn place_on(
    around: &Given<'_>,
    paving: &mut Paving<'_>,
    origins: &[u16],
    a: u32,
    b: u32,
) -> StepOutcome
    requires { Around (outline_of around.now.domain) around.now.field.grid around.now.field.values.now × OnFront (lent_paving paving.old origins.now) a b }
    ensures same { SameLists paving.old paving.new }
    ensures placed { (marks : List ℕ) → handled (lent_paving paving.new origins.now) result
        ≡ place_on (outline_of around.now.domain) around.now.size (field_lent around.now.field marks) a b (lent_paving paving.old origins.now) }
{
    let mesh = paving.mesh();
    let answer = quad_on(around, NumberedMesh { mesh, origins }, a, b);
    match answer {
        Ok(far) => {
            hand_placing::place_quad(paving, a, b, far);
            StepOutcome::Placed
        }
        Err(outcome) => outcome,
    }
}

// The places of the nodes n to m - 1 take the number that stands at node a's.
fn number_new(origins: &mut [u16], a: u32, n: u32, m: u32)
    requires { (a < length origins.old) × (n ≤ m) × (m ≤ length origins.old) }
    ensures { origins.new ≡ new_origins a n m origins.old }
{
    let number = origins[a as usize];
    origins[n as usize..m as usize].fill(number);
}

// A step of the front by hand: 23, 24, or one placing on the named edge. New nodes take the number of node a's loop.
#[tactic(auto, using(front::proofs::Lent::lists_same))]
pub fn step(
    around: &Given<'_>,
    paving: &mut Paving<'_>,
    origins: &mut [u16],
    a: u32,
    b: u32,
) -> Result<StepOutcome, Refusal>
    requires { Around (outline_of around.now.domain) around.now.field.grid around.now.field.values.now }
    ensures same { SameLists paving.old paving.new }
    ensures taken { (marks : List ℕ) → StepTaken (outline_of around.now.domain) around.now.size (field_lent around.now.field marks) a b
        (lent_paving paving.old origins.old) origins.old (numbered result) (lent_paving paving.new origins.new) origins.new }
{
    let mesh = paving.mesh();
    check_hand(NumberedMesh { mesh, origins }, a, b)?;
    let nodes = paving.counts.nodes;
    let outcome = place_on(around, paving, origins, a, b);
    number_new(origins, a, nodes, paving.counts.nodes);
    Ok(outcome)
}
