// What is decided in a pass of the paving (src/alt_crossfield.rs) without trying an edge: which edges its snapshot has, and where the paving ends. A step
// breaks with the end of the paving, or goes on: an edge with whether it placed a quad.
#![tactic(auto)]

ghost use Rattle.std.specs.Prelude.{◌≡◌, ◌<◌, length, get_or};
ghost use Rattle.paving_ends.specs.Answers.{snapshot_edge, quad_settled, pass_answer};

use front::OFF;
use outline::Settings;
use paving::End;
use std::ops::ControlFlow;

// ---- the snapshot

// Where the snapshot's edge from node a leads; nowhere if it is on the front no more.
#[tactic(auto, unfolding(crate::specs::Answers::snapshot_edge))]
pub fn snapshot_edge(next: &[u32], snapshot: &[u32], a: u32) -> Option<u32>
    requires { (a < length next.now) × (a < length snapshot.now) }
    ensures { result ≡ snapshot_edge (get_or next.now a 0) (get_or snapshot.now a 0) }
{
    let i = a as usize;
    let b = snapshot[i];
    if b != OFF && next[i] == b {
        Some(b)
    } else {
        None
    }
}

// ---- the ends

// After a quad, where there are so many: on, or the end at the cap.
#[tactic(auto, unfolding(crate::specs::Answers::quad_settled))]
pub fn quad_settled(quads: usize) -> ControlFlow<End, bool>
    ensures { result ≡ quad_settled quads }
{
    if quads >= Settings::MOST_QUADS {
        ControlFlow::Break(End::Cap)
    } else {
        ControlFlow::Continue(true)
    }
}

// After the last edge: on with the next pass, or still where this one placed nothing.
pub fn pass_answer(placed: bool) -> ControlFlow<End>
    ensures { result ≡ pass_answer placed }
{
    if placed {
        ControlFlow::Continue(())
    } else {
        ControlFlow::Break(End::Still)
    }
}
