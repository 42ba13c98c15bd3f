// A pass of the paving (src/alt_crossfield.rs) over the front edges present at its start.
#![tactic(auto)]

ghost use Rattle.std.specs.Prelude.{◌≡◌};
ghost use Rattle.front.specs.Lent.{paving_state, SameLists};
ghost use Rattle.paving.specs.Advance.{pass};
ghost use Rattle.paving.specs.Lent.{outline_in, field_in, SameScratch};
ghost use Rattle.paving_ends.specs.Answers.{passed};
ghost use Rattle.paving_settling.specs.Paveable.{PaveableIn};
ghost use Rattle.paving_settling.specs.Searchable.{HelpedIn};

use front::Paving;
use paving::{End, Scratch, Surroundings};
use std::ops::ControlFlow;

// A pass: the snapshot is taken, and its edges are tried in the order of their first nodes. It breaks with the end of the paving.
// LIMITS.md, 2: four loans.
pub fn pass(
    around: &Surroundings<'_>,
    paving: &mut Paving<'_>,
    snapshot: &mut [u32],
    scratch: &mut Scratch<'_>,
) -> ControlFlow<End>
    requires paveable { PaveableIn around.now (paving_state paving.old snapshot.old) }
    requires helped { HelpedIn around.now (paving_state paving.old snapshot.old) scratch.old }
    ensures same_lists { SameLists paving.old paving.new }
    ensures same_scratch { SameScratch scratch.old scratch.new }
    ensures passes { passed result (paving_state paving.new snapshot.new)
        ≡ pass (outline_in around.now) around.now.size (field_in around.now) (paving_state paving.old snapshot.old) }
    ensures helped { HelpedIn around.now (paving_state paving.new snapshot.new) scratch.new }
{
    let n = paving.counts.nodes;
    paving_snapshots::copy_links(paving.next(), snapshot, scratch.tried, n);
    let mut some = false;
    let mut a: u32 = 0;
    // The next node is where a stretch of those off the front ends, which the list of tries says.
    while a < n {
        let i = a;
        a = paving_snapshots::node_after(scratch.tried(), i, n);
        let placed = paving_settling::settle_edge(around, paving, snapshot, scratch, i)?;
        some |= placed;
    }
    paving_ends::pass_answer(some)
}
