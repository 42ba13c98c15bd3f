// `advance` of the paving (src/alt_crossfield.rs): pass after pass, with its four ends.
#![tactic(auto)]

ghost use Rattle.std.specs.Prelude.{◌≡◌};
ghost use Rattle.front.specs.Lent.{paving_state, SameLists};
ghost use Rattle.paving.specs.Advance.{paved, advance};
ghost use Rattle.paving.specs.Lent.{outline_in, field_in, SameScratch};
ghost use Rattle.paving_settling.specs.Paveable.{PaveableIn};

use front::Paving;
use outline::Settings;
use paving::{End, Scratch, Surroundings};
use std::ops::ControlFlow;

// The scratch may have any length: nothing is said of what it holds, before or after.
// Pass after pass, until one places nothing, the cap is reached, the places lent are full, or as many are done as asked for, at most 600: how it ended.
// LIMITS.md, 2: four loans.
pub fn advance(
    around: &Surroundings<'_>,
    paving: &mut Paving<'_>,
    snapshot: &mut [u32],
    scratch: &mut Scratch<'_>,
    passes: usize,
) -> End
    requires { PaveableIn around.now (paving_state paving.old snapshot.old) }
    ensures same_lists { SameLists paving.old paving.new }
    ensures same_scratch { SameScratch scratch.old scratch.new }
    ensures advances { paved (paving_state paving.new snapshot.new) result
        ≡ advance (outline_in around.now) around.now.size (field_in around.now) passes (paving_state paving.old snapshot.old) }
{
    let most = passes.min(Settings::MOST_PASSES);
    paving_settling::file_all(around.size, &paving.mesh(), scratch);
    for _ in 0..most {
        if let ControlFlow::Break(end) = paving_passes::pass(around, paving, snapshot, scratch) {
            return end;
        }
    }
    End::Passes
}
