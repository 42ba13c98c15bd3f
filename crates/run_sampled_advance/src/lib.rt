// The paving of a sampled outline: its loops are sampled, and the front is advanced from there.
#![tactic(auto)]

ghost use Rattle.std.specs.Prelude.{◌≡◌};
ghost use Rattle.front.specs.Lent.{paving_state, SameLists};
ghost use Rattle.front.specs.Sampling.{from_boundary};
ghost use Rattle.paving.specs.Advance.{paved, advance};
ghost use Rattle.paving.specs.Lent.{outline_in, field_in, SameScratch};
ghost use Rattle.run_sampled_advance.specs.Asked.{unsampled, CanPave};

use front::Paving;
use paving::{End, Scratch, Surroundings};

// Sampling and paving, where 10 doesn't refuse them: how it ended.
// LIMITS.md, 2: four loans.
pub fn sample_and_advance(
    around: &Surroundings<'_>,
    paving: &mut Paving<'_>,
    snapshot: &mut [u32],
    scratch: &mut Scratch<'_>,
    passes: usize,
) -> End
    requires { CanPave (outline_in around.now) around.now.blocks.now around.now.size around.now.field.grid around.now.field.values.now (unsampled paving.old snapshot.old) }
    ensures same_lists { SameLists paving.old paving.new }
    ensures same_scratch { SameScratch scratch.old scratch.new }
    ensures advances { paved (paving_state paving.new snapshot.new) result
        ≡ advance (outline_in around.now) around.now.size (field_in around.now) passes
        (from_boundary (outline_in around.now) around.now.size (unsampled paving.old snapshot.old)) }
{
    front_boundary::from_boundary(around.domain, around.size, paving);
    paving_advance::advance(around, paving, snapshot, scratch, passes)
}
