ghost use Rattle.std.specs.Prelude.{◌≡◌};
ghost use Rattle.small_quads_lattice.specs.Fours.{fours, fours_answer, small_quads};
ghost use Rattle.small_quads_lattice.specs.Theorem.{EverySmallQuad};

use small_quads::SmallQuadsAnswer;

// Every small quad, on the first places of the lent list: four numbers a four, in dictionary order.
#[unsafe(no_mangle)]
pub extern "C" fn sitjorbe_small_quads(fours: &mut [u32]) -> SmallQuadsAnswer
    ensures listed { fours_answer result.refusal result.count fours.new ≡ small_quads fours.old }
    ensures every { EverySmallQuad }
{
    small_quads::sitjorbe_small_quads(fours)
}
