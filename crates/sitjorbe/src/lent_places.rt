ghost use Rattle.outline.specs.Outline.{outline};
ghost use Rattle.run_places.specs.Needed.{PlacesGiven};

use run_places::PlacesAnswer;

// The places that a run of this outline and size can't do without. Quads, and the nodes and edges that they add, need more.
#[unsafe(no_mangle)]
pub extern "C" fn sitjorbe_places<'a>(
    outer: &'a [f64],
    holes: &'a [f64],
    hole_lengths: &[usize],
    size: f64,
) -> PlacesAnswer
    ensures { PlacesGiven (outline outer.now holes.now hole_lengths.now) size result }
{
    run_places::sitjorbe_places(outer, holes, hole_lengths, size)
}
