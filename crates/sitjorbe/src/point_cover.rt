ghost use Rattle.std.specs.Prelude.{[], ◌/◌, min, length};
ghost use Rattle.outline.specs.Outline.{outline};
ghost use Rattle.front.specs.State.{state_of, counted};
ghost use Rattle.cover_check.specs.Covered.{CoversGiven};

use cover_check::CoversAnswer;

// Whether the quads of a mesh, whatever made it, cover each point of the outline as a run samples it once. Its first nodes have to be the sampled outline's. The
// lists that begin with `sampled_`, and `keys`, are scratch, which may be written. `sound` says whether the outline as drawn is sound.
#[unsafe(no_mangle)]
pub extern "C" fn sitjorbe_covers<'a>(
    outer: &'a [f64],
    holes: &'a [f64],
    hole_lengths: &[usize],
    size: f64,
    xs: &[f64],
    ys: &[f64],
    quads: &[u32],
    node_count: u32,
    quad_count: usize,
    sampled_xs: &mut [f64],
    sampled_ys: &mut [f64],
    sampled_next: &mut [u32],
    sampled_prev: &mut [u32],
    sampled_edges: &mut [u32],
    keys: &mut [u64],
) -> CoversAnswer
    ensures { CoversGiven (outline outer.now holes.now hole_lengths.now) size
        (state_of xs.now ys.now [] [] [] quads.now [] (counted node_count quad_count 0 0))
        (record {
          nodes = min (min (length sampled_xs.old) (length sampled_ys.old)) (min (length sampled_next.old) (length sampled_prev.old));
          edges = length sampled_edges.old / 2;
          keys = length keys.old;
        }) result }
{
    cover_entry::sitjorbe_covers(
        outer,
        holes,
        hole_lengths,
        size,
        xs,
        ys,
        quads,
        node_count,
        quad_count,
        sampled_xs,
        sampled_ys,
        sampled_next,
        sampled_prev,
        sampled_edges,
        keys,
    )
}
