// The public entry of the run: what a host calls, on numbers and slices. It has no `requires`, and of what is lent only the lists lent as `&mut` are
// written.
#![tactic(auto)]

ghost use Rattle.outline.specs.Outline.{outline};
ghost use Rattle.run.specs.Run.{settings, lent, scratch, Spares};
ghost use Rattle.run_mesher.specs.Answers.{HostPaves};

use outline::{Domain, Settings};
use paving::Scratch;
use run::RunLists;
use run_pave_answer::PaveAnswer;

// The run whole, from the field to the loops of the front, in the lists lent. `origins` gets for each node the number of the outline's loop that it came from.
// Nothing is written on a refusal. The pools, the list of blocks and `tried` are scratch of any length, which searches go by as far as they have room, and
// which edges tried in vain are noted in, three numbers a node; the answer doesn't depend on them.
#[unsafe(no_mangle)]
pub extern "C" fn sitjorbe_pave<'a>(
    outer: &'a [f64],
    holes: &'a [f64],
    hole_lengths: &[usize],
    size: f64,
    sweeps: usize,
    passes: usize,
    values: &mut [f64],
    marks: &mut [u8],
    xs: &mut [f64],
    ys: &mut [f64],
    next: &mut [u32],
    prev: &mut [u32],
    snapshot: &mut [u32],
    origins: &mut [u16],
    quads: &mut [u32],
    edges: &mut [u32],
    loops: &mut [u32],
    loop_lengths: &mut [u32],
    node_pool: &mut [u32],
    edge_pool: &mut [u32],
    blocks: &mut [u32],
    tried: &mut [u32],
) -> PaveAnswer
    ensures { HostPaves (outline outer.now holes.now hole_lengths.now) (settings size sweeps passes)
        (lent values.old marks.old xs.old ys.old next.old prev.old
        snapshot.old origins.old quads.old edges.old loops.old loop_lengths.old)
        result
        (lent values.new marks.new xs.new ys.new next.new prev.new snapshot.new
        origins.new quads.new edges.new loops.new loop_lengths.new)
        × Spares result.refusal (scratch node_pool.old edge_pool.old blocks.old tried.old)
        (scratch node_pool.new edge_pool.new blocks.new tried.new) }
{
    let domain = Domain {
        outer,
        holes,
        lens: hole_lengths,
    };
    let settings = Settings {
        size,
        sweeps,
        passes,
    };
    let mut lists = RunLists {
        values,
        marks,
        xs,
        ys,
        next,
        prev,
        snapshot,
        origins,
        quads,
        edges,
        loops,
        lengths: loop_lengths,
    };
    let mut scratch = Scratch {
        node_pool,
        edge_pool,
        tried,
    };
    PaveAnswer::from(run::pave(domain, settings, &mut lists, &mut scratch, blocks))
}
