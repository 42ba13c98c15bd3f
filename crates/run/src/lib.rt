// The run whole in one call: field, sampling, paving, the loops that nodes came from and the loops of the front, in the lists lent.
#![tactic(auto)]

ghost use Rattle.std.specs.Prelude.{◌≡◌, Ok};
ghost use Rattle.outline.specs.Outline.{outline_of};
ghost use Rattle.outline.specs.Refusals.{refused, numbered};
ghost use Rattle.field_direction.specs.Record.{field_lists, field_record};
ghost use Rattle.front.specs.Lent.{paving_state, SameLists};
ghost use Rattle.paving.specs.Advance.{paved};
ghost use Rattle.paving.specs.Lent.{SameScratch};
ghost use Rattle.run_whole.specs.Run.{run_refusal, run_of};
ghost use Rattle.run_sampled_advance.specs.Asked.{unsampled, CanPave};
ghost use Rattle.run.specs.Run.{snapshot_places, refusal_of, drawn_and_paved, accepted_run, ran, Paves, Spares};
ghost use Rattle.run.specs.Lent.{lent_in, scratch_in, SameRunLists};

use field_direction::{CrossField, Grid};
use front::{Counts, Paving};
use front_loop_list::Listed;
use outline::{Domain, Refusal, Settings};
use paving::{End, Scratch, Surroundings};
use run_refusal::RunPlaces;

// What is answered of a run: how its paving ended, the field's grid, how much of the lists is in use, and whether it is whole.
#[derive(Clone, Copy)]
pub struct Paved {
    pub end: End,
    pub grid: Grid,
    pub counts: Counts,
    pub listed: Listed,
    pub whole: bool,
}

// The lists that a run fills, as they are lent: the field's values and marks; the nodes' coordinates and links; the snapshot of a pass; the number of
// the loop that each node came from; the quads and the edges; the ids of the front's loops and their lengths. Of the lists of nodes the shortest counts,
// `loops` and `origins` among them. `lengths` holds a number for each loop of the outline.
#[derive(Drop)]
pub struct RunLists<'a> {
    pub values: &'a mut [f64],
    pub marks: &'a mut [u8],
    pub xs: &'a mut [f64],
    pub ys: &'a mut [f64],
    pub next: &'a mut [u32],
    pub prev: &'a mut [u32],
    pub snapshot: &'a mut [u32],
    pub origins: &'a mut [u16],
    pub quads: &'a mut [u32],
    pub edges: &'a mut [u32],
    pub loops: &'a mut [u32],
    pub lengths: &'a mut [u32],
}

impl<'a> RunLists<'a> {
    // So many places of the snapshot count.
    fn snapshot_places(&self) -> usize
        ensures { result ≡ snapshot_places (lent_in self.now) }
    {
        run_refusal::snapshot_places(self.snapshot.len(), self.loops.len(), self.origins.len())
    }

    // Of a run in these lists, 1 to 10.
    fn check_places(&self, domain: Domain<'_>, settings: Settings) -> Result<(), Refusal>
        ensures { refused result ≡ refusal_of (outline_of domain.entry) settings (lent_in self.now) }
    {
        let field = (self.values.len() / 2).min(self.marks.len());
        let nodes = front::node_places(
            self.xs,
            self.ys,
            self.next,
            self.prev,
            self.snapshot_places(),
        );
        let places = RunPlaces {
            field,
            nodes,
            edges: self.edges.len() / 2,
            lengths: self.lengths.len(),
        };
        run_refusal::check_run(domain, settings.size, settings.sweeps, places)
    }
}

// ---- the stages

// A call, whose result is a double.
fn run_size(settings: Settings) -> f64
    ensures { result ≡ settings.size }
{
    settings.size
}

// The field, and the paving in it: the field's grid, and how the paving ended.
// LIMITS.md, 2: lists side by side, and so are the outline, the settings and the scratch, here and below.
fn draw_and_pave(
    domain: Domain<'_>,
    settings: Settings,
    values: &mut [f64],
    marks: &mut [u8],
    paving: &mut Paving<'_>,
    snapshot: &mut [u32],
    scratch: &mut Scratch<'_>,
    blocks: &mut [u32],
) -> (Grid, End)
    requires { run_refusal (outline_of domain) settings (field_lists values.old marks.old) (unsampled paving.old snapshot.old) ≡ 0 }
    ensures same_lists { SameLists paving.old paving.new }
    ensures same_scratch { SameScratch scratch.old scratch.new }
    ensures can { CanPave (outline_of domain.entry) blocks.new settings.size result.0 values.new (unsampled paving.old snapshot.old) }
    ensures runs { drawn_and_paved (field_record result.0 values.new marks.new) (paved (paving_state paving.new snapshot.new) result.1)
        ≡ run_of (outline_of domain.entry) settings (field_lists values.old marks.old) (unsampled paving.old snapshot.old) }
{
    let size = run_size(settings);
    let grid = field_cross::make_field(domain, size, settings.sweeps, values, marks, blocks);
    let field = CrossField { grid, values };
    let around = Surroundings {
        domain,
        blocks,
        size,
        field,
    };
    let passes = settings.passes;
    let end = run_sampled_advance::sample_and_advance(&around, paving, snapshot, scratch, passes);
    (grid, end)
}

// A run that isn't refused.
fn pave_in(
    domain: Domain<'_>,
    settings: Settings,
    lists: &mut RunLists<'_>,
    scratch: &mut Scratch<'_>,
    blocks: &mut [u32],
) -> Paved
    requires { refusal_of (outline_of domain) settings (lent_in lists.old) ≡ 0 }
    ensures same_lists { SameRunLists lists.old lists.new }
    ensures same_scratch { SameScratch scratch.old scratch.new }
    ensures runs { ran (Ok result) (lent_in lists.new) ≡ accepted_run (outline_of domain.entry) settings (lent_in lists.old) }
{
    let m = lists.snapshot_places();
    let mut paving = Paving {
        xs: lists.xs,
        ys: lists.ys,
        next: lists.next,
        prev: lists.prev,
        quads: lists.quads,
        edges: lists.edges,
        counts: Counts::default(),
    };
    let snapshot = &mut lists.snapshot[..m];
    let (grid, end) = draw_and_pave(
        domain,
        settings,
        lists.values,
        lists.marks,
        &mut paving,
        snapshot,
        scratch,
        blocks,
    );
    let counts = paving.counts;
    run_origins::number_nodes(
        domain,
        settings.size,
        paving.quads(),
        counts.quads,
        lists.origins,
    );
    let listed = front_loop_list::front_loops(
        counts,
        paving.next(),
        snapshot,
        lists.loops,
        lists.lengths,
    );
    let whole = outline_soundness::is_whole(domain, listed.count);
    Paved {
        end,
        grid,
        counts,
        listed,
        whole,
    }
}

// ---- the run

// Paves an outline, in the lists that the caller lends; on a refusal nothing is written. The scratch and the list of blocks are of any length: searches go
// by the pools and the blocks as far as these have room, and `tried` has three numbers for a node from which an edge was tried in vain. The answer doesn't
// depend on what they hold, and what a run leaves in them is free.
pub fn pave(
    domain: Domain<'_>,
    settings: Settings,
    lists: &mut RunLists<'_>,
    scratch: &mut Scratch<'_>,
    blocks: &mut [u32],
) -> Result<Paved, Refusal>
    ensures same_lists { SameRunLists lists.old lists.new }
    ensures same_scratch { SameScratch scratch.old scratch.new }
    ensures paves { Paves (outline_of domain.entry) settings (lent_in lists.old) (numbered result) (lent_in lists.new) }
    ensures spares { Spares (refused result) (scratch_in scratch.old blocks.old) (scratch_in scratch.new blocks.new) }
{
    lists.check_places(domain, settings)?;
    Ok(pave_in(domain, settings, lists, scratch, blocks))
}
