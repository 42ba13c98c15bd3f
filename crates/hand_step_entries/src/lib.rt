// The public entries of hand stepping: what a host calls, on numbers and slices. None has a `requires`. A step writes nothing where it is refused, and a
// preview writes its list alone.
#![tactic(auto)]

ghost use Rattle.std.specs.Prelude.{◌≡◌};
ghost use Rattle.outline.specs.Outline.{outline, outline_of};
ghost use Rattle.outline.specs.Refusals.{refused};
ghost use Rattle.field_direction.specs.Record.{field_record, field_lent};
ghost use Rattle.front.specs.State.{counted};
ghost use Rattle.front.specs.Lent.{SameLists};
ghost use Rattle.hand_mesh_check.specs.Check.{lent_state, lent_in, lent_paving};
ghost use Rattle.hand_step_entries.specs.Entries.{grid_given, given_refusal, counts_given, HostSteps, HostPreviews};

use field_direction::{CrossField, Grid};
use front::{Counts, Mesh, Paving};
use hand_mesh_check::NumberedMesh;
use hand_step_answers::{PreviewAnswer, StepAnswer};
use hand_steps::Given;
use outline::{Domain, Refusal};

// ---- refusals 1 to 7 and 11

fn check_given(given: &Given<'_>, marks: &[u8]) -> Result<(), Refusal>
    ensures { refused result ≡ given_refusal (outline_of given.now.domain) given.now.size (field_lent given.now.field marks.now) }
{
    field_cross::check_drawn(given.domain, given.size)?;
    field_direction::check_record(given.field, marks)
}

// ---- a step and a preview in what is lent
// LIMITS.md, 2: the outline, the size and the field one by one, and no `Given`, whose loans would have two lifetimes
// of C's head as one.

fn step_in<'a>(
    domain: Domain<'a>,
    size: f64,
    field: CrossField<'a>,
    marks: &[u8],
    paving: &mut Paving<'_>,
    origins: &mut [u16],
    a: u32,
    b: u32,
) -> StepAnswer
    ensures same { SameLists paving.old paving.new }
    ensures steps { HostSteps (outline_of domain.entry) size (field_lent field.entry marks.now) a b
        (lent_paving paving.old origins.old) origins.old result
        (lent_state paving.new.xs.now paving.new.ys.now paving.new.next.now paving.new.prev.now origins.new
        paving.new.quads.now paving.new.edges.now (counts_given paving.old.counts result)) origins.new }
{
    let given = Given {
        domain,
        size,
        field,
    };
    // A test and a return, here and in `preview_in`: the answer is C's struct, of which `?` makes nothing.
    if let Err(refusal) = check_given(&given, marks) {
        return StepAnswer::from(refusal);
    }
    let step = hand_stepping::step(&given, paving, origins, a, b);
    StepAnswer::new(step, paving.counts)
}

fn preview_in<'a>(
    domain: Domain<'a>,
    size: f64,
    field: CrossField<'a>,
    marks: &[u8],
    lent: NumberedMesh<'_, '_>,
    a: u32,
    b: u32,
    list: &mut [u32],
) -> PreviewAnswer
    ensures { HostPreviews (outline_of domain.entry) size (field_lent field.entry marks.now) a b
        (lent_in lent.entry.mesh lent.entry.origins.now) list.old result list.new }
{
    let given = Given {
        domain,
        size,
        field,
    };
    if let Err(refusal) = check_given(&given, marks) {
        return PreviewAnswer::from(refusal);
    }
    let preview = hand_previews::preview(&given, lent, a, b, list);
    PreviewAnswer::new(preview, lent.mesh.counts.nodes, a, b)
}

// ---- the entries
// What C gives one by one is made a field, a mesh and counts by literals, here and in `bowl`, so that each number
// keeps its name.

// A step on the front edge a to b, in the mesh lent: one quad placed or none. Refusals are 1 to 7, 11, 23 and 24, in that order. New nodes take what stands in
// `origins` at node a.
#[unsafe(no_mangle)]
pub extern "C" fn sitjorbe_step<'a>(
    outer: &'a [f64],
    holes: &'a [f64],
    hole_lengths: &[usize],
    size: f64,
    xmin: f64,
    ymin: f64,
    h: f64,
    nx: usize,
    ny: usize,
    values: &[f64],
    marks: &[u8],
    xs: &mut [f64],
    ys: &mut [f64],
    next: &mut [u32],
    prev: &mut [u32],
    origins: &mut [u16],
    quads: &mut [u32],
    edges: &mut [u32],
    node_count: u32,
    quad_count: usize,
    edge_count: usize,
    front_count: usize,
    a: u32,
    b: u32,
) -> StepAnswer
    ensures { HostSteps (outline outer.now holes.now hole_lengths.now) size
        (field_record (grid_given xmin ymin h nx ny) values.now marks.now) a b
        (lent_state xs.old ys.old next.old prev.old origins.old quads.old
        edges.old (counted node_count quad_count edge_count front_count)) origins.old result
        (lent_state xs.new ys.new next.new prev.new origins.new quads.new
        edges.new (counts_given (counted node_count quad_count edge_count front_count) result)) origins.new }
{
    let domain = Domain {
        outer,
        holes,
        lens: hole_lengths,
    };
    let field = CrossField {
        grid: Grid {
            xmin,
            ymin,
            h,
            nx,
            ny,
        },
        values,
    };
    let mut paving = Paving {
        xs,
        ys,
        next,
        prev,
        quads,
        edges,
        counts: Counts {
            nodes: node_count,
            quads: quad_count,
            edges: edge_count,
            front: front_count,
        },
    };
    step_in(domain, size, field, marks, &mut paving, origins, a, b)
}

// What a step on the front edge a to b would do, and in the list the front edges that it would leave, u then v, by their first node: an edge takes two
// numbers. The mesh is only read.
#[unsafe(no_mangle)]
pub extern "C" fn sitjorbe_preview<'a>(
    outer: &'a [f64],
    holes: &'a [f64],
    hole_lengths: &[usize],
    size: f64,
    xmin: f64,
    ymin: f64,
    h: f64,
    nx: usize,
    ny: usize,
    values: &[f64],
    marks: &[u8],
    xs: &[f64],
    ys: &[f64],
    next: &[u32],
    prev: &[u32],
    origins: &[u16],
    quads: &[u32],
    edges: &[u32],
    node_count: u32,
    quad_count: usize,
    edge_count: usize,
    front_count: usize,
    a: u32,
    b: u32,
    list: &mut [u32],
) -> PreviewAnswer
    ensures { HostPreviews (outline outer.now holes.now hole_lengths.now) size
        (field_record (grid_given xmin ymin h nx ny) values.now marks.now) a b
        (lent_state xs.now ys.now next.now prev.now origins.now quads.now
        edges.now (counted node_count quad_count edge_count front_count)) list.old result list.new }
{
    let domain = Domain {
        outer,
        holes,
        lens: hole_lengths,
    };
    let field = CrossField {
        grid: Grid {
            xmin,
            ymin,
            h,
            nx,
            ny,
        },
        values,
    };
    let mesh = Mesh {
        xs,
        ys,
        next,
        prev,
        quads,
        edges,
        counts: Counts {
            nodes: node_count,
            quads: quad_count,
            edges: edge_count,
            front: front_count,
        },
    };
    let lent = NumberedMesh { mesh, origins };
    preview_in(domain, size, field, marks, lent, a, b, list)
}
