ghost use Rattle.outline.specs.Outline.{outline};
ghost use Rattle.field_direction.specs.Record.{field_record};
ghost use Rattle.front.specs.State.{counted};
ghost use Rattle.hand_mesh_check.specs.Check.{lent_state};
ghost use Rattle.hand_step_entries.specs.Entries.{grid_given, counts_given, HostSteps, HostPreviews};

use hand_step_answers::{PreviewAnswer, StepAnswer};

// A step on the front edge a to b, in the mesh lent: one quad placed or none. Refusals are 1 to 7, 11, 23 and 24, in that order. New nodes take what stands in
// `origins` at node a.
#[unsafe(no_mangle)]
pub extern "C" fn sitjorbe_step<'a>(
    outer: &'a [f64],
    holes: &'a [f64],
    hole_lengths: &[usize],
    size: f64,
    xmin: f64,
    ymin: f64,
    h: f64,
    nx: usize,
    ny: usize,
    values: &[f64],
    marks: &[u8],
    xs: &mut [f64],
    ys: &mut [f64],
    next: &mut [u32],
    prev: &mut [u32],
    origins: &mut [u16],
    quads: &mut [u32],
    edges: &mut [u32],
    node_count: u32,
    quad_count: usize,
    edge_count: usize,
    front_count: usize,
    a: u32,
    b: u32,
) -> StepAnswer
    ensures { HostSteps (outline outer.now holes.now hole_lengths.now) size
        (field_record (grid_given xmin ymin h nx ny) values.now marks.now) a b
        (lent_state xs.old ys.old next.old prev.old origins.old quads.old
        edges.old (counted node_count quad_count edge_count front_count)) origins.old result
        (lent_state xs.new ys.new next.new prev.new origins.new quads.new
        edges.new (counts_given (counted node_count quad_count edge_count front_count) result)) origins.new }
{
    hand_step_entries::sitjorbe_step(
        outer,
        holes,
        hole_lengths,
        size,
        xmin,
        ymin,
        h,
        nx,
        ny,
        values,
        marks,
        xs,
        ys,
        next,
        prev,
        origins,
        quads,
        edges,
        node_count,
        quad_count,
        edge_count,
        front_count,
        a,
        b,
    )
}

// What a step on the front edge a to b would do, and in the list the front edges that it would leave, u then v, by their first node: an edge takes two
// numbers. The mesh is only read.
#[unsafe(no_mangle)]
pub extern "C" fn sitjorbe_preview<'a>(
    outer: &'a [f64],
    holes: &'a [f64],
    hole_lengths: &[usize],
    size: f64,
    xmin: f64,
    ymin: f64,
    h: f64,
    nx: usize,
    ny: usize,
    values: &[f64],
    marks: &[u8],
    xs: &[f64],
    ys: &[f64],
    next: &[u32],
    prev: &[u32],
    origins: &[u16],
    quads: &[u32],
    edges: &[u32],
    node_count: u32,
    quad_count: usize,
    edge_count: usize,
    front_count: usize,
    a: u32,
    b: u32,
    list: &mut [u32],
) -> PreviewAnswer
    ensures { HostPreviews (outline outer.now holes.now hole_lengths.now) size
        (field_record (grid_given xmin ymin h nx ny) values.now marks.now) a b
        (lent_state xs.now ys.now next.now prev.now origins.now quads.now
        edges.now (counted node_count quad_count edge_count front_count)) list.old result list.new }
{
    hand_step_entries::sitjorbe_preview(
        outer,
        holes,
        hole_lengths,
        size,
        xmin,
        ymin,
        h,
        nx,
        ny,
        values,
        marks,
        xs,
        ys,
        next,
        prev,
        origins,
        quads,
        edges,
        node_count,
        quad_count,
        edge_count,
        front_count,
        a,
        b,
        list,
    )
}
