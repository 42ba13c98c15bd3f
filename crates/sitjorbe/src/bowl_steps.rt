ghost use Rattle.front.specs.State.{counted};
ghost use Rattle.hand_mesh_check.specs.Check.{lent_state};
ghost use Rattle.bowl.specs.Stepped.{MeshStepped};

use bowl::BowlStepsAnswer;

// The nodes of a lent mesh in whole steps of 1/64 degree, each coordinate at the nearest step, halves at the even one. The mesh is only read, and the buffer is
// written once nothing is refused.
#[unsafe(no_mangle)]
pub extern "C" fn sitjorbe_bowl_steps(
    xs: &[f64],
    ys: &[f64],
    next: &[u32],
    prev: &[u32],
    origins: &[u16],
    quads: &[u32],
    edges: &[u32],
    node_count: u32,
    quad_count: usize,
    edge_count: usize,
    front_count: usize,
    steps: &mut [i32],
) -> BowlStepsAnswer
    ensures { MeshStepped
        (lent_state xs.now ys.now next.now prev.now origins.now quads.now
        edges.now (counted node_count quad_count edge_count front_count)) steps.old result steps.new }
{
    bowl::sitjorbe_bowl_steps(
        xs,
        ys,
        next,
        prev,
        origins,
        quads,
        edges,
        node_count,
        quad_count,
        edge_count,
        front_count,
        steps,
    )
}
