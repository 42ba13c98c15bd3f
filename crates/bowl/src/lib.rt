// The motor bowl: the nodes of a lent mesh in whole steps of 1/64 degree, refused where a quad doesn't turn left in steps at all four corners.
#![tactic(auto)]

ghost use Rattle.std.specs.Prelude.{◌≡◌, not, ◌*◌, ◌≤◌, ◌<◌, length};
ghost use Rattle.outline.specs.Accepted.{AllFit};
ghost use Rattle.outline_orientation.specs.Orient.{way};
ghost use Rattle.front.specs.State.{counted};
ghost use Rattle.front_lent_mesh.specs.Mesh.{quad_in};
ghost use Rattle.hand_mesh_check.specs.Check.{lent_state, lent_in};
ghost use Rattle.bowl.specs.Steps.{steps_at, turns_left, is_shown, lowest_hidden, hidden_answer, steps_answer, stored_steps};
ghost use Rattle.bowl.specs.Stepped.{vector, NodeWithin, FewSteps, IsVector, QuadWithin, QuadsWithin, NodesWithin, MeshStepped};

use front::{Counts, Mesh};
use front_lent_mesh::QuadIds;
use hand_mesh_check::NumberedMesh;
use outline::Refusal;

// `refusal` is 23 or 25, 0 where nothing is refused; `quad` is the lowest quad that the bowl can't show, where 25 says so.
#[repr(C)]
#[derive(Clone, Copy, Default)]
pub struct BowlStepsAnswer {
    pub refusal: u32,
    pub quad: usize,
}

// ---- a quad

// A node's place in steps, or the way from one to another.
#[derive(Clone, Copy)]
pub struct Steps {
    pub x: i64,
    pub y: i64,
}

impl Steps {
    // The way from here to b.
    fn way(self, b: Steps) -> Steps
        requires { FewSteps 64064 self × FewSteps 64064 b }
        ensures { IsVector 128128 result (way (vector self) (vector b)) }
    {
        Steps {
            x: b.x - self.x,
            y: b.y - self.y,
        }
    }

    // Whether this way and then the way q turn left.
    fn is_left(self, q: Steps) -> bool
        requires { FewSteps 128128 self × FewSteps 128128 q }
        ensures { result ≡ turns_left (vector self) (vector q) }
    {
        self.y * q.x < self.x * q.y
    }
}

// Where a node is.
fn steps_at(mesh: &Mesh<'_>, id: u32) -> Steps
    requires { NodeWithin mesh.now.xs.now mesh.now.ys.now id }
    ensures { IsVector 64064 result (steps_at mesh.now.xs.now mesh.now.ys.now id) }
{
    let i = id as usize;
    let x = bowl_nearest_step::nearest_step(mesh.xs[i]);
    let y = bowl_nearest_step::nearest_step(mesh.ys[i]);
    Steps {
        x: x as i64,
        y: y as i64,
    }
}

// Whether the quad turns left in steps at all four corners.
fn is_shown(mesh: &Mesh<'_>, q: QuadIds) -> bool
    requires { QuadWithin mesh.now.xs.now mesh.now.ys.now q }
    ensures { result ≡ is_shown mesh.now.xs.now mesh.now.ys.now q }
{
    let a = steps_at(mesh, q.a);
    let b = steps_at(mesh, q.b);
    let d = steps_at(mesh, q.d);
    let c = steps_at(mesh, q.c);
    let ab = a.way(b);
    let bd = b.way(d);
    let dc = d.way(c);
    let ca = c.way(a);
    ca.is_left(ab) && ab.is_left(bd) && bd.is_left(dc) && dc.is_left(ca)
}

// Whether quad k can't be shown.
fn is_hidden(mesh: &Mesh<'_>, k: usize) -> bool
    requires { QuadsWithin mesh.now.xs.now mesh.now.ys.now mesh.now.quads.now mesh.now.counts.quads × (k < mesh.now.counts.quads) }
    ensures { result ≡ not (is_shown mesh.now.xs.now mesh.now.ys.now (quad_in mesh.now.quads.now k)) }
{
    !is_shown(mesh, front_lent_mesh::quad_at(mesh.quads, k))
}

// The lowest quad that can't be shown.
fn lowest_hidden(mesh: &Mesh<'_>) -> Option<usize>
    requires { QuadsWithin mesh.now.xs.now mesh.now.ys.now mesh.now.quads.now mesh.now.counts.quads }
    ensures { hidden_answer result ≡ lowest_hidden mesh.now.xs.now mesh.now.ys.now mesh.now.quads.now mesh.now.counts.quads }
{
    (0..mesh.counts.quads).find(|&k| is_hidden(mesh, k))
}

// ---- the step buffer

// The steps of the nodes, two places a node.
// LIMITS.md, 1: indexed.
fn store_steps(mesh: &Mesh<'_>, steps: &mut [i32])
    requires { NodesWithin mesh.now.xs.now mesh.now.ys.now mesh.now.counts.nodes × (2 * mesh.now.counts.nodes ≤ length steps.old) }
    ensures { steps.new ≡ stored_steps mesh.now.xs.now mesh.now.ys.now mesh.now.counts.nodes steps.old }
{
    for i in 0..mesh.counts.nodes as usize {
        steps[2 * i] = bowl_nearest_step::nearest_step(mesh.xs[i]);
        steps[2 * i + 1] = bowl_nearest_step::nearest_step(mesh.ys[i]);
    }
}

// ---- the entry

// 23 of the mesh, 23 where a node hasn't two of the places, then 25.
// It answers C's struct: as the error of a `Result` it would be there too, since 25 has a quad, and the entry would
// owe besides that its refusal isn't 0.
fn steps_answer(lent: NumberedMesh<'_, '_>, places: usize) -> BowlStepsAnswer
    requires { AllFit lent.mesh.xs.now × AllFit lent.mesh.ys.now }
    ensures { result ≡ steps_answer (lent_in lent.entry.mesh lent.entry.origins.now) places }
{
    if lent.check().is_err() || places / 2 < lent.mesh.counts.nodes as usize {
        return BowlStepsAnswer {
            refusal: u32::from(Refusal::UnsoundMesh),
            ..BowlStepsAnswer::default()
        };
    }
    match lowest_hidden(&lent.mesh) {
        Some(quad) => BowlStepsAnswer {
            refusal: u32::from(Refusal::NotShown),
            quad,
        },
        None => BowlStepsAnswer::default(),
    }
}

// The nodes of a lent mesh in whole steps of 1/64 degree, each coordinate at the nearest step, halves at the even one. The mesh is only read, and the buffer is
// written once nothing is refused.
#[unsafe(no_mangle)]
pub extern "C" fn sitjorbe_bowl_steps(
    xs: &[f64],
    ys: &[f64],
    next: &[u32],
    prev: &[u32],
    origins: &[u16],
    quads: &[u32],
    edges: &[u32],
    node_count: u32,
    quad_count: usize,
    edge_count: usize,
    front_count: usize,
    steps: &mut [i32],
) -> BowlStepsAnswer
    ensures { MeshStepped
        (lent_state xs.now ys.now next.now prev.now origins.now quads.now
        edges.now (counted node_count quad_count edge_count front_count)) steps.old result steps.new }
{
    let mesh = Mesh {
        xs,
        ys,
        next,
        prev,
        quads,
        edges,
        counts: Counts {
            nodes: node_count,
            quads: quad_count,
            edges: edge_count,
            front: front_count,
        },
    };
    let r = steps_answer(NumberedMesh { mesh, origins }, steps.len());
    let given = r.refusal == 0;
    if given {
        store_steps(&mesh, steps);
    }
    r
}
