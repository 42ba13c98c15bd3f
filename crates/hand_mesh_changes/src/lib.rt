// The changes that a placing makes of the edges of a paving, one at a time: a mesh edge, a front edge. Nothing is asked of the front's loops, nor of
// which edges are known. A node is `Paving::push_node`.
#![tactic(auto)]

ghost use Rattle.std.specs.Prelude.{◌≡◌, ◌+◌, ◌*◌, ◌^◌, ◌≤◌, ◌<◌, length};
ghost use Rattle.front.specs.State.{has_edge, add_edge, remove_front, add_front};
ghost use Rattle.front.specs.Lent.{mesh_state, SameLists};
ghost use Rattle.front.specs.Place.{missing, edges_added};
ghost use Rattle.hand_mesh_changes.specs.Parts.{LinkFits, EdgeFits, ChangedBy, LinksKept};

use front::{Mesh, OFF, Paving};

// ---- the mesh edges

// Whether a mesh edge joins u and v.
#[tactic(auto, unfolding(front::specs::State::has_edge))]
fn has_edge(mesh: &Mesh<'_>, u: u32, v: u32) -> bool
    requires { 2 * mesh.now.counts.edges ≤ length mesh.now.edges.now }
    ensures { result ≡ has_edge (mesh_state mesh.now) u v }
{
    let lo = u.min(v);
    let hi = u.max(v);
    (0..mesh.counts.edges).any(|k| front_lent_mesh::edge_at(mesh.edges, k) == (lo, hi))
}

// Adds the mesh edge u to v, unless there is one.
// An edge is two ids, here and below, as hosts give it and definitions name it.
#[tactic(auto, unfolding(front::specs::State::add_edge, front::specs::State::has_edge, front::specs::State::push_edge))]
pub fn add_edge(paving: &mut Paving<'_>, u: u32, v: u32)
    requires { EdgeFits paving.old u v }
    ensures same { SameLists paving.old paving.new }
    ensures added { ChangedBy (add_edge u v) paving.old paving.new }
{
    if has_edge(&paving.mesh(), u, v) {
        return;
    }
    let n = paving.counts.edges;
    front::write_edge(paving.edges, n, u, v);
    paving.counts.edges = n + 1;
}

// How many edges u to v adds.
fn missing(mesh: &Mesh<'_>, u: u32, v: u32) -> usize
    requires { 2 * mesh.now.counts.edges ≤ length mesh.now.edges.now }
    ensures { (result ≡ missing (mesh_state mesh.now) u v) × (result ≤ 1) }
{
    usize::from(!has_edge(mesh, u, v))
}

// How many distinct edges the quad a, b, d, c adds.
#[tactic(auto, unfolding(front::specs::Place::edges_added))]
pub fn edges_added(mesh: &Mesh<'_>, a: u32, b: u32, d: u32, c: u32) -> usize
    requires { 2 * mesh.now.counts.edges ≤ length mesh.now.edges.now }
    ensures { (result ≡ edges_added (mesh_state mesh.now) a b d c) × (result ≤ 4) }
{
    missing(mesh, a, b) + missing(mesh, b, d) + missing(mesh, d, c) + missing(mesh, c, a)
}

// ---- the front

// Takes the front edge u to v off, where it is there.
#[tactic(auto, unfolding(front::specs::State::remove_front, topology::specs::Links::link_of))]
pub fn remove_front(paving: &mut Paving<'_>, u: u32, v: u32)
    requires { LinkFits paving.old u v }
    ensures same { SameLists paving.old paving.new }
    ensures removed { ChangedBy (remove_front u v) paving.old paving.new }
    ensures kept { LinksKept paving.old paving.new }
    ensures few { paving.new.counts.front ≤ paving.old.counts.front }
{
    if paving.next()[u as usize] != v {
        return;
    }
    paving.next[u as usize] = OFF;
    paving.prev[v as usize] = OFF;
    paving.counts.front = paving.counts.front.saturating_sub(1);
}

// Makes u to v a front edge.
#[tactic(auto, unfolding(front::specs::State::add_front, topology::specs::Links::link_of))]
pub fn add_front(paving: &mut Paving<'_>, u: u32, v: u32)
    requires { LinkFits paving.old u v × (paving.old.counts.front < 2 ^ 63) }
    ensures same { SameLists paving.old paving.new }
    ensures added { ChangedBy (add_front u v) paving.old paving.new }
    ensures kept { LinksKept paving.old paving.new }
    ensures few { paving.new.counts.front ≤ paving.old.counts.front + 1 }
{
    let was = paving.next()[u as usize];
    front::link(paving.next, paving.prev, u, v);
    if was == OFF {
        paving.counts.front += 1;
    }
}
