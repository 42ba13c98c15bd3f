// Whether a lent mesh is sound, and whether an edge is on its front: refusals 23 and 24. The lists are only read.
#![tactic(auto)]

ghost use Rattle.std.specs.Prelude.{◌≡◌, ◌*◌, ◌≤◌, ◌<◌, length, get_or};
ghost use Rattle.std.specs.Float.{nan};
ghost use Rattle.laws.specs.Loop.{any_up};
ghost use Rattle.outline.specs.Refusals.{refused};
ghost use Rattle.hand_mesh_check.specs.Check.{lent_in, beyond_places, beyond_nodes, ids_beyond, link_unsound, link_count, front_unsound};
ghost use Rattle.hand_mesh_check.specs.Check.{coordinate_unsound, node_unsound, mesh_refusal, links_of, edge_refusal};

use front::{Mesh, OFF};
use outline::Refusal;

// A lent mesh with the numbers of its nodes' loops of origin.
#[derive(Clone, Copy)]
pub struct NumberedMesh<'m, 'o> {
    pub mesh: Mesh<'m>,
    pub origins: &'o [u16],
}

// The farthest coordinate of a node, either way: a rounded inside test may let one pass 1,000.
pub const FARTHEST_NODE: f64 = 1001.0;

// ---- ids out of range

// Whether one of the first m ids is that of no node, where there are n.
pub fn any_beyond(ids: &[u32], m: usize, n: u32) -> bool
    requires { m ≤ length ids.now }
    ensures { result ≡ any_up m (beyond_nodes n ids.now) }
{
    ids[..m].iter().any(|&id| id >= n)
}

#[tactic(auto, unfolding(crate::specs::Check::ids_beyond))]
fn ids_beyond(mesh: &Mesh<'_>) -> bool
    requires { (4 * mesh.now.counts.quads ≤ length mesh.now.quads.now) × (2 * mesh.now.counts.edges ≤ length mesh.now.edges.now) }
    ensures { result ≡ ids_beyond mesh.now.counts.nodes mesh.now.quads.now mesh.now.counts.quads mesh.now.edges.now mesh.now.counts.edges }
{
    let k = mesh.counts;
    any_beyond(mesh.quads, 4 * k.quads, k.nodes) || any_beyond(mesh.edges, 2 * k.edges, k.nodes)
}

// ---- the front's links

// Whether the link of node u is out of range, or isn't answered by the link back.
// Of two lists: it is asked of the links forward and of the links back.
#[tactic(auto, unfolding(crate::specs::Check::link_unsound, topology::specs::Links::link_of))]
fn link_unsound(n: u32, links: &[u32], back: &[u32], u: u32) -> bool
    requires { (u < n) × (n ≤ length links.now) × (n ≤ length back.now) }
    ensures { result ≡ link_unsound n links.now back.now u }
{
    let v = links[u as usize];
    v != OFF && (v >= n || back[v as usize] != u)
}

fn any_link_unsound(n: u32, links: &[u32], back: &[u32]) -> bool
    requires { (n ≤ length links.now) × (n ≤ length back.now) }
    ensures { result ≡ any_up n (link_unsound n links.now back.now) }
{
    (0..n).any(|u| link_unsound(n, links, back, u))
}

// How many of the first n nodes have a link.
fn count_links(n: u32, links: &[u32]) -> usize
    requires { n ≤ length links.now }
    ensures { result ≡ link_count n links.now }
{
    links[..n as usize].iter().filter(|&&v| v != OFF).count()
}

#[tactic(auto, unfolding(crate::specs::Check::front_unsound))]
fn front_unsound(mesh: &Mesh<'_>) -> bool
    requires { (mesh.now.counts.nodes ≤ length mesh.now.next.now) × (mesh.now.counts.nodes ≤ length mesh.now.prev.now) }
    ensures { result ≡ front_unsound mesh.now.counts.nodes mesh.now.next.now mesh.now.prev.now mesh.now.counts.front }
{
    let n = mesh.counts.nodes;
    any_link_unsound(n, mesh.next, mesh.prev)
        || any_link_unsound(n, mesh.prev, mesh.next)
        || count_links(n, mesh.next) != mesh.counts.front
}

// ---- coordinates

// Whether a coordinate isn't finite, or is beyond 1,001 either way.
#[tactic(auto, unfolding(crate::specs::Check::coordinate_unsound))]
fn coordinate_unsound(x: f64) -> bool
    ensures { result ≡ coordinate_unsound x }
{
    !field_direction::is_within(FARTHEST_NODE, x)
}

// Whether one of the first n coordinates is.
fn any_unsound(coordinates: &[f64], n: usize) -> bool
    requires { n ≤ length coordinates.now }
    ensures { result ≡ any_up n (λ i. coordinate_unsound (get_or coordinates.now i nan)) }
{
    coordinates[..n].iter().any(|&x| coordinate_unsound(x))
}

pub fn any_node_unsound(mesh: &Mesh<'_>) -> bool
    requires { (mesh.now.counts.nodes ≤ length mesh.now.xs.now) × (mesh.now.counts.nodes ≤ length mesh.now.ys.now) }
    ensures { result ≡ any_up mesh.now.counts.nodes (node_unsound mesh.now.xs.now mesh.now.ys.now) }
{
    let n = mesh.counts.nodes as usize;
    any_unsound(mesh.xs, n) || any_unsound(mesh.ys, n)
}

// ---- 23 and 24

impl NumberedMesh<'_, '_> {
    // Whether n nodes, q quads or e edges are beyond the places lent.
    #[tactic(auto, using(crate::specs::CheckLaws::length_off), unfolding(crate::specs::Check::beyond_places, front::specs::Stores::places_exceeded, front::specs::State::node_places, front::specs::State::quad_places, front::specs::State::edge_places))]
    pub fn lacks_places(&self, n: usize, q: usize, e: usize) -> bool
        ensures { result ≡ beyond_places (lent_in self.now.mesh self.now.origins.now) n q e }
    {
        self.mesh.lacks_places(self.origins.len(), n, q, e)
    }

    // Refusal 23, on every input.
    #[tactic(auto, unfolding(crate::specs::Check::mesh_refusal, crate::specs::Check::mesh_unsound))]
    pub fn check(&self) -> Result<(), Refusal>
        ensures { refused result ≡ mesh_refusal (lent_in self.now.mesh self.now.origins.now) }
    {
        let k = self.mesh.counts;
        if self.lacks_places(k.nodes as usize, k.quads, k.edges)
            || ids_beyond(&self.mesh)
            || front_unsound(&self.mesh)
            || any_node_unsound(&self.mesh)
        {
            return Err(Refusal::UnsoundMesh);
        }
        Ok(())
    }
}

// Refusal 24.
// Of the mesh alone: of the nodes' origins it reads none.
#[tactic(auto, unfolding(crate::specs::Check::edge_refusal, topology::specs::Links::link_of))]
pub fn check_edge(mesh: &Mesh<'_>, a: u32, b: u32) -> Result<(), Refusal>
    requires { mesh.now.counts.nodes ≤ length mesh.now.next.now }
    ensures { refused result ≡ edge_refusal (links_of mesh.now.next.now mesh.now.counts.nodes) a b }
{
    if b == OFF || a >= mesh.counts.nodes || mesh.next[a as usize] != b {
        return Err(Refusal::NotOnFront);
    }
    Ok(())
}
