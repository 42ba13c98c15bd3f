// A lent list in which a run notes the edges that it tried in vain, so that none is tried twice: three numbers a node, for as many nodes as it has
// places. That what it has of an edge spares the try is the law `vain_fails` in proofs/VainLaws.antt.
#![tactic(auto)]

ghost use Rattle.std.specs.Prelude.{◌≡◌};
ghost use Rattle.topology.specs.Links.{link_of};
ghost use Rattle.front.specs.Lent.{mesh_state};
ghost use Rattle.paving.specs.Lent.{outline_in, field_in};
ghost use Rattle.paving.specs.Attempt.{try_edge};
ghost use Rattle.paving_attempts.specs.Seen.{seen_of, seen_edges, TryLent};
ghost use Rattle.paving_retries.specs.Vain.{is_vain, noted, tried_after, forgotten, Remembers};
ghost use Rattle.paving_retries.specs.Untried.{Untried};

use front::{FarCorners, Mesh};
use paving::Surroundings;
use paving_indexed::Pools;

// ---- the list

// Of a list lent, as in `paving_snapshots`.
// Nothing was tried from the nodes `from`, .., `to` - 1, and no stretch begins at one.
pub fn forget(tried: &mut [u32], from: u32, to: u32)
    ensures { tried.new ≡ forgotten from to tried.old }
{
    for a in from..to {
        paving_snapshots::set_stretch(tried, a, 0);
    }
}

// Whether the edge from a to b was last tried in vain, between the neighbours p and q.
#[tactic(auto, unfolding(crate::specs::Vain::is_vain))]
pub fn is_vain(tried: &[u32], a: u32, b: u32, p: u32, q: u32) -> bool
    ensures { result ≡ is_vain tried.now a b p q }
{
    let i = a as usize;
    i < tried.len() / 3 && tried[3 * i] == b && tried[3 * i + 1] == p && tried[3 * i + 2] == q
}

// Notes that the edge from a to b was tried in vain, between the neighbours p and q.
#[tactic(auto, unfolding(crate::specs::Vain::noted))]
pub fn note(tried: &mut [u32], a: u32, b: u32, p: u32, q: u32)
    ensures { tried.new ≡ noted tried.old a b p q }
{
    let i = a as usize;
    if i < tried.len() / 3 {
        tried[3 * i..3 * i + 3].copy_from_slice(&[b, p, q]);
    }
}

// ---- a try

// What `paving_attempts::try_edge` answers on the front edge a to b. It isn't asked where the edge was tried in vain between the same neighbours, and what it
// answers in vain is noted.
pub fn try_untried(
    around: &Surroundings<'_>,
    mesh: &Mesh<'_>,
    pools: Pools<'_>,
    tried: &mut [u32],
    a: u32,
    b: u32,
) -> Option<FarCorners>
    requires lent { TryLent around.now.field.grid around.now.field.values.now around.now.size mesh.now.xs.now
        mesh.now.ys.now mesh.now.next.now mesh.now.prev.now mesh.now.edges.now pools.nodes.now pools.edges.now mesh.now.counts }
    requires untried { Untried (outline_in around.now) around.now.size (field_in around.now) (seen_of (mesh_state mesh.now)) tried.old a b }
    ensures answer { result ≡ try_edge (outline_in around.now) around.now.size (field_in around.now) (seen_of (mesh_state mesh.now)) a b }
    ensures remembers { Remembers (outline_in around.now) around.now.size (field_in around.now) tried.new
        (seen_edges mesh.now.xs.now mesh.now.ys.now mesh.now.edges.now mesh.now.counts) }
    ensures tried { tried.new ≡ tried_after result tried.old a b (link_of mesh.now.counts.nodes mesh.now.prev.now a)
        (link_of mesh.now.counts.nodes mesh.now.next.now b) }
{
    let nodes = mesh.counts.nodes;
    let p = front::link_of(mesh.prev, nodes, a);
    let q = front::link_of(mesh.next, nodes, b);
    if is_vain(tried, a, b, p, q) {
        return None;
    }
    let attempt = paving_attempts::try_edge(around, mesh, pools, a, b);
    if attempt.is_none() {
        note(tried, a, b, p, q);
    }
    attempt
}
