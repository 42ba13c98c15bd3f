// One edge of a pass of the paving (src/alt_crossfield.rs): it is tried, and the quad that is answered is placed and filed.
#![tactic(auto)]

ghost use Rattle.std.specs.Prelude.{◌≡◌, ◌*◌, ◌≤◌, ◌<◌, length};
ghost use Rattle.topology.specs.Links.{link_of};
ghost use Rattle.front.specs.Lent.{paving_state, mesh_state, SameLists};
ghost use Rattle.paving_indexed.specs.Rects.{NodesFiled, EdgesFiled};
ghost use Rattle.paving_attempts.specs.Seen.{seen_of, seen_edges, TryLent};
ghost use Rattle.paving_retries.specs.Vain.{tried_after, forgotten, Remembers};
ghost use Rattle.paving_retries.specs.Untried.{Untried};
ghost use Rattle.paving.specs.Attempt.{try_edge};
ghost use Rattle.paving.specs.Lent.{outline_in, field_in, SameScratch};
ghost use Rattle.paving_ends.specs.Answers.{Settles};
ghost use Rattle.paving_settling.specs.Paveable.{PaveableIn};
ghost use Rattle.paving_settling.specs.Searchable.{SearchableIn, HelpedIn};

use front::{Counts, FarCorners, Full, Mesh, Paving};
use paving::{End, Scratch, Surroundings};
use paving_indexed::Pools;
use std::ops::ControlFlow;

// Files what the mesh counts and `k` doesn't; nothing was tried from nodes that are new.
fn file_added(size: f64, mesh: &Mesh<'_>, scratch: &mut Scratch<'_>, k: Counts)
    requires nodes { NodesFiled scratch.old.node_pool.now size mesh.now.xs.now mesh.now.ys.now k.nodes mesh.now.counts.nodes }
    requires edges { EdgesFiled scratch.old.edge_pool.now size mesh.now.xs.now mesh.now.ys.now mesh.now.edges.now k.edges mesh.now.counts.edges }
    ensures same { SameScratch scratch.old scratch.new }
    ensures filed { SearchableIn size (mesh_state mesh.now) scratch.new.node_pool.now scratch.new.edge_pool.now }
    ensures tried { scratch.new.tried.now ≡ forgotten k.nodes mesh.now.counts.nodes scratch.old.tried.now }
{
    paving_indexed::file_nodes(scratch.node_pool, size, mesh, k.nodes);
    paving_indexed::file_edges(scratch.edge_pool, size, mesh, k.edges);
    paving_retries::forget(scratch.tried, k.nodes, mesh.counts.nodes);
}

// `paving_retries::try_untried` with the lists of a scratch, of which it only reads the pools.
fn try_in_scratch(
    around: &Surroundings<'_>,
    mesh: &Mesh<'_>,
    node_pool: &mut [u32],
    edge_pool: &mut [u32],
    tried: &mut [u32],
    a: u32,
    b: u32,
) -> Option<FarCorners>
    requires lent { TryLent around.now.field.grid around.now.field.values.now around.now.size mesh.now.xs.now
        mesh.now.ys.now mesh.now.next.now mesh.now.prev.now mesh.now.edges.now node_pool.old edge_pool.old mesh.now.counts }
    requires untried { Untried (outline_in around.now) around.now.size (field_in around.now) (seen_of (mesh_state mesh.now)) tried.old a b }
    ensures pools { (node_pool.new ≡ node_pool.old) × (edge_pool.new ≡ edge_pool.old) }
    ensures answer { result ≡ try_edge (outline_in around.now) around.now.size (field_in around.now) (seen_of (mesh_state mesh.now)) a b }
    ensures remembers { Remembers (outline_in around.now) around.now.size (field_in around.now) tried.new
        (seen_edges mesh.now.xs.now mesh.now.ys.now mesh.now.edges.now mesh.now.counts) }
    ensures tried { tried.new ≡ tried_after result tried.old a b (link_of mesh.now.counts.nodes mesh.now.prev.now a)
        (link_of mesh.now.counts.nodes mesh.now.next.now b) }
{
    let pools = Pools {
        nodes: node_pool,
        edges: edge_pool,
    };
    paving_retries::try_untried(around, mesh, pools, tried, a, b)
}

// Tries the snapshot's edge from node a, and places and files the quad that is answered: whether there is one, or how the paving ends.
// LIMITS.md, 2: four loans, here and where they are handed on.
pub fn settle_edge(
    around: &Surroundings<'_>,
    paving: &mut Paving<'_>,
    snapshot: &[u32],
    scratch: &mut Scratch<'_>,
    a: u32,
) -> ControlFlow<End, bool>
    requires paveable { PaveableIn around.now (paving_state paving.old snapshot.now) }
    requires node { a < paving.old.counts.nodes }
    requires helped { HelpedIn around.now (paving_state paving.old snapshot.now) scratch.old }
    ensures same_lists { SameLists paving.old paving.new }
    ensures same_scratch { SameScratch scratch.old scratch.new }
    ensures settles { Settles (outline_in around.now) around.now.size (field_in around.now) (paving_state paving.old snapshot.now) a result
        (paving_state paving.new snapshot.now) }
    ensures helped { HelpedIn around.now (paving_state paving.new snapshot.now) scratch.new }
{
    let Some(b) = paving_ends::snapshot_edge(paving.next(), snapshot, a) else {
        return ControlFlow::Continue(false);
    };
    let attempt = try_in_scratch(
        around,
        &paving.mesh(),
        scratch.node_pool,
        scratch.edge_pool,
        scratch.tried,
        a,
        b,
    );
    let Some(far) = attempt else {
        return ControlFlow::Continue(false);
    };
    let k = paving.counts;
    let pools = Pools {
        nodes: scratch.node_pool(),
        edges: scratch.edge_pool(),
    };
    let across = pools.is_known_across(around.size, &paving.mesh(), far);
    if let Err(Full) = paving.place(snapshot, a, b, far, across) {
        return ControlFlow::Break(End::Full);
    }
    file_added(around.size, &paving.mesh(), scratch, k);
    paving_ends::quad_settled(paving.counts.quads)
}

// Files all that the mesh counts, in pools that hold nothing else; nothing was tried from its nodes.
pub fn file_all(size: f64, mesh: &Mesh<'_>, scratch: &mut Scratch<'_>)
    requires { 2 * mesh.now.counts.edges ≤ length mesh.now.edges.now }
    ensures same { SameScratch scratch.old scratch.new }
    ensures filed { SearchableIn size (mesh_state mesh.now) scratch.new.node_pool.now scratch.new.edge_pool.now }
    ensures tried { scratch.new.tried.now ≡ forgotten 0 mesh.now.counts.nodes scratch.old.tried.now }
{
    index_pools::clear(scratch.node_pool);
    index_pools::clear(scratch.edge_pool);
    file_added(size, mesh, scratch, Counts::default());
}
