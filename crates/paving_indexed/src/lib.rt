// The nodes and edges of a paving's state (src/alt_crossfield.rs: `NodeIndex` and `EdgeIndex`), filed in pools of `index_pools`, and the searches that go by them:
// a walk for those that are filed, and a scan of those that came after the pool was full.
#![tactic(auto)]

ghost use Rattle.std.specs.Prelude.{◌≡◌, [], ◌*◌, ◌≤◌, length};
ghost use Rattle.laws.specs.Loop.{any_up};
ghost use Rattle.index_pools.specs.Pool.{Indexed};
ghost use Rattle.front.specs.State.{edge_is};
ghost use Rattle.front.specs.Stores.{known_across};
ghost use Rattle.paving.specs.Checks.{blocks_at, crosses_at};
ghost use Rattle.paving_indexed.specs.Rects.{node_rects, edge_rects, NodesFiled, EdgesFiled, listed, close_at, inside_at, crossing_at};

use front::{Corner, FarCorners, Mesh};
use front_lent_mesh::QuadIds;
use geometry::{Corners, KeyRect};
use outline::{Point, Settings};

// The pools as they are read: one in which nodes are filed, and one in which edges are.
#[derive(Clone, Copy)]
pub struct Pools<'a> {
    pub nodes: &'a [u32],
    pub edges: &'a [u32],
}

// A new edge: its ends a and b, which are or will be the nodes u and v.
#[derive(Clone, Copy)]
pub struct NewEdge {
    pub a: Point,
    pub b: Point,
    pub u: u32,
    pub v: u32,
}

// ---- filing

// Files the nodes from `from` on that the mesh counts, where those before are filed: all that find places, up to the first that doesn't.
pub fn file_nodes(pool: &mut [u32], size: f64, mesh: &Mesh<'_>, from: u32)
    requires { NodesFiled pool.old size mesh.now.xs.now mesh.now.ys.now from mesh.now.counts.nodes }
    ensures { Indexed pool.new (node_rects size mesh.now.xs.now mesh.now.ys.now) mesh.now.counts.nodes }
{
    let to = mesh.counts.nodes as usize;
    index_pools::file_items(pool, from as usize, to, |id| {
        index_key_rects::node_rect(size, mesh.node(id))
    });
}

// Files the edges from `from` on, as `file_nodes`, and none that 32 bits can't number.
pub fn file_edges(pool: &mut [u32], size: f64, mesh: &Mesh<'_>, from: usize)
    requires { EdgesFiled pool.old size mesh.now.xs.now mesh.now.ys.now mesh.now.edges.now from mesh.now.counts.edges }
    ensures { Indexed pool.new (edge_rects size mesh.now.xs.now mesh.now.ys.now mesh.now.edges.now) mesh.now.counts.edges }
{
    index_pools::file_items(pool, from, mesh.counts.edges, |k| {
        let (c, d) = front_lent_mesh::edge_at(mesh.edges, k as usize);
        index_key_rects::edge_rect(size, mesh.node(c), mesh.node(d))
    });
}

// ---- the tests of the searches: what is cheap first, and the keys last

// Whether the node q of number id, not a corner, lies in the quad p and in its key rectangle.
fn blocks_at(size: f64, p: Corners, ids: QuadIds, id: u32, q: Point) -> bool
    ensures { result ≡ blocks_at size p ids.a ids.b ids.d ids.c id q }
{
    !ids.has(id) && geometry::point_in_convex(p, q) && geometry::is_in_box(size, p, q)
}

// Whether the edge c to d is a candidate for the new edge, shares no end with it, and crosses it.
fn crosses_at(size: f64, mesh: &Mesh<'_>, new: NewEdge, c: u32, d: u32) -> bool
    ensures { result ≡ crosses_at size (listed mesh.now.xs.now mesh.now.ys.now []) new.a new.b new.u new.v c d }
{
    let NewEdge { a, b, u, v } = new;
    if [u, v].contains(&c) || [u, v].contains(&d) {
        return false;
    }
    let p = mesh.node(c);
    let q = mesh.node(d);
    geometry::segments_cross(a, b, p, q) && geometry::is_candidate(size, a, b, p, q)
}

// ---- searching

// `paving_attempts::Attempt` has pools, size and mesh as one; here each search asks of its own pool alone.
impl Pools<'_> {
    // Whether some node is too close to p: a walk round its key.
    pub fn any_close(self, size: f64, mesh: &Mesh<'_>, p: Point) -> bool
        requires { Indexed self.nodes.now (node_rects size mesh.now.xs.now mesh.now.ys.now) mesh.now.counts.nodes }
        ensures { result ≡ any_up mesh.now.counts.nodes (close_at size mesh.now.xs.now mesh.now.ys.now p) }
    {
        let radius = Settings::CLEARANCE * size;
        let radius2 = radius * radius;
        let key = geometry::key_of(size, p);
        let nodes = mesh.counts.nodes as usize;
        index::any_item(self.nodes, index_key_rects::rect_around(key), nodes, |id| {
            geometry::too_close_at(key, p, radius2, size, mesh.node(id as u32))
        })
    }

    // Whether some node other than the corners lies in the quad p: a walk of its key rectangle.
    pub fn any_inside(self, size: f64, mesh: &Mesh<'_>, p: Corners, ids: QuadIds) -> bool
        requires { Indexed self.nodes.now (node_rects size mesh.now.xs.now mesh.now.ys.now) mesh.now.counts.nodes }
        ensures { result ≡ any_up mesh.now.counts.nodes (inside_at size mesh.now.xs.now mesh.now.ys.now p ids.a ids.b ids.d ids.c) }
    {
        let r = KeyRect::of(size, geometry::lowest(p), geometry::highest(p));
        let nodes = mesh.counts.nodes as usize;
        index::any_item(self.nodes, index_key_rects::rect_of(r), nodes, |id| {
            blocks_at(size, p, ids, id as u32, mesh.node(id as u32))
        })
    }

    // Whether some edge crosses the new one: a walk of its key rectangle, of no key where its spans are above 4,096.
    pub fn any_crossing(self, size: f64, mesh: &Mesh<'_>, new: NewEdge) -> bool
        requires { (2 * mesh.now.counts.edges ≤ length mesh.now.edges.now)
            × Indexed self.edges.now (edge_rects size mesh.now.xs.now mesh.now.ys.now mesh.now.edges.now) mesh.now.counts.edges }
        ensures { result ≡ any_up mesh.now.counts.edges
            (crossing_at size mesh.now.xs.now mesh.now.ys.now mesh.now.edges.now new.a new.b new.u new.v) }
    {
        let rect = index_key_rects::edge_rect(size, new.a, new.b);
        index::any_item(self.edges, rect, mesh.counts.edges, |k| {
            let (c, d) = front_lent_mesh::edge_at(mesh.edges, k);
            crosses_at(size, mesh, new, c, d)
        })
    }

    // Whether an edge joins u and v, u the smaller: a walk of the cell of u. Where the spans of such an edge are above 4,096 it is filed nowhere, and
    // all edges are searched.
    pub fn is_known(self, size: f64, mesh: &Mesh<'_>, u: u32, v: u32) -> bool
        requires { (2 * mesh.now.counts.edges ≤ length mesh.now.edges.now)
            × Indexed self.edges.now (edge_rects size mesh.now.xs.now mesh.now.ys.now mesh.now.edges.now) mesh.now.counts.edges }
        ensures { result ≡ any_up mesh.now.counts.edges (edge_is mesh.now.edges.now u v) }
    {
        let r = KeyRect::of(2.0 * size, mesh.node(u), mesh.node(v));
        let count = mesh.counts.edges;
        let joins = |k| front_lent_mesh::edge_at(mesh.edges, k) == (u, v);
        if !r.spans_kept() {
            return (0..count).any(joins);
        }
        index::any_item(self.edges, index_key_rects::rect_at(r.k), count, joins)
    }

    // Whether the far corners are joined already. Only two reused ones can be: they alone are searched for.
    pub fn is_known_across(self, size: f64, mesh: &Mesh<'_>, far: FarCorners) -> bool
        requires { (2 * mesh.now.counts.edges ≤ length mesh.now.edges.now)
            × Indexed self.edges.now (edge_rects size mesh.now.xs.now mesh.now.ys.now mesh.now.edges.now) mesh.now.counts.edges }
        ensures { result ≡ known_across mesh.now.edges.now mesh.now.counts.edges far.c far.d }
    {
        let (Corner::Reused(u), Corner::Reused(v)) = (far.c, far.d) else {
            return false;
        };
        self.is_known(size, mesh, v.min(u), v.max(u))
    }
}
