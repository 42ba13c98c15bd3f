// A mesh as it is lent: its counts, which stop at the last whole node and quad, its quads by their four ids and its edges by their two ends.
#![tactic(auto)]

ghost use Rattle.std.specs.Prelude.{◌≡◌, ◌+◌, ◌*◌, ◌^◌, ◌<◌, ◌≤◌, ◌||◌, eqb, get_or};
ghost use Rattle.front_lent_mesh.specs.Mesh.{node_count_of, quad_count_of, quad_in, mesh_lent, quad_of};

use outline::Settings;

// The ids of a quad's nodes, in the order in which they are lent.
#[derive(Clone, Copy)]
pub struct QuadIds {
    pub a: u32,
    pub b: u32,
    pub d: u32,
    pub c: u32,
}

impl QuadIds {
    // Whether one of the four is id.
    pub fn has(self, id: u32) -> bool
        ensures { result ≡ (eqb self.a id || (eqb self.b id || (eqb self.d id || eqb self.c id))) }
    {
        [self.a, self.b, self.d, self.c].contains(&id)
    }
}

// A mesh where its coordinates don't matter: its nodes, counted as they stop, and its quads as they are lent.
#[derive(Clone, Copy)]
pub struct LentMesh<'a> {
    pub nodes: u32,
    pub quad_count: usize,
    pub quads: &'a [u32],
}

impl LentMesh<'_> {
    // How many quads it has, as they stop.
    #[tactic(auto, using(crate::specs::Mesh::quads_few))]
    pub fn quad_count(self) -> usize
        ensures stops { result ≡ (mesh_lent self.entry).quads }
        ensures few { result ≤ 250000 }
    {
        quad_count(self.quad_count, self.quads)
    }

    // The ids of quad k.
    pub fn quad(self, k: usize) -> QuadIds
        requires { k < 4294967296 }
        ensures { result ≡ quad_of (mesh_lent self.entry) k }
    {
        quad_at(self.quads, k)
    }
}

// The count of nodes: it stops where a coordinate isn't lent.
// The coordinates are two lists, as C lends them, and either may be the shorter.
#[tactic(auto, unfolding(crate::specs::Mesh::node_count_of))]
pub fn node_count(nodes: u32, xs: &[f64], ys: &[f64]) -> u32
    ensures { result ≡ node_count_of nodes xs.now ys.now }
{
    (nodes as usize).min(xs.len().min(ys.len())) as u32
}

// The count of quads: it stops at the last whole quad, and at 250,000.
// The count stands beside the list, as C lends both.
#[tactic(auto, unfolding(crate::specs::Mesh::quad_count_of))]
pub fn quad_count(count: usize, quads: &[u32]) -> usize
    ensures { result ≡ quad_count_of count quads.now }
{
    count.min((quads.len() / 4).min(Settings::MOST_QUADS))
}

// An entry of a list; past its end 0.
// Three methods of the library, here and where another value takes the place (`front`, `exam_requests`,
// `exam_results`, `exam_loop_reads`).
pub fn entry_at(list: &[u32], i: usize) -> u32
    ensures { result ≡ get_or list.now i 0 }
{
    list.get(i).copied().unwrap_or(0)
}

// The ids of quad k.
#[tactic(auto, unfolding(crate::specs::Mesh::quad_in))]
pub fn quad_at(quads: &[u32], k: usize) -> QuadIds
    requires { k < 2 ^ 62 }
    ensures { result ≡ quad_in quads.now k }
{
    QuadIds {
        a: entry_at(quads, 4 * k),
        b: entry_at(quads, 4 * k + 1),
        d: entry_at(quads, 4 * k + 2),
        c: entry_at(quads, 4 * k + 3),
    }
}

// The ends of edge k; past the list's end 0.
pub fn edge_at(edges: &[u32], k: usize) -> (u32, u32)
    requires { k < 9223372036854775807 }
    ensures { (result.0 ≡ get_or edges.now (2 * k) 0) × (result.1 ≡ get_or edges.now (2 * k + 1) 0) }
{
    (entry_at(edges, 2 * k), entry_at(edges, 2 * k + 1))
}
