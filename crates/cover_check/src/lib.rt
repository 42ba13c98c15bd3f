// Whether the quads of a lent mesh cover each point of a sampled outline once: refusals 23 and 27 to 30, one by one.
#![tactic(auto)]

ghost use Rattle.std.specs.Prelude.{◌≡◌, not, ◌*◌, ◌≤◌, ◌<◌, eqb, length, get_or};
ghost use Rattle.std.specs.Float.{nan};
ghost use Rattle.outline.specs.Outline.{outline_of, outline_refusal};
ghost use Rattle.outline.specs.Refusals.{refused};
ghost use Rattle.topology.specs.Links.{off};
ghost use Rattle.front.specs.Lent.{mesh_state};
ghost use Rattle.books.specs.Book.{edge, quad_at, start_book, follow};
ghost use Rattle.books_bounded.proofs.Corners.{corners_in};
ghost use Rattle.cover_sides.specs.Sides.{sides_of, quad_of};
ghost use Rattle.cover_check.specs.Lowest.{lowest};
ghost use Rattle.cover_check.specs.Check.{book_of, misfits, fit_refusal, is_folded, side_wrong, quad_wrong, is_wrong, is_unlaid, same_bits, is_same, is_moved};
ghost use Rattle.cover_check.specs.Start.{StartLent, QuadsNamed};

use cover_sides::Sides;
use front::Mesh;
use front_lent_mesh::QuadIds;
use geometry::Corners;
use outline::{Domain, Refusal, Settings};
use std::num;

// `refusal` is 0 where nothing is refused; `place` is the quad, edge or node that 27 to 30 name.
// Stays a number beside a place: the C interface answers this struct.
#[repr(C)]
#[derive(Clone, Copy, Default)]
pub struct CoversAnswer {
    pub refusal: u32,
    pub place: usize,
    pub sound: bool,
}

// The numbers of what is refused of quads and of the sampled outline.
pub const FOLDED_QUAD: u32 = 27;

pub const WRONG_SIDE: u32 = 28;

pub const UNLAID_EDGE: u32 = 29;

pub const MOVED_NODE: u32 = 30;

// The places of the scratch: for the sampled outline's nodes and edges, and for the numbers of sides.
#[derive(Clone, Copy)]
pub struct Room {
    pub nodes: usize,
    pub edges: usize,
    pub keys: usize,
}

// ---- 23

// Whether the counts don't fit the lists, or there aren't so many places for sides.
#[tactic(auto, unfolding(crate::specs::Check::misfits))]
fn misfits(mesh: &Mesh<'_>, keys: usize) -> bool
    ensures { result ≡ misfits (mesh_state mesh.now) keys }
{
    let k = mesh.counts;
    mesh.xs.len() < k.nodes as usize
        || mesh.ys.len() < k.nodes as usize
        || (mesh.quads.len() / 4).min(Settings::MOST_QUADS) < k.quads
        || keys / 4 < k.quads
}

// Refusal 23, on every input.
#[tactic(auto, unfolding(crate::specs::Check::unfit))]
pub fn check_fit(mesh: &Mesh<'_>, keys: usize) -> Result<(), Refusal>
    ensures { refused result ≡ fit_refusal (mesh_state mesh.now) keys }
{
    let k = mesh.counts;
    if misfits(mesh, keys)
        || hand_mesh_check::any_beyond(mesh.quads, 4 * k.quads, k.nodes)
        || hand_mesh_check::any_node_unsound(mesh)
    {
        return Err(Refusal::UnsoundMesh);
    }
    Ok(())
}

// ---- 27

// Where quad k's corners are.
fn corners_at(mesh: &Mesh<'_>, k: usize) -> Corners
    requires { k < 250000 }
    ensures { result ≡ corners_in (book_of (mesh_state mesh.now)) (quad_at (mesh_state mesh.now) k) }
{
    let q = front_lent_mesh::quad_at(mesh.quads, k);
    Corners {
        a: mesh.node(q.a),
        b: mesh.node(q.b),
        d: mesh.node(q.d),
        c: mesh.node(q.c),
    }
}

// Whether quad k fails the paving's test of its corners.
fn is_folded(mesh: &Mesh<'_>, k: usize) -> bool
    requires { k < 250000 }
    ensures { result ≡ is_folded (mesh_state mesh.now) k }
{
    !geometry::convex_ccw(corners_at(mesh, k))
}

// The lowest such quad, or the count of quads.
pub fn lowest_folded(mesh: &Mesh<'_>) -> usize
    requires { mesh.now.counts.quads ≤ 250000 }
    ensures { result ≡ lowest mesh.now.counts.quads (is_folded (mesh_state mesh.now)) }
{
    let n = mesh.counts.quads;
    (0..n).find(|&k| is_folded(mesh, k)).unwrap_or(n)
}

// ---- the sampled outline

// The sampled outline in lent scratch: its nodes, and the node after each.
#[derive(Clone, Copy)]
pub struct Start<'a> {
    pub domain: Domain<'a>,
    pub size: f64,
    pub xs: &'a [f64],
    pub ys: &'a [f64],
    pub next: &'a [u32],
    ghost sampled: { StartLent (outline_of domain) size xs.now ys.now next.now },
}

impl Start<'_> {
    // Whether it has the edge from u to v.
    fn has(&self, u: u32, v: u32) -> bool
        requires { v < off }
        ensures { result ≡ eqb (follow (start_book (outline_of self.now.domain) self.now.size).front u) v }
    {
        (u as usize) < self.next.len() && self.next[u as usize] == v
    }
}

// ---- 28 to 30

// The sides of a lent mesh, whose ids are nodes, beside the sampled outline.
#[derive(Clone, Copy)]
pub struct Cover<'a> {
    pub start: Start<'a>,
    pub sides: Sides<'a>,
    ghost named: { QuadsNamed (mesh_state sides.mesh.now) },
}

// Whether two coordinates are the same, bit for bit.
fn same_bits(x: f64, y: f64) -> bool
    ensures { result ≡ same_bits x y }
{
    num::f64_to_bits_with_nan(x) == num::f64_to_bits_with_nan(y)
}

impl Cover<'_> {
    // Whether the side from u to v is there twice, or not either in the sampled outline or back.
    #[tactic(auto, unfolding(crate::specs::Check::side_wrong))]
    fn side_wrong(&self, u: u32, v: u32) -> bool
        requires { v < off }
        ensures { result ≡ side_wrong (start_book (outline_of self.now.start.domain) self.now.start.size) (sides_of (mesh_state self.now.sides.mesh.now)) (edge u v) }
    {
        self.sides.has_twice(u, v) || self.sides.has(v, u) == self.start.has(u, v)
    }

    // Whether a side of the quad is.
    #[tactic(auto, unfolding(crate::specs::Check::quad_wrong))]
    fn quad_wrong(&self, q: QuadIds) -> bool
        requires { (q.a < off) × (q.b < off) × (q.d < off) × (q.c < off) }
        ensures { result ≡ quad_wrong (start_book (outline_of self.now.start.domain) self.now.start.size) (sides_of (mesh_state self.now.sides.mesh.now)) (quad_of q) }
    {
        self.side_wrong(q.a, q.b)
            || self.side_wrong(q.b, q.d)
            || self.side_wrong(q.d, q.c)
            || self.side_wrong(q.c, q.a)
    }

    // Whether a side of quad k is.
    fn is_wrong(&self, k: usize) -> bool
        requires { k < self.now.sides.mesh.now.counts.quads }
        ensures { result ≡ is_wrong (start_book (outline_of self.now.start.domain) self.now.start.size) (mesh_state self.now.sides.mesh.now) k }
    {
        self.quad_wrong(front_lent_mesh::quad_at(self.sides.mesh.quads, k))
    }

    // The lowest such quad, or the count of quads.
    pub fn lowest_wrong(&self) -> usize
        ensures { result ≡ lowest self.now.sides.mesh.now.counts.quads
            (is_wrong (start_book (outline_of self.now.start.domain) self.now.start.size) (mesh_state self.now.sides.mesh.now)) }
    {
        let n = self.sides.mesh.counts.quads;
        (0..n).find(|&k| self.is_wrong(k)).unwrap_or(n)
    }

    // Whether the sampled outline's edge from u is no side.
    fn is_unlaid(&self, u: usize) -> bool
        requires { u < length self.now.start.next.now }
        ensures { result ≡ is_unlaid (start_book (outline_of self.now.start.domain) self.now.start.size) (mesh_state self.now.sides.mesh.now) u }
    {
        !self.sides.has(u as u32, self.start.next[u])
    }

    // The lowest such edge, or the count of the sampled outline's nodes.
    pub fn lowest_unlaid(&self) -> usize
        ensures { result ≡ lowest (length (start_book (outline_of self.now.start.domain) self.now.start.size).xs)
            (is_unlaid (start_book (outline_of self.now.start.domain) self.now.start.size) (mesh_state self.now.sides.mesh.now)) }
    {
        let n = self.start.next.len();
        (0..n).find(|&u| self.is_unlaid(u)).unwrap_or(n)
    }

    // Whether node i is the sampled outline's.
    fn is_same(&self, i: usize) -> bool
        requires { i < length self.now.start.next.now }
        ensures { result ≡ is_same (start_book (outline_of self.now.start.domain) self.now.start.size) (mesh_state self.now.sides.mesh.now) i }
    {
        let p = self.sides.mesh.node(i as u32);
        same_bits(p.x, self.start.xs[i]) && same_bits(p.y, self.start.ys[i])
    }

    // Whether it is no node of the mesh, or another.
    fn is_moved(&self, i: usize) -> bool
        requires { i < length self.now.start.next.now }
        ensures { result ≡ is_moved (start_book (outline_of self.now.start.domain) self.now.start.size) (mesh_state self.now.sides.mesh.now) i }
    {
        !(i < self.sides.mesh.counts.nodes as usize && self.is_same(i))
    }

    // The first such node, or their count.
    pub fn lowest_moved(&self) -> usize
        ensures { result ≡ lowest (length (start_book (outline_of self.now.start.domain) self.now.start.size).xs)
            (is_moved (start_book (outline_of self.now.start.domain) self.now.start.size) (mesh_state self.now.sides.mesh.now)) }
    {
        let n = self.start.next.len();
        (0..n).find(|&i| self.is_moved(i)).unwrap_or(n)
    }
}
