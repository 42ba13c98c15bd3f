// Sampling: `Paving::from_boundary` of src/alt_crossfield.rs, with refusal 10.
#![tactic(auto)]

ghost use Rattle.std.specs.Prelude.{◌≡◌, false, cond, List, ℕ, ◌+◌, ◌-◌, ◌*◌, ◌/◌, ◌<◌, min, length};
ghost use Rattle.outline.specs.Outline.{outline_of, misshapen, after};
ghost use Rattle.outline.specs.Refusals.{refused};
ghost use Rattle.front.specs.declared.Counts.{Counts};
ghost use Rattle.front.specs.Lent.{mesh_state};
ghost use Rattle.front.specs.State.{node_in, most_nodes};
ghost use Rattle.geometry.specs.Plane.{area_term};
ghost use Rattle.front.specs.Sampling.{parts_of, parts, loop_parts, sampled_count, sampled_refusal, front_refusal, cut, sample_segment, sample_loop, from_boundary};
ghost use Rattle.front.specs.Sampling.{signed_area, edge_length, longest_edge, ring_in, ring_count, sampled_at, midpoint, split_longest};
ghost use Rattle.front_sampled.specs.Joins.{with_link};
ghost use Rattle.front_boundary.specs.Counting.{most, even_up};
ghost use Rattle.front_boundary.specs.Laying.{lent_with, NodeRoomIn, NodesFrom, CanLink, CanLay, CanSample, SameRoom, NodesWritten, EdgesWritten, LoopWritten, link_ring, lay_loop};

use front::{Counts, Mesh, Paving, Ring};
use outline::{Domain, Point, Refusal, Settings};

// ---- how many

// A count stops here, far above the places that can be lent: no sum overflows, and refusal 10 is the same.
const MOST: u64 = 1099511627776;

// The parts that a segment is cut into.
#[tactic(auto, unfolding(front::specs::Sampling::parts_of))]
pub fn parts_of(size: f64, length: f64) -> u64
    ensures { result ≡ parts_of size length }
{
    numbers::ceil_count(length / (Settings::STRETCH * size)).max(1)
}

// The parts of segment i of a loop.
// By number, here and below, as in `outline_blocks::crossings`.
#[tactic(auto, unfolding(front::specs::Sampling::parts))]
fn parts_at(s: &[f64], size: f64, i: usize) -> u64
    requires { i < length s.now / 2 }
    ensures { result ≡ parts size s.now i }
{
    let a = outline_loops::point_at(s, i);
    let b = outline_loops::point_after(s, i);
    parts_of(size, geometry::distance(a, b))
}

// A count and more, stopped.
fn added(count: u64, more: u64) -> u64
    ensures { result ≡ min (count + more) most }
{
    count.saturating_add(more).min(MOST)
}

// The points of a loop before it is made even.
pub fn loop_parts(s: &[f64], size: f64) -> u64
    ensures { result ≡ min (loop_parts size s.now) most }
{
    (0..s.len() / 2).fold(0, |sum, i| added(sum, parts_at(s, size, i)))
}

// The points sampled of a loop: an odd one gets one more.
pub fn loop_nodes(s: &[f64], size: f64) -> u64
    ensures { result ≡ even_up (min (loop_parts size s.now) most) }
{
    let parts = loop_parts(s, size);
    parts + parts % 2
}

// The points sampled.
pub fn sampled_count(domain: Domain<'_>, size: f64) -> u64
    requires { misshapen (outline_of domain) ≡ false }
    ensures { result ≡ min (sampled_count (outline_of domain.entry) size) most }
{
    outline_loops::loops_of(domain).fold(0, |sum, each| added(sum, loop_nodes(each.points, size)))
}

// Refusal 10, where so many node places and edge places are lent; node places past 4,294,967,294 count as not lent.
pub fn check_front_places(
    domain: Domain<'_>,
    size: f64,
    node_places: usize,
    edge_places: usize,
) -> Result<(), Refusal>
    requires { misshapen (outline_of domain) ≡ false }
    ensures { refused result
        ≡ sampled_refusal (outline_of domain.entry) size (min node_places most_nodes) edge_places }
{
    let count = sampled_count(domain, size) as usize;
    if count > Settings::MOST_NODES || node_places < count || edge_places < count {
        return Err(Refusal::FrontNeedsSpace);
    }
    Ok(())
}

// ---- the nodes of a loop

// Point k of n on the segment a to b.
#[tactic(auto, unfolding(front::specs::Sampling::cut))]
fn cut(a: Point, b: Point, n: usize, k: usize) -> Point
    requires { (n < 4294967296) × (k < 4294967296) }
    ensures { result ≡ cut a b n k }
{
    let t = numbers::to_f64(k) / numbers::to_f64(n);
    Point {
        x: a.x + t * (b.x - a.x),
        y: a.y + t * (b.y - a.y),
    }
}

// The points of one segment.
fn sample_segment(a: Point, b: Point, parts: usize, paving: &mut Paving<'_>)
    requires { NodeRoomIn (paving.old.counts.nodes + parts) paving.old }
    ensures { NodesWritten parts (sample_segment a b parts) paving.old paving.new }
{
    for k in 0..parts {
        paving.push_node(cut(a, b, parts, k));
    }
}

// The points of a loop.
fn sample_loop(s: &[f64], size: f64, paving: &mut Paving<'_>)
    requires { NodeRoomIn (paving.old.counts.nodes + loop_parts size s.now) paving.old }
    ensures { NodesWritten (loop_parts size s.now) (sample_loop size s.now) paving.old paving.new }
{
    for i in 0..s.len() / 2 {
        let a = outline_loops::point_at(s, i);
        let b = outline_loops::point_after(s, i);
        let parts = parts_of(size, geometry::distance(a, b)) as usize;
        sample_segment(a, b, parts, paving);
    }
}

// ---- the ring of a loop's nodes

// A ring among a mesh's nodes.
#[derive(Clone, Copy)]
struct MeshRing<'a> {
    mesh: &'a Mesh<'a>,
    ring: Ring,
    ghost sampled: { NodesFrom ring.base ring.count },
}

impl MeshRing<'_> {
    // What the edge from the node sampled as number i to the next one adds to twice the area.
    fn area_term(&self, i: u32) -> f64
        requires { i < self.now.ring.count }
        ensures { result ≡ area_term (node_in self.now.mesh.now.xs.now self.now.mesh.now.ys.now (self.now.ring.base + i))
            (node_in self.now.mesh.now.xs.now self.now.mesh.now.ys.now (self.now.ring.base + after self.now.ring.count i)) }
    {
        let base = self.ring.base;
        let after = outline_loops::after(self.ring.count as usize, i as usize) as u32;
        let a = self.mesh.node(base + i);
        let b = self.mesh.node(base + after);
        geometry::area_term(a, b)
    }

    // `signed_area` of the nodes in the order sampled.
    fn signed_area(&self) -> f64
        ensures { result ≡ signed_area self.now.mesh.now.xs.now self.now.mesh.now.ys.now self.now.ring.base self.now.ring.count }
    {
        0.5 * (0..self.ring.count).fold(0.0, |sum, i| sum + self.area_term(i))
    }

    // The ends of the edge from the node sampled as number k to the next one.
    fn edge_ends(&self, k: usize) -> (Point, Point)
        requires { k < self.now.ring.count }
        ensures { (result.0 ≡ node_in self.now.mesh.now.xs.now self.now.mesh.now.ys.now (sampled_at self.now.ring k))
            × (result.1 ≡ node_in self.now.mesh.now.xs.now self.now.mesh.now.ys.now (sampled_at self.now.ring (after self.now.ring.count k))) }
    {
        let after = outline_loops::after(self.ring.count as usize, k);
        (
            self.mesh.node(self.ring.sampled_at(k)),
            self.mesh.node(self.ring.sampled_at(after)),
        )
    }

    // The length of that edge.
    #[tactic(auto, unfolding(front::specs::Sampling::edge_length))]
    fn edge_length(&self, k: usize) -> f64
        requires { k < self.now.ring.count }
        ensures { result ≡ edge_length self.now.mesh.now.xs.now self.now.mesh.now.ys.now self.now.ring.base self.now.ring.count self.now.ring.turned k }
    {
        let (a, b) = self.edge_ends(k);
        geometry::distance(a, b)
    }

    // The longest edge, the last of equals.
    fn longest_edge(&self) -> usize
        ensures { (result ≡ longest_edge self.now.mesh.now.xs.now self.now.mesh.now.ys.now self.now.ring.base self.now.ring.count self.now.ring.turned)
            × (result < self.now.ring.count) }
    {
        (0..self.ring.count as usize).fold(
            0,
            |best, i|
                requires { (best < self.now.ring.count) × (i < self.now.ring.count) }
            {
                if self.edge_length(i) < self.edge_length(best) {
                    best
                } else {
                    i
                }
            },
        )
    }

    // The midpoint of the longest edge.
    #[tactic(auto, unfolding(front::specs::Sampling::midpoint))]
    fn midpoint(&self) -> Point
        requires { self.now.ring.longest < self.now.ring.count }
        ensures { result ≡ midpoint self.now.mesh.now.xs.now self.now.mesh.now.ys.now self.now.ring }
    {
        let (a, b) = self.edge_ends(self.ring.longest as usize);
        Point {
            x: (a.x + b.x) / 2.0,
            y: (a.y + b.y) / 2.0,
        }
    }
}

// The ring of loop k, whose nodes are those from base on.
#[tactic(auto, unfolding(front::specs::Sampling::ring_of))]
fn ring_of(k: usize, mesh: &Mesh<'_>, base: u32) -> Ring
    requires { NodesFrom base (mesh.now.counts.nodes - base) }
    ensures { result ≡ ring_in k base (mesh_state mesh.now) }
{
    let n = mesh.counts.nodes - base;
    let ring = Ring {
        base,
        count: n,
        turned: false,
        split: n % 2 == 1,
        longest: 0,
    };
    let positive = MeshRing { mesh, ring }.signed_area() > 0.0;
    let ring = Ring {
        turned: positive != (k == 0),
        ..ring
    };
    Ring {
        longest: MeshRing { mesh, ring }.longest_edge() as u32,
        ..ring
    }
}

// An odd loop gets the midpoint of its longest edge.
fn split_longest(ring: Ring, paving: &mut Paving<'_>)
    requires nodes_from { NodesFrom ring.base ring.count × (ring.longest < ring.count) × (paving.old.counts.nodes ≡ ring.base + ring.count) }
    requires node_room { NodeRoomIn (ring.base + ring_count ring) paving.old }
    ensures { NodesWritten (cond ring.split 1 0) (split_longest ring) paving.old paving.new }
{
    if ring.split {
        let p = MeshRing {
            mesh: &paving.mesh(),
            ring,
        }
        .midpoint();
        paving.push_node(p);
    }
}

// ---- the front

// v comes after u, and their edge is new.
#[tactic(auto, unfolding(front::specs::State::push_edge))]
fn link(paving: &mut Paving<'_>, u: u32, v: u32)
    requires ids { (u < length paving.old.next.now) × (v < length paving.old.prev.now) }
    requires edges { (2 * paving.old.counts.edges + 1 < length paving.old.edges.now) × (paving.old.counts.front ≡ paving.old.counts.edges) }
    ensures { EdgesWritten 1 (with_link u v) paving.old paving.new }
{
    front::link(paving.next, paving.prev, u, v);
    front::write_edge(paving.edges, paving.counts.edges, u, v);
    paving.counts.edges += 1;
    paving.counts.front += 1;
}

// Each id of the ring is joined to the next. Its edges are new, so none is looked for.
fn link_ring(ring: Ring, paving: &mut Paving<'_>)
    requires { CanLink ring paving.old }
    ensures { EdgesWritten (ring_count ring) (link_ring ring) paving.old paving.new }
{
    let n = ring.len();
    for i in 0..n {
        link(paving, ring.at(i), ring.at(outline_loops::after(n, i)));
    }
}

// Loop k, sampled and joined after those before it.
fn lay_loop(k: usize, s: &[f64], size: f64, paving: &mut Paving<'_>)
    requires { CanLay s.now size paving.old }
    ensures { LoopWritten (even_up (loop_parts size s.now)) (lay_loop k s.now size) paving.old paving.new }
{
    let base = paving.counts.nodes;
    sample_loop(s, size, paving);
    let ring = ring_of(k, &paving.mesh(), base);
    split_longest(ring, paving);
    link_ring(ring, paving);
}

// `from_boundary`, in the lists lent, whatever was counted before.
pub fn from_boundary(domain: Domain<'_>, size: f64, paving: &mut Paving<'_>)
    requires { CanSample (outline_of domain) size paving.old.xs.now paving.old.ys.now paving.old.next.now paving.old.prev.now paving.old.edges.now }
    ensures room { SameRoom paving.old paving.new }
    ensures sampled { (snapshot quads : List ℕ) (counts : Counts)
        → front_refusal (outline_of domain.entry) size (lent_with paving.old snapshot quads counts) ≡ 0
        → lent_with paving.new snapshot quads paving.new.counts
        ≡ from_boundary (outline_of domain.entry) size (lent_with paving.old snapshot quads counts) }
{
    paving.counts = Counts::default();
    for each in outline_loops::loops_of(domain) {
        lay_loop(each.index, each.points, size, paving);
    }
}
