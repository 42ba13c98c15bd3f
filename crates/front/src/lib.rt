// The state of a paving (src/alt_crossfield.rs: `Paving`), lists lent and counts by value, and the placing of a quad.
#![tactic(auto)]

ghost use Rattle.std.specs.Prelude.{◌≡◌, List, [], ℕ, ◌+◌, ◌*◌, ◌^◌, ◌≤◌, ◌<◌, min, max, length, get_or, set};
ghost use Rattle.std.specs.Float.{nan};
ghost use Rattle.topology.specs.Links.{off, link_of};
ghost use Rattle.front.specs.State.{node_in, fewest, most_nodes, push_node};
ghost use Rattle.front.specs.Lent.{mesh_state, paving_state, SameLists};
ghost use Rattle.front.specs.Neighbours.{link_to, neighbour_of, next_at, prev_at};
ghost use Rattle.front.specs.Place.{added, corner_id, new_quad};
ghost use Rattle.front.specs.Sampling.{RingFits, ring_count, sampled_at, ring_at};
ghost use Rattle.front.specs.Ready.{Ready};
ghost use Rattle.front.specs.Stores.{PlacesQuad, counts_with_quad, places_exceeded, is_beyond, store_x, store_y, reuses_node, known_across, unless, new_edges};
ghost use Rattle.front.specs.Stores.{store_edge, store_edges, store_quad, store_side, store_next, store_prev, Ids, Countable};

use outline::{Point, Settings};

// How much of the lent lists is in use. `front` counts the front's edges.
#[derive(Clone, Copy, Debug, Default, PartialEq, Eq)]
pub struct Counts {
    pub nodes: u32,
    pub quads: usize,
    pub edges: usize,
    pub front: usize,
}

// A far corner of a quad: a front node that is reused, or a new point with its two coordinates.
// Two floats, and no `Point`: the definitions (`store_x`, `store_y`, ..) name them one by one.
#[derive(Clone, Copy)]
pub enum Corner {
    Reused(u32),
    Fresh(f64, f64),
}

// The far corners of a quad.
#[derive(Clone, Copy)]
pub struct FarCorners {
    pub c: Corner,
    pub d: Corner,
}

// A quad a, b, d, c on the edge a to b: its far corners, and the ids that they have or get.
// c and d are apart: the definitions of what is stored name a quad's corners and ids one by one.
#[derive(Clone, Copy)]
pub struct NewQuad {
    pub a: u32,
    pub b: u32,
    pub c: Corner,
    pub d: Corner,
    pub id_c: u32,
    pub id_d: u32,
}

// The nodes of a sampled loop in the order of the front. `count` nodes were sampled from `base` on; they run backwards where `turned`;
// and where `split`, one node more stands after place `longest`.
// A ring that isn't split has a longest edge too, and the definitions (`RingFits`, `midpoint`) speak of that of each
// ring.
#[derive(Clone, Copy)]
pub struct Ring {
    pub base: u32,
    pub count: u32,
    pub turned: bool,
    pub split: bool,
    pub longest: u32,
}

// The places lent are full.
#[derive(Clone, Copy)]
pub struct Full;

// A mesh as it is read: its lists, and how much of them is in use.
#[derive(Clone, Copy)]
pub struct Mesh<'a> {
    pub xs: &'a [f64],
    pub ys: &'a [f64],
    pub next: &'a [u32],
    pub prev: &'a [u32],
    pub quads: &'a [u32],
    pub edges: &'a [u32],
    pub counts: Counts,
}

// A paving (src/alt_crossfield.rs: `Paving`): its lists as they are lent, and how much of them is in use. The snapshot of a pass is lent beside it.
#[derive(Drop)]
pub struct Paving<'a> {
    pub xs: &'a mut [f64],
    pub ys: &'a mut [f64],
    pub next: &'a mut [u32],
    pub prev: &'a mut [u32],
    pub quads: &'a mut [u32],
    pub edges: &'a mut [u32],
    pub counts: Counts,
}

// The link of a node off the front.
// A number, as the lent lists hold it.
pub const OFF: u32 = 4294967295;

impl Corner {
    // How many nodes the corner adds.
    pub fn added(self) -> u32
        ensures { (result ≡ added self) × (result ≤ 1) }
    {
        match self {
            Corner::Reused(_) => 0,
            Corner::Fresh(_, _) => 1,
        }
    }

    // The corner's node, where a new one gets the number n.
    pub fn id(self, n: u32) -> u32
        ensures { result ≡ corner_id n self }
    {
        match self {
            Corner::Reused(id) => id,
            Corner::Fresh(_, _) => n,
        }
    }

    pub fn is_reused(self) -> bool
        ensures { result ≡ reuses_node self }
    {
        matches!(self, Corner::Reused(_))
    }
}

impl FarCorners {
    // How many nodes both add.
    pub fn added(self) -> u32
        ensures { (result ≡ added self.c + added self.d) × (result ≤ 2) }
    {
        self.c.added() + self.d.added()
    }

    // The node of d, where the next new node gets the number n: c's comes first.
    pub fn id_d(self, n: u32) -> u32
        requires { n ≤ 4294967294 }
        ensures { result ≡ corner_id (n + added self.c) self.d }
    {
        self.d.id(n + self.c.added())
    }
}

impl NewQuad {
    // The quad with these far corners, where the next new node gets the number n.
    pub fn new(n: u32, a: u32, b: u32, far: FarCorners) -> NewQuad
        requires { n ≤ most_nodes }
        ensures { result ≡ new_quad n a b far.c far.d }
    {
        let FarCorners { c, d } = far;
        NewQuad {
            a,
            b,
            c,
            d,
            id_c: c.id(n),
            id_d: far.id_d(n),
        }
    }
}

impl Counts {
    // The counts after a quad with these far corners, which adds so many mesh edges.
    pub fn with_quad(self, far: FarCorners, edges: usize) -> Counts
        requires { Countable self far.c far.d edges }
        ensures { result ≡ counts_with_quad self far.c far.d edges }
    {
        let m = far.added();
        Counts {
            nodes: self.nodes + m,
            quads: self.quads + 1,
            edges: self.edges + edges,
            front: self.front + 2 * (m as usize) - 2,
        }
    }
}

impl Ring {
    // How many ids the ring has.
    pub fn len(self) -> usize
        ensures { result ≡ ring_count self }
    {
        let n = self.count as usize;
        if self.split { n + 1 } else { n }
    }

    // The node sampled as number k of the ring.
    pub fn sampled_at(self, k: usize) -> u32
        requires { (k < self.count) × (self.base + self.count < 4294967296) }
        ensures { (result ≡ sampled_at self k) × (result < self.base + self.count) }
    {
        let k = k as u32;
        if self.turned {
            self.base + (self.count - 1 - k)
        } else {
            self.base + k
        }
    }

    // Id k of the ring.
    #[tactic(auto, unfolding(crate::specs::Sampling::ring_at))]
    pub fn at(self, k: usize) -> u32
        requires { RingFits self × (k < ring_count self) }
        ensures { (result ≡ ring_at self k) × (result < self.base + ring_count self) }
    {
        let middle = self.longest as usize + 1;
        if !self.split || k < middle {
            return self.sampled_at(k);
        }
        if k == middle {
            return self.base + self.count;
        }
        self.sampled_at(k - 1)
    }
}

// ---- reading

// A coordinate of a node; past the list's end a NaN.
fn coordinate(s: &[f64], id: u32) -> f64
    ensures { result ≡ get_or s.now id nan }
{
    s.get(id as usize).copied().unwrap_or(f64::NAN)
}

// A node's point; past the lists' ends NaNs.
// Of both lists: an exam lends its coordinates and no `Mesh`.
#[tactic(auto, unfolding(crate::specs::State::node_in))]
pub fn node_at(xs: &[f64], ys: &[f64], id: u32) -> Point
    ensures { result ≡ node_in xs.now ys.now id }
{
    Point {
        x: coordinate(xs, id),
        y: coordinate(ys, id),
    }
}

// The link of node u, where the first n places are in use; OFF for a node that isn't there.
#[tactic(auto, unfolding(topology::specs::Links::link_of))]
pub fn link_of(links: &[u32], n: u32, u: u32) -> u32
    requires { n ≤ length links.now }
    ensures { result ≡ link_of n links.now u }
{
    if u < n { links[u as usize] } else { OFF }
}

// The neighbour of node u by its link, which is its number, where the first n places are in use; none for a node that isn't there.
#[tactic(auto, unfolding(crate::specs::Neighbours::neighbour_of))]
pub fn link_at(links: &[u32], n: u32, u: u32) -> Option<u32>
    requires { n ≤ length links.now }
    ensures neighbour { result ≡ neighbour_of (link_of n links.now u) }
    ensures number { link_to result ≡ link_of n links.now u }
{
    match link_of(links, n, u) {
        OFF => None,
        v => Some(v),
    }
}

// ---- the new nodes

// Writes a new corner's point as node n.
// Of the lists that are written alone, and so are the edges, the quad and the front below: a method of `Paving` would
// owe that the others stay.
fn put_corner(c: Corner, xs: &mut [f64], ys: &mut [f64], n: u32)
    requires { (n + added c ≤ length xs.old) × (n + added c ≤ length ys.old) }
    ensures { (xs.new ≡ store_x c n xs.old) × (ys.new ≡ store_y c n ys.old) }
{
    let Corner::Fresh(x, y) = c else {
        return;
    };
    let i = n as usize;
    xs[i] = x;
    ys[i] = y;
}

fn put_corners(far: FarCorners, xs: &mut [f64], ys: &mut [f64], n: u32)
    requires { (n + (added far.c + added far.d) ≤ 4294967294) × (n + (added far.c + added far.d) ≤ length xs.old)
        × (n + (added far.c + added far.d) ≤ length ys.old) }
    ensures { (xs.new ≡ store_x far.d (n + added far.c) (store_x far.c n xs.old))
        × (ys.new ≡ store_y far.d (n + added far.c) (store_y far.c n ys.old)) }
{
    put_corner(far.c, xs, ys, n);
    put_corner(far.d, xs, ys, n + far.c.added());
}

// ---- the mesh edges

// How many edges a quad adds: a to b is known, and so are the sides at reused corners.
#[tactic(auto, unfolding(crate::specs::Stores::new_edges))]
fn new_edges(across: bool, far: FarCorners) -> usize
    ensures { (result ≡ new_edges across far.c far.d) × (result ≤ 3) }
{
    usize::from(!far.d.is_reused()) + usize::from(!across) + usize::from(!far.c.is_reused())
}

// Stores the edge between u and v as edge n, the smaller id first.
pub fn write_edge(edges: &mut [u32], n: usize, u: u32, v: u32)
    requires { 2 * n + 2 ≤ length edges.old }
    ensures { edges.new ≡ set (set edges.old (2 * n) (min u v)) (2 * n + 1) (max u v) }
{
    edges[2 * n] = u.min(v);
    edges[2 * n + 1] = u.max(v);
}

// Stores u to v as edge n, unless it is known.
#[tactic(auto, unfolding(crate::specs::Stores::store_edge))]
fn put_edge(edges: &mut [u32], known: bool, n: usize, u: u32, v: u32)
    requires { 2 * (n + unless known) ≤ length edges.old }
    ensures { edges.new ≡ store_edge known n u v edges.old }
{
    if !known {
        write_edge(edges, n, u, v);
    }
}

// Stores the edges b to d, d to c and c to a, from place n on.
#[tactic(auto, using(crate::proofs::StoreLaws::length_store), unfolding(crate::specs::Stores::store_edges, crate::specs::Stores::new_edges))]
fn put_edges(edges: &mut [u32], n: usize, across: bool, q: NewQuad)
    requires { 2 * (n + new_edges across q.c q.d) ≤ length edges.old }
    ensures { edges.new ≡ store_edges across q.c q.d q.a q.b q.id_c q.id_d n edges.old }
{
    let at_d = q.d.is_reused();
    let at_c = q.c.is_reused();
    let n1 = n + usize::from(!at_d);
    let n2 = n1 + usize::from(!across);
    put_edge(edges, at_d, n, q.b, q.id_d);
    put_edge(edges, across, n1, q.id_d, q.id_c);
    put_edge(edges, at_c, n2, q.id_c, q.a);
}

// ---- the quad

// Stores the quad a, b, d, c as quad k.
pub fn put_quad(quads: &mut [u32], k: usize, a: u32, b: u32, d: u32, c: u32)
    requires { 4 * (k + 1) ≤ length quads.old }
    ensures { quads.new ≡ store_quad k a b d c quads.old }
{
    quads[4 * k..4 * k + 4].copy_from_slice(&[a, b, d, c]);
}

// ---- the front

// Makes u to v a front edge.
// Of the links alone, and so is what follows: a method of `Paving` would owe that the other lists stay.
pub fn link(next: &mut [u32], prev: &mut [u32], u: u32, v: u32)
    requires { (u < length next.old) × (v < length prev.old) }
    ensures { (next.new ≡ set next.old u v) × (prev.new ≡ set prev.old v u) }
{
    next[u as usize] = v;
    prev[v as usize] = u;
}

// Takes u off the front.
fn unlink(next: &mut [u32], prev: &mut [u32], u: u32)
    requires { (u < length next.old) × (u < length prev.old) }
    ensures { (next.new ≡ set next.old u off) × (prev.new ≡ set prev.old u off) }
{
    next[u as usize] = OFF;
    prev[u as usize] = OFF;
}

// Beside a reused corner the edge's end x leaves the front; beside a new one u to v goes on.
fn link_side(c: Corner, next: &mut [u32], prev: &mut [u32], x: u32, u: u32, v: u32)
    requires { Ids (length next.old) x u v u × Ids (length prev.old) x u v u }
    ensures { (next.new ≡ store_side c x u v next.old) × (prev.new ≡ store_side c x v u prev.old) }
{
    match c {
        Corner::Reused(_) => unlink(next, prev, x),
        Corner::Fresh(_, _) => link(next, prev, u, v),
    }
}

// The sides of the quad that are on the front come off, and the others go on.
#[tactic(auto, unfolding(crate::specs::Stores::store_next, crate::specs::Stores::store_prev))]
fn move_front(next: &mut [u32], prev: &mut [u32], q: NewQuad)
    requires { Ids (length next.old) q.a q.b q.id_c q.id_d × Ids (length prev.old) q.a q.b q.id_c q.id_d }
    ensures { (next.new ≡ store_next q.c q.d q.a q.b q.id_c q.id_d next.old)
        × (prev.new ≡ store_prev q.c q.d q.a q.b q.id_c q.id_d prev.old) }
{
    link_side(q.c, next, prev, q.a, q.a, q.id_c);
    link(next, prev, q.id_c, q.id_d);
    link_side(q.d, next, prev, q.b, q.id_d, q.b);
}

// ---- the placing

// How many nodes the lists have places for; `others` is the length of one more list that holds a number a node.
// Besides the method, since `run` asks it of the lists that a host lends.
pub fn node_places(xs: &[f64], ys: &[f64], next: &[u32], prev: &[u32], others: usize) -> usize
    ensures { result ≡ min (fewest (length xs.now) (length ys.now) (length next.now) (length prev.now) others) most_nodes }
{
    let links = next.len().min(prev.len());
    xs.len()
        .min(ys.len())
        .min(links)
        .min(others)
        .min(Settings::MOST_NODES)
}

impl Mesh<'_> {
    // Node id's point; past the lists' ends NaNs.
    pub fn node(&self, id: u32) -> Point
        ensures { result ≡ node_in self.now.xs.now self.now.ys.now id }
    {
        node_at(self.xs, self.ys, id)
    }

    // Node u's neighbours along the front.
    pub fn next_at(&self, u: u32) -> Option<u32>
        requires { self.now.counts.nodes ≤ length self.now.next.now }
        ensures { result ≡ next_at (mesh_state self.now) u }
    {
        link_at(self.next, self.counts.nodes, u)
    }

    pub fn prev_at(&self, u: u32) -> Option<u32>
        requires { self.now.counts.nodes ≤ length self.now.prev.now }
        ensures { result ≡ prev_at (mesh_state self.now) u }
    {
        link_at(self.prev, self.counts.nodes, u)
    }

    // How many nodes the lists have places for.
    pub fn node_places(&self, others: usize) -> usize
        ensures { result ≡ min (fewest (length self.now.xs.now) (length self.now.ys.now) (length self.now.next.now) (length self.now.prev.now) others) most_nodes }
    {
        node_places(self.xs, self.ys, self.next, self.prev, others)
    }

    // Whether n nodes, q quads or e mesh edges are beyond the places lent; `others` is as in `node_places`.
    #[tactic(auto, unfolding(crate::specs::Stores::places_exceeded, crate::specs::State::quad_places, crate::specs::State::edge_places))]
    pub fn lacks_places(&self, others: usize, n: usize, q: usize, e: usize) -> bool
        ensures { result ≡ places_exceeded (mesh_state self.now) others n q e }
    {
        n > self.node_places(others) || q > self.quads.len() / 4 || e > self.edges.len() / 2
    }
}

impl<'a> Paving<'a> {
    // What is read of it.
    pub fn mesh(&self) -> Mesh<'_>
        ensures { mesh_state result ≡ paving_state self.now [] }
    {
        Mesh {
            xs: self.xs,
            ys: self.ys,
            next: self.next,
            prev: self.prev,
            quads: self.quads,
            edges: self.edges,
            counts: self.counts,
        }
    }

    // Each node's link forward.
    pub fn next(&self) -> &[u32]
        ensures { result.now ≡ self.now.next.now }
    {
        self.next
    }

    // The quads, four ids each.
    pub fn quads(&self) -> &[u32]
        ensures { result.now ≡ self.now.quads.now }
    {
        self.quads
    }

    // A new node at p: it is off the front, whatever stood in its place.
    #[tactic(auto, unfolding(crate::specs::State::push_node))]
    pub fn push_node(&mut self, p: Point)
        requires few { self.old.counts.nodes ≤ most_nodes }
        requires places { (self.old.counts.nodes < length self.old.xs.now) × (self.old.counts.nodes < length self.old.ys.now)
            × (self.old.counts.nodes < length self.old.next.now) × (self.old.counts.nodes < length self.old.prev.now) }
        ensures same { SameLists self.old self.new }
        ensures pushed { (snapshot : List ℕ) → paving_state self.new snapshot ≡ push_node p (paving_state self.old snapshot) }
    {
        let n = self.counts.nodes as usize;
        self.xs[n] = p.x;
        self.ys[n] = p.y;
        self.next[n] = OFF;
        self.prev[n] = OFF;
        self.counts.nodes += 1;
    }

    // Whether m nodes, a quad and e mesh edges more are beyond those lent.
    #[tactic(auto, unfolding(crate::specs::Stores::is_beyond, crate::specs::Stores::places_exceeded, crate::specs::State::node_places, crate::specs::State::quad_places, crate::specs::State::edge_places))]
    fn lacks_places(&self, snapshot: &[u32], m: u32, e: usize) -> bool
        requires { (self.now.counts.quads + 1 < 2 ^ 64) × (self.now.counts.edges + e < 2 ^ 64) }
        ensures { result ≡ is_beyond (paving_state self.now snapshot.now) m e }
    {
        let k = self.counts;
        let n = (k.nodes as usize) + (m as usize);
        self.mesh()
            .lacks_places(snapshot.len(), n, k.quads + 1, k.edges + e)
    }

    // Places the quad a, b, d, c on the front edge a to b; or says that it is full, and writes nothing. `across` says whether its far corners are joined already.
    // Of the snapshot only its places count.
    pub fn place(
        &mut self,
        snapshot: &[u32],
        a: u32,
        b: u32,
        far: FarCorners,
        across: bool,
    ) -> Result<(), Full>
        requires { Ready (paving_state self.old snapshot.now) a b far.c far.d × (across ≡ known_across self.old.edges.now self.old.counts.edges far.c far.d) }
        ensures same { SameLists self.old self.new }
        ensures placed { PlacesQuad a b far.c far.d (paving_state self.old snapshot.now) result (paving_state self.new snapshot.now) }
    {
        let k = self.counts;
        let q = NewQuad::new(k.nodes, a, b, far);
        let more = far.added();
        let w = new_edges(across, far);
        if self.lacks_places(snapshot, more, w) {
            return Err(Full);
        }
        put_corners(far, self.xs, self.ys, k.nodes);
        put_edges(self.edges, k.edges, across, q);
        put_quad(self.quads, k.quads, a, b, q.id_d, q.id_c);
        move_front(self.next, self.prev, q);
        self.counts = k.with_quad(far, w);
        Ok(())
    }
}
