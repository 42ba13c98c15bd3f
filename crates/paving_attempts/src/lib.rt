// The read-only part of the paving (src/alt_crossfield.rs): the choice of corners, the checks of an attempt, and `try_edge`.
// A contract speaks of the state that has just the lists its function reads (specs/Seen.antt); the laws in proofs/SeenLaws.antt carry it to a state
// with all of them.
#![tactic(auto)]

ghost use Rattle.std.specs.Prelude.{◌≡◌, ◌+◌};
ghost use Rattle.front.specs.Lent.{mesh_state};
ghost use Rattle.front.specs.Place.{corner_point};
ghost use Rattle.paving.specs.Lent.{outline_in, field_in};
ghost use Rattle.paving.specs.Checks.{corner_free, corners_apart, side_crosses, edges_free, corners_of};
ghost use Rattle.paving.specs.Attempt.{is_reused, corner_at, ideal, attempt_quad, normal_of, try_edge};
ghost use Rattle.paving_attempts.specs.Seen.{seen_of, seen_nodes, seen_points, seen_edges, seen_links};
ghost use Rattle.paving_attempts.specs.Seen.{LinksLent, AttemptLentIn, TryLentIn};
ghost use Rattle.paving_attempts.specs.Props.{lent_props};
ghost use Rattle.paving_attempts.specs.FarCorners.{far_corners};

use front::{Corner, FarCorners, Mesh};
use front_lent_mesh::QuadIds;
use geometry::Corners;
use outline::{Point, Settings};
use paving::Surroundings;
use paving_indexed::{NewEdge, Pools};

// What an attempt reads: the outline and the field with the size, the mesh, and the pools in which it is filed. The ghost field says that
// these are lent as an attempt asks.
#[derive(Clone, Copy)]
struct Attempt<'a> {
    around: &'a Surroundings<'a>,
    mesh: &'a Mesh<'a>,
    pools: Pools<'a>,
    ghost lent: { AttemptLentIn around.now mesh.now pools } by { Prim.hlevel lent_props },
}

// ---- the far corners

// Whether two new corners are more than 0.45 × size apart.
#[tactic(auto, unfolding(paving::specs::Checks::corners_apart))]
fn corners_apart(size: f64, far: FarCorners) -> bool
    ensures { result ≡ corners_apart size far.c far.d }
{
    let (Corner::Fresh(x, y), Corner::Fresh(z, w)) = (far.c, far.d) else {
        return true;
    };
    let p = Point { x, y };
    let q = Point { x: z, y: w };
    !(geometry::distance(p, q) <= Settings::CLEARANCE * size)
}

// One size from p in the direction d.
#[tactic(auto, unfolding(paving::specs::Attempt::ideal))]
fn ideal(size: f64, p: Point, d: Point) -> Point
    ensures { result ≡ ideal size p d }
{
    Point {
        x: p.x + size * d.x,
        y: p.y + size * d.y,
    }
}

// Left of the edge with the steps bx and by, of length 1.
#[tactic(auto, unfolding(paving::specs::Attempt::normal_of))]
fn normal_of(bx: f64, by: f64, length: f64) -> Point
    ensures { result ≡ normal_of bx by length }
{
    Point {
        x: -(by / length),
        y: bx / length,
    }
}

fn corner_point(mesh: &Mesh<'_>, c: Corner) -> Point
    ensures { result ≡ corner_point (seen_points mesh.now.xs.now mesh.now.ys.now) c }
{
    match c {
        Corner::Reused(id) => mesh.node(id),
        Corner::Fresh(x, y) => Point { x, y },
    }
}

// The corners of the quad a, b, d, c.
fn corners_of(mesh: &Mesh<'_>, a: u32, b: u32, far: FarCorners) -> Corners
    ensures { result ≡ corners_of (seen_points mesh.now.xs.now mesh.now.ys.now) a b far.c far.d }
{
    Corners {
        a: mesh.node(a),
        b: mesh.node(b),
        d: corner_point(mesh, far.d),
        c: corner_point(mesh, far.c),
    }
}

// ---- the choice of the far corners

// Whether the front node v is reused for a corner wanted at p: it is not the edge's other end, and is within 0.35 × size.
#[tactic(auto, unfolding(paving::specs::Attempt::is_reused))]
fn is_reused(size: f64, mesh: &Mesh<'_>, other: u32, v: u32, p: Point) -> bool
    ensures { result ≡ is_reused size (seen_points mesh.now.xs.now mesh.now.ys.now) other v p }
{
    v != other && geometry::distance(mesh.node(v), p) <= Settings::REUSE * size
}

// The far corner wanted at p, of an end of the edge to `other` whose neighbour on the front is given: the neighbour, if it is reused, or a new point.
#[tactic(auto, unfolding(paving::specs::Attempt::corner_at))]
fn corner_at(size: f64, mesh: &Mesh<'_>, other: u32, neighbour: Option<u32>, p: Point) -> Corner
    ensures { result ≡ corner_at size (seen_points mesh.now.xs.now mesh.now.ys.now) other neighbour p }
{
    let fresh = Corner::Fresh(p.x, p.y);
    let Some(v) = neighbour else {
        return fresh;
    };
    if is_reused(size, mesh, other, v, p) {
        Corner::Reused(v)
    } else {
        fresh
    }
}

// The far corners of a quad on the front edge a to b with the directions da at a and db at b; none where they are one node, two new ones
// too close together, or joined by the front already.
// An edge is two ids, as hosts give it and definitions name it.
#[tactic(auto, using(crate::proofs::Chosen::far_chosen))]
fn far_corners(
    size: f64,
    mesh: &Mesh<'_>,
    a: u32,
    b: u32,
    da: Point,
    db: Point,
) -> Option<FarCorners>
    requires { LinksLent mesh.now.next.now mesh.now.prev.now mesh.now.counts.nodes }
    ensures { result ≡ far_corners size
        (seen_links mesh.now.xs.now mesh.now.ys.now mesh.now.next.now mesh.now.prev.now mesh.now.counts.nodes) a b da db }
{
    let nodes = mesh.counts.nodes;
    let wanted_c = ideal(size, mesh.node(a), da);
    let wanted_d = ideal(size, mesh.node(b), db);
    let far = FarCorners {
        c: corner_at(size, mesh, b, mesh.prev_at(a), wanted_c),
        d: corner_at(size, mesh, a, mesh.next_at(b), wanted_d),
    };
    let id_c = far.c.id(nodes);
    let id_d = far.id_d(nodes);
    if id_c == id_d || !corners_apart(size, far) || mesh.next_at(id_c) == Some(id_d) {
        None
    } else {
        Some(far)
    }
}

// ---- an attempt

impl Attempt<'_> {
    // Whether a new corner is finite, not too close to a node, and inside; nothing is asked of a reused one. The nodes are asked before the outline:
    // that is the cheaper test.
    #[tactic(auto, unfolding(paving::specs::Checks::corner_free, paving::specs::Checks::node_ok, paving::specs::Checks::too_close))]
    fn corner_free(&self, c: Corner) -> bool
        ensures { result ≡ corner_free (outline_in self.now.around.now) self.now.around.now.size
            (seen_nodes self.now.mesh.now.xs.now self.now.mesh.now.ys.now self.now.mesh.now.counts) c }
    {
        let Corner::Fresh(x, y) = c else {
            return true;
        };
        let p = Point { x, y };
        numbers::is_finite_f64(x)
            && numbers::is_finite_f64(y)
            && !self.pools.any_close(self.around.size, self.mesh, p)
            && self.around.outline().contains_point(p)
    }

    // Whether the edge from a new corner's node to its neighbour crosses another; that of a reused one is there already.
    #[tactic(auto, unfolding(paving::specs::Checks::edge_crosses))]
    fn side_crosses(&self, c: Corner, id: u32, to: u32) -> bool
        ensures { result ≡ side_crosses self.now.around.now.size
            (seen_edges self.now.mesh.now.xs.now self.now.mesh.now.ys.now self.now.mesh.now.edges.now self.now.mesh.now.counts) c id to }
    {
        let Corner::Fresh(x, y) = c else {
            return false;
        };
        let new = NewEdge {
            a: Point { x, y },
            b: self.mesh.node(to),
            u: id,
            v: to,
        };
        self.pools.any_crossing(self.around.size, self.mesh, new)
    }

    // Whether none of the new edges crosses another: c to a if c is new, c to d, d to b if d is new.
    #[tactic(auto, unfolding(paving::specs::Checks::edges_free, paving::specs::Checks::edge_crosses))]
    fn edges_free(&self, a: u32, b: u32, far: FarCorners) -> bool
        ensures { result ≡ edges_free self.now.around.now.size
            (seen_edges self.now.mesh.now.xs.now self.now.mesh.now.ys.now self.now.mesh.now.edges.now self.now.mesh.now.counts) a b far.c far.d }
    {
        let nodes = self.mesh.counts.nodes;
        let id_c = far.c.id(nodes);
        let id_d = far.id_d(nodes);
        let across = NewEdge {
            a: corner_point(self.mesh, far.c),
            b: corner_point(self.mesh, far.d),
            u: id_c,
            v: id_d,
        };
        !self.side_crosses(far.c, id_c, a)
            && !self.pools.any_crossing(self.around.size, self.mesh, across)
            && !self.side_crosses(far.d, id_d, b)
    }

    // The quad on the front edge a to b with the directions da at a and db at b, if its far corners pass every check; the first that fails refuses it.
    #[tactic(auto, using(crate::proofs::Kept::attempt_kept))]
    fn quad(&self, a: u32, b: u32, da: Point, db: Point) -> Option<FarCorners>
        ensures { result ≡ attempt_quad (outline_in self.now.around.now) self.now.around.now.size (seen_of (mesh_state self.now.mesh.now)) a b da db }
    {
        let Some(far) = far_corners(self.around.size, self.mesh, a, b, da, db) else {
            return None;
        };
        let p = corners_of(self.mesh, a, b, far);
        let nodes = self.mesh.counts.nodes;
        let ids = QuadIds {
            a,
            b,
            d: far.id_d(nodes),
            c: far.c.id(nodes),
        };
        if self.corner_free(far.c)
            && self.corner_free(far.d)
            && geometry::convex_ccw(p)
            && self.around.outline().contains_point(geometry::centroid(p))
            && !self.pools.any_inside(self.around.size, self.mesh, p, ids)
            && self.edges_free(a, b, far)
        {
            Some(far)
        } else {
            None
        }
    }
}

// The quad on the front edge a to b, if an attempt answers one: directions come from the field, then from the edge's normal. None on an edge no
// longer than 1e-12.
#[tactic(auto, unfolding(paving::specs::Attempt::try_edge, paving::specs::Attempt::try_toward, field_direction::specs::Direction::nearest_direction))]
pub fn try_edge(
    around: &Surroundings<'_>,
    mesh: &Mesh<'_>,
    pools: Pools<'_>,
    a: u32,
    b: u32,
) -> Option<FarCorners>
    requires { TryLentIn around.now mesh.now pools }
    ensures { result ≡ try_edge (outline_in around.now) around.now.size (field_in around.now) (seen_of (mesh_state mesh.now)) a b }
{
    let p = mesh.node(a);
    let q = mesh.node(b);
    let bx = q.x - p.x;
    let by = q.y - p.y;
    let length = geometry::norm(bx, by);
    if length <= Settings::TOLERANCE {
        return None;
    }
    let normal = normal_of(bx, by, length);
    let da = field_direction::nearest_direction(around.field, p, normal);
    let db = field_direction::nearest_direction(around.field, q, normal);
    let attempt = Attempt {
        around,
        mesh,
        pools,
    };
    // A `match`, and no `or_else`: of a closure that calls `attempt.quad` nothing is inferred.
    match attempt.quad(a, b, da, db) {
        None => attempt.quad(a, b, normal, normal),
        quad => quad,
    }
}
