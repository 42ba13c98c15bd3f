// The placing of a quad on any mesh that 23 lets pass, change by change as the definition has it: nothing is asked of the front's loops, nor of
// which edges are known.
#![tactic(auto)]

ghost use Rattle.std.specs.Prelude.{◌≡◌, List, ℕ, ◌+◌, ◌*◌, ◌^◌, ◌≤◌, ◌<◌, length};
ghost use Rattle.front.specs.State.{add_edge, remove_front, add_front, push_quad};
ghost use Rattle.front.specs.Lent.{paving_state, SameLists};
ghost use Rattle.front.specs.Place.{added, push_corner, add_edges, take_off, put_on, move_front, place, is_full};
ghost use Rattle.hand_mesh_check.specs.Check.{lent_in};
ghost use Rattle.hand_mesh_check.specs.Passed.{CountsFit};
ghost use Rattle.hand_mesh_changes.specs.Parts.{NodesFit, LinkFits, ChangedBy, LinksKept};
ghost use Rattle.hand_placing.specs.Room.{QuadFits, EdgesFit, TwoFit, SidesFit};

use front::{Corner, FarCorners, NewQuad, Paving};
use hand_mesh_check::NumberedMesh;
use outline::Point;

// ---- the mesh edges

// Two edges of a quad, u to v and v to w.
// An edge is two ids, as hosts give it and definitions name it.
#[tactic(auto, using(front::proofs::Lent::lists_trans))]
fn add_two(paving: &mut Paving<'_>, u: u32, v: u32, w: u32)
    requires { TwoFit paving.old u v w }
    ensures same { SameLists paving.old paving.new }
    ensures added { ChangedBy (λ s. add_edge v w (add_edge u v s)) paving.old paving.new }
{
    hand_mesh_changes::add_edge(paving, u, v);
    hand_mesh_changes::add_edge(paving, v, w);
}

// The mesh edges of the quad.
#[tactic(auto, using(front::proofs::Lent::lists_trans), unfolding(front::specs::Place::add_edges))]
fn add_edges(paving: &mut Paving<'_>, q: NewQuad)
    requires { EdgesFit paving.old q.a q.b q.id_d q.id_c }
    ensures same { SameLists paving.old paving.new }
    ensures added { ChangedBy (add_edges q.a q.b q.id_d q.id_c) paving.old paving.new }
{
    add_two(paving, q.a, q.b, q.id_d);
    add_two(paving, q.id_d, q.id_c, q.a);
}

// ---- the front

// The front edge at a reused corner comes off.
#[tactic(auto, using(front::proofs::Lent::lists_same))]
fn take_off(paving: &mut Paving<'_>, c: Corner, u: u32, v: u32)
    requires { LinkFits paving.old u v }
    ensures same { SameLists paving.old paving.new }
    ensures taken { ChangedBy (take_off c u v) paving.old paving.new }
    ensures kept { LinksKept paving.old paving.new }
    ensures few { paving.new.counts.front ≤ paving.old.counts.front }
{
    match c {
        Corner::Reused(_) => hand_mesh_changes::remove_front(paving, u, v),
        Corner::Fresh(_, _) => (),
    }
}

// The front edge at a new corner goes on.
#[tactic(auto, using(front::proofs::Lent::lists_same))]
fn put_on(paving: &mut Paving<'_>, c: Corner, u: u32, v: u32)
    requires { LinkFits paving.old u v × (paving.old.counts.front < 2 ^ 63) }
    ensures same { SameLists paving.old paving.new }
    ensures put { ChangedBy (put_on c u v) paving.old paving.new }
    ensures kept { LinksKept paving.old paving.new }
    ensures few { paving.new.counts.front ≤ paving.old.counts.front + 1 }
{
    match c {
        Corner::Reused(_) => (),
        Corner::Fresh(_, _) => hand_mesh_changes::add_front(paving, u, v),
    }
}

// The sides of the quad that are on the front come off.
#[tactic(auto, using(front::proofs::Lent::lists_trans))]
fn strip(paving: &mut Paving<'_>, q: NewQuad)
    requires { SidesFit paving.old q }
    ensures same { SameLists paving.old paving.new }
    ensures stripped { ChangedBy (λ s. take_off q.d q.b q.id_d (take_off q.c q.id_c q.a (remove_front q.a q.b s))) paving.old paving.new }
    ensures kept { LinksKept paving.old paving.new }
    ensures few { paving.new.counts.front ≤ paving.old.counts.front }
{
    hand_mesh_changes::remove_front(paving, q.a, q.b);
    take_off(paving, q.c, q.id_c, q.a);
    take_off(paving, q.d, q.b, q.id_d);
}

// The others go on.
#[tactic(auto, using(front::proofs::Lent::lists_trans))]
fn extend(paving: &mut Paving<'_>, q: NewQuad)
    requires { SidesFit paving.old q × (paving.old.counts.front < 2 ^ 62) }
    ensures same { SameLists paving.old paving.new }
    ensures extended { ChangedBy (λ s. put_on q.d q.id_d q.b (add_front q.id_c q.id_d (put_on q.c q.a q.id_c s))) paving.old paving.new }
{
    put_on(paving, q.c, q.a, q.id_c);
    hand_mesh_changes::add_front(paving, q.id_c, q.id_d);
    put_on(paving, q.d, q.id_d, q.b);
}

// The front moves.
#[tactic(auto, using(front::proofs::Lent::lists_trans), unfolding(front::specs::Place::move_front))]
fn move_front(paving: &mut Paving<'_>, q: NewQuad)
    requires { SidesFit paving.old q × (paving.old.counts.front < 2 ^ 62) }
    ensures same { SameLists paving.old paving.new }
    ensures moved { ChangedBy (move_front q.c q.d q.a q.b q.id_d q.id_c) paving.old paving.new }
{
    strip(paving, q);
    extend(paving, q);
}

// ---- new nodes

// A new corner becomes a node.
#[tactic(auto, using(front::proofs::Lent::lists_same))]
fn push_corner(paving: &mut Paving<'_>, c: Corner)
    requires { NodesFit paving.old.xs.now paving.old.ys.now paving.old.next.now paving.old.prev.now (paving.old.counts.nodes + added c) }
    ensures same { SameLists paving.old paving.new }
    ensures pushed { ChangedBy (push_corner c) paving.old paving.new }
{
    match c {
        Corner::Reused(_) => (),
        Corner::Fresh(x, y) => paving.push_node(Point { x, y }),
    }
}

// ---- the quad

// It is the next quad.
#[tactic(auto, unfolding(front::specs::State::push_quad, front::specs::Stores::store_quad))]
fn push_quad(paving: &mut Paving<'_>, q: NewQuad)
    requires { 4 * (paving.old.counts.quads + 1) ≤ length paving.old.quads.now }
    ensures same { SameLists paving.old paving.new }
    ensures pushed { ChangedBy (push_quad q.a q.b q.id_d q.id_c) paving.old paving.new }
{
    let k = paving.counts.quads;
    front::put_quad(paving.quads, k, q.a, q.b, q.id_d, q.id_c);
    paving.counts.quads = k + 1;
}

// Places the quad a, b, d, c on the edge a to b.
#[tactic(auto, using(front::proofs::Lent::lists_trans))]
pub fn place_quad(paving: &mut Paving<'_>, a: u32, b: u32, far: FarCorners)
    requires { QuadFits paving.old a b far.c far.d }
    ensures same { SameLists paving.old paving.new }
    ensures placed { (snapshot : List ℕ) → paving_state paving.new snapshot ≡ place a b far.c far.d (paving_state paving.old snapshot) }
{
    let q = NewQuad::new(paving.counts.nodes, a, b, far);
    push_corner(paving, far.c);
    push_corner(paving, far.d);
    add_edges(paving, q);
    push_quad(paving, q);
    move_front(paving, q);
}

// Whether the quad would need a node, quad or distinct edge beyond those lent.
// Two counts, which the law `full_is` adds one by one.
pub fn is_full(lent: NumberedMesh<'_, '_>, a: u32, b: u32, far: FarCorners) -> bool
    requires { CountsFit lent.mesh lent.origins.now }
    ensures { result ≡ is_full (lent_in lent.entry.mesh lent.entry.origins.now) a b far.c far.d }
{
    let mesh = lent.mesh;
    let k = mesh.counts;
    let q = NewQuad::new(k.nodes, a, b, far);
    let e = hand_mesh_changes::edges_added(&mesh, a, b, q.id_d, q.id_c);
    let nodes = (k.nodes as usize) + (far.c.added() as usize) + (far.d.added() as usize);
    lent.lacks_places(nodes, k.quads + 1, k.edges + e)
}
