// What a step would do, shown before it is taken: the quad that would come and the front after it. The mesh is only read.
#![tactic(auto)]

ghost use Rattle.std.specs.Prelude.{◌≡◌, ◌≢◌, List, cond, ℕ, ◌+◌, ◌*◌, ◌/◌, ◌≤◌, eqb, length, Some, None};
ghost use Rattle.std.specs.Option.{ForSome};
ghost use Rattle.laws.specs.Loop.{sum_up};
ghost use Rattle.topology.specs.Links.{off, update};
ghost use Rattle.outline.specs.Outline.{outline_of};
ghost use Rattle.outline.specs.Refusals.{refused, numbered};
ghost use Rattle.field_direction.specs.Record.{field_lent};
ghost use Rattle.front.specs.Neighbours.{neighbour_of, is_at};
ghost use Rattle.front.specs.Place.{added, corner_id};
ghost use Rattle.hand_mesh_check.specs.Check.{lent_in};
ghost use Rattle.hand_steps.specs.Lent.{Around, OnFront};
ghost use Rattle.hand_previews.specs.Preview.{remove_link, take_link, put_link, bare_links, moved_links, is_on, edge_list, front_listed, shown_nodes};
ghost use Rattle.hand_previews.specs.Preview.{links_before, links_after, QuadKnown, foreseen_on, preview_refusal, PreviewTaken};

use front::{Corner, FarCorners};
use hand_mesh_check::NumberedMesh;
use hand_steps::{Given, StepOutcome};
use outline::Refusal;

// What a placing would do, with the quad that it would place.
// An outcome beside an option, here and in `View`, as the preview's promise (`PreviewTaken`) has the two.
#[derive(Clone, Copy)]
pub struct Foreseen {
    pub outcome: StepOutcome,
    pub quad: Option<FarCorners>,
}

// A preview: what a placing would do, its quad, and how many front edges it would leave.
#[derive(Clone, Copy)]
pub struct View {
    pub outcome: StepOutcome,
    pub quad: Option<FarCorners>,
    pub front: usize,
}

// ---- the front after a quad, from the links before it

// The link of u without the front edge x to y; `was` is the link of x, and `link` that of u.
// An edge is two ids, here and below, as hosts give it and definitions name it.
fn link_removed(was: Option<u32>, link: Option<u32>, x: u32, y: u32, u: u32) -> Option<u32>
    ensures { result ≡ cond (is_at was y) (cond (eqb x u) None link) link }
{
    if was == Some(y) && x == u { None } else { link }
}

// The link of u with the front edge x to y; `link` is that of u without it.
fn link_added(link: Option<u32>, x: u32, y: u32, u: u32) -> Option<u32>
    requires { y ≢ off }
    ensures { (g : ℕ → ℕ) → link ≡ neighbour_of (g u) → result ≡ neighbour_of (update g x y u) }
{
    if x == u { Some(y) } else { link }
}

// The same, where c is new; where it isn't, nothing comes.
fn link_put(c: Corner, link: Option<u32>, x: u32, y: u32, u: u32) -> Option<u32>
    requires { y ≢ off }
    ensures { (g : ℕ → ℕ) → link ≡ neighbour_of (g u) → result ≡ neighbour_of (put_link c x y g u) }
{
    match c {
        Corner::Reused(_) => link,
        Corner::Fresh(_, _) => link_added(link, x, y, u),
    }
}

// The links of the front with a quad on the edge a to b, where there is one. They are read from the links before it.
#[derive(Clone, Copy)]
struct LinksAfter<'a> {
    next: &'a [u32],
    nodes: u32,
    a: u32,
    b: u32,
    quad: Option<FarCorners>,
    ghost fit: { (nodes ≤ length next.now) × (nodes ≤ 4294967294) × (shown_nodes quad nodes ≤ 4294967294) },
    ghost known: { ForSome quad (λ q. QuadKnown q nodes a b) },
}

impl LinksAfter<'_> {
    // The link of u before the quad.
    fn link_before(&self, u: u32) -> Option<u32>
        ensures { result ≡ neighbour_of (links_before self.now.nodes self.now.next.now u) }
    {
        front::link_at(self.next, self.nodes, u)
    }

    // The link of u once a to b is off.
    fn link_without(&self, u: u32) -> Option<u32>
        ensures { result ≡ neighbour_of (remove_link self.now.a self.now.b (links_before self.now.nodes self.now.next.now) u) }
    {
        let was = self.link_before(self.a);
        link_removed(was, self.link_before(u), self.a, self.b, u)
    }

    // And once c to a is, where c is reused.
    fn link_without_c(&self, c: Corner, u: u32) -> Option<u32>
        ensures { result ≡ neighbour_of (take_link c (corner_id self.now.nodes c) self.now.a
            (remove_link self.now.a self.now.b (links_before self.now.nodes self.now.next.now)) u) }
    {
        let link = self.link_without(u);
        match c {
            Corner::Reused(id) => link_removed(self.link_without(id), link, id, self.a, u),
            Corner::Fresh(_, _) => link,
        }
    }

    // And once b to d is, where d is reused.
    #[tactic(auto, unfolding(crate::specs::Preview::bare_links))]
    fn link_bare(&self, quad: FarCorners, u: u32) -> Option<u32>
        ensures { result ≡ neighbour_of (bare_links quad.c quad.d self.now.a self.now.b (corner_id (self.now.nodes + added quad.c) quad.d)
            (corner_id self.now.nodes quad.c) (links_before self.now.nodes self.now.next.now) u) }
    {
        let link = self.link_without_c(quad.c, u);
        match quad.d {
            Corner::Reused(id) => {
                let was = self.link_without_c(quad.c, self.b);
                link_removed(was, link, self.b, id, u)
            }
            Corner::Fresh(_, _) => link,
        }
    }

    // The link of u after the quad.
    #[tactic(auto, unfolding(crate::specs::Preview::moved_links))]
    fn link_after(&self, quad: FarCorners, u: u32) -> Option<u32>
        requires { (self.now.nodes + (added quad.c + added quad.d) ≤ 4294967294) × QuadKnown quad self.now.nodes self.now.a self.now.b }
        ensures { result ≡ neighbour_of (moved_links quad.c quad.d self.now.a self.now.b (corner_id (self.now.nodes + added quad.c) quad.d)
            (corner_id self.now.nodes quad.c) (links_before self.now.nodes self.now.next.now) u) }
    {
        let FarCorners { c, d } = quad;
        let id_c = c.id(self.nodes);
        let id_d = quad.id_d(self.nodes);
        let at_c = link_put(c, self.link_bare(quad, u), self.a, id_c, u);
        let across = link_added(at_c, id_c, id_d, u);
        link_put(d, across, id_d, self.b, u)
    }

    // The link of u.
    fn link(&self, u: u32) -> Option<u32>
        ensures { result ≡ neighbour_of (links_after self.now.quad self.now.a self.now.b self.now.nodes self.now.next.now u) }
    {
        match self.quad {
            None => self.link_before(u),
            Some(quad) => self.link_after(quad, u),
        }
    }

    // How many nodes there are.
    fn node_count(&self) -> u32
        ensures { result ≡ shown_nodes self.now.quad self.now.nodes }
    {
        match self.quad {
            None => self.nodes,
            Some(quad) => self.nodes + quad.added(),
        }
    }

    // Writes the front edges by their first node: how many there are.
    // The places are filled only by nodes with a link, so that a count is kept besides.
    #[tactic(auto, using(crate::proofs::Neighbours::room_here, crate::proofs::ListLaws::written_end))]
    fn list_front(&self, list: &mut [u32]) -> usize
        requires { 2 * sum_up (shown_nodes self.now.quad self.now.nodes)
            (is_on (links_after self.now.quad self.now.a self.now.b self.now.nodes self.now.next.now)) ≤ length list.old }
        ensures { edge_list list.new result ≡ front_listed (shown_nodes self.now.quad self.now.nodes)
            (links_after self.now.quad self.now.a self.now.b self.now.nodes self.now.next.now) list.old }
    {
        let mut j = 0;
        for u in 0..self.node_count() {
            if let Some(v) = self.link(u) {
                list[2 * j] = u;
                list[2 * j + 1] = v;
                j += 1;
            }
        }
        j
    }
}

// ---- what would become of the edge

// What a placing on the front edge a to b would do.
// `quad_on`, which `hand_stepping::place_on` calls too, has the tree of outcomes: one shows the quad that the other
// places.
fn foresee_on(around: &Given<'_>, lent: NumberedMesh<'_, '_>, a: u32, b: u32) -> Foreseen
    requires { Around (outline_of around.now.domain) around.now.field.grid around.now.field.values.now
        × OnFront (lent_in lent.mesh lent.origins.now) a b }
    ensures { (marks : List ℕ) → result
        ≡ foreseen_on (outline_of around.now.domain) around.now.size (field_lent around.now.field marks) a b
        (lent_in lent.entry.mesh lent.entry.origins.now) }
{
    match hand_stepping::quad_on(around, lent, a, b) {
        Ok(quad) => Foreseen {
            outcome: StepOutcome::Placed,
            quad: Some(quad),
        },
        Err(outcome) => Foreseen {
            outcome,
            quad: None,
        },
    }
}

// ---- the preview

// Refusal 23 of the mesh and of a list with so many places, then 24.
fn check_preview(lent: NumberedMesh<'_, '_>, places: usize, a: u32, b: u32) -> Result<(), Refusal>
    ensures { refused result ≡ preview_refusal (lent_in lent.entry.mesh lent.entry.origins.now) places a b }
{
    lent.check()?;
    if places < lent.mesh.counts.front + 2 {
        return Err(Refusal::UnsoundMesh);
    }
    hand_mesh_check::check_edge(&lent.mesh, a, b)
}

// A preview of the step on the edge a to b: the mesh is only read, and the list gets the front edges that the step would leave, by their first node.
pub fn preview(
    around: &Given<'_>,
    lent: NumberedMesh<'_, '_>,
    a: u32,
    b: u32,
    list: &mut [u32],
) -> Result<View, Refusal>
    requires { Around (outline_of around.now.domain) around.now.field.grid around.now.field.values.now }
    ensures { (marks : List ℕ) → PreviewTaken (outline_of around.now.domain) around.now.size (field_lent around.now.field marks) a b
        (lent_in lent.entry.mesh lent.entry.origins.now) list.old (numbered result) list.new }
{
    check_preview(lent, list.len() / 2, a, b)?;
    let foreseen = foresee_on(around, lent, a, b);
    let links = LinksAfter {
        next: lent.mesh.next,
        nodes: lent.mesh.counts.nodes,
        a,
        b,
        quad: foreseen.quad,
    };
    let front = links.list_front(list);
    Ok(View {
        outcome: foreseen.outcome,
        quad: foreseen.quad,
        front,
    })
}
