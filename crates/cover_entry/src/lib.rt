// The public entry that checks a mesh, whatever made it: whether its quads cover each point of the sampled outline once. It has no `requires`.
#![tactic(auto)]

ghost use Rattle.std.specs.Prelude.{◌≡◌, false, [], ◌*◌, ◌≤◌, ◌/◌, min, length};
ghost use Rattle.outline.specs.Outline.{outline, outline_of, outline_refusal};
ghost use Rattle.outline.specs.Refusals.{refused};
ghost use Rattle.topology.specs.Links.{off};
ghost use Rattle.front.specs.State.{state_of, counted, most_nodes};
ghost use Rattle.front.specs.Lent.{mesh_state};
ghost use Rattle.front.specs.Sampling.{sampled_refusal};
ghost use Rattle.books.specs.Book.{start_book};
ghost use Rattle.cover_check.specs.Check.{covers_answered, sides_answer, mesh_answer, lent_refusal};
ghost use Rattle.cover_check.specs.Covered.{CoversGiven};
ghost use Rattle.cover_check.specs.Start.{SampledIn, QuadsNamed};

use cover_check::{Cover, CoversAnswer, Room, Start};
use cover_sides::Sides;
use front::{Counts, Mesh, Paving};
use outline::{Domain, Refusal};

// 1 to 7, 10 and 23.
#[tactic(auto, using(outline::proofs::Refused::first_refused))]
fn check_lent(domain: Domain<'_>, size: f64, mesh: &Mesh<'_>, room: Room) -> Result<(), Refusal>
    ensures { refused result ≡ lent_refusal (outline_of domain.entry) size (mesh_state mesh.now) room }
{
    field_cross::check_drawn(domain, size)?;
    front_boundary::check_front_places(domain, size, room.nodes, room.edges)?;
    cover_check::check_fit(mesh, room.keys)
}

// The outline, sampled into lent lists.
fn sample(domain: Domain<'_>, size: f64, paving: &mut Paving<'_>)
    requires taken { outline_refusal (outline_of domain) ≡ 0 }
    requires room { sampled_refusal (outline_of domain) size
        (min (min (min (length paving.old.xs.now) (length paving.old.ys.now)) (min (length paving.old.next.now) (length paving.old.prev.now))) most_nodes)
        (length paving.old.edges.now / 2) ≡ 0 }
    ensures { SampledIn (outline_of domain.entry) size paving.new }
{
    front_boundary::from_boundary(domain, size, paving);
}

// The sampled outline as it stands there.
fn start_of<'p>(domain: Domain<'p>, size: f64, paving: &'p Paving<'_>) -> Start<'p>
    requires { SampledIn (outline_of domain) size paving.now }
    ensures { (result.domain ≡ domain.entry) × (result.size ≡ size) }
{
    let n = paving.counts.nodes as usize;
    Start {
        domain,
        size,
        xs: &paving.xs[..n],
        ys: &paving.ys[..n],
        next: &paving.next[..n],
    }
}

// A refusal of a place.
fn refused_at(refusal: u32, place: usize) -> CoversAnswer
    ensures { result ≡ covers_answered refusal place false }
{
    CoversAnswer {
        refusal,
        place,
        sound: false,
    }
}

// 28 to 30, or nothing refused.
fn answer_sides(cover: &Cover<'_>) -> CoversAnswer
    requires { outline_refusal (outline_of cover.now.start.domain) ≡ 0 }
    ensures { result ≡ sides_answer (outline_of cover.now.start.domain) (start_book (outline_of cover.now.start.domain) cover.now.start.size)
        (mesh_state cover.now.sides.mesh.now) }
{
    let nodes = cover.start.next.len();
    let wrong = cover.lowest_wrong();
    if wrong < cover.sides.mesh.counts.quads {
        return refused_at(cover_check::WRONG_SIDE, wrong);
    }
    let unlaid = cover.lowest_unlaid();
    if unlaid < nodes {
        return refused_at(cover_check::UNLAID_EDGE, unlaid);
    }
    let moved = cover.lowest_moved();
    if moved < nodes {
        return refused_at(cover_check::MOVED_NODE, moved);
    }
    CoversAnswer {
        refusal: 0,
        place: 0,
        sound: outline_soundness::is_sound(cover.start.domain),
    }
}

// 27 to 30, or nothing refused, of what the others let pass.
fn answer_mesh(
    domain: Domain<'_>,
    size: f64,
    mesh: &Mesh<'_>,
    paving: &mut Paving<'_>,
    keys: &mut [u64],
) -> CoversAnswer
    requires taken { outline_refusal (outline_of domain) ≡ 0 }
    requires room { sampled_refusal (outline_of domain) size
        (min (min (min (length paving.old.xs.now) (length paving.old.ys.now)) (min (length paving.old.next.now) (length paving.old.prev.now))) most_nodes)
        (length paving.old.edges.now / 2) ≡ 0 }
    requires named { QuadsNamed (mesh_state mesh.now) }
    requires keyed { 4 * mesh.now.counts.quads ≤ length keys.old }
    ensures { result ≡ mesh_answer (outline_of domain.entry) (start_book (outline_of domain.entry) size) (mesh_state mesh.now) }
{
    let folded = cover_check::lowest_folded(mesh);
    if folded < mesh.counts.quads {
        return refused_at(cover_check::FOLDED_QUAD, folded);
    }
    sample(domain, size, paving);
    let start = start_of(domain, size, paving);
    let sides = Sides::new(mesh, &mut keys[..4 * mesh.counts.quads]);
    answer_sides(&Cover { start, sides })
}

// Whether the quads of a mesh, whatever made it, cover each point of the outline as a run samples it once. Its first nodes have to be the sampled outline's. The
// lists that begin with `sampled_`, and `keys`, are scratch, which may be written. `sound` says whether the outline as drawn is sound.
// Stays a row of numbers and slices: C calls it.
#[unsafe(no_mangle)]
pub extern "C" fn sitjorbe_covers<'a>(
    outer: &'a [f64],
    holes: &'a [f64],
    hole_lengths: &[usize],
    size: f64,
    xs: &[f64],
    ys: &[f64],
    quads: &[u32],
    node_count: u32,
    quad_count: usize,
    sampled_xs: &mut [f64],
    sampled_ys: &mut [f64],
    sampled_next: &mut [u32],
    sampled_prev: &mut [u32],
    sampled_edges: &mut [u32],
    keys: &mut [u64],
) -> CoversAnswer
    ensures { CoversGiven (outline outer.now holes.now hole_lengths.now) size
        (state_of xs.now ys.now [] [] [] quads.now [] (counted node_count quad_count 0 0))
        (record {
          nodes = min (min (length sampled_xs.old) (length sampled_ys.old)) (min (length sampled_next.old) (length sampled_prev.old));
          edges = length sampled_edges.old / 2;
          keys = length keys.old;
        }) result }
{
    let domain = Domain {
        outer,
        holes,
        lens: hole_lengths,
    };
    let mesh = Mesh {
        xs,
        ys,
        next: &[],
        prev: &[],
        quads,
        edges: &[],
        counts: Counts {
            nodes: node_count,
            quads: quad_count,
            edges: 0,
            front: 0,
        },
    };
    let room = Room {
        nodes: (sampled_xs.len().min(sampled_ys.len())).min(
            sampled_next.len().min(sampled_prev.len()),
        ),
        edges: sampled_edges.len() / 2,
        keys: keys.len(),
    };
    match check_lent(domain, size, &mesh, room) {
        Err(refusal) => refused_at(u32::from(refusal), 0),
        Ok(()) => {
            let mut none: [u32; 0] = [];
            let mut paving = Paving {
                xs: sampled_xs,
                ys: sampled_ys,
                next: sampled_next,
                prev: sampled_prev,
                quads: &mut none,
                edges: sampled_edges,
                counts: Counts::default(),
            };
            answer_mesh(domain, size, &mesh, &mut paving, keys)
        }
    }
}
