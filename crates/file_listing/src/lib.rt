// The program on slices: from the bytes of an outline's file to the bytes of its listing.
#![tactic(auto)]

ghost use Rattle.std.specs.Prelude.{◌≡◌};
ghost use Rattle.outline.specs.Outline.{outline_of};
ghost use Rattle.outline.specs.Refusals.{numbered};
ghost use Rattle.listing.specs.Buffer.{buffer, buffer_written};
ghost use Rattle.listing.specs.Listing.{listing};
ghost use Rattle.file_listing.specs.Program.{heading_of, headed, outline_listing, program_listing, ListingGiven};
ghost use Rattle.file_listing.specs.Laws.{RequestHeld, held_outline};

use file_outline::Head;
use listing::{Heading, MeshLists};
use outline::{Domain, Refusal, Settings};
use paving::Scratch;
use run::{Paved, RunLists};

// So many bytes of a file decide: the longest has one fewer.
pub const DECISIVE: usize = file_outline::LONGEST_FILE + 1;

pub const LONGEST_LISTING: usize = 117681;

// What the program lends.
const FIELD_NODES: usize = 1600;

const NODES: usize = 800;

const QUADS: usize = 800;

const EDGES: usize = 2400;

const LOOPS: usize = file_outline::MOST_LOOPS;

// One for 16 of up to 248 points, and one more for each of up to eight loops.
const BLOCKS: usize = 23;

#[tactic(auto, unfolding(crate::specs::Program::heading_of))]
fn heading(paved: Paved) -> Heading
    ensures { result ≡ heading_of paved }
{
    let counts = paved.counts;
    let listed = paved.listed;
    Heading {
        nodes: counts.nodes,
        quads: counts.quads,
        front: counts.front,
        end: u32::from(paved.end),
        whole: paved.whole,
        loops: listed.count,
    }
}

// The listing of what the run answers, in the lists as it leaves them.
#[tactic(auto, unfolding(listing::specs::Listing::listing))]
fn list_answer(answer: Result<Paved, Refusal>, lists: MeshLists<'_>, out: &mut [u8]) -> usize
    ensures { buffer out.new result
        ≡ buffer_written (listing (headed (numbered answer)) lists.entry.xs.now lists.entry.ys.now lists.entry.quads.now lists.entry.loops.now lists.entry.lengths.now) out.old }
{
    let paved = match answer {
        Ok(paved) => paved,
        Err(refusal) => return listing::write_refused(out, u32::from(refusal)),
    };
    listing::write_mesh(out, heading(paved), lists)
}

// The listing of an outline. The lists that the program lends are all here. The pools have room for each node, and for each edge six times; the list of
// blocks has four numbers for each, and the list of tries three for each node.
fn list_outline(domain: Domain<'_>, settings: Settings, out: &mut [u8]) -> usize
    ensures { ListingGiven (outline_listing (outline_of domain.entry) settings)
        out.old out.new result }
{
    // The program allocates nothing.
    let mut values = [0.0; 2 * FIELD_NODES];
    let mut marks = [0u8; FIELD_NODES];
    let mut xs = [0.0; NODES];
    let mut ys = [0.0; NODES];
    let mut next = [0u32; NODES];
    let mut prev = [0u32; NODES];
    let mut snapshot = [0u32; NODES];
    let mut origins = [0u16; NODES];
    let mut quads = [0u32; 4 * QUADS];
    let mut edges = [0u32; 2 * EDGES];
    let mut loops = [0u32; NODES];
    let mut lengths = [0u32; LOOPS];
    let mut node_pool = [0u32; 4 * NODES];
    let mut edge_pool = [0u32; 16 * EDGES];
    let mut blocks = [0u32; 4 * BLOCKS];
    let mut tried = [0u32; 3 * NODES];
    let mut lists = RunLists {
        values: &mut values,
        marks: &mut marks,
        xs: &mut xs,
        ys: &mut ys,
        next: &mut next,
        prev: &mut prev,
        snapshot: &mut snapshot,
        origins: &mut origins,
        quads: &mut quads,
        edges: &mut edges,
        loops: &mut loops,
        lengths: &mut lengths,
    };
    let mut scratch = Scratch {
        node_pool: &mut node_pool,
        edge_pool: &mut edge_pool,
        tried: &mut tried,
    };
    let answer = run::pave(domain, settings, &mut lists, &mut scratch, &mut blocks);
    let mesh = MeshLists {
        xs: &xs,
        ys: &ys,
        quads: &quads,
        loops: &loops,
        lengths: &lengths,
    };
    list_answer(answer, mesh, out)
}

// The listing of what was read from a file.
fn list_request(points: &[f64], lens: &[usize], head: Head, out: &mut [u8]) -> usize
    requires { RequestHeld points.now lens.now head }
    ensures { ListingGiven (outline_listing (held_outline points.now lens.now head) head.settings)
        out.old out.new result }
{
    let loops = head.loops;
    let outer = 2 * head.outer;
    let all = 2 * head.points;
    let domain = Domain {
        outer: &points[..outer],
        holes: &points[outer..all],
        lens: &lens[1..loops],
    };
    list_outline(domain, head.settings, out)
}

// Writes the listing of an outline's file into `out`, as far as it goes, and answers how many bytes are written. No listing is longer than
// 117,681 bytes.
pub fn list_file(file: &[u8], out: &mut [u8]) -> usize
    ensures { ListingGiven (program_listing file.now) out.old out.new result }
{
    // The program allocates nothing.
    let mut points = [0.0; 2 * file_outline::MOST_FILE_POINTS];
    let mut lens = [0usize; file_outline::MOST_LOOPS];
    match file_outline::read_file(file, &mut points, &mut lens) {
        Ok(head) => list_request(&points, &lens, head, out),
        Err(refusal) => listing::write_refused(out, u32::from(refusal)),
    }
}
