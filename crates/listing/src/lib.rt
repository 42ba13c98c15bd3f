// What the program prints, written into a lent buffer: the listing of docs/FORMATS.md.
#![tactic(auto)]

ghost use Rattle.std.specs.Prelude.{◌≡◌, [], ◌∷◌, ◌++◌, take};
ghost use Rattle.listing.specs.Text.{ascii};
ghost use Rattle.listing.specs.Buffer.{buffer, buffer_written};
ghost use Rattle.listing.specs.Output.{Started, Put};
ghost use Rattle.listing.specs.Listing.{decimal, hex_of, spaced, row, node_line, node_lines, quad_lines, loop_lines};
ghost use Rattle.listing.specs.Listing.{end_word, head_line, refused_listing, mesh_listing};

use std::num;

// What the first line says of a mesh, `end` by the run's number; and `loops`, how many loops are listed.
#[derive(Clone, Copy)]
pub struct Heading {
    pub nodes: u32,
    pub quads: usize,
    pub front: usize,
    // A number, here and in `end_word`: each has its word, from 3 on `full`, and the enum would take fewer.
    pub end: u32,
    pub whole: bool,
    pub loops: usize,
}

// The lists of a mesh as a listing reads them: of each only what the heading counts.
#[derive(Clone, Copy)]
pub struct MeshLists<'a> {
    pub xs: &'a [f64],
    pub ys: &'a [f64],
    pub quads: &'a [u32],
    pub loops: &'a [u32],
    pub lengths: &'a [u32],
}

// ---- the buffer

// A lent buffer, written from its first place on. What it has no place for is left out.
#[derive(Drop)]
struct Output<'a> {
    bytes: &'a mut [u8],
    used: usize,
}

impl<'a> Output<'a> {
    fn new(bytes: &'a mut [u8]) -> Output<'a>
        ensures { Started bytes.entry result }
    {
        Output { bytes, used: 0 }
    }

    #[tactic(auto, using(crate::proofs::BufferLaws::wrote_in, crate::proofs::BufferLaws::wrote_out))]
    fn put(&mut self, byte: u8)
        ensures { Put (byte ∷ []) self.old self.new }
    {
        if self.used < self.bytes.len() {
            self.bytes[self.used] = byte;
            self.used += 1;
        }
    }

    fn put_all(&mut self, bytes: &[u8])
        ensures { Put bytes.now self.old self.new }
    {
        for &byte in bytes {
            self.put(byte);
        }
    }

    // ---- numbers

    // A space and a number.
    fn put_spaced(&mut self, v: usize)
        ensures { Put (ascii " " ++ decimal v) self.old self.new }
    {
        self.put(b' ');
        self.put_all(itoa::Buffer::new().format(v).as_bytes());
    }

    fn put_all_spaced(&mut self, ids: &[u32])
        ensures { Put (spaced ids.now) self.old self.new }
    {
        for &id in ids {
            self.put_spaced(id as usize);
        }
    }

    // The 16 hexadecimal digits of `bits`.
    fn put_hex(&mut self, bits: u64)
        ensures { Put (hex_of 16 bits) self.old self.new }
    {
        // `hex` writes into a slice, and nothing is allocated.
        let mut digits = [0; 16];
        hex::encode_to_slice(bits.to_be_bytes(), &mut digits).unwrap();
        self.put_all(&digits);
    }

    // ---- lines

    fn put_row(&mut self, letter: u8, ids: &[u32])
        ensures { Put (row letter ids.now) self.old self.new }
    {
        self.put(letter);
        self.put_all_spaced(ids);
        self.put(b'\n');
    }

    fn put_node(&mut self, x: f64, y: f64)
        ensures { Put (node_line x y) self.old self.new }
    {
        self.put_all(b"n ");
        self.put_hex(num::f64_to_bits_with_nan(x));
        self.put(b' ');
        self.put_hex(num::f64_to_bits_with_nan(y));
        self.put(b'\n');
    }

    // The first `n` nodes that both lists hold.
    // x and y are two lists, as a run has them.
    fn put_nodes(&mut self, n: usize, xs: &[f64], ys: &[f64])
        ensures { Put (node_lines (take n xs.now) (take n ys.now)) self.old self.new }
    {
        for (&x, &y) in xs.iter().zip(ys.iter()).take(n) {
            self.put_node(x, y);
        }
    }

    fn put_quads(&mut self, n: usize, quads: &[u32])
        ensures { Put (quad_lines n quads.now) self.old self.new }
    {
        for quad in quads.chunks_exact(4).take(n) {
            self.put_row(b'q', quad);
        }
    }

    // The first `n` loops that the lists hold.
    // A run lists the ids of all loops one after the other, and their lengths beside them: a loop takes its ids off
    // the front, and the rest is handed on.
    fn put_loops(&mut self, n: usize, lengths: &[u32], loops: &[u32])
        ensures { Put (loop_lines (take n lengths.now) loops.now) self.old self.new }
    {
        let mut rest = loops;
        for &length in lengths.iter().take(n) {
            let (ids, others) = rest.split_at((length as usize).min(rest.len()));
            self.put_row(b'l', ids);
            rest = others;
        }
    }

    // The first line.
    fn put_heading(&mut self, h: Heading)
        ensures { Put (head_line h) self.old self.new }
    {
        self.put_all(b"mesh");
        self.put_spaced(h.nodes as usize);
        self.put_spaced(h.quads);
        self.put_spaced(h.front);
        self.put_all(end_word(h.end));
        self.put_all(if h.whole { b" whole" } else { b" open" });
        self.put(b'\n');
    }
}

fn end_word(end: u32) -> &'static [u8]
    ensures { result.now ≡ end_word end }
{
    match end {
        0 => b" still",
        1 => b" passes",
        2 => b" cap",
        _ => b" full",
    }
}

// ---- the listing

// The listing of a refusal. The answer is how many bytes are written, as of the one below.
// Any number is listed, and the enum would take fewer.
pub fn write_refused(out: &mut [u8], number: u32) -> usize
    ensures { buffer out.new result ≡ buffer_written (refused_listing number) out.old }
{
    let mut output = Output::new(out);
    output.put_all(b"refused");
    output.put_spaced(number as usize);
    output.put(b'\n');
    output.used
}

// The listing of a mesh, in the lists as the run leaves them.
pub fn write_mesh(out: &mut [u8], h: Heading, lists: MeshLists<'_>) -> usize
    ensures { buffer out.new result
        ≡ buffer_written (mesh_listing h lists.entry.xs.now lists.entry.ys.now lists.entry.quads.now lists.entry.loops.now lists.entry.lengths.now)
        out.old }
{
    let mut output = Output::new(out);
    output.put_heading(h);
    output.put_nodes(h.nodes as usize, lists.xs, lists.ys);
    output.put_quads(h.quads, lists.quads);
    output.put_loops(h.loops, lists.lengths, lists.loops);
    output.used
}
