// The outline file: 512-byte blocks with a check, read from a slice. Refusals 12 and 13.
#![tactic(auto)]

ghost use Rattle.std.specs.Prelude.{◌≡◌, ◌+◌, ◌*◌, ◌/◌, ◌≤◌, ◌<◌, length, IfOk};
ghost use Rattle.outline.specs.Refusals.{refused, numbered};
ghost use Rattle.laws.specs.Overlay.{overlay};
ghost use Rattle.laws.specs.Tabulate.{tabulate};
ghost use Rattle.file_outline.specs.File.{float_at, block_at, weighted_byte, check_of, block_refusal, zero_from, head_length, head_points, head_sound, head_refusal};
ghost use Rattle.file_outline.specs.File.{points_refusal, blocks_refusal, coordinate_at, file_length, file_refusal, reading, read_file};
ghost use Rattle.file_outline.specs.ByteLaws.{NumberOf};
ghost use Rattle.file_outline.specs.RefusalLaws.{Headed};
ghost use Rattle.file_outline.specs.ReadLaws.{block_head};

use outline::{Refusal, Settings};
use std::num;

// Of a block, and of its contents, after which its check stands.
pub const FILE_BLOCK: usize = 512;

pub const CONTENTS: usize = 510;

pub const MOST_LOOPS: usize = 8;

pub const MOST_FILE_POINTS: usize = 248;

pub const BLOCK_POINTS: usize = 31;

pub const BLOCK_COORDINATES: usize = 2 * BLOCK_POINTS;

pub const LONGEST_FILE: usize = 4608;

// Where a head's numbers stand; the size is first.
pub const SWEEPS_AT: usize = 8;

pub const PASSES_AT: usize = 10;

pub const LOOPS_AT: usize = 12;

pub const LENGTHS_AT: usize = 14;

// What a file's head says: the settings, how many loops, and how many points the outer loop and all loops have.
#[derive(Clone, Copy)]
pub struct Head {
    pub settings: Settings,
    pub loops: usize,
    pub outer: usize,
    pub points: usize,
}

// ---- bytes

// The two bytes from place `i` on as a number, low byte first.
fn number_at(b: &[u8], i: usize) -> u16
    requires { i + 2 ≤ length b.now }
    ensures { NumberOf 2 b.now i result }
{
    u16::from_le_bytes([b[i], b[i + 1]])
}

fn float_at(b: &[u8], i: usize) -> f64
    requires { i + 8 ≤ length b.now }
    ensures { result ≡ float_at b.now i }
{
    // `as_array` of eight bytes would be an `Option` that is never none.
    let mut bytes = [0; 8];
    bytes.copy_from_slice(&b[i..i + 8]);
    num::f64_from_bits_with_nan(u64::from_le_bytes(bytes))
}

// ---- blocks

// Block k of a file, or what there is of it.
fn block(file: &[u8], k: usize) -> &[u8]
    requires { k ≤ 8 }
    ensures { result.now ≡ block_at file.now k }
{
    let from = (FILE_BLOCK * k).min(file.len());
    let to = file.len().min(from + FILE_BLOCK);
    &file[from..to]
}

fn weighted_byte(b: &[u8], i: usize) -> u64
    requires { (i < 510) × (510 ≤ length b.now) }
    ensures { result ≡ weighted_byte b.now i }
{
    (i as u64 + 1) * u64::from(b[i])
}

// The sum that stands in a block's last two bytes.
pub fn check_of(b: &[u8]) -> u64
    requires { 510 ≤ length b.now }
    ensures { result ≡ check_of b.now }
{
    let sum: u64 = (0..CONTENTS).map(|i| weighted_byte(b, i)).sum();
    sum % 65521
}

fn check_block(b: &[u8]) -> Result<&[u8; FILE_BLOCK], Refusal>
    requires { length b.now ≤ 512 }
    ensures refused { refused result ≡ block_refusal b.now }
    ensures same { IfOk result (λ whole. whole.now ≡ b.now) }
{
    let Some(whole) = b.as_array() else {
        return Err(Refusal::WrongFile);
    };
    if check_of(whole) != u64::from(number_at(whole, CONTENTS)) {
        return Err(Refusal::WrongCheck);
    }
    Ok(whole)
}

// Whether the bytes from place `at` to 509 are 0.
fn zero_from(b: &[u8; FILE_BLOCK], at: usize) -> bool
    requires { at ≤ 510 }
    ensures { result ≡ zero_from b.now at }
{
    b[at..CONTENTS].iter().all(|&x| x == 0)
}

// ---- the head

// The points of loop k.
fn head_length(h: &[u8; FILE_BLOCK], k: usize) -> usize
    requires { k < 8 }
    ensures { result ≡ head_length h.now k }
{
    usize::from(number_at(h, LENGTHS_AT + 2 * k))
}

// The points of the first `n` loops.
fn head_points(h: &[u8; FILE_BLOCK], n: usize) -> usize
    requires { n ≤ 8 }
    ensures { result ≡ head_points h.now n }
{
    (0..n).map(|k| head_length(h, k)).sum()
}

#[tactic(auto, unfolding(crate::specs::File::head_sound))]
fn head_sound(h: &[u8; FILE_BLOCK]) -> bool
    ensures { result ≡ head_sound h.now }
{
    let loops = usize::from(number_at(h, LOOPS_AT));
    1 <= loops
        && loops <= MOST_LOOPS
        && head_points(h, loops) <= MOST_FILE_POINTS
        && zero_from(h, LENGTHS_AT + 2 * loops)
}

fn check_head(h: &[u8]) -> Result<&[u8; FILE_BLOCK], Refusal>
    requires { length h.now ≤ 512 }
    ensures refused { refused result ≡ head_refusal h.now }
    ensures same { IfOk result (λ whole. whole.now ≡ h.now) }
{
    let whole = check_block(h)?;
    if head_sound(whole) {
        Ok(whole)
    } else {
        Err(Refusal::WrongFile)
    }
}

// ---- the points

// Whether the k-th block of `n` points is refused.
fn check_points(file: &[u8], n: usize, k: usize) -> Result<(), Refusal>
    requires { (n ≤ 248) × (31 * k < n) }
    ensures { refused result ≡ points_refusal file.now n k }
{
    let b = check_block(block(file, k + 1))?;
    let here = (n - BLOCK_POINTS * k).min(BLOCK_POINTS);
    if zero_from(b, 16 * here) {
        Ok(())
    } else {
        Err(Refusal::WrongFile)
    }
}

// Whether any of the blocks of `n` points is refused.
fn check_blocks(file: &[u8], n: usize) -> Result<(), Refusal>
    requires { n ≤ 248 }
    ensures { refused result ≡ blocks_refusal file.now n }
{
    for k in 0..n.div_ceil(BLOCK_POINTS) {
        check_points(file, n, k)?;
    }
    Ok(())
}

// ---- reading a file

// How many bytes a file of `n` points has.
pub fn file_length(n: usize) -> usize
    requires { n ≤ 248 }
    ensures { result ≡ file_length n }
{
    FILE_BLOCK * (n.div_ceil(BLOCK_POINTS) + 1)
}

// The head of a file that isn't refused.
fn checked_head(file: &[u8]) -> Result<&[u8; FILE_BLOCK], Refusal>
    ensures refused { refused result ≡ file_refusal file.now }
    ensures head { IfOk result (λ h. h.now ≡ block_at file.now 0) }
{
    let h = check_head(block(file, 0))?;
    let n = head_points(h, usize::from(number_at(h, LOOPS_AT)));
    check_blocks(file, n)?;
    if file_length(n) < file.len() {
        return Err(Refusal::WrongFile);
    }
    Ok(h)
}

// Refusals 12 and 13: the head first, then block by block, last the end.
pub fn check_file(file: &[u8]) -> Result<(), Refusal>
    ensures { refused result ≡ file_refusal file.now }
{
    checked_head(file)?;
    Ok(())
}

// Coordinate `c` of a file: 0 is the first point's x, 1 its y.
fn coordinate_at(file: &[u8], c: usize) -> f64
    requires { (c < 496) × (512 * (c / 62 + 2) ≤ length file.now) }
    ensures { result ≡ coordinate_at file.now c }
{
    float_at(
        block(file, c / BLOCK_COORDINATES + 1),
        8 * (c % BLOCK_COORDINATES),
    )
}

// Puts the coordinates of a file's `n` points on the first places of `points`.
fn read_points(file: &[u8], n: usize, points: &mut [f64])
    requires { (n ≤ 248) × (file_length n ≤ length file.now) × (2 * n ≤ length points.old) }
    ensures { points.new ≡ overlay (tabulate (2 * n) (coordinate_at file.now)) points.old }
{
    for (c, place) in points[..2 * n].iter_mut().enumerate() {
        *place = coordinate_at(file, c);
    }
}

// Puts the lengths of a head's first `n` loops on the first places of `lens`.
fn read_lengths(h: &[u8; FILE_BLOCK], n: usize, lens: &mut [usize])
    requires { (n ≤ 8) × (n ≤ length lens.old) }
    ensures { lens.new ≡ overlay (tabulate n (head_length h.now)) lens.old }
{
    for (k, place) in lens[..n].iter_mut().enumerate() {
        *place = head_length(h, k);
    }
}

fn read_head(h: &[u8; FILE_BLOCK]) -> Head
    requires { Headed h.now }
    ensures { result ≡ block_head h.now }
{
    let loops = usize::from(number_at(h, LOOPS_AT));
    let settings = Settings {
        size: float_at(h, 0),
        sweeps: usize::from(number_at(h, SWEEPS_AT)),
        passes: usize::from(number_at(h, PASSES_AT)),
    };
    Head {
        settings,
        loops,
        outer: usize::from(number_at(h, LENGTHS_AT)),
        points: head_points(h, loops),
    }
}

// Reads a file of any length. A file has at most 248 points in 8 loops, so the lists lent always suffice. Where it is refused, nothing is
// written; otherwise `points[..2 * outer]` has the outer loop's coordinates, `points[2 * outer..2 * points]` the holes', `lens[..loops]` each
// loop's length, and places after these keep their contents.
pub fn read_file(
    file: &[u8],
    points: &mut [f64; 2 * MOST_FILE_POINTS],
    lens: &mut [usize; MOST_LOOPS],
) -> Result<Head, Refusal>
    ensures { reading (numbered result) points.new lens.new ≡ read_file file.now points.old lens.old }
{
    let h = checked_head(file)?;
    let head = read_head(h);
    read_lengths(h, head.loops, lens);
    read_points(file, head.points, points);
    Ok(head)
}
