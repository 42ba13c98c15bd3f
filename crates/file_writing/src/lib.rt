// The outline file of a request, written to a slice.
#![tactic(auto)]

ghost use Rattle.std.specs.Prelude.{◌≡◌, ◌+◌, ◌-◌, ◌/◌, ◌%◌, ◌≤◌, ◌<◌, length, take, MatchOption, IfSome};
ghost use Rattle.std.specs.Option.{unwrap_or};
ghost use Rattle.std.proofs.lemmas.List.Edits.{sets};
ghost use Rattle.file_outline.specs.File.{number_bytes, block_of, length_bytes, head_bytes, point_bytes, blocks_of};
ghost use Rattle.file_writing.specs.Lent.{request_lent};
ghost use Rattle.file_outline.specs.File.{file_length, total_points, fileable, file_written, write_file};

use file_outline::{
    BLOCK_COORDINATES, CONTENTS, FILE_BLOCK, LENGTHS_AT, LOOPS_AT, MOST_FILE_POINTS, MOST_LOOPS,
    PASSES_AT, SWEEPS_AT,
};
use outline::Settings;
use std::num;

// Of sweeps or of passes, since two bytes have them.
const MOST_COUNT: usize = 65535;

// What a file is written of, as it is lent: the settings, the coordinates of all loops, and each loop's length in points.
#[derive(Clone, Copy)]
pub struct LentRequest<'a> {
    pub settings: Settings,
    pub points: &'a [f64],
    pub lens: &'a [usize],
}

// LIMITS.md, 1: a place is given, and so it is in the loops below that call this.
// Puts the `n` bytes of `x` from place `at` on, low byte first.
#[tactic(auto, using(crate::proofs::Bytes::number_put))]
fn put_number(n: usize, x: u64, b: &mut [u8], at: usize)
    requires { (n ≤ 8) × (at + n ≤ length b.old) }
    ensures { b.new ≡ sets b.old at (number_bytes n x) }
{
    b[at..at + n].copy_from_slice(&x.to_le_bytes()[..n]);
}

// Makes a block of the contents on the first `used` places.
fn seal(b: &mut [u8; FILE_BLOCK], used: usize)
    requires { used ≤ 510 }
    ensures { b.new ≡ sets b.old 0 (block_of (take used b.old)) }
{
    b[used..CONTENTS].fill(0);
    let sum = file_outline::check_of(b);
    put_number(2, sum, b, CONTENTS);
}

fn put_lengths(lens: &[usize], b: &mut [u8; FILE_BLOCK])
    requires { length lens.now ≤ 8 }
    ensures { b.new ≡ sets b.old 14 (length_bytes lens.now) }
{
    for (k, &n) in lens.iter().enumerate() {
        put_number(2, n as u64, b, LENGTHS_AT + 2 * k);
    }
}

fn put_points(points: &[f64], b: &mut [u8; FILE_BLOCK])
    requires { length points.now ≤ 62 }
    ensures { b.new ≡ sets b.old 0 (point_bytes points.now) }
{
    for (c, &x) in points.iter().enumerate() {
        put_number(8, num::f64_to_bits_with_nan(x), b, 8 * c);
    }
}

// Each block is an array that is copied to its place whole: nothing is allocated.
fn head_block(settings: Settings, lens: &[usize]) -> [u8; FILE_BLOCK]
    requires { length lens.now ≤ 8 }
    ensures { result ≡ block_of (head_bytes «settings» lens.now) }
{
    let mut b = [0; FILE_BLOCK];
    put_number(8, num::f64_to_bits_with_nan(settings.size), &mut b, 0);
    put_number(2, settings.sweeps as u64, &mut b, SWEEPS_AT);
    put_number(2, settings.passes as u64, &mut b, PASSES_AT);
    put_number(2, lens.len() as u64, &mut b, LOOPS_AT);
    put_lengths(lens, &mut b);
    seal(&mut b, LENGTHS_AT + 2 * lens.len());
    b
}

fn points_block(points: &[f64]) -> [u8; FILE_BLOCK]
    requires { length points.now ≤ 62 }
    ensures { result ≡ block_of (point_bytes points.now) }
{
    let mut b = [0; FILE_BLOCK];
    put_points(points, &mut b);
    seal(&mut b, 8 * points.len());
    b
}

// Puts the blocks of points after the head's.
fn write_blocks(points: &[f64], file: &mut [u8])
    requires { (length points.now ≤ 496) × (length points.now % 2 ≡ 0) × (file_length (length points.now / 2) ≤ length file.old) }
    ensures { file.new ≡ sets file.old 512 (blocks_of points.now) }
{
    for (k, part) in points.chunks(BLOCK_COORDINATES).enumerate() {
        let at = FILE_BLOCK * (k + 1);
        file[at..at + FILE_BLOCK].copy_from_slice(&points_block(part));
    }
}

// The points of all loops, where a file can hold them.
// LIMITS.md, 4: a loop. Each length is compared before it is added, so that no sum overflows.
fn few_points(lens: &[usize]) -> Option<usize>
    ensures { MatchOption result (248 < total_points lens.now) (λ n. (n ≤ 248) × (n ≡ total_points lens.now)) }
{
    let mut sum = 0;
    for &n in lens {
        if MOST_FILE_POINTS - sum < n {
            return None;
        }
        sum += n;
    }
    Some(sum)
}

impl LentRequest<'_> {
    // Whether a file can hold it.
    #[tactic(auto, unfolding(file_outline::specs::File::fileable))]
    fn can_file(self) -> bool
        ensures { result ≡ fileable (request_lent self.entry) }
    {
        // The lengths are added only where they are few: there may be any number of them.
        if self.lens.len() < 1 || MOST_LOOPS < self.lens.len() {
            return false;
        }
        let Some(n) = few_points(self.lens) else {
            return false;
        };
        self.points.len() == 2 * n
            && self.settings.sweeps <= MOST_COUNT
            && self.settings.passes <= MOST_COUNT
    }

    // Writes its file, and answers the file's length. Where a file can't hold it or the list lent is too short, there is no answer and nothing is
    // written. Places after the file keep their contents.
    pub fn write_file(self, file: &mut [u8]) -> Option<usize>
        ensures written { file_written (unwrap_or result 0) file.new ≡ write_file (request_lent self.entry) file.old }
        ensures some { IfSome result (λ n. 0 < n) }
    {
        if !self.can_file() {
            return None;
        }
        let n = file_outline::file_length(self.points.len() / 2);
        if file.len() < n {
            return None;
        }
        file[..FILE_BLOCK].copy_from_slice(&head_block(self.settings, self.lens));
        write_blocks(self.points, file);
        Some(n)
    }
}
