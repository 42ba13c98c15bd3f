// Runs the oracle's fixed list: for each outline's file the listing, compared byte for byte with the stored one. Prints a line for each that
// differs, and last how many there are.
#![tactic(auto)]

ghost use Rattle.std.specs.Prelude.{◌≡◌, ◌+◌, ◌≤◌, ◌==◌, not, length, take, drop, IfOk, IfSome};
ghost use Rattle.std.specs.List.{position, zip};
ghost use Rattle.file_listing.specs.Program.{program_listing};
ghost use Rattle.replay.specs.Compare.{compared, line_length};

use file_listing::list_file;
use file_reading::read_full;
use std::rt::Files;
use std::{fs, io, str};

// So much is read of the list and of an outline's file, of which 4,609 bytes decide.
// The length of arrays, and so is the next: `differs` and `main` read into them, since the program allocates nothing.
const MOST_READ: usize = 65536;

// So much is read of a stored listing: more than any has.
const MOST_STORED: usize = 120000;

// ---- on slices

fn first_unlike(a: &[u8], b: &[u8]) -> Option<usize>
    ensures { result ≡ position (λ p. not (p.0 == p.1)) (zip a.now b.now) }
{
    a.iter().zip(b.iter()).position(|(x, y)| x != y)
}

// The first place at which two texts differ, if any; one may end there.
fn compare(a: &[u8], b: &[u8]) -> Option<usize>
    ensures { result ≡ compared a.now b.now }
{
    let place = first_unlike(a, b);
    if place.is_none() && a.len() != b.len() {
        return Some(a.len().min(b.len()));
    }
    place
}

// How many bytes there are before the first line feed, or in all.
fn line_length(text: &[u8]) -> usize
    ensures value { result ≡ line_length text.now }
    ensures within { result ≤ length text.now }
{
    text.iter().position(|&b| b == b'\n').unwrap_or(text.len())
}

// A text's first line, and what follows it.
fn split_line(text: &[u8]) -> (&[u8], &[u8])
    ensures front { result.0.now ≡ take (line_length text.now) text.now }
    ensures back { result.1.now ≡ drop (line_length text.now + 1) text.now }
{
    let end = line_length(text);
    (&text[..end], &text[(end + 1).min(text.len())..])
}

// A file's listing beside the stored one.
fn check(file: &[u8], stored: &[u8]) -> Option<usize>
    ensures { result ≡ compared (program_listing file.now) stored.now }
{
    // The program allocates nothing.
    let mut listing = [0u8; file_listing::LONGEST_LISTING];
    let n = list_file(file, &mut listing);
    compare(&listing[..n], stored)
}

// ---- files

// Puts a file at the start of `bytes`, as far as they go.
fn read_bytes<'a>(files: &impl Files, path: &[u8], bytes: &'a mut [u8]) -> io::Result<&'a [u8]>
    ensures { IfOk result (λ read. length read.now ≤ length bytes.old) }
{
    let Ok(name) = str::from_utf8(path) else {
        return Err(io::Error::from(io::ErrorKind::InvalidFilename));
    };
    let mut file = fs::open(files, name)?;
    let length = read_full(&mut file, bytes)?;
    Ok(&bytes[..length])
}

// The same, where a file that can't be read is none, and a line says so.
fn read_or_say<'a>(rt: &(impl Files + Eprint), path: &[u8], bytes: &'a mut [u8]) -> Option<&'a [u8]>
    ensures { IfSome result (λ read. length read.now ≤ length bytes.old) }
{
    match read_bytes(rt, path, bytes) {
        Ok(read) => Some(read),
        Err(error) => {
            say_failure(rt, path, error);
            None
        }
    }
}

// ---- what is printed

// On standard error, why a file can't be read. That this line can't be written is no failure.
fn say_failure(rt: &impl Eprint, path: &[u8], error: io::Error) {
    let name = str::from_utf8(path).unwrap_or("a name that is no text");
    let _ = eprintln!(rt; "{name}: {error}");
}

fn say_missing(rt: &impl Print, path: &[u8]) -> io::Result<()> {
    rt.write_all(path)?;
    rt.write_all(b" can't be read\n")
}

fn say_difference(rt: &impl Print, path: &[u8], at: usize) -> io::Result<()> {
    rt.write_all(path)?;
    println!(rt; " differs at byte {at}")
}

fn say_counts(rt: &impl Print, files: usize, differences: usize) -> io::Result<()> {
    println!(rt; "{files} files, {differences} differences")
}

// ---- the list

// Runs one file, and answers whether it differs: then a line is printed. A file that is missing does. That a line can't be written changes no
// answer.
fn differs(rt: &(impl Files + Print + Eprint), outline: &[u8], listing: &[u8]) -> bool {
    let mut file = [0u8; MOST_READ];
    let Some(read) = read_or_say(rt, outline, &mut file) else {
        let _ = say_missing(rt, outline);
        return true;
    };
    let mut stored = [0u8; MOST_STORED];
    let Some(kept) = read_or_say(rt, listing, &mut stored) else {
        let _ = say_missing(rt, listing);
        return true;
    };
    let Some(at) = check(read, kept) else {
        return false;
    };
    let _ = say_difference(rt, listing, at);
    true
}

// Runs every file of a list, in which an outline's line and its listing's follow each other.
fn replay_all(rt: &(impl Files + Print + Eprint), list: &[u8]) -> io::Result<()> {
    let mut files = 0;
    let mut differences = 0;
    let mut rest = list;
    // A turn takes two lines, of which the second may be missing.
    while !rest.is_empty() {
        let (outline, after) = split_line(rest);
        let (listing, others) = split_line(after);
        if differs(rt, outline, listing) {
            differences += 1;
        }
        files += 1;
        rest = others;
    }
    say_counts(rt, files, differences)
}

fn main(rt: HostRuntime) -> io::Result<()> {
    let mut list = [0u8; MOST_READ];
    let lines = read_or_say(&rt, b"list", &mut list).unwrap_or(&[]);
    replay_all(&rt, lines)
}
