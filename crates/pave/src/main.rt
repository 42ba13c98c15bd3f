// Reads an outline's file from standard input and prints its listing. The longest file has 4,608 bytes, and one more decides that there is
// too much: so endless input ends too.
#![tactic(auto)]

ghost use Rattle.std.specs.Prelude.{IfSome, OnOk};
ghost use Rattle.std.specs.Io.KnownBytes.{Appends};
ghost use Rattle.file_listing.specs.Program.{program_listing};

use std::io;
use std::io::{Read, Write};

// Reads an outline's file and writes its whole listing.
fn print_listing<R: Read, W: Write>(input: &mut R, output: &mut W) -> io::Result<()>
    ensures { OnOk result (IfSome (R.remaining input.old) (λ file. Appends (W.contents output.old) (W.contents output.new) (program_listing file))) }
{
    // The program allocates nothing.
    let mut file = [0u8; file_listing::DECISIVE];
    let mut out = [0u8; file_listing::LONGEST_LISTING];
    let n = file_reading::read_full(input, &mut file)?;
    let written = file_listing::list_file(&file[..n], &mut out);
    output.write_all(&out[..written])
}

fn main(rt: HostRuntime) -> io::Result<()> {
    let mut input = rt.stdin();
    let mut output = rt.stdout();
    print_listing(&mut input, &mut output)
}
