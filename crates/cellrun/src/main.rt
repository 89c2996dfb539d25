// cellrun: reads a listing on standard input, runs it, and writes its answers, and the registers, rights and grants after it,
// on standard output.
#![tactic(auto)]

ghost use Rattle.std.specs.Prelude.{◌≡◌, ◌≤◌, length, take, IfOk, IfSome, OnOk};
ghost use Rattle.std.specs.Io.KnownBytes.{Appends};
ghost use Rattle.listing.specs.Output.{output_of};

use std::io;
use std::io::{Read, Write};

// Room for a listing and one byte more, so that a longer one is seen to be too long.
const LISTING: usize = 65537;

// Room for every output.
const OUTPUT: usize = 532480;

// Room for so many bytes, on the stack: there is no heap. It comes from a function of its own, so that a proof knows its length alone.
// `listing` has one for its lists, which is not public: it would need a theorem and an edit, for the one line.
fn room<const N: usize>() -> [u8; N]
    ensures { N ≡ length result }
{
    [0; N]
}

// Fills `text` with the start of the input, in however small parts it comes; how many bytes there were. The loop is
// our own: the library's calls that read to the end fill a `Vec`, and `read_exact` does not say how much there was.
fn read_listing<R: Read>(input: &mut R, text: &mut [u8]) -> io::Result<usize>
    ensures within { IfOk result (λ n. n ≤ length text.new) }
    ensures bytes { IfOk result (λ n. IfSome (R.remaining input.old)
        (λ bytes. take n text.new ≡ take (length text.new) bytes)) }
{
    let mut n = 0;
    while n < text.len() {
        let part = input.read(&mut text[n..])?;
        if part == 0 {
            return Ok(n);
        }
        n += part;
    }
    Ok(n)
}

// Runs a listing, and writes what is to be written of it.
fn write_output<W: Write>(text: &[u8], output: &mut W) -> io::Result<()>
    ensures { OnOk result (Appends (W.contents output.old) (W.contents output.new) (output_of text.now)) }
{
    let mut out = room::<OUTPUT>();
    let end = listing::cellrun(text, &mut out);
    output.write_all(&out[..end])
}

// Runs the listing that the input begins with.
fn run<R: Read, W: Write>(input: &mut R, output: &mut W) -> io::Result<()>
    ensures { OnOk result (IfSome (R.remaining input.old)
        (λ bytes. Appends (W.contents output.old) (W.contents output.new) (output_of (take 65537 bytes)))) }
{
    let mut text = room::<LISTING>();
    let n = read_listing(input, &mut text)?;
    write_output(&text[..n], output)
}

fn main(rt: HostRuntime) -> io::Result<()> {
    run(&mut rt.stdin(), &mut rt.stdout())
}
