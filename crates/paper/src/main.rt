// Reads a record from standard input, 8 seed bytes and an optional style byte, and writes its sheet, or the
// field of a refusal, to standard output. A read that fails counts as the end of the input.
#![tactic(auto)]

ghost use Rattle.std.specs.Prelude.{IfSome, OnOk};
ghost use Rattle.std.specs.Io.KnownBytes.{Appends};
ghost use Rattle.pages.specs.Reply.{reply_bytes};
ghost use Rattle.paper.specs.Record.{paper_asked};

use input::read_full;
use pages::edition::SHEET_MOST;
use record::respond;
use std::io;
use std::io::{Read, Write};

mod record;

// Writes what the input asks for. Answers how the reading went, and how the writing.
pub fn answer<R: Read, W: Write>(input: &mut R, output: &mut W) -> (io::Result<()>, io::Result<()>)
    ensures { OnOk result.0 (IfSome (R.remaining input.old) (λ xs.
        OnOk result.1 (Appends (W.contents output.old) (W.contents output.new) (reply_bytes (paper_asked xs))))) }
{
    // a byte more than a record has, so that a longer input shows
    let mut bytes = [0u8; 10];
    let (n, read) = read_full(input, &mut bytes);
    let mut out = [0u8; SHEET_MOST];
    let m = respond(&bytes[..n], &mut out);
    let written = output.write_all(&out[..m]);
    (read, written)
}

fn main(rt: HostRuntime) -> io::Result<()> {
    let (_, written) = answer(&mut rt.stdin(), &mut rt.stdout());
    written
}
