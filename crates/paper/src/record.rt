// A record, 8 seed bytes and an optional style byte, and what the program writes for it: sheets are of edition 2.
ghost use Rattle.std.specs.Prelude.{◌≡◌, length};
ghost use Rattle.pages.specs.Edition.{sheet_most};
ghost use Rattle.pages.specs.Reply.{replied_length, replied_buffer};
ghost use Rattle.pages.specs.declared.edition.Edition.{Edition};
ghost use Rattle.paper.specs.Record.{is_record, style_in, paper_asked};

use composer::refusal::Refusal;
use pages::edition::SHEET_MOST;
use pages::get::u64_at;
use pages::reply::{put_refusal, reply};
use pages::sheet::sheet;

// The style of a record that names none.
const DEFAULT_STYLE: u8 = 0;

// 8 seed bytes, or 9 with the style's.
fn is_record(input: &[u8]) -> bool
    ensures { result ≡ is_record input.now }
{
    input.len() == 8 || input.len() == 9
}

fn style_in(input: &[u8]) -> u8
    ensures { result ≡ style_in input.now }
{
    if input.len() > 8 {
        input[8]
    } else {
        DEFAULT_STYLE
    }
}

// Writes what the program answers to a record from the first byte of `out` on, and answers its length:
// the sheet, or the field of a refusal, 5 where the record has not 8 or 9 bytes, then 1 for an unknown
// style. With fewer places than the longest sheet has bytes it writes nothing and answers 0.
pub fn respond(input: &[u8], out: &mut [u8]) -> usize
    ensures value { result ≡ replied_length (sheet_most Edition.Two) (length out.old) (paper_asked input.now) }
    ensures out_after { out.new ≡ replied_buffer (sheet_most Edition.Two) out.old (paper_asked input.now) }
{
    if out.len() < SHEET_MOST {
        return 0;
    }
    if !is_record(input) {
        return put_refusal(out, Refusal::WrongLength);
    }
    let style = style_in(input);
    let seed = u64_at(input, 0);
    let w = sheet(style, seed, out);
    reply(w, out)
}
