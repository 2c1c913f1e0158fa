// The sheet: a whole song in ten fields, and before them the edition's.
ghost use Rattle.std.specs.Prelude.{◌≡◌, ◌+◌, ◌<◌, ◌≤◌, length};
ghost use Rattle.laws.specs.Writes.{Wrote};
ghost use Rattle.pages.specs.Answer.{Writes, written_of, buffer_of};
ghost use Rattle.pages.specs.Lane.{lane_size};
ghost use Rattle.pages.specs.Page.{Chorded};
ghost use Rattle.pages.specs.Sheet.{sheet_size, sheet_bytes, sheet_by, sheet_in, sheet_asked};
ghost use Rattle.pages.specs.Writable.{SizedLanes, Writable, Promised};

use crate::contents::Contents;
use crate::edition::Edition;
use crate::lane::Lane;
use composer::compose::{Composed, compose};
use composer::form::Form;
use composer::form::song::arrange;
use composer::harmony::Scale;
use composer::refusal::Refusal;
use composer::score::Score;

// The bytes of a lane's events.
fn lane_size(edition: Edition, s: &Score, lane: Lane) -> usize
    requires { SizedLanes s.now }
    ensures value { result ≡ lane_size edition s.now lane }
    ensures upper_bound { result < 65536 }
{
    lane.width(edition) * lane.count(s)
}

// Its length. This one and the two below are public and ask what they always asked; `Contents` has it as its fields.
pub fn sheet_size(edition: Edition, s: &Score, scale: Scale, f: Form) -> usize
    requires sized_lanes { SizedLanes s.now }
    requires capacities { (scale.n ≤ 6) × (f.bars ≤ 64) }
    ensures { result ≡ sheet_size edition s.now scale f }
{
    let lead = lane_size(edition, s, Lane::Lead);
    let keys = lane_size(edition, s, Lane::Keys);
    let hits = lane_size(edition, s, Lane::Hits);
    let bass = lane_size(edition, s, Lane::Bass);
    edition.field_size() + 82 + scale.n + lead + keys + hits + bass + f.bars as usize
}

// A song and its form, from the start of a buffer that is long enough.
pub fn put_sheet(
    buf: &mut [u8],
    edition: Edition,
    seed: u64,
    s: &Score,
    scale: Scale,
    f: Form,
) -> usize
    requires writable { Writable s.now }
    requires capacities { (scale.n ≤ 6) × (f.bars ≤ 64) }
    requires room { sheet_size edition s.now scale f ≤ length buf.old }
    ensures { Wrote buf.old buf.new 0 result (sheet_size edition s.now scale f) (sheet_bytes edition seed s.now scale f) }
{
    let contents = Contents {
        edition,
        seed,
        score: s,
        scale,
        form: &f,
    };
    contents.put(buf)
}

// The sheet of a song and its form, if the buffer is as long as this very sheet.
pub fn sheet_into(
    edition: Edition,
    seed: u64,
    s: Score,
    scale: Scale,
    f: Form,
    buf: &mut [u8],
) -> Result<usize, Refusal>
    requires writable { Writable s }
    requires chorded { Chorded s }
    requires capacities { (scale.n ≤ 6) × (f.bars ≤ 64) }
    ensures value { result ≡ written_of (length buf.old) (Writes (sheet_bytes edition seed s scale f)) }
    ensures buf_after { buf.new ≡ buffer_of buf.old (Writes (sheet_bytes edition seed s scale f)) }
{
    let size = sheet_size(edition, &s, scale, f);
    if buf.len() < size {
        return Err(Refusal::ShortBuffer);
    }
    Ok(put_sheet(buf, edition, seed, &s, scale, f))
}

// The sheet of a seed in an edition, of what `compose` gave for it: who needs a song in both editions composes once.
pub fn composed_into(
    edition: Edition,
    seed: u64,
    song: Result<Composed, Refusal>,
    buf: &mut [u8],
) -> Result<usize, Refusal>
    requires { Promised song }
    ensures value { result ≡ written_of (length buf.old) (sheet_by edition seed song) }
    ensures buf_after { buf.new ≡ buffer_of buf.old (sheet_by edition seed song) }
{
    let known = song?;
    sheet_into(edition, seed, known.score, known.scale, arrange(seed), buf)
}

// The sheet of a seed's song in an edition, as `sheet` writes it in edition 2.
pub fn sheet_in(edition: Edition, style: u8, seed: u64, buf: &mut [u8]) -> Result<usize, Refusal>
    ensures value { result ≡ written_of (length buf.old) (sheet_in edition style seed) }
    ensures buf_after { buf.new ≡ buffer_of buf.old (sheet_in edition style seed) }
{
    let song = compose(style, seed);
    composed_into(edition, seed, song, buf)
}

// The sheet of a seed's song in style 0 or 1, in edition 2, from the buffer's first byte on, and its length; what lies
// beyond stays. Any other style is refused with 1, then a buffer that is shorter than this sheet with 2; a refusal
// writes nothing.
pub fn sheet(style: u8, seed: u64, buf: &mut [u8]) -> Result<usize, Refusal>
    ensures value { result ≡ written_of (length buf.old) (sheet_asked style seed) }
    ensures buf_after { buf.new ≡ buffer_of buf.old (sheet_asked style seed) }
{
    sheet_in(Edition::Two, style, seed, buf)
}
