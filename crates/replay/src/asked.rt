// What a line asks. The letters are said beside the data, in README.md.
ghost use Rattle.std.specs.Prelude.{◌≤◌, length};

use composer::refusal::Refusal;
use editions::convert::convert;
use halls::list::hall_list;
use lessons::lesson::lesson;
use lessons::wishes::Wishes;
use pages::edition::{Edition, SHEET_MOST};
use pages::page::bar_page;
use pages::sheet::{sheet, sheet_in};
use probe::draws::{probe_coins, probe_picks, probe_units, probe_words};
use probe::forms::{probe_beatless, probe_form};
use probe::kicks::probe_kicks;
use probe::scores::{probe_score, probe_unbeaten};
use probe::stages::probe_stage_seed;
use reader::read::read;
use reader::write::{reread, write};
use streams::mix::wrapping_mul_u64;
use streams::unmix::undraw;

fn stage_seed(seed: u64, stage: u64) -> u64 {
    let mut out = [0u64; 1];
    probe_stage_seed((stage % 256) as u8, seed, &mut out);
    out[0]
}

fn word(seed: u64, n: u64) -> u64 {
    let mut out = [0u64; 1];
    probe_words(seed, n.wrapping_sub(1), &mut out);
    out[0]
}

fn unit(seed: u64, n: u64) -> u64 {
    let mut out = [0u64; 1];
    probe_units(seed, n.wrapping_sub(1), &mut out);
    out[0]
}

fn pick(seed: u64, n: u64) -> u64 {
    let mut out = [0u64; 1];
    probe_picks(seed, 0, (n % 256) as u8, &mut out);
    out[0]
}

fn coin(seed: u64) -> u64 {
    let mut out = [0u64; 1];
    probe_coins(seed, 0, &mut out);
    out[0]
}

// Word k of a song; of the first 15 alone.
fn song_word(style: u8, seed: u64, k: u64) -> u64 {
    let mut out = [0u64; 15];
    probe_score(style, seed, &mut out);
    out.get(k as usize).copied().unwrap_or(u64::MAX)
}

// FNV-1a over whole words: the fold of none, and with one word more.
const NONE: u64 = 0xcbf2_9ce4_8422_2325;

fn stirred(h: u64, word: u64) -> u64 {
    wrapping_mul_u64(h ^ word, 0x0000_0100_0000_01b3)
}

fn fold(words: &[u64]) -> u64 {
    words.iter().fold(NONE, |h, w| stirred(h, *w))
}

fn song_fold(style: u8, seed: u64) -> u64 {
    let mut out = [0u64; 1894];
    probe_score(style, seed, &mut out);
    fold(&out)
}

fn unbeaten_fold(style: u8, seed: u64) -> u64 {
    let mut out = [0u64; 1894];
    probe_unbeaten(style, seed, &mut out);
    fold(&out)
}

fn kicks_fold(style: u8, seed: u64) -> u64 {
    let mut out = [0u64; 100];
    probe_kicks(style, seed, &mut out);
    fold(&out)
}

// A fold of all words of the song, of the song without its drums, or of its kicks: `what` stands in a recorded line.
fn folded(style: u8, seed: u64, what: u64) -> u64 {
    match what {
        0 => song_fold(style, seed),
        1 => unbeaten_fold(style, seed),
        2 => kicks_fold(style, seed),
        _ => u64::MAX,
    }
}

// The fold with bytes more, each a word.
fn byte_fold(before: u64, bytes: &[u8]) -> u64 {
    bytes.iter().fold(before, |h, b| stirred(h, u64::from(*b)))
}

// A fold of the length of what was written and of the whole buffer, or the number of the refusal.
fn written_fold(written: Result<usize, Refusal>, buf: &[u8]) -> u64 {
    match written {
        Ok(n) => byte_fold(stirred(NONE, n as u64), buf),
        Err(r) => r.number() as u64,
    }
}

fn sheet_fold(style: u8, seed: u64) -> u64 {
    let mut buf = [0u8; SHEET_MOST];
    let written = sheet(style, seed, &mut buf);
    written_fold(written, &buf)
}

fn page_fold(style: u8, seed: u64, bar: u64) -> u64 {
    // the longest page
    let mut buf = [0u8; 703];
    let written = bar_page(style, seed, bar, &mut buf);
    written_fold(written, &buf)
}

// The sheet for 0, the page of bar n for n + 1.
fn paper_fold(style: u8, seed: u64, k: u64) -> u64 {
    if k == 0 {
        sheet_fold(style, seed)
    } else {
        page_fold(style, seed, k - 1)
    }
}

fn list_fold(hall: u64, count: u64) -> u64 {
    let mut buf = [0u8; 32768];
    let written = hall_list(hall, count, &mut buf);
    written_fold(written, &buf)
}

// A byte of a sheet put in place of what stands there; place 0 is none.
fn spoil(sheet: &mut [u8], place: u64, byte: u8) {
    if 0 < place && place - 1 < sheet.len() as u64 {
        sheet[(place - 1) as usize] = byte;
    }
}

// A fold of what is read and written again, by the call that makes no song.
fn copied_fold(bytes: &[u8]) -> u64 {
    let mut buf = [0u8; SHEET_MOST];
    let written = reread(bytes, &mut buf);
    written_fold(written, &buf)
}

// The same by the song that is read, as the canonical writer writes it.
fn made_fold(bytes: &[u8]) -> u64 {
    match read(bytes) {
        Ok(song) => {
            let mut buf = [0u8; SHEET_MOST];
            let written = write(song, &mut buf);
            written_fold(written, &buf)
        }
        Err(r) => r.number() as u64,
    }
}

// Both ways; where they differ, the answer is one that no line has.
fn both_fold(bytes: &[u8]) -> u64 {
    let copied = copied_fold(bytes);
    let made = made_fold(bytes);
    if copied == made { made } else { u64::MAX }
}

// Bit 1 of `how`: sheets of edition 1 are kept in the record too.
fn edition_of(how: u64) -> Edition {
    if how / 2 % 2 == 1 {
        Edition::One
    } else {
        Edition::Two
    }
}

// Puts the sheet of a song into the buffer, spoiled as `how` tells (README.md); how many of its bytes are kept.
fn put_spoiled(buf: &mut [u8], seed: u64, how: u64) -> usize
    ensures { result ≤ length buf.new }
{
    let edition = edition_of(how);
    let written = sheet_in(edition, (how % 2) as u8, seed, buf);
    spoil(buf, how / 65536 % 65536, (how / 256 % 256) as u8);
    let kept = (65535 - how / 4294967296 % 65536) as usize;
    written.unwrap_or(0).min(kept).min(buf.len())
}

// A fold of what is read of a spoiled sheet and written again.
fn reread_fold(seed: u64, how: u64) -> u64 {
    let mut buf = [0u8; SHEET_MOST];
    let n = put_spoiled(&mut buf, seed, how);
    both_fold(&buf[..n])
}

// A fold of what a spoiled sheet becomes in an edition.
fn converted_fold(wanted: Edition, seed: u64, how: u64) -> u64 {
    let mut sheet = [0u8; SHEET_MOST];
    let n = put_spoiled(&mut sheet, seed, how);
    let mut buf = [0u8; SHEET_MOST];
    let written = convert(&sheet[..n], wanted, &mut buf);
    written_fold(written, &buf)
}

// The lesson that `how` tells of (README.md).
fn lesson_of(start: u64, how: u64) -> Result<u64, Refusal> {
    let wishes = Wishes {
        key: (how / 65536 % 256) as u8,
        tempo: (how / 256 % 256) as u8,
        voice: (how % 256) as u8,
    };
    lesson(
        (how / 16777216 % 256) as u8,
        start,
        how / 4294967296,
        wishes,
    )
}

// The number of its refusal, 0 for none.
fn lesson_refusal(start: u64, how: u64) -> u64 {
    match lesson_of(start, how) {
        Ok(_) => 0,
        Err(r) => r.number() as u64,
    }
}

// The seed that it gives. Where it gives none, the largest number: a line K beside it tells that from a seed.
fn lesson_seed(start: u64, how: u64) -> u64 {
    lesson_of(start, how).unwrap_or(u64::MAX)
}

// Our answer; the largest number for a letter that asks nothing. A table of functions would be no plainer: many of them
// take a style or an edition besides.
pub fn answer(what: u8, a: u64, b: u64) -> u64 {
    match what {
        b'S' => stage_seed(a, b),
        b'W' => word(a, b),
        b'U' => unit(a, b),
        b'D' => undraw(a, b),
        b'P' => pick(a, b),
        b'C' => coin(a),
        b'F' => probe_form(a, (b % 256) as u8),
        b'B' => probe_beatless(a, (b % 256) as u8),
        b'H' => song_word(0, a, b),
        b'Z' => song_word(1, a, b),
        b'h' => folded(0, a, b),
        b'z' => folded(1, a, b),
        b'M' => paper_fold(0, a, b),
        b'N' => paper_fold(1, a, b),
        b'L' => list_fold(a, b),
        b'R' => reread_fold(a, b),
        b'O' => converted_fold(Edition::One, a, b),
        b'T' => converted_fold(Edition::Two, a, b),
        b'K' => lesson_refusal(a, b),
        b'k' => lesson_seed(a, b),
        _ => u64::MAX,
    }
}
