// The sheet, the bar page, the hall list, sheets read back, sheets from edition to edition and seeds for lessons, for C
// (include/seqochanu.h).
#![tactic(auto)]

ghost use Rattle.std.specs.Prelude.{◌≡◌, ◌^◌, ◌<◌, length};
ghost use Rattle.editions.specs.Convert.{convert_asked};
ghost use Rattle.halls.specs.List.{list_asked};
ghost use Rattle.pages.specs.Answer.{written_of, buffer_of, written_count};
ghost use Rattle.pages.specs.Page.{page_asked};
ghost use Rattle.pages.specs.Sheet.{sheet_asked};
ghost use Rattle.pages.specs.declared.edition.Edition.{Edition};
ghost use Rattle.reader.specs.Promise.{Octets};
ghost use Rattle.reader.specs.Read.{reread_asked};
ghost use Rattle.seqochanu.specs.Code.{refusal_code, code_of};
ghost use Rattle.seqochanu.specs.Lesson.{wishes_of, LessonCalled};

use composer::refusal::Refusal;
use editions::convert::convert;
use halls::list::hall_list;
use lessons::lesson::lesson;
use lessons::wishes::Wishes;
use pages::edition::Edition;
use pages::page::bar_page;
use pages::sheet::sheet;
use reader::write::reread;

// Minus the refusal's number.
fn refusal_code(r: Refusal) -> i64
    ensures { result ≡ refusal_code r }
{
    -(r.number() as i64)
}

// The length, or minus the refusal's number.
fn code(w: Result<usize, Refusal>) -> i64
    requires { written_count w < 2 ^ 63 }
    ensures { result ≡ code_of w }
{
    match w {
        Ok(n) => n as i64,
        Err(r) => refusal_code(r),
    }
}

// Writes the sheet of a seed's song in style 0 or 1, in edition 2, from the buffer's first byte on and answers its
// length; what lies beyond stays. Any other style is -1, then a buffer that is shorter than this sheet -2; neither
// writes anything.
#[unsafe(no_mangle)]
pub extern "C" fn seqochanu_sheet(style: u8, seed: u64, buf: &mut [u8]) -> i64
    ensures value { result ≡ code_of (written_of (length buf.old) (sheet_asked style seed)) }
    ensures buf_after { buf.new ≡ buffer_of buf.old (sheet_asked style seed) }
{
    let w = sheet(style, seed, buf);
    code(w)
}

// The same for the page of song bar `bar`. A bar that the song does not have is -3, after -1 and before -2.
#[unsafe(no_mangle)]
pub extern "C" fn seqochanu_bar_page(style: u8, seed: u64, bar: u64, buf: &mut [u8]) -> i64
    ensures value { result ≡ code_of (written_of (length buf.old) (page_asked style seed bar)) }
    ensures buf_after { buf.new ≡ buffer_of buf.old (page_asked style seed bar) }
{
    let w = bar_page(style, seed, bar, buf);
    code(w)
}

// Writes a hall's list of 1 to 4,096 seeds, 8 bytes each, from the buffer's first byte on and answers its length; what
// lies beyond stays. Any other count is -6, then a buffer that is shorter than the list -2; neither writes anything.
#[unsafe(no_mangle)]
pub extern "C" fn seqochanu_hall_list(hall: u64, count: u64, buf: &mut [u8]) -> i64
    ensures value { result ≡ code_of (written_of (length buf.old) (list_asked hall count)) }
    ensures buf_after { buf.new ≡ buffer_of buf.old (list_asked hall count) }
{
    let w = hall_list(hall, count, buf);
    code(w)
}

// Reads a sheet, writes what was read again from the buffer's first byte on and answers its length; what lies beyond
// stays. What is written are the sheet's own bytes, in the edition that it is of. Bytes that are not the fields of a
// sheet of either edition are -7, only then values out of range -8, then a buffer that is shorter than the sheet -2;
// none of them writes anything.
#[unsafe(no_mangle)]
pub extern "C" fn seqochanu_reread(sheet: &[u8], buf: &mut [u8]) -> i64
    ensures value { result ≡ code_of (written_of (length buf.old) (reread_asked sheet.now)) }
    ensures buf_after { buf.new ≡ buffer_of buf.old (reread_asked sheet.now) }
    ensures octets { Octets sheet.now }
{
    let w = reread(sheet, buf);
    code(w)
}

// Writes the sheet, in edition 1, of the style and seed that a sheet names, from the buffer's first byte on and answers
// its length; what lies beyond stays. The sheet that is given may be of either edition; one of edition 1 is copied.
// What is no sheet is -7, only then -8, as for `seqochanu_reread`; then one that is not, whole, what its style and seed
// give in its edition -9, then a buffer that is shorter than the sheet that is due -2; none of them writes anything.
#[unsafe(no_mangle)]
pub extern "C" fn seqochanu_to_edition_1(sheet: &[u8], buf: &mut [u8]) -> i64
    ensures value { result ≡ code_of (written_of (length buf.old) (convert_asked Edition.One sheet.now)) }
    ensures buf_after { buf.new ≡ buffer_of buf.old (convert_asked Edition.One sheet.now) }
    ensures octets { Octets sheet.now }
{
    let w = convert(sheet, Edition::One, buf);
    code(w)
}

// The same in edition 2.
#[unsafe(no_mangle)]
pub extern "C" fn seqochanu_to_edition_2(sheet: &[u8], buf: &mut [u8]) -> i64
    ensures value { result ≡ code_of (written_of (length buf.old) (convert_asked Edition.Two sheet.now)) }
    ensures buf_after { buf.new ≡ buffer_of buf.old (convert_asked Edition.Two sheet.now) }
    ensures octets { Octets sheet.now }
{
    let w = convert(sheet, Edition::Two, buf);
    code(w)
}

// Sets `seed` to some seed among the `count` seeds from `start` on whose song in style 0 or 1 has the key (0 to 11, 12
// for any), the tempo (1 to 255, 0 for any) and the lead voice (0 to 3, 255 for any), and answers 0. Any other style is
// -1, then a count outside 1 to 65,536 or a span past the largest seed -10, then a wish outside these codes -11, and
// -12 just where no seed of the span has all three; with these, `seed` stays.
#[unsafe(no_mangle)]
pub extern "C" fn seqochanu_lesson(
    style: u8,
    start: u64,
    count: u64,
    key: u8,
    tempo: u8,
    voice: u8,
    seed: &mut u64,
) -> i64
    ensures { LessonCalled style start count (wishes_of key tempo voice) seed.old seed.new result }
{
    let wishes = Wishes { key, tempo, voice };
    let answer = lesson(style, start, count, wishes);
    match answer {
        Ok(found) => {
            *seed = found;
            0
        }
        Err(r) => refusal_code(r),
    }
}
