// A sheet in the edition that is wanted.
ghost use Rattle.std.specs.Prelude.{◌≡◌, ◌≤◌, length};
ghost use Rattle.pages.specs.Answer.{bytes_of, written_of, buffer_of};
ghost use Rattle.pages.specs.Sheet.{sheet_by};
ghost use Rattle.pages.specs.Writable.{Promised};
ghost use Rattle.reader.specs.Promise.{Octets};
ghost use Rattle.editions.specs.Convert.{same_bytes, held_asked, convert_asked};

use composer::compose::{Composed, compose};
use composer::refusal::Refusal;
use pages::edition::{Edition, SHEET_MOST};
use pages::sheet::composed_into;
use reader::read::read;
use reader::song::Song;

// Whether a sheet is, byte for byte, that of a seed's song in an edition. The song's own sheet is made beside it, in
// `room`, so that no field is looked at by itself and none can be left out.
fn is_own(
    sheet: &[u8],
    edition: Edition,
    seed: u64,
    song: Result<Composed, Refusal>,
    room: &mut [u8],
) -> bool
    requires promised { Promised song }
    requires fits { length (bytes_of (sheet_by edition seed song)) ≤ length room.old }
    ensures { result ≡ same_bytes sheet.now (bytes_of (sheet_by edition seed song)) }
{
    let n = composed_into(edition, seed, song, room).unwrap_or(0);
    sheet == &room[..n]
}

// What becomes of a sheet that names the song v: 9 unless it is, whole, what v's style and seed give in v's edition;
// else what they give in the wanted one, or 2.
fn held_into(sheet: &[u8], v: Song, wanted: Edition, buf: &mut [u8]) -> Result<usize, Refusal>
    ensures value { result ≡ written_of (length buf.old) (held_asked wanted sheet.now v) }
    ensures buf_after { buf.new ≡ buffer_of buf.old (held_asked wanted sheet.now v) }
{
    let number = v.score.style.number();
    let song = compose(number, v.seed);
    let mut room = [0u8; SHEET_MOST];
    let own = is_own(sheet, v.edition, v.seed, song, &mut room);
    if !own {
        return Err(Refusal::OtherSong);
    }
    composed_into(wanted, v.seed, song, buf)
}

// Writes a seed's sheet in the wanted edition, from the buffer's first byte on, and answers its length; what lies
// beyond stays. The sheet that is given may be of either edition, and of the wanted one already. Refusals are the
// reader's, 7 and then 8, then 9 for a sheet that is not, whole, what the style and seed that it names give in its
// edition, and then 2 for a buffer that is too short; none of them writes anything. Whatever the sheet, each of its
// bytes is below 256, as the theorems on what is answered ask.
pub fn convert(sheet: &[u8], wanted: Edition, buf: &mut [u8]) -> Result<usize, Refusal>
    ensures value { result ≡ written_of (length buf.old) (convert_asked wanted sheet.now) }
    ensures buf_after { buf.new ≡ buffer_of buf.old (convert_asked wanted sheet.now) }
    ensures octets { Octets sheet.now }
{
    let v = read(sheet)?;
    held_into(sheet, v, wanted, buf)
}
