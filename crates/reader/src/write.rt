// The canonical writer: the sheet of any song that a sheet can name; and sheets read and written again.
ghost use Rattle.std.specs.Prelude.{true, ◌≡◌, length};
ghost use Rattle.pages.specs.Answer.{Writes, written_of, buffer_of};
ghost use Rattle.reader.specs.Promise.{Octets};
ghost use Rattle.reader.specs.Read.{write_asked, reread_asked};
ghost use Rattle.reader.specs.Song.{sheet_of};
ghost use Rattle.reader.specs.Value.{Typed};
ghost use Rattle.reader.specs.Within.{within};

use crate::cleared::is_cleared;
use crate::read::tested;
use crate::song::Song;
use crate::within::is_within;
use composer::refusal::Refusal;
use pages::answer::bytes_into;
use pages::sheet::sheet_into;

// The sheet of a song whose numbers are in range, if the buffer is as long as this very sheet.
fn song_into(v: Song, buf: &mut [u8]) -> Result<usize, Refusal>
    requires { within v ≡ true }
    ensures value { result ≡ written_of (length buf.old) (Writes (sheet_of v)) }
    ensures buf_after { buf.new ≡ buffer_of buf.old (Writes (sheet_of v)) }
{
    let score = v.score;
    let scale = v.scale;
    let form = v.form;
    let edition = v.edition;
    sheet_into(edition, v.seed, score, scale, form, buf)
}

// The sheet of a song, in its edition, from the buffer's first byte on, and its length; what lies beyond stays. A song
// that no sheet names is refused with 4, then a buffer that is shorter than its sheet with 2; a refusal writes
// nothing. Whatever the song, it has what the code's types say: what the theorem that a written song is read back asks
// of a value.
pub fn write(v: Song, buf: &mut [u8]) -> Result<usize, Refusal>
    ensures value { result ≡ written_of (length buf.old) (write_asked v) }
    ensures buf_after { buf.new ≡ buffer_of buf.old (write_asked v) }
    ensures typed { Typed v }
{
    let within = is_within(&v);
    let cleared = is_cleared(&v);
    if !(within & cleared) {
        return Err(Refusal::Malformed);
    }
    song_into(v, buf)
}

// Reads a sheet and writes what was read again. These are the sheet's own bytes, so no song is made: the sheet is
// tested where it stands, and copied. Refusals are the reader's, 7 and then 8, and then 2 for a buffer that is shorter
// than the sheet; none of them writes anything. Whatever the sheet, each of its bytes is below 256, as the theorem on
// what is answered asks.
pub fn reread(sheet: &[u8], buf: &mut [u8]) -> Result<usize, Refusal>
    ensures value { result ≡ written_of (length buf.old) (reread_asked sheet.now) }
    ensures buf_after { buf.new ≡ buffer_of buf.old (reread_asked sheet.now) }
    ensures octets { Octets sheet.now }
{
    tested(sheet)?;
    bytes_into(sheet, buf)
}
