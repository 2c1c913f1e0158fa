// A sheet by way of its song, for tests and measurements: it is read into a song, and the canonical writer writes that
// song. `seqochanu_reread` answers the same, and makes no song; reading alone is there to be timed.
#![tactic(auto)]

ghost use Rattle.std.specs.Prelude.{◌≡◌, length};
ghost use Rattle.pages.specs.Answer.{written_of, buffer_of};
ghost use Rattle.reader.specs.Read.{read_of, reread_asked};
ghost use Rattle.roundtrip.specs.Told.{told_of};

use composer::refusal::Refusal;
use reader::read::read;
use reader::write::write;

// The number of the refusal, 0 for none.
fn told<T: Copy>(answer: Result<T, Refusal>) -> u8
    ensures { result ≡ told_of answer }
{
    match answer {
        Ok(_) => 0,
        Err(r) => r.number(),
    }
}

// A sheet's song, written again.
fn rewritten(sheet: &[u8], buf: &mut [u8]) -> Result<usize, Refusal>
    ensures value { result ≡ written_of (length buf.old) (reread_asked sheet.now) }
    ensures buf_after { buf.new ≡ buffer_of buf.old (reread_asked sheet.now) }
{
    let song = read(sheet)?;
    write(song, buf)
}

// Reads a sheet and writes its song from the buffer's first byte on; what lies beyond stays. It answers 0, or the
// number of the refusal: 7, then 8, then 2. A refusal writes nothing.
#[unsafe(no_mangle)]
pub extern "C" fn roundtrip_sheet(sheet: &[u8], buf: &mut [u8]) -> u8
    ensures value { result ≡ told_of (written_of (length buf.old) (reread_asked sheet.now)) }
    ensures buf_after { buf.new ≡ buffer_of buf.old (reread_asked sheet.now) }
{
    told(rewritten(sheet, buf))
}

// Reads a sheet, and answers 0, or the number of the refusal: 7, then 8. Nothing is asked of the song, which `read`
// makes all the same: there are two callers, so the compiler keeps it whole, and bench/run looks whether it did.
#[unsafe(no_mangle)]
pub extern "C" fn roundtrip_read(sheet: &[u8]) -> u8
    ensures { result ≡ told_of (read_of sheet.now) }
{
    told(read(sheet))
}
