// The reader of sheets.
ghost use Rattle.std.specs.Prelude.{◌≡◌, Ok, Err, MatchResult};
ghost use Rattle.reader.specs.Promise.{Octets};
ghost use Rattle.reader.specs.Inner.Tested.{tested_of};
ghost use Rattle.reader.specs.Read.{read_of};

use crate::codes::is_coded;
use crate::layout::{Fields, Formed, is_formed};
use crate::passes::song_passes;
use crate::song::{Song, song_in};
use composer::refusal::Refusal;

// How reading goes: bytes that are not the fields of an edition in order, each of a length that some value has there,
// are refused with 7; only then an unknown code, a value out of range or a song of another length with 8. What passes
// both is given as its fields.
pub(crate) fn tested(bytes: &[u8]) -> Result<Formed<'_>, Refusal>
    ensures { MatchResult result (λ f. tested_of bytes.now ≡ Ok f.fields.bytes.now) (λ e. tested_of bytes.now ≡ Err e) }
{
    let fields = Fields::of(bytes);
    if !is_formed(&fields) {
        return Err(Refusal::SheetFields);
    }
    let formed = Formed { fields };
    let coded = is_coded(&formed);
    let within = song_passes(&formed);
    if !(coded & within) {
        return Err(Refusal::SheetValues);
    }
    Ok(formed)
}

// The song that a sheet names, with its style and seed, or 7, or 8. Whatever the bytes, each is below 256: what the
// theorem that a sheet is written again as it was read asks of them.
pub fn read(bytes: &[u8]) -> Result<Song, Refusal>
    ensures value { result ≡ read_of bytes.now }
    ensures octets { Octets bytes.now }
{
    let formed = tested(bytes)?;
    Ok(song_in(&formed))
}
