// What a teacher asks of a song: its key, its tempo and its lead voice, drawn without its lanes.
ghost use Rattle.std.specs.Prelude.{◌≡◌};
ghost use Rattle.composer.specs.Compose.{composed_of};
ghost use Rattle.composer.specs.Traits.{traits_in, drawn_key};

use crate::chord::OCTAVE;
use crate::style::Style;
use crate::tempo::beats;
use crate::voice::{LeadVoice, lead_voice};
use streams::draw::pick;
use streams::stage::Stage;

#[derive(Clone, Copy, Debug, PartialEq, Eq)]
pub struct Traits {
    // the scale's first entry
    pub key: u8,
    // in whole beats per minute
    pub tempo: u8,
    pub voice: LeadVoice,
}

// The key of a seed's song, in either style: the harmony's third draw.
fn drawn_key(seed: u64) -> u8
    ensures { result ≡ drawn_key seed }
{
    let third = Stage::Harmony.stream(seed).skipped(2);
    pick(third, OCTAVE).value
}

// The traits of the song that a style and a seed give. It is not composed: three draws tell them.
pub fn traits_of(style: Style, seed: u64) -> Traits
    ensures { result ≡ traits_in (composed_of style seed) }
{
    let ts = Stage::Tempo.stream(seed);
    let vs = Stage::LeadVoice.stream(seed);
    Traits {
        key: drawn_key(seed),
        tempo: beats(ts, style).value,
        voice: lead_voice(vs, style).value,
    }
}
