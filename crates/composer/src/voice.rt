// The instrument that sings the lead.
ghost use Rattle.std.specs.Prelude.{◌≡◌};
ghost use Rattle.composer.specs.Voice.{voice_number_of, voice_named, voice_by, lead_voice_of};

use crate::band::band;
use crate::refusal::Refusal;
use crate::style::Style;
use streams::stream::{Draw, NoiseStream};

#[derive(Clone, Copy, PartialEq, Eq, Debug)]
pub enum LeadVoice {
    EpVel = 0,
    Pluck = 1,
    Kalimba = 2,
    Vibraphone = 3,
}

// The voices of each style and their weights.
const HIPHOP_VOICES: [LeadVoice; 3] = [LeadVoice::Pluck, LeadVoice::Kalimba, LeadVoice::EpVel];

const HIPHOP_WEIGHTS: [u16; 3] = [35, 25, 40];

const SLEEP_VOICES: [LeadVoice; 2] = [LeadVoice::Vibraphone, LeadVoice::EpVel];

const SLEEP_WEIGHTS: [u16; 2] = [35, 65];

impl LeadVoice {
    // Its number on a sheet: the cast by a name that is public.
    pub fn number(self) -> u8
        ensures { result ≡ voice_number_of self }
    {
        self as u8
    }
}

// The voice by its number; a number of none is refused.
impl TryFrom<u8> for LeadVoice {
    type Error = Refusal;

    ghost try_from_gives = { λ n r. r ≡ voice_named n };

    fn try_from(n: u8) -> Result<LeadVoice, Refusal> {
        match n {
            0 => Ok(LeadVoice::EpVel),
            1 => Ok(LeadVoice::Pluck),
            2 => Ok(LeadVoice::Kalimba),
            3 => Ok(LeadVoice::Vibraphone),
            _ => Err(Refusal::SheetValues),
        }
    }
}

// A style's voice, by a unit in hand.
fn voice_by(style: Style, u: f32) -> LeadVoice
    ensures { result ≡ voice_by style u }
{
    match style {
        Style::Hiphop => {
            let row = band(u, &HIPHOP_WEIGHTS);
            HIPHOP_VOICES[row]
        }
        Style::Sleep => {
            let row = band(u, &SLEEP_WEIGHTS);
            SLEEP_VOICES[row]
        }
    }
}

// The voice of a song in the style, from one draw.
pub(crate) fn lead_voice(s: NoiseStream, style: Style) -> Draw<LeadVoice>
    ensures { result ≡ lead_voice_of s style }
{
    s.unit().map(|u| voice_by(style, u))
}
