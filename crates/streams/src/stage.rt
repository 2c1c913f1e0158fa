// The stages of a song. Each draws from a stream of its own, so no stage's draws move another's.
ghost use Rattle.std.specs.Prelude.{◌≡◌};
ghost use Rattle.streams.specs.Stage.{id_of, stage_named, stream_of};

use crate::mix::{splitmix_draw, splitmix64};
use crate::stream::NoiseStream;

#[derive(Clone, Copy, Debug, PartialEq, Eq)]
pub enum Stage {
    Form = 1,
    Harmony = 2,
    Tempo = 3,
    Lead = 4,
    Keys = 5,
    Drums = 6,
    Bass = 7,
    LeadVoice = 8,
}

// No stage has the number.
#[derive(Clone, Copy, Debug, PartialEq, Eq)]
pub struct UnknownStage;

// The stage by its number; a number of none is refused.
impl TryFrom<u8> for Stage {
    type Error = UnknownStage;

    ghost try_from_gives = { λ n r. r ≡ stage_named n };

    fn try_from(n: u8) -> Result<Stage, UnknownStage> {
        match n {
            1 => Ok(Stage::Form),
            2 => Ok(Stage::Harmony),
            3 => Ok(Stage::Tempo),
            4 => Ok(Stage::Lead),
            5 => Ok(Stage::Keys),
            6 => Ok(Stage::Drums),
            7 => Ok(Stage::Bass),
            8 => Ok(Stage::LeadVoice),
            _ => Err(UnknownStage),
        }
    }
}

impl Stage {
    // The stage's number, 1 to 8, which its stream is keyed by.
    pub fn id(self) -> u64
        ensures { result ≡ id_of self }
    {
        self as u64
    }

    // The stage's stream for the song seed `seed`. The number goes into the mixed seed: in the raw
    // one, the streams of neighbouring seeds would overlap.
    pub fn stream(self, seed: u64) -> NoiseStream
        ensures { result ≡ stream_of self seed }
    {
        let mixed = splitmix64(seed);
        let id = self.id();
        NoiseStream::new(splitmix_draw(mixed, id))
    }
}
