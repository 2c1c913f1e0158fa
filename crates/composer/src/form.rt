// A song's form: which layers strike in each bar of the song, and how its edges move.
ghost use Rattle.std.specs.Prelude.{◌≡◌, ◌<◌};
ghost use Rattle.composer.specs.Form.{intro_bars_of, body_bars_of, outro_bars_of, lead_in_of, loop_bar_of};

use crate::form::ends::{End, Outro};
use crate::form::plays::Plays;

pub mod ask;
pub mod body;
pub mod decisions;
pub mod ends;
pub mod plays;
pub mod song;
pub mod spans;

// An intro, a body of whole phrases that starts on loop bar 0, and an outro. The first `bars` entries
// of `plays` are the song's bars: document 01 has them as an array of 64 beside their count.
#[derive(Clone, Copy, Debug, PartialEq, Eq)]
pub struct Form {
    pub intro: End,
    pub phrases: u8,
    pub outro: Outro,
    pub dip: bool,
    pub plays: [Plays; 64],
    pub bars: u8,
}

impl Form {
    // Bars before the body.
    pub fn intro_bars(self) -> u8
        ensures { result ≡ intro_bars_of self }
    {
        let end = self.intro;
        end.bars()
    }

    // Bars in the body, 8 for each phrase.
    pub fn body_bars(self) -> u16
        ensures { result ≡ body_bars_of self }
    {
        8 * self.phrases as u16
    }

    // Bars after the body.
    pub fn outro_bars(self) -> u8
        ensures { result ≡ outro_bars_of self }
    {
        let outro = self.outro;
        outro.bars()
    }

    // The loop bar that the song starts on: the intro ends where the loop does.
    pub fn lead_in(self) -> u8
        ensures { result ≡ lead_in_of self }
    {
        let bars = self.intro_bars();
        (8 - bars % 8) % 8
    }

    // The loop bar that a song bar shows.
    pub fn loop_bar(self, bar: u64) -> u8
        ensures value { result ≡ loop_bar_of self bar }
        ensures upper_bound { result < 8 }
    {
        let lead_in = self.lead_in();
        ((bar % 8 + lead_in as u64) % 8) as u8
    }
}
