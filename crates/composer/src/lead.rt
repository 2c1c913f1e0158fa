// The lead stage: a melody over the harmony, as played behind the grid.
ghost use Rattle.std.specs.Prelude.{◌≡◌};
ghost use Rattle.composer.specs.Harmony.{Tonal};
ghost use Rattle.composer.specs.Lead.{lead_of};

use crate::few::Few;
use crate::harmony::Harmony;
use crate::lead::melody::melody;
use crate::lead::played::played;
use crate::lead::rhythm::rhythm_of;
use crate::lead::scale::pool_of;
use crate::note::Note;
use crate::style::{Style, lead_style};
use streams::stream::{Draw, NoiseStream};

pub mod answer;
pub mod beats;
pub mod grid;
pub mod ground;
pub mod line;
pub mod melody;
pub mod pitch;
pub mod played;
pub mod push;
pub mod rhythm;
pub mod role;
pub mod scale;
pub mod statement;
pub mod tones;

// The notes, in the order drawn, and the stream after their draws; the others are zero.
pub type LeadLane = Draw<Few<Note, 56>>;

// The rhythm is drawn, then the melody over it, then how each note is played.
pub(crate) fn lead(s: NoiseStream, h: Harmony, style: Style, beat_s: f32) -> LeadLane
    requires { Tonal h }
    ensures { result ≡ lead_of s h style beat_s }
{
    let l = lead_style(style);
    let rhythm = rhythm_of(s, l);
    let pool = pool_of(h.scale);
    let m = melody(rhythm.stream, rhythm.value, h.bars, &pool, l);
    played(m, beat_s, l.dur)
}
