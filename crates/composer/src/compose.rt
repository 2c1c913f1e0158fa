// A song of a style and a seed: each stage draws from its own stream.
ghost use Rattle.std.specs.Prelude.{◌≡◌};
ghost use Rattle.composer.specs.Compose.{beat_s_of, composed_of, no_score, style_by, compose_of};

use crate::bass::bass;
use crate::chord::NO_CHORD;
use crate::drums::drums;
use crate::few::Few;
use crate::harmony::{Scale, harmony_of};
use crate::keys::keys;
use crate::lead::lead;
use crate::note::{NO_HIT, NO_NOTE};
use crate::refusal::Refusal;
use crate::score::{Counters, Score};
use crate::style::Style;
use crate::tempo::tempo;
use crate::voice::{LeadVoice, lead_voice};
use streams::stage::Stage;

// A song's score, the scale that its lead sings and the counters of its seven streams.
#[derive(Clone, Copy)]
pub struct Composed {
    pub score: Score,
    pub scale: Scale,
    pub counters: Counters,
}

// How long a beat is, in seconds.
pub fn beat_s_of(bpm: f32) -> f32
    ensures { result ≡ beat_s_of bpm }
{
    60.0 / bpm
}

// Each stage in turn, and the song of what they have drawn.
fn composed_of(style: Style, seed: u64) -> Composed
    ensures { result ≡ composed_of style seed }
{
    let hs = Stage::Harmony.stream(seed);
    let hd = harmony_of(hs, style);
    let h = hd.value;
    let ts = Stage::Tempo.stream(seed);
    let td = tempo(ts, style);
    let beat_s = beat_s_of(td.value);
    let ls = Stage::Lead.stream(seed);
    let ld = lead(ls, h, style, beat_s);
    let ks = Stage::Keys.stream(seed);
    let kd = keys(ks, h, style, beat_s);
    let ds = Stage::Drums.stream(seed);
    let dd = drums(ds, style, beat_s);
    let bs = Stage::Bass.stream(seed);
    let bd = bass(bs, h, style, beat_s);
    let vs = Stage::LeadVoice.stream(seed);
    let vd = lead_voice(vs, style);
    let bars = h.bars;
    let scale = h.scale;
    let voice = vd.value;
    let score = Score {
        style,
        bpm: td.value,
        bar_chords: bars,
        lead: ld.value,
        keys: kd.value,
        hits: dd.value,
        bass: bd.value,
        lead_voice: voice,
    };
    let counters = Counters {
        harmony: hd.stream.counter,
        tempo: td.stream.counter,
        lead: ld.stream.counter,
        keys: kd.stream.counter,
        drums: dd.stream.counter,
        bass: bd.stream.counter,
        voice: vd.stream.counter,
    };
    Composed {
        score,
        scale,
        counters,
    }
}

// A score with no event.
pub fn no_score() -> Score
    ensures { result ≡ no_score }
{
    Score {
        style: Style::Hiphop,
        bpm: 0.0,
        bar_chords: [NO_CHORD; 8],
        lead: Few {
            at: [NO_NOTE; 56],
            n: 0,
        },
        keys: Few {
            at: [NO_NOTE; 128],
            n: 0,
        },
        hits: Few {
            at: [NO_HIT; 98],
            n: 0,
        },
        bass: Few {
            at: [NO_NOTE; 104],
            n: 0,
        },
        lead_voice: LeadVoice::EpVel,
    }
}

// The style by its number, 0 or 1; any other number gives sleep, and who asks refuses it. A public function that has
// always an answer, so it stays beside `Style::try_from`.
pub fn style_by(number: u8) -> Style
    ensures { result ≡ style_by number }
{
    Style::try_from(number).unwrap_or(Style::Sleep)
}

// The song of a seed in style 0 (hiphop) or 1 (sleep). Any other style is refused with 1.
pub fn compose(style: u8, seed: u64) -> Result<Composed, Refusal>
    ensures { result ≡ compose_of style seed }
{
    let known = Style::try_from(style)?;
    Ok(composed_of(known, seed))
}
