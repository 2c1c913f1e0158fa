// The drums stage: a groove of the style's, laid over the loop's eight bars.
ghost use Rattle.std.specs.Prelude.{◌≡◌, ◌≤◌};
ghost use Rattle.composer.specs.Drums.{bar_of, lay_groove_of, drums_of};

use crate::drums::grooves::{Groove, SLEEP_GROOVE, hiphop_groove};
use crate::drums::kit::{Bar, hat_hit, kick_count, kick_hit, kick_of, snare_hit};
use crate::few::Few;
use crate::note::{Hit, NO_HIT};
use crate::spread::Spread;
use crate::style::Style;
use crate::timing::bar_start;
use streams::draw::{chance, pick};
use streams::stream::{Draw, NoiseStream};

pub mod grooves;
pub mod kit;

// The hits, in the order drawn, and the stream after their draws; the others are zero.
pub type DrumLane = Draw<Few<Hit, 98>>;

// Each bar's wobble, which all its hits share.
const WOBBLE: Spread = Spread {
    base: 0.9,
    span: 0.2,
};

// Loop bar `number`, its hits wobbling together.
fn bar_of(number: u8, beat_s: f32, wobble: f32) -> Bar
    ensures { result ≡ bar_of number beat_s wobble }
{
    Bar {
        number,
        start: bar_start(number, beat_s),
        beat_s,
        wobble,
    }
}

// Each bar draws its wobble first, then its kicks, its snares and its hats. An eighth that may not
// strike draws nothing, one that stays silent draws only that.
fn lay_groove(s: NoiseStream, g: Groove, beat_s: f32) -> DrumLane
    requires { g.snares.n ≤ 2 }
    ensures { result ≡ lay_groove_of s g beat_s }
{
    let mut hits = [NO_HIT; 98];
    let mut count: usize = 0;
    let mut stream = s;
    for number in 0..8u8 {
        let w = WOBBLE.draw(stream);
        let bar = bar_of(number, beat_s, w.value);
        stream = w.stream;
        let kicks = kick_count(g, bar);
        for k in 0..kicks {
            let d = kick_hit(stream, bar, g.drag_s, kick_of(g, k));
            hits[count] = d.value;
            count += 1;
            stream = d.stream;
        }
        for i in 0..g.snares.n {
            let d = snare_hit(stream, bar, g.snares.at[i], g.snare_gain);
            hits[count] = d.value;
            count += 1;
            stream = d.stream;
        }
        for e in 0..8u8 {
            let out_of_play = g.hats.off_eighths_only & (e % 2 == 0);
            if out_of_play {
                continue;
            }
            let skip = chance(stream, g.hats.skip_p);
            stream = skip.stream;
            if skip.value {
                continue;
            }
            let d = hat_hit(stream, g, bar, e);
            hits[count] = d.value;
            count += 1;
            stream = d.stream;
        }
    }
    Draw {
        value: Few { at: hits, n: count },
        stream,
    }
}

// The hits of eight bars, in the order drawn. Hiphop draws one of its four grooves, sleep draws nothing for its one.
pub(crate) fn drums(s: NoiseStream, style: Style, beat_s: f32) -> DrumLane
    ensures { result ≡ drums_of s style beat_s }
{
    match style {
        Style::Hiphop => {
            let p = pick(s, 4);
            lay_groove(p.stream, hiphop_groove(p.value), beat_s)
        }
        Style::Sleep => lay_groove(s, SLEEP_GROOVE, beat_s),
    }
}
