// The body's bars: the thinning, the cuts and the late bass drop take layers away.
ghost use Rattle.std.specs.Prelude.{◌≡◌, ◌<◌, ◌≤◌};
ghost use Rattle.composer.specs.Form.Body.{takes_bass, cut_at, cut_heard, phrase_of, phrase_bar_of};

use crate::form::decisions::{Cut, Decisions, Thinning};
use crate::form::plays::Plays;

// What the bars of one phrase lose. Of a cut that isn't heard bars and bass are known too, so it is no Option.
#[derive(Clone, Copy)]
pub struct Phrase {
    // what the thinning mutes: the drums, the bass
    pub breaks: bool,
    pub low: bool,
    // whether the phrase is the thin one, and whether all its bars thin or the last 4
    pub thin: bool,
    pub whole: bool,
    // whether its cut is heard, the bars it takes, and whether the bass leaves with the beat
    pub cuts: bool,
    pub cut_bars: u8,
    pub cut_low: bool,
    // whether the bass leaves the last 4 bars
    pub late_drop: bool,
}

// Whether the thinning mutes the bass.
fn takes_bass(t: Thinning, low: bool) -> bool
    ensures { result ≡ takes_bass t low }
{
    match t {
        Thinning::Break => low,
        Thinning::BassDrop => true,
        Thinning::Steady => false,
    }
}

// Whether phrase p's cut is drawn and stands: it cuts only into a phrase that opens on the beat, and
// never into the outro.
pub(crate) fn cut_heard(d: Decisions, cut: Cut, p: u8) -> bool
    requires { (p < 6) × (cut ≡ cut_at d p) }
    ensures { result ≡ cut_heard d p }
{
    let t = d.thinning;
    let thin = d.phrases / 2;
    let before_break = (p + 1 == thin) & ((t == Thinning::Break) & d.whole);
    let inside = (1 <= p) & (p + 2 <= d.phrases);
    (d.cutting & cut.on) & (inside & ((p != thin) & !before_break))
}

// What phrase p, with this cut, loses: worked out once, since it is the same for its 8 bars.
pub(crate) fn phrase_of(d: Decisions, cut: Cut, p: u8) -> Phrase
    requires { (p < 6) × (d.phrases ≤ 6) × (cut ≡ cut_at d p) }
    ensures { result ≡ phrase_of d p }
{
    let t = d.thinning;
    let breaks = t == Thinning::Break;
    let low = takes_bass(t, d.low_with_break);
    let heard = cut_heard(d, cut, p);
    Phrase {
        breaks,
        low,
        thin: p == d.phrases / 2,
        whole: d.whole,
        cuts: heard,
        cut_bars: cut.bars,
        cut_low: cut.low,
        late_drop: ((d.bass_drop & (5 <= d.phrases)) & !low) & (p == d.phrases / 2 + 1),
    }
}

// The layers that strike in bar i of a phrase.
pub(crate) fn phrase_bar(phrase: Phrase, i: u8) -> Plays
    requires { i < 8 }
    ensures { result ≡ phrase_bar_of phrase i }
{
    let thins = phrase.thin & (phrase.whole | (4 <= i));
    let cuts = phrase.cuts & (8 - i <= phrase.cut_bars);
    let late = phrase.late_drop & (4 <= i);
    let no_drums = (phrase.breaks & thins) | cuts;
    let no_bass = ((phrase.low & thins) | (cuts & phrase.cut_low)) | late;
    Plays {
        pad: true,
        keys: true,
        drums: !no_drums,
        bass: !no_bass,
    }
}
