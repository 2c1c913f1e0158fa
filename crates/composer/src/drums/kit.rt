// One bar of the kit: its kicks, its snares, its hats. A hit draws where it lands, then how hard.
ghost use Rattle.std.specs.Prelude.{◌≡◌};
ghost use Rattle.composer.specs.Drums.Kit.{bar_at, eighth_of, ends_statement, kick_slot_of, kick_beat_of, kick_count_of, kick_of, kick_hit_of, snare_hit_of, hat_slot_of, hat_kind_of, hat_hit_of};

use crate::drums::grooves::{GHOST_KICK, Groove, Kick};
use crate::note::{DrumKind, Hit};
use crate::spread::{Jitter, Spread};
use crate::timing::{held_at_zero, swing_delay};
use streams::float::fract;
use streams::stream::{Draw, NoiseStream};

// One bar of a groove: its number in the loop, where it starts, how long its beats are, and the
// wobble that all its hits share.
#[derive(Clone, Copy)]
pub struct Bar {
    pub number: u8,
    pub start: f32,
    pub beat_s: f32,
    pub wobble: f32,
}

const SWING_KICK: f32 = 0.53;

// How far behind the grid a snare lands, in seconds.
const SNARE_DRAG_S: f32 = 0.008;

const HIT_ACCENT: Spread = Spread {
    base: 0.95,
    span: 0.1,
};

const KICK_JITTER: Jitter = Jitter {
    early: 0.3,
    width: 0.010,
};

const SNARE_JITTER: Jitter = Jitter {
    early: 0.3,
    width: 0.008,
};

const HAT_JITTER: Jitter = Jitter {
    early: 0.5,
    width: 0.012,
};

impl Bar {
    // The time of a beat of the bar.
    fn at(self, beat: f32) -> f32
        ensures { result ≡ bar_at self beat }
    {
        self.start + beat * self.beat_s
    }

    // An eighth note's length.
    fn eighth(self) -> f32
        ensures { result ≡ eighth_of self }
    {
        self.beat_s / 2.0
    }

    // Whether a statement or its answer ends with this bar.
    fn ends_statement(self) -> bool
        ensures { result ≡ ends_statement self }
    {
        self.number % 4 == 3
    }
}

// A kick's slot: dragged, and off the beat swung.
fn kick_slot(bar: Bar, drag_s: f32, beat: f32) -> f32
    ensures { result ≡ kick_slot_of bar drag_s beat }
{
    let at = bar.at(beat) + drag_s;
    let off = fract(beat);
    let delay = swing_delay(SWING_KICK, bar.eighth());
    if off != 0.0 { at + delay } else { at }
}

// The beat that a kick lands on in a bar.
fn kick_beat(k: Kick, number: u8) -> f32
    ensures { result ≡ kick_beat_of k number }
{
    if number % 2 == 0 { k.even } else { k.odd }
}

// How many kicks a bar has: two, and a ghost kick that picks up out of a statement. The definitions number a bar's kicks,
// so that they are not gathered in an array.
pub(crate) fn kick_count(g: Groove, bar: Bar) -> u8
    ensures { result ≡ kick_count_of g bar }
{
    let ghost_kick = g.ghost_pickup & bar.ends_statement();
    if ghost_kick { 3 } else { 2 }
}

// Kick k of a bar: the groove's two, then the ghost kick.
pub(crate) fn kick_of(g: Groove, k: u8) -> Kick
    ensures { result ≡ kick_of g k }
{
    if k == 0 {
        return g.first;
    }
    if k == 1 { g.second } else { GHOST_KICK }
}

// One kick: its jitter is drawn, then its accent.
pub(crate) fn kick_hit(s: NoiseStream, bar: Bar, drag_s: f32, k: Kick) -> Draw<Hit>
    ensures { result ≡ kick_hit_of s bar drag_s k }
{
    let beat = kick_beat(k, bar.number);
    let slot = kick_slot(bar, drag_s, beat);
    let j = KICK_JITTER.draw(s);
    let at = held_at_zero(slot + j.value);
    HIT_ACCENT.draw(j.stream).map(|accent| Hit {
        bar: bar.number,
        spare: 0,
        at,
        kind: DrumKind::Kick,
        gain: k.gain * bar.wobble * accent,
    })
}

// One snare: its jitter is drawn, then its accent.
pub(crate) fn snare_hit(s: NoiseStream, bar: Bar, beat: f32, gain: f32) -> Draw<Hit>
    ensures { result ≡ snare_hit_of s bar beat gain }
{
    let j = SNARE_JITTER.draw(s);
    let at = held_at_zero(bar.at(beat) + SNARE_DRAG_S + j.value);
    HIT_ACCENT.draw(j.stream).map(|accent| Hit {
        bar: bar.number,
        spare: 0,
        at,
        kind: DrumKind::Snare,
        gain: gain * bar.wobble * accent,
    })
}

// Eighth e's slot: the off-eighths are swung.
fn hat_slot(bar: Bar, swing: f32, e: u8) -> f32
    ensures { result ≡ hat_slot_of bar swing e }
{
    let eighth = bar.eighth();
    let at = bar.start + e as f32 * eighth;
    let delay = swing_delay(swing, eighth);
    if e % 2 == 1 { at + delay } else { at }
}

// The last hat of a statement opens.
fn hat_kind(open_hat: bool, bar: Bar, e: u8) -> DrumKind
    ensures { result ≡ hat_kind_of open_hat bar e }
{
    let opens = (open_hat & bar.ends_statement()) & (e == 7);
    if opens {
        DrumKind::OpenHat
    } else {
        DrumKind::Hat
    }
}

// One hat: its jitter is drawn, then its velocity.
pub(crate) fn hat_hit(s: NoiseStream, g: Groove, bar: Bar, e: u8) -> Draw<Hit>
    ensures { result ≡ hat_hit_of s g bar e }
{
    let slot = hat_slot(bar, g.hats.swing, e);
    let j = HAT_JITTER.draw(s);
    let at = held_at_zero(slot + j.value);
    let kind = hat_kind(g.open_hat, bar, e);
    g.hats.velocity.draw(j.stream).map(|velocity| Hit {
        bar: bar.number,
        spare: 0,
        at,
        kind,
        gain: velocity * bar.wobble,
    })
}
