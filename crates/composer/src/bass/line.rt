// A bar's bass notes: the root on its first step, then the root or its fifth, and a pickup into the next bar.
ghost use Rattle.std.specs.Prelude.{◌≡◌, ◌≤◌, ◌<◌};
ghost use Rattle.composer.specs.Bass.Line.{bass_pitch_of, struck_of, root_note_of, pickup_note_of, later_pitch_of, later_note_of, ends_late, pickup_drawn_of, note_drawn_of, gap_of, onset_of, held_of, played_note_of, Playable};

use crate::bass::rhythm::Steps;
use crate::chord::{FIFTH, in_octave_from};
use crate::note::{Note, NoteRole};
use crate::spread::Spread;
use crate::style::BassStyle;
use crate::timing::{BEATS_PER_BAR, SIXTEENTH_BEATS, bar_start};
use streams::draw::chance;
use streams::stream::{Draw, NoiseStream};

// The lowest note of the bass, but for a pickup: G1.
const BASS_LOW: u8 = 31;

// How far behind the beat a note lands, in seconds.
const BASS_LAG: Spread = Spread {
    base: 0.014,
    span: 0.010,
};

// A later note's velocity under the root's.
const LATER_SOFTER: f32 = 0.14;

const PICKUP_LAG: Spread = Spread {
    base: 0.012,
    span: 0.008,
};

const PICKUP_VELOCITY: Spread = Spread {
    base: 0.34,
    span: 0.06,
};

// How much of the time to its next note a note is held.
const BASS_GATE: f32 = 0.9;

// What a bar is played from: its number, its root's class and the next bar's, its steps and the next bar's first. That
// it is `Playable` is no ghost field, since the definitions make such parts too.
#[derive(Clone, Copy)]
pub struct BarPart {
    pub bar: u8,
    pub root_pc: u8,
    pub next_pc: u8,
    pub steps: Steps,
    pub next_step: u8,
}

// A note as drawn.
#[derive(Clone, Copy)]
pub struct Strike {
    pub at: f32,
    pub midi: u8,
    pub vel: f32,
}

// A pitch class in the octave from BASS_LOW up.
fn bass_pitch(pc: u8) -> u8
    requires { pc ≤ 243 }
    ensures { result ≡ bass_pitch_of pc }
{
    in_octave_from(BASS_LOW, pc)
}

// A note due at `on`: its lag, then its velocity.
fn struck(s: NoiseStream, on: f32, midi: u8, lag: Spread, velocity: Spread) -> Draw<Strike>
    ensures { result ≡ struck_of s on midi lag velocity }
{
    let at = lag.after(on, s);
    velocity.draw(at.stream).map(|vel| Strike {
        at: at.value,
        midi,
        vel,
    })
}

fn root_note(s: NoiseStream, on: f32, p: BarPart, style: BassStyle) -> Draw<Strike>
    requires { p.root_pc < 12 }
    ensures { result ≡ root_note_of s on p style }
{
    struck(s, on, bass_pitch(p.root_pc), BASS_LAG, style.velocity)
}

// A semitone under the next bar's root.
fn pickup_note(s: NoiseStream, on: f32, p: BarPart) -> Draw<Strike>
    requires { p.next_pc < 12 }
    ensures { result ≡ pickup_note_of s on p }
{
    let next = bass_pitch(p.next_pc);
    struck(s, on, next - 1, PICKUP_LAG, PICKUP_VELOCITY)
}

// The fifth over a root, or the root.
fn later_pitch(pc: u8, fifth: bool) -> u8
    requires { pc < 12 }
    ensures { result ≡ later_pitch_of pc fifth }
{
    if fifth {
        bass_pitch(pc + FIFTH)
    } else {
        bass_pitch(pc)
    }
}

// The fifth by its chance, else the root.
fn later_note(s: NoiseStream, on: f32, p: BarPart, style: BassStyle) -> Draw<Strike>
    requires { p.root_pc < 12 }
    ensures { result ≡ later_note_of s on p style }
{
    let fifth = chance(s, style.fifth_p);
    let midi = later_pitch(p.root_pc, fifth.value);
    let velocity = Spread {
        base: style.velocity.base - LATER_SOFTER,
        span: style.velocity.span,
    };
    struck(fifth.stream, on, midi, BASS_LAG, velocity)
}

// The bar's last note, in its last beat.
fn ends_late(t: Steps, i: usize) -> bool
    requires { i < 13 }
    ensures { result ≡ ends_late t i }
{
    (i + 1 == t.n) & (12 <= t.at[i])
}

// Whether a note that may be a pickup is drawn as one.
fn pickup_drawn(s: NoiseStream, p: BarPart, style: BassStyle, i: usize) -> Draw<bool>
    requires { i < 13 }
    ensures { result ≡ pickup_drawn_of s p style i }
{
    if ends_late(p.steps, i) {
        style.pickup_p.draw(s)
    } else {
        Draw {
            value: false,
            stream: s,
        }
    }
}

// Note i of a bar. In the last bar a pickup is drawn and then not played.
fn note_drawn(s: NoiseStream, on: f32, p: BarPart, style: BassStyle, i: usize) -> Draw<Strike>
    requires playable { Playable p }
    requires i_lt_n { i < p.steps.n }
    ensures { result ≡ note_drawn_of s on p style i }
{
    if i == 0 {
        return root_note(s, on, p, style);
    }
    let pickup = pickup_drawn(s, p, style, i);
    if pickup.value & (p.bar < 7) {
        pickup_note(pickup.stream, on, p)
    } else {
        later_note(pickup.stream, on, p, style)
    }
}

// The 16ths from note i to the next, in this bar or in the next one.
fn gap(p: BarPart, i: usize) -> u8
    requires playable { Playable p }
    requires i_lt_n { i < p.steps.n }
    ensures { result ≡ gap_of p i }
{
    let steps = p.steps;
    if i + 1 < steps.n {
        steps.at[i + 1] - steps.at[i]
    } else {
        16 + p.next_step - steps.at[i]
    }
}

// When a step is due, in seconds into the loop.
fn onset(beat_s: f32, bar: u8, step: u8) -> f32
    ensures { result ≡ onset_of beat_s bar step }
{
    let step_s = SIXTEENTH_BEATS * beat_s;
    bar_start(bar, beat_s) + step as f32 * step_s
}

// How long a note at `at` is held: most of its gap, and not past the loop's end. Not `min`, which would take the other
// where one is a NaN: `held_of` takes the second.
fn held(beat_s: f32, gap: u8, at: f32) -> f32
    ensures { result ≡ held_of beat_s gap at }
{
    let bar_s = beat_s * BEATS_PER_BAR;
    let step_s = SIXTEENTH_BEATS * beat_s;
    let loop_s = bar_s * 8.0;
    let a = gap as f32 * step_s * BASS_GATE;
    let b = loop_s - at;
    if a < b { a } else { b }
}

// Note i of a bar as it sounds.
pub(crate) fn played_note(
    s: NoiseStream,
    p: BarPart,
    style: BassStyle,
    beat_s: f32,
    i: usize,
) -> Draw<Note>
    requires playable { Playable p }
    requires i_lt_n { i < p.steps.n }
    ensures { result ≡ played_note_of s p style beat_s i }
{
    let on = onset(beat_s, p.bar, p.steps.at[i]);
    let g = gap(p, i);
    note_drawn(s, on, p, style, i).map(|d| Note {
        bar: p.bar,
        role: NoteRole::Backing,
        spare: 0,
        at: d.at,
        midi: d.midi,
        vel: d.vel,
        dur: held(beat_s, g, d.at),
    })
}
