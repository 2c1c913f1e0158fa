// The melody: each note of the rhythm gets a pitch and a velocity.
ghost use Rattle.std.specs.Prelude.{◌≡◌, ◌+◌, ◌-◌, ◌≤◌, ◌<◌, max, length};
ghost use Rattle.composer.specs.Lead.Tones.{no_class, tones_in};
ghost use Rattle.composer.specs.Lead.Melody.{velocity_of, step_of, opening_of, start_of, open_line_of, melody_of};
ghost use Rattle.composer.specs.Lead.Sound.{Sound, Fit, Ready};

use crate::chord::{Chord, OCTAVE};
use crate::few::Few;
use crate::lead::beats::Beats;
use crate::lead::ground::{Ground, ground_of};
use crate::lead::line::{Line, Place, carried, place_of};
use crate::lead::pitch::pitch_of;
use crate::lead::role::{Role, role_of};
use crate::lead::tones::{chord_tones, near, scale_notes};
use crate::style::LeadStyle;
use streams::stream::NoiseStream;

// The lead starts on a tone of its window's top octave, the nearest this far over the window's middle.
const START_LIFT: u8 = 2;

// The peak's velocity over its draw.
const PEAK_ACCENT: f32 = 0.06;

// A note before it is played: its bar, its beat in the bar, pitch, role and velocity.
#[derive(Clone, Copy)]
pub struct LeadNote {
    pub bar: u8,
    pub note: u8,
    pub role: Role,
    pub beat: f32,
    pub vel: f32,
}

// One step of the melody, and the line after it.
#[derive(Clone, Copy)]
pub struct LeadStep {
    pub note: u8,
    pub role: Role,
    pub vel: f32,
    pub line: Line,
}

// The notes sung, and the line behind the last.
#[derive(Clone, Copy)]
pub struct Sung {
    pub notes: Few<LeadNote, 56>,
    pub line: Line,
}

const NO_LEAD: LeadNote = LeadNote {
    bar: 0,
    beat: 0.0,
    note: 0,
    role: Role::Quote,
    vel: 0.0,
};

// The velocity drawn; the peak's is louder.
fn velocity(role: Role, x: f32) -> f32
    ensures { result ≡ velocity_of role x }
{
    match role {
        Role::Quote => x,
        Role::Close => x,
        Role::Peak => x + PEAK_ACCENT,
        Role::Resolve => x,
        Role::ChordTone => x,
        Role::Passing => x,
    }
}

// The role, the pitch, the velocity: drawn in this order.
fn step(pool: &[bool], g: Ground, l: Line, p: Place, first: u8) -> LeadStep
    requires sound { Sound pool.now g }
    requires fit { Fit pool.now g.lo g.hi l first }
    ensures { result ≡ step_of pool.now g l p first }
{
    let role = role_of(l, p);
    let note = pitch_of(role.value, role.stream, pool, g, l, p, first);
    let vel = g.velocity.draw(note.stream);
    LeadStep {
        note: note.value,
        role: role.value,
        vel: velocity(role.value, vel.value),
        line: carried(l, p.bar, note.value, vel.stream),
    }
}

// The first note sung, or else the one that the line starts from.
fn opening(count: usize, start: u8, sung: u8) -> u8
    ensures { result ≡ opening_of count start sung }
{
    if count == 0 { start } else { sung }
}

// The note that the line starts from.
fn start(style: LeadStyle, chord: Chord, pool: &[bool]) -> u8
    requires { (style.lo + 12 ≤ style.hi) × (style.hi < style.lo + 20) × (style.hi < 120) × (0 < length (tones_in chord.notes pool.now no_class (max style.lo (style.hi - 12)) style.hi)) }
    ensures { result ≡ start_of style chord pool.now }
{
    let top = scale_notes(pool, style.hi - OCTAVE, style.hi);
    let found = chord_tones(top, chord);
    near(found.tones, (style.lo + style.hi) / 2 + START_LIFT)
}

// The line before its first note.
fn open_line(first: u8, s: NoiseStream) -> Line
    ensures { result ≡ open_line_of first s }
{
    Line {
        stream: s,
        from: first,
        prev: first,
        head: Few { at: [0, 0], n: 0 },
    }
}

// Each bar's notes over its chord.
pub(crate) fn melody(
    s: NoiseStream,
    beats: [Beats; 8],
    bars: [Chord; 8],
    pool: &[bool],
    style: LeadStyle,
) -> Sung
    requires { Ready beats bars pool.now style }
    ensures { result ≡ melody_of s beats bars pool.now style }
{
    let first = start(style, bars[0], pool);
    let sung = scale_notes(pool, style.lo, style.hi);
    let mut notes = [NO_LEAD; 56];
    let mut count: usize = 0;
    let mut line = open_line(first, s);
    for k in 0..8usize {
        let c = bars[k];
        let b = beats[k];
        let bar = k as u8;
        let at = b.at;
        let n = b.n;
        if n == 0 {
            continue;
        }
        let g = ground_of(style, c, sung);
        for i in 0..n {
            let place = place_of(bar, b, i);
            let first = opening(count, line.prev, notes[0].note);
            let t = step(pool, g, line, place, first);
            notes[count] = LeadNote {
                bar,
                beat: at[i],
                note: t.note,
                role: t.role,
                vel: t.vel,
            };
            count += 1;
            line = t.line;
        }
    }
    Sung {
        notes: Few {
            at: notes,
            n: count,
        },
        line,
    }
}
