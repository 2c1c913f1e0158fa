// The keys stage: the comp over each bar's chord.
ghost use Rattle.std.specs.Prelude.{◌≡◌, ◌≤◌, ◌<◌};
ghost use Rattle.composer.specs.Chord.{root_class_of};
ghost use Rattle.composer.specs.Harmony.{Tonal};
ghost use Rattle.composer.specs.Keys.{shell_of, placed_shell, upper_of, density_draw_of, grid_at, dyad_of, tone_of, keys_of};

use crate::chord::{Chord, OCTAVE, in_octave_from};
use crate::few::Few;
use crate::harmony::Harmony;
use crate::note::{NO_NOTE, Note, NoteRole};
use crate::spread::Spread;
use crate::style::{Comp, Density, KeysStyle, Style, keys_style};
use crate::timing::{bar_start, swing_delay};
use streams::draw::{chance, pick};
use streams::stream::{Draw, NoiseStream};

// A ninth's pitch class above the root's: a whole tone.
const NINTH: u8 = 2;

// The keys' swing, their own.
const SWING_KEYS: f32 = 0.53;

// The comp's lag behind the grid, in seconds.
const KEYS_LAG: Spread = Spread {
    base: 0.010,
    span: 0.020,
};

// The roll between the shell's two voices, in seconds, and the rolled voice's softer velocity.
const ROLL: Spread = Spread {
    base: 0.012,
    span: 0.008,
};

const ROLLED_SOFTER: f32 = 0.9;

// The chance that a shell's seventh lifts to the ninth.
const NINTH_P: f32 = 0.2;

// The rootless comp shell.
#[derive(Clone, Copy)]
pub struct Shell {
    pub third: u8,
    pub seventh: u8,
}

// The notes, in the order drawn, and the stream after their draws; the others are zero.
pub type KeysLane = Draw<Few<Note, 128>>;

// A struck shell.
#[derive(Clone, Copy)]
pub struct Dyad {
    pub lower: Note,
    pub higher: Note,
}

// The chord's shell: where a chord is root, third, fifth and seventh, they are found in these places.
fn shell_of(chord: Chord) -> Shell
    requires { shell_of chord ≡ placed_shell chord }
    ensures { result ≡ shell_of chord }
{
    Shell {
        third: chord.notes[1],
        seventh: chord.notes[3],
    }
}

// The shell's upper voice: the seventh, or the ninth above it.
fn upper(ninth: bool, seventh: u8, root_pc: u8) -> u8
    requires { (seventh ≤ 244) × (root_pc < 12) }
    ensures { result ≡ upper_of ninth seventh root_pc }
{
    if ninth {
        in_octave_from(seventh, (root_pc + NINTH) % OCTAVE)
    } else {
        seventh
    }
}

// The chance that an eighth strikes: one draw, or none where it is fixed.
fn density_draw(d: Density, s: NoiseStream) -> Draw<f32>
    ensures { result ≡ density_draw_of d s }
{
    match d {
        Density::Drawn(spread) => spread.draw(s),
        Density::Fixed(p) => Draw {
            value: p,
            stream: s,
        },
    }
}

// When an eighth of a bar begins: an off-eighth swings.
fn grid_at(bar: u8, e: u8, beat_s: f32) -> f32
    ensures { result ≡ grid_at bar e beat_s }
{
    let eighth = beat_s / 2.0;
    let at = bar_start(bar, beat_s) + e as f32 * eighth;
    if e % 2 == 1 {
        at + swing_delay(SWING_KEYS, eighth)
    } else {
        at
    }
}

// The shell at `at`, its upper voice a little later.
fn dyad_at(s: NoiseStream, shell: Shell, chord: Chord, k: KeysStyle, bar: u8, at: f32) -> Draw<Dyad>
    requires { shell.seventh ≤ 244 }
    ensures { result ≡ dyad_of s shell (root_class_of chord) k bar at }
{
    let ninth = chance(s, NINTH_P);
    let high = upper(ninth.value, shell.seventh, chord.root_class());
    let vel = k.velocity.draw(ninth.stream);
    let rolled = ROLL.after(at, vel.stream);
    let lower = Note {
        bar,
        role: NoteRole::Backing,
        spare: 0,
        at,
        midi: shell.third,
        vel: vel.value,
        dur: k.dur,
    };
    let higher = Note {
        bar,
        role: NoteRole::Backing,
        spare: 0,
        at: rolled.value,
        midi: high,
        vel: vel.value * ROLLED_SOFTER,
        dur: k.dur,
    };
    Draw {
        value: Dyad { lower, higher },
        stream: rolled.stream,
    }
}

// One chord tone at `at`.
fn tone_at(s: NoiseStream, chord: Chord, k: KeysStyle, bar: u8, at: f32) -> Draw<Note>
    ensures { result ≡ tone_of s chord k bar at }
{
    let p = pick(s, 4);
    let midi = chord.notes[p.value as usize];
    k.velocity.draw(p.stream).map(|vel| Note {
        bar,
        role: NoteRole::Backing,
        spare: 0,
        at,
        midi,
        vel,
        dur: k.dur,
    })
}

// The comp of all eight bars: each eighth is struck with the density's chance. The notes stay in one
// array of this function's own, since a lane that is passed on is copied whole.
pub(crate) fn keys(s: NoiseStream, h: Harmony, style: Style, beat_s: f32) -> KeysLane
    requires { Tonal h }
    ensures { result ≡ keys_of s h style beat_s }
{
    let k = keys_style(style);
    let density = density_draw(k.density, s);
    let mut notes = [NO_NOTE; 128];
    let mut count: usize = 0;
    let mut stream = density.stream;
    for b in 0..8u8 {
        let chord = h.bars[b as usize];
        let shell = shell_of(chord);
        for e in 0..8u8 {
            let struck = chance(stream, density.value);
            stream = struck.stream;
            if !struck.value {
                continue;
            }
            let lag = KEYS_LAG.draw(stream);
            let at = grid_at(b, e, beat_s) + lag.value;
            match k.comp {
                Comp::Shell => {
                    let dyad = dyad_at(lag.stream, shell, chord, k, b, at);
                    notes[count] = dyad.value.lower;
                    notes[count + 1] = dyad.value.higher;
                    count += 2;
                    stream = dyad.stream;
                }
                Comp::Single => {
                    let tone = tone_at(lag.stream, chord, k, b, at);
                    notes[count] = tone.value;
                    count += 1;
                    stream = tone.stream;
                }
            }
        }
    }
    Draw {
        value: Few {
            at: notes,
            n: count,
        },
        stream,
    }
}
