// The harmony stage: a loop of chords in a drawn key, and the scale that the lead sings.
ghost use Rattle.std.specs.Prelude.{◌≡◌, ℕ, ◌<◌, get_or};
ghost use Rattle.composer.specs.Harmony.{rows_of, loop_at, class_in, melody_pcs_of, chords_of, notes_of, harmony_of};

use crate::chord::{Chord, NO_CHORD, OCTAVE, voiced};
use crate::style::{Style, major_share};
use streams::draw::{chance, pick};
use streams::stream::{Draw, NoiseStream};

// The pitch classes that the lead sings: the first n. No `Few`: the definitions name `pcs`.
#[derive(Clone, Copy, Debug, PartialEq, Eq)]
pub struct Scale {
    pub pcs: [u8; 6],
    pub n: usize,
}

// That it is tonal is no ghost field, since the definitions make harmonies of any numbers.
#[derive(Clone, Copy)]
pub struct Harmony {
    pub scale: Scale,
    pub bars: [Chord; 8],
}

// The loops of the grammar, a degree for each bar, every row repeated to eight.
const MAJOR_LOOPS: [[u8; 8]; 16] = [
    [0, 3, 0, 3, 0, 3, 0, 3],
    [0, 5, 0, 5, 0, 5, 0, 5],
    [0, 0, 3, 3, 0, 0, 3, 3],
    [3, 4, 0, 5, 3, 4, 0, 5],
    [0, 5, 3, 4, 0, 5, 3, 4],
    [0, 4, 5, 3, 0, 4, 5, 3],
    [0, 1, 3, 0, 0, 1, 3, 0],
    [1, 3, 0, 0, 1, 3, 0, 0],
    [0, 2, 3, 0, 0, 2, 3, 0],
    [3, 0, 5, 0, 3, 0, 5, 0],
    [3, 2, 1, 0, 3, 2, 1, 0],
    [0, 3, 0, 3, 5, 3, 4, 4],
    [0, 1, 3, 0, 0, 2, 3, 4],
    [3, 0, 3, 0, 1, 3, 4, 4],
    [0, 0, 3, 3, 1, 1, 4, 4],
    [0, 3, 1, 3, 0, 3, 2, 3],
];

const MINOR_LOOPS: [[u8; 8]; 15] = [
    [5, 3, 5, 3, 5, 3, 5, 3],
    [5, 1, 5, 1, 5, 1, 5, 1],
    [5, 5, 3, 3, 5, 5, 3, 3],
    [5, 3, 1, 5, 5, 3, 1, 5],
    [5, 1, 3, 5, 5, 1, 3, 5],
    [5, 3, 4, 5, 5, 3, 4, 5],
    [5, 0, 3, 4, 5, 0, 3, 4],
    [5, 1, 3, 4, 5, 1, 3, 4],
    [5, 2, 3, 1, 5, 2, 3, 1],
    [3, 4, 5, 5, 3, 4, 5, 5],
    [3, 2, 1, 5, 3, 2, 1, 5],
    [5, 3, 5, 3, 1, 3, 4, 4],
    [5, 1, 3, 5, 5, 1, 2, 2],
    [5, 3, 1, 5, 3, 0, 4, 2],
    [5, 5, 3, 3, 1, 1, 2, 2],
];

fn rows(major: bool) -> u8
    ensures { result ≡ rows_of major }
{
    if major { 16 } else { 15 }
}

// A row of the major loops or of the minor ones.
fn loop_at(major: bool, row: u8) -> [u8; 8]
    requires { row < rows_of major }
    ensures { result ≡ loop_at major row }
{
    if major {
        MAJOR_LOOPS[row as usize]
    } else {
        MINOR_LOOPS[row as usize]
    }
}

fn class_in(key: u8, pc: u8) -> u8
    requires { (key < 12) × (pc < 12) }
    ensures { result ≡ class_in key pc }
{
    (pc + key) % OCTAVE
}

// The key's pentatonic, and over a major loop its major seventh.
fn melody_pcs(key: u8, major: bool) -> Scale
    requires { key < 12 }
    ensures { result ≡ melody_pcs_of key major }
{
    let a = class_in(key, 0);
    let b = class_in(key, 2);
    let c = class_in(key, 4);
    let d = class_in(key, 7);
    let e = class_in(key, 9);
    if major {
        let f = class_in(key, 11);
        return Scale {
            pcs: [a, b, c, d, e, f],
            n: 6,
        };
    }
    Scale {
        pcs: [a, b, c, d, e, 0],
        n: 5,
    }
}

// A loop's chords in a key.
fn chords(key: u8, row: [u8; 8]) -> [Chord; 8]
    requires key_bound { key < 12 }
    requires by_index { (k : ℕ) → k < 8 → get_or row k 0 < 6 }
    ensures { result ≡ chords_of key row }
{
    let mut out = [NO_CHORD; 8];
    for (k, &d) in row.iter().enumerate() {
        out[k] = voiced(d, key);
    }
    out
}

// A harmony of the style, from three draws: major or minor, the loop, the key.
pub(crate) fn harmony_of(s: NoiseStream, style: Style) -> Draw<Harmony>
    ensures { result ≡ harmony_of s style }
{
    let major = chance(s, major_share(style));
    let row = pick(major.stream, rows(major.value));
    pick(row.stream, OCTAVE).map(|key| Harmony {
        scale: melody_pcs(key, major.value),
        bars: chords(key, loop_at(major.value, row.value)),
    })
}

// The four notes of each bar's chord.
pub fn bar_chords(bars: [Chord; 8]) -> [[u8; 4]; 8]
    ensures { result ≡ notes_of bars }
{
    let mut out = [[0u8; 4]; 8];
    for (b, c) in bars.iter().enumerate() {
        out[b] = c.notes;
    }
    out
}
