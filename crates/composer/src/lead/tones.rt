// A chord's tones in the lead's window, and the one nearest to a note.
ghost use Rattle.std.specs.Prelude.{◌≡◌, ◌+◌, ◌≤◌, ◌<◌, length};
ghost use Rattle.composer.specs.Lead.Tones.{lowest_of, cleared_of, scale_notes_of, chord_tones_of, strong_of, rank_of, nearest_of, near_of};

use crate::chord::{Chord, OCTAVE};
use crate::few::Few;
use crate::lead::scale::has;

// Notes in ascending order: the first n of `at`, which has one for each semitone of the widest window.
pub type Tones = Few<u8, 20>;

// A chord's tones, and those of them that are of another class than its root.
#[derive(Clone, Copy)]
pub struct ChordTones {
    pub tones: Tones,
    pub rootless: Tones,
}

// Above every note.
const NO_TONE: u16 = 256;

// Of each class the lowest of the chord's notes, or more than any note.
fn lowest_of(chord: &[u8]) -> [u16; 12]
    ensures { result ≡ lowest_of chord.now }
{
    let mut lowest = [NO_TONE; 12];
    for &c in chord {
        let class = (c % OCTAVE) as usize;
        lowest[class] = lowest[class].min(c as u16);
    }
    lowest
}

// The first n, with 0 behind them: what was written last may not have been kept.
fn cleared(at: [u8; 20], n: usize) -> Tones
    ensures { result ≡ cleared_of at n }
{
    let mut out = at;
    if n < 20 {
        out[n] = 0;
    }
    Tones { at: out, n }
}

// The scale's notes from lo to hi.
pub(crate) fn scale_notes(pool: &[bool], lo: u8, hi: u8) -> Tones
    requires { (lo ≤ hi) × (hi < lo + 20) × (hi < 250) }
    ensures { result ≡ scale_notes_of pool.now lo hi }
{
    let mut at = [0u8; 20];
    let mut n: usize = 0;
    for x in lo..=hi {
        // Each is written, and the next over it unless it is kept: no branch hangs on a draw.
        let keep = has(pool, x % OCTAVE);
        at[n] = x;
        n += keep as usize;
    }
    cleared(at, n)
}

// Those of the notes that are the chord's, and those of them that are not its root.
pub(crate) fn chord_tones(notes: Tones, chord: Chord) -> ChordTones
    requires { notes.n ≤ 20 }
    ensures { result ≡ chord_tones_of notes chord }
{
    let lowest = lowest_of(&chord.notes);
    let root = chord.root_class();
    let mut at = [0u8; 20];
    let mut n: usize = 0;
    let mut others = [0u8; 20];
    let mut m: usize = 0;
    for &x in notes.used() {
        let class = x % OCTAVE;
        // a chord's note, or whole octaves above one: not below the lowest of its class
        let keep = lowest[class as usize] <= x as u16;
        let other = keep & (class != root);
        at[n] = x;
        n += keep as usize;
        others[m] = x;
        m += other as usize;
    }
    let tones = cleared(at, n);
    let rootless = cleared(others, m);
    ChordTones { tones, rootless }
}

// The tones without the root, where there are any.
pub(crate) fn strong_of(tones: Tones, rootless: Tones) -> Tones
    ensures { result ≡ strong_of tones rootless }
{
    if rootless.n == 0 { tones } else { rootless }
}

// By distance first, then by height: the note is the lower byte.
fn rank(target: u8, x: u8) -> u16
    ensures { result ≡ rank_of target x }
{
    x.abs_diff(target) as u16 * 256 + x as u16
}

// The nearest note to the target; ties low. By a fold composing took about a hundredth longer.
fn nearest(notes: &[u8], target: u8) -> u8
    requires { 0 < length notes.now }
    ensures { result ≡ nearest_of notes.now target }
{
    let mut best = u16::MAX;
    for &x in notes {
        best = best.min(rank(target, x));
    }
    (best % 256) as u8
}

// The nearest of the tones.
pub(crate) fn near(t: Tones, target: u8) -> u8
    requires { (0 < t.n) × (t.n ≤ 20) }
    ensures { result ≡ near_of t target }
{
    nearest(t.used(), target)
}
