// A note's pitch, by its role.
ghost use Rattle.std.specs.Prelude.{◌≡◌, ◌+◌, ◌≤◌, ◌<◌};
ghost use Rattle.composer.specs.Lead.Ground.{tones_for_of};
ghost use Rattle.composer.specs.Lead.Pitch.{bounded_of, steps_of, peak_note_of, chord_note_of, passing_note_of, resolve_note_of, close_note_of, pitch_of};
ghost use Rattle.composer.specs.Lead.Sound.{Sound, Fit, Quotable};

use crate::chord::FIFTH;
use crate::lead::ground::{Ground, tones_for};
use crate::lead::line::{Line, Place};
use crate::lead::role::Role;
use crate::lead::scale::scale_step;
use crate::lead::tones::{Tones, near};
use streams::draw::{chance, coin, pick};
use streams::stream::{Draw, NoiseStream};

// The peak's least lift over the last note, in semitones, and how many lifts there are.
const PEAK_LIFT: u8 = 3;

const PEAK_LIFTS: u8 = 3;

// How far a chord tone drifts from the last note either way, in semitones, and how many drifts there are.
const DRIFT: u8 = 4;

const DRIFTS: u8 = 9;

// The chance that a passing tone skips a degree.
const SKIP_P: f32 = 0.3;

// n, or the tone nearest to prev where n is further than a fifth from it.
fn bounded(t: Tones, n: u8, prev: u8) -> u8
    requires { (0 < t.n) × (t.n ≤ 20) }
    ensures { result ≡ bounded_of t n prev }
{
    if n.abs_diff(prev) > FIFTH {
        near(t, prev)
    } else {
        n
    }
}

// The degrees that a passing tone moves.
fn steps(skip: bool) -> u8
    ensures { result ≡ steps_of skip }
{
    if skip { 2 } else { 1 }
}

// The chord tone nearest to the melody's first note.
fn close_note(g: Ground, first: u8) -> u8
    requires { (0 < g.tones.n) × (g.tones.n ≤ 20) }
    ensures { result ≡ close_note_of g first }
{
    near(g.tones, first)
}

// A lift onto a strong tone.
fn peak_note(s: NoiseStream, g: Ground, prev: u8) -> Draw<u8>
    requires { (prev < 200) × (0 < g.strong.n) × (g.strong.n ≤ 20) }
    ensures { result ≡ peak_note_of s g prev }
{
    pick(s, PEAK_LIFTS).map(|lift| near(g.strong, (prev + PEAK_LIFT + lift).min(g.hi)))
}

// A step against the leap from `from` to prev.
fn resolve_note(pool: &[bool], g: Ground, from: u8, prev: u8) -> u8
    requires { (g.lo ≤ prev) × (prev ≤ g.hi) × (40 ≤ g.lo) × (g.hi < g.lo + 20) × (g.hi < 120) }
    ensures { result ≡ resolve_note_of pool.now g from prev }
{
    scale_step(pool, g.lo, g.hi, prev, prev < from, 1)
}

// A drift onto a tone, at most a fifth away.
fn chord_note(s: NoiseStream, g: Ground, strong: bool, prev: u8) -> Draw<u8>
    requires { (4 ≤ prev) × (prev < 200) × (g.lo ≤ g.hi) × (0 < (tones_for_of g strong).n) × ((tones_for_of g strong).n ≤ 20) }
    ensures { result ≡ chord_note_of s g strong prev }
{
    let t = tones_for(g, strong);
    pick(s, DRIFTS).map(|drift| {
        let target = (prev + drift - DRIFT).clamp(g.lo, g.hi);
        bounded(t, near(t, target), prev)
    })
}

// A coin for the way, then the chance to skip.
fn passing_note(s: NoiseStream, pool: &[bool], g: Ground, prev: u8) -> Draw<u8>
    requires { (g.lo ≤ prev) × (prev ≤ g.hi) × (40 ≤ g.lo) × (g.hi < g.lo + 20) × (g.hi < 120) }
    ensures { result ≡ passing_note_of s pool.now g prev }
{
    let up = coin(s);
    chance(up.stream, SKIP_P).map(|skip| scale_step(pool, g.lo, g.hi, prev, up.value, steps(skip)))
}

// The pitch of the note at p; `first` is the melody's first note.
pub(crate) fn pitch_of(
    role: Role,
    s: NoiseStream,
    pool: &[bool],
    g: Ground,
    l: Line,
    p: Place,
    first: u8,
) -> Draw<u8>
    requires sound { Sound pool.now g }
    requires fit { Fit pool.now g.lo g.hi l first }
    requires quotable { Quotable role p.i l.head.n }
    ensures { result ≡ pitch_of role s pool.now g l p first }
{
    match role {
        Role::Quote => Draw {
            value: l.head.at[p.i],
            stream: s,
        },
        Role::Close => Draw {
            value: close_note(g, first),
            stream: s,
        },
        Role::Peak => peak_note(s, g, l.prev),
        Role::Resolve => Draw {
            value: resolve_note(pool, g, l.from, l.prev),
            stream: s,
        },
        Role::ChordTone => chord_note(s, g, p.strong, l.prev),
        Role::Passing => passing_note(s, pool, g, l.prev),
    }
}
