// A bar of the answer: a statement bar's beats, shifted, pushed, one of them dropped, and settled.
ghost use Rattle.std.specs.Prelude.{◌≡◌, ◌≤◌};
ghost use Rattle.composer.specs.Lead.Answer.{either_way_of, shift_of, varied_of, drop_one_of, answer_bar_of};

use crate::lead::beats::{Beats, remove, settle};
use crate::lead::grid::grid_beat;
use crate::lead::push::push;
use streams::draw::{chance, coin, pick};
use streams::stream::{Draw, NoiseStream};

// The chance that a note shifts an eighth either way, and that one is dropped.
const SHIFT_P: f32 = 0.2;

const EIGHTH_BEATS: f32 = 0.5;

const DROP_P: f32 = 0.10;

// An eighth later or earlier.
fn either_way(up: bool) -> f32
    ensures { result ≡ either_way_of up }
{
    if up { EIGHTH_BEATS } else { -EIGHTH_BEATS }
}

// A beat that may shift an eighth either way.
fn shift(s: NoiseStream, beat: f32) -> Draw<f32>
    ensures { result ≡ shift_of s beat }
{
    let shifts = chance(s, SHIFT_P);
    if !shifts.value {
        return shifts.map(|_| beat);
    }
    let up = coin(shifts.stream);
    // held between the ends of the grid
    let moved = (beat + either_way(up.value)).clamp(grid_beat(0), grid_beat(6));
    Draw {
        value: moved,
        stream: up.stream,
    }
}

// Every beat of a bar, shifted and then pushed.
fn varied(s: NoiseStream, b: Beats) -> Draw<Beats>
    requires { b.n ≤ 7 }
    ensures value { result ≡ varied_of s b }
    ensures n_bound { result.value.n ≤ 7 }
{
    let mut at = [0.0f32; 7];
    let mut stream = s;
    for (i, &beat) in b.used().iter().enumerate() {
        let m = shift(stream, beat);
        let d = push(m.stream, m.value);
        at[i] = d.value;
        stream = d.stream;
    }
    Draw {
        value: Beats { at, n: b.n },
        stream,
    }
}

// A bar that is not empty may lose one beat.
fn drop_one(d: Draw<Beats>) -> Draw<Beats>
    requires { d.value.n ≤ 7 }
    ensures value { result ≡ drop_one_of d }
    ensures n_bound { result.value.n ≤ 7 }
{
    let beats = d.value;
    if beats.n == 0 {
        return d;
    }
    let drops = chance(d.stream, DROP_P);
    if drops.value {
        pick(drops.stream, beats.n as u8).map(|k| remove(beats, k as usize))
    } else {
        drops.map(|_| beats)
    }
}

// A statement bar, varied.
pub(crate) fn answer_bar(s: NoiseStream, b: Beats) -> Draw<Beats>
    requires { b.n ≤ 7 }
    ensures value { result ≡ answer_bar_of s b }
    ensures n_bound { result.value.n ≤ 7 }
{
    let left = drop_one(varied(s, b));
    let mut at = left.value.at;
    Draw {
        value: settle(&mut at, left.value.n),
        stream: left.stream,
    }
}
