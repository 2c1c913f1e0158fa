// A bar's rhythm: the 16ths from its downbeat on which the bass starts a note.
ghost use Rattle.std.specs.Prelude.{◌≡◌, ◌<◌};
ghost use Rattle.composer.specs.Bass.Rhythm.{first_beat_sum, root_step_of, bass_rhythm_of, bass_rhythms_of};

use crate::few::Few;
use streams::draw::chance;
use streams::stream::{Draw, NoiseStream};

// The first n of `at`: the root's step, in the first beat, then the later ones that sound.
pub type Steps = Few<u8, 13>;

// For each 16th from the downbeat, the chance that a note starts there.
const BASS_STEP_P: [f32; 16] = [
    0.392, 0.226, 0.122, 0.111, 0.191, 0.119, 0.163, 0.117, 0.210, 0.150, 0.128, 0.133, 0.191,
    0.131, 0.130, 0.125,
];

// The chances of the first beat, added one by one.
fn first_beat_sum() -> f32
    ensures { result ≡ first_beat_sum }
{
    0.0 + BASS_STEP_P[0] + BASS_STEP_P[1] + BASS_STEP_P[2] + BASS_STEP_P[3]
}

// The first step of the beat that its chance over those left takes; the last is drawn too, and taken anyway.
fn root_step(s: NoiseStream) -> Draw<u8>
    ensures value { result ≡ root_step_of s }
    ensures step_bound { result.value < 4 }
{
    let mut left = first_beat_sum();
    let mut stream = s;
    for step in 0..3u8 {
        let p = BASS_STEP_P[step as usize];
        let c = chance(stream, p / left);
        if c.value {
            return Draw {
                value: step,
                stream: c.stream,
            };
        }
        left -= p;
        stream = c.stream;
    }
    chance(stream, BASS_STEP_P[3] / left).map(|_| 3)
}

// The root's step, then each of steps 4 to 15 by its chance.
fn bass_rhythm(s: NoiseStream) -> Draw<Steps>
    ensures { result ≡ bass_rhythm_of s }
{
    let root = root_step(s);
    // Copied once for the twelve steps.
    let chances = BASS_STEP_P;
    let mut at = [root.value, 0, 0, 0, 0, 0, 0, 0, 0, 0, 0, 0, 0];
    let mut n: usize = 1;
    let mut stream = root.stream;
    for i in 0..12u8 {
        let step = i + 4;
        let c = chance(stream, chances[step as usize]);
        // a step that rests writes the 0 that stands there, so that no branch depends on a draw
        at[n] = c.value as u8 * step;
        n += c.value as usize;
        stream = c.stream;
    }
    Draw {
        value: Steps { at, n },
        stream,
    }
}

// The rhythms of all eight bars, one after the other.
pub(crate) fn bass_rhythms(s: NoiseStream) -> Draw<[Steps; 8]>
    ensures { result ≡ bass_rhythms_of s }
{
    let z = Steps {
        at: [0u8; 13],
        n: 0,
    };
    let mut bars = [z; 8];
    let mut stream = s;
    for bar in &mut bars {
        let d = bass_rhythm(stream);
        *bar = d.value;
        stream = d.stream;
    }
    Draw {
        value: bars,
        stream,
    }
}
