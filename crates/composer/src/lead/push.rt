// The push: a note that anticipates its beat.
ghost use Rattle.std.specs.Prelude.{◌≡◌};
ghost use Rattle.composer.specs.Lead.Push.{push_of};

use crate::timing::SIXTEENTH_BEATS;
use streams::draw::chance;
use streams::float::fract;
use streams::stream::{Draw, NoiseStream};

// The chance that an on-beat note lands a sixteenth ahead.
const PUSH_P: f32 = 0.15;

// An on-beat note may land a sixteenth ahead; any other draws nothing.
pub(crate) fn push(s: NoiseStream, beat: f32) -> Draw<f32>
    ensures { result ≡ push_of s beat }
{
    if fract(beat) == 0.0 {
        chance(s, PUSH_P).map(|ahead| if ahead { beat - SIXTEENTH_BEATS } else { beat })
    } else {
        Draw {
            value: beat,
            stream: s,
        }
    }
}
