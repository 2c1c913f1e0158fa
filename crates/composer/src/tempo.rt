// The tempo stage: beats per minute, drawn once a song and rounded.
ghost use Rattle.std.specs.Prelude.{◌≡◌, ◌^◌, ◌≤◌};
ghost use Rattle.std.specs.Float.Ieee.{to_unsigned};
ghost use Rattle.laws.specs.Floats.{round_of};
ghost use Rattle.composer.specs.Tempo.{tempo_draw_of, tempo_of};

use crate::style::{Style, bpm};
use streams::float::truncated;
use streams::stream::{Draw, NoiseStream};

// The whole number nearest to x, halves away from zero.
fn rounded(x: f32) -> u64
    requires { to_unsigned 64 x ≤ 2 ^ 24 }
    ensures { result ≡ round_of x }
{
    let t = truncated(x);
    let d = x - t as f32;
    if d >= 0.5 { t + 1 } else { t }
}

// The beats per minute, a whole number of the style's window, from one draw.
pub(crate) fn beats(s: NoiseStream, style: Style) -> Draw<u8>
    ensures { result ≡ tempo_draw_of s style }
{
    bpm(style).draw(s).map(|x| rounded(x) as u8)
}

// The same as a float, which a song's times are worked out from.
pub(crate) fn tempo(s: NoiseStream, style: Style) -> Draw<f32>
    ensures { result ≡ tempo_of s style }
{
    beats(s, style).map(|n| n as f32)
}
