// Casts of an f32.
ghost use Rattle.std.specs.Prelude.{◌≡◌};
ghost use Rattle.std.specs.Float.Ieee.{to_unsigned};

use streams::float::truncated;

// x without its fraction, as the Rust's `as u64`.
pub fn probe_truncated(x: f32) -> u64
    ensures { result ≡ to_unsigned 64 x }
{
    truncated(x)
}
