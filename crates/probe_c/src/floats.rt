// Casts of an f32.
ghost use Rattle.std.specs.Prelude.{◌≡◌};
ghost use Rattle.std.specs.Float.Ieee.{to_unsigned};

// x without its fraction, as the Rust's `as u64`.
#[unsafe(no_mangle)]
pub extern "C" fn probe_truncated(x: f32) -> u64
    ensures { result ≡ to_unsigned 64 x }
{
    probe::floats::probe_truncated(x)
}
