// Casts and the fraction of an f32, which answer for every value, NaN and the infinities included.
ghost use Rattle.std.specs.Prelude.{◌≡◌, true, from_bits, to_bits};
ghost use Rattle.std.specs.Float.{binary32};
ghost use Rattle.std.specs.Float.Ieee.{le, lt, to_unsigned};
ghost use Rattle.laws.specs.Floats.{f32_of, fract_of};

// x without its fraction, as a float. From 2^23 on an f32 has no room for a fraction, so x + 2^23 is
// rounded to a whole number; where that is above x, x's own is one less.
fn whole(x: f32) -> f32
    requires { (le (from_bits binary32 0) x ≡ true) × (lt x (from_bits binary32 0x4b00_0000) ≡ true) }
    ensures { result ≡ f32_of (to_unsigned 64 x) }
{
    let near = (x + 8388608.0) - 8388608.0;
    if near > x { near - 1.0 } else { near }
}

// x without its fraction, as the Rust's `as` has it: 0 below zero and at a NaN, the largest u64
// where x is too large for one. From 0 up to 2^23 by `whole`, which has no shifts.
pub fn truncated(x: f32) -> u64
    ensures { result ≡ to_unsigned 64 x }
{
    if x >= 0.0 && x < 8388608.0 {
        let w = whole(x);
        (w as u32) as u64
    } else {
        std::num::saturating_f32_to_u64(x)
    }
}

// The fraction of any x, by its truncated value. From 2^24 on there are only whole ones.
fn fract_any(x: f32) -> f32
    ensures { result ≡ fract_of x }
{
    if x < 16777216.0 {
        x - truncated(x) as f32
    } else {
        0.0
    }
}

// The fraction of x: 0 for a whole number, an infinity above and a NaN; what is negative is given back. From 0 up
// to 2^23 its whole part needs no cast.
pub fn fract(x: f32) -> f32
    ensures { result ≡ fract_of x }
{
    if x >= 0.0 && x < 8388608.0 {
        x - whole(x)
    } else {
        fract_any(x)
    }
}

// The bits of x; of any NaN, 0x7fc0_0000.
pub fn bits_of(x: f32) -> u32
    ensures { result ≡ to_bits binary32 x }
{
    if x != x { 0x7fc0_0000 } else { f32::to_bits(x) }
}
