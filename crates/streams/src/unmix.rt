// SplitMix64 backwards: the mixer is a bijection, so a draw and its number tell the stream's seed.
ghost use Rattle.std.specs.Prelude.{◌≡◌, ◌<◌};
ghost use Rattle.laws.specs.Bits.{unshift};
ghost use Rattle.streams.specs.Unmix.{unmix_of, undraw_of};

use crate::mix::wrapping_mul_u64;

// The inverses of the mixer's two factors modulo 2^64.
const UN_M1: u64 = 0x96de_1b17_3f11_9089;

const UN_M2: u64 = 0x3196_42b2_d24d_8ec3;

// 2^64 less the stream's increment.
const MINUS_GAMMA: u64 = 0x61c8_8646_80b5_83eb;

// The number that gives y when it is xored with itself shifted right by k, for k from 22 on.
fn unshifted(y: u64, k: u32) -> u64
    requires { k < 64 }
    ensures { result ≡ unshift y k }
{
    y ^ ((y ^ (y >> k)) >> k)
}

// The number whose splitmix64 is y.
pub fn unmix(y: u64) -> u64
    ensures { result ≡ unmix_of y }
{
    let b = wrapping_mul_u64(unshifted(y, 31), UN_M2);
    let a = wrapping_mul_u64(unshifted(b, 27), UN_M1);
    unshifted(a, 30)
}

// The seed of the stream whose draw n, counting from 1, is w.
pub fn undraw(w: u64, n: u64) -> u64
    ensures { result ≡ undraw_of w n }
{
    let g = wrapping_mul_u64(n, MINUS_GAMMA);
    unmix(w).wrapping_add(g)
}
