// SplitMix64 of Steele, Lea and Flood, with the finaliser constants of dsp.rs.
ghost use Rattle.std.specs.Prelude.{◌≡◌, ◌*◌, ◌%◌, ◌^◌};
ghost use Rattle.streams.specs.Mix.{splitmix64_of, splitmix_draw_of};

// 2^64 over the golden ratio, the stream's increment.
const GOLDEN_GAMMA: u64 = 0x9e37_79b9_7f4a_7c15;

const SPLITMIX64_M1: u64 = 0xbf58_476d_1ce4_e5b9;

const SPLITMIX64_M2: u64 = 0x94d0_49bb_1331_11eb;

// The product of a and b modulo 2^64. Document 01 asks for this function.
pub fn wrapping_mul_u64(a: u64, b: u64) -> u64
    ensures { result ≡ a * b % 2 ^ 64 }
{
    a.wrapping_mul(b)
}

// The finaliser of SplitMix64.
pub fn splitmix64(z: u64) -> u64
    ensures { result ≡ splitmix64_of z }
{
    let a = wrapping_mul_u64(z ^ (z >> 30), SPLITMIX64_M1);
    let b = wrapping_mul_u64(a ^ (a >> 27), SPLITMIX64_M2);
    b ^ (b >> 31)
}

// Draw n of the SplitMix64 stream seeded at `seed`, counting from 1.
pub fn splitmix_draw(seed: u64, n: u64) -> u64
    ensures { result ≡ splitmix_draw_of seed n }
{
    let g = wrapping_mul_u64(n, GOLDEN_GAMMA);
    splitmix64(seed.wrapping_add(g))
}
