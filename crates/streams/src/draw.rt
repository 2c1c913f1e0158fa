// What a stage draws: one of n, or yes with a given chance.
ghost use Rattle.std.specs.Prelude.{◌≡◌, ◌^◌, ◌≤◌, min};
ghost use Rattle.streams.specs.Draw.{picked_of, pick_of, chance_of, coin_of};

use crate::float::truncated;
use crate::stream::{Draw, NoiseStream};

// Which of n parts of equal width the unit u falls in: u * n rounded, truncated, at most n - 1; 0 where
// n is 0. More than 2^24 parts count as 2^24.
pub fn part(u: f32, n: u32) -> u32
    ensures { result ≡ picked_of u (min n (2 ^ 24)) }
{
    // up to 2^24 an f32 has every whole number
    let parts = n.min(16777216);
    let t = truncated(u * (parts as f32));
    t.min(parts.saturating_sub(1) as u64) as u32
}

// A pick of n by a unit in hand: below n, 0 where n is 0.
pub fn picked(u: f32, n: u8) -> u8
    ensures { result ≡ picked_of u n }
{
    part(u, n as u32) as u8
}

// One of n, from one draw: below n, 0 where n is 0.
pub fn pick(s: NoiseStream, n: u8) -> Draw<u8>
    ensures { result ≡ pick_of s n }
{
    s.unit().map(|u| picked(u, n))
}

// Yes with the chance p, from one draw.
pub fn chance(s: NoiseStream, p: f32) -> Draw<bool>
    ensures { result ≡ chance_of s p }
{
    s.unit().map(|u| u < p)
}

// A fair coin, from one draw.
pub fn coin(s: NoiseStream) -> Draw<bool>
    ensures { result ≡ coin_of s }
{
    chance(s, 0.5)
}
