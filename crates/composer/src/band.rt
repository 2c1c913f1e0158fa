// The choice among weighted rows by one unit draw.
ghost use Rattle.std.specs.Prelude.{◌≡◌, ◌^◌, ◌≤◌, length, sum};
ghost use Rattle.composer.specs.Band.{row_at_of, band_of};

use streams::draw::part;

// The sum of the weights.
fn total(weights: &[u16]) -> u32
    requires { length weights.now ≤ 256 }
    ensures value { result ≡ sum weights.now }
    ensures upper_bound { result ≤ 2 ^ 24 }
{
    weights.iter().map(|w| *w as u32).sum()
}

// The row whose band holds `at`, the bands laid end to end from 0 on; the last row past them all.
fn row_at(weights: &[u16], at: u32) -> usize
    requires { 1 ≤ length weights.now }
    ensures { result ≡ row_at_of weights.now at }
{
    let mut left = at;
    let last = weights.len() - 1;
    for (i, w) in weights[..last].iter().enumerate() {
        let w = *w as u32;
        if left < w {
            return i;
        }
        left -= w;
    }
    last
}

// The band that the unit u falls in, each band as wide as its weight.
pub(crate) fn band(u: f32, weights: &[u16]) -> usize
    requires { (1 ≤ length weights.now) × (length weights.now ≤ 256) }
    ensures { result ≡ band_of u weights.now }
{
    let sum = total(weights);
    let at = part(u, sum);
    row_at(weights, at)
}
