// A bar's beats in an array.
ghost use Rattle.std.specs.Prelude.{◌≡◌, ◌<◌, ◌≤◌, length, take};
ghost use Rattle.std.specs.Float.{nan};
ghost use Rattle.composer.specs.Lead.Beats.{beats_of, remove_of, size_of, near_of, thin_of, settled};

use crate::few::Few;
use crate::sort::sort_front;

// The first n entries; the others are 0.
pub type Beats = Few<f32, 7>;

// Two beats closer than this merge into the first.
const MIN_GAP_BEATS: f32 = 0.5;

// A bar with no beat.
pub(crate) const NO_BEATS: Beats = Beats {
    at: [0.0, 0.0, 0.0, 0.0, 0.0, 0.0, 0.0],
    n: 0,
};

// All but the beat at k; the later ones move down.
pub(crate) fn remove(b: Beats, k: usize) -> Beats
    requires { (k < b.n) × (b.n ≤ 7) }
    ensures value { result ≡ remove_of b k }
    ensures n_bound { result.n ≤ 7 }
{
    let n = b.n - 1;
    let mut at = [0.0f32; 7];
    at[..k].copy_from_slice(&b.at[..k]);
    at[k..n].copy_from_slice(&b.at[k + 1..b.n]);
    Beats { at, n }
}

// d, or -d where d is below 0. Not `abs`, which makes 0 of -0 too: the definition leaves it.
fn size(d: f32) -> f32
    ensures { result ≡ size_of d }
{
    if d < 0.0 { -d } else { d }
}

// Whether x is less than the gap from k.
fn near(x: f32, k: f32) -> bool
    ensures { result ≡ near_of x k }
{
    size(x - k) < MIN_GAP_BEATS
}

// Of the first n of a, the first, and each that is not near the last that was kept.
fn thinned(a: &[f32], n: usize) -> Beats
    requires { (n ≤ 7) × (n ≤ length a.now) }
    ensures value { result ≡ beats_of (thin_of nan (take n a.now)) }
    ensures n_bound { result.n ≤ 7 }
{
    let mut at = [0.0f32; 7];
    if n == 0 {
        return Beats { at, n: 0 };
    }
    at[0] = a[0];
    let mut m: usize = 1;
    for &x in &a[1..n] {
        // Each is written, and the next over it unless it is kept: no branch hangs on a draw.
        let far = !near(x, at[m - 1]);
        at[m] = x;
        m += far as usize;
    }
    if m == 7 {
        return Beats { at, n: m };
    }
    at[m] = 0.0;
    Beats { at, n: m }
}

// The first n of a in order, each a gap from the last.
pub(crate) fn settle(a: &mut [f32], n: usize) -> Beats
    requires { (n ≤ 7) × (n ≤ length a.old) }
    ensures value { result ≡ beats_of (settled (take n a.old)) }
    ensures n_bound { result.n ≤ 7 }
{
    sort_front(a, n);
    thinned(a, n)
}
