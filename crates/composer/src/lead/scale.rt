// The lead's scale: what fits the window, the nearest note of the scale, and steps along it.
ghost use Rattle.std.specs.Prelude.{◌≡◌, ℕ, ◌+◌, ◌≤◌, ◌<◌, get_or};
ghost use Rattle.composer.specs.Lead.Scale.{pool_of, in_pool, fits_of, candidate_of, snapped_of, moved_of, room_of, walk_of, scale_step_of};

use crate::chord::OCTAVE;
use crate::harmony::Scale;

// The lead's pool: for each of the twelve pitch classes, whether the scale has it.
pub(crate) fn pool_of(scale: Scale) -> [bool; 12]
    requires { (scale.n ≤ 6) × ((k : ℕ) → k < scale.n → get_or scale.pcs k 0 < 12) }
    ensures { result ≡ pool_of scale }
{
    let mut pool = [false; 12];
    for &pc in &scale.pcs[..scale.n] {
        pool[pc as usize] = true;
    }
    pool
}

// Whether a pitch class is in the pool.
pub(crate) fn has(pool: &[bool], pc: u8) -> bool
    ensures { result ≡ in_pool pool.now pc }
{
    pool.get(pc as usize).copied().unwrap_or(false)
}

// Whether a note is in the window and in the scale.
fn fits(pool: &[bool], lo: u8, hi: u8, n: u8) -> bool
    ensures { result ≡ fits_of pool.now lo hi n }
{
    let sung = has(pool, n % OCTAVE);
    (lo <= n) & (n <= hi) & sung
}

// d below n on side 0, d above it on the other.
fn candidate(n: u8, d: u8, side: u8) -> u8
    requires { (d ≤ n) × (n + d < 256) }
    ensures { result ≡ candidate_of n d side }
{
    match side {
        0 => n - d,
        _ => n + d,
    }
}

// The nearest note to n that fits, lower before higher; lo where none is within half an octave. Two loops that are left
// by a label, as document 01 has it.
fn snapped(pool: &[bool], lo: u8, hi: u8, n: u8) -> u8
    requires { (6 ≤ n) × (n < 250) }
    ensures { result ≡ snapped_of pool.now lo hi n }
{
    let mut out = lo;
    'search: for d in 0..=6u8 {
        for side in 0..2u8 {
            let x = candidate(n, d, side);
            if fits(pool, lo, hi, x) {
                out = x;
                break 'search;
            }
        }
    }
    out
}

// A semitone up or down.
fn moved(up: bool, n: u8) -> u8
    requires { (0 < n) × (n < 255) }
    ensures { result ≡ moved_of up n }
{
    if up { n + 1 } else { n - 1 }
}

// Semitones from n to the window's edge.
fn room(up: bool, lo: u8, hi: u8, n: u8) -> u8
    requires { (lo ≤ n) × (n ≤ hi) }
    ensures { result ≡ room_of up lo hi n }
{
    if up { hi - n } else { n - lo }
}

// Semitone by semitone, at most `space` of them, past `steps` notes of the scale.
fn walk(pool: &[bool], up: bool, note: u8, space: u8, steps: u8) -> u8
    requires { (space < note) × (note + space < 256) }
    ensures { result ≡ walk_of pool.now up note space steps }
{
    let mut n = note;
    let mut due = steps;
    for _ in 0..space {
        if due == 0 {
            break;
        }
        n = moved(up, n);
        if has(pool, n % OCTAVE) {
            due -= 1;
        }
    }
    n
}

// `steps` notes of the scale up or down from a note in the window, held in the window.
pub(crate) fn scale_step(pool: &[bool], lo: u8, hi: u8, note: u8, up: bool, steps: u8) -> u8
    requires { (lo ≤ note) × (note ≤ hi) × (40 ≤ lo) × (hi < lo + 20) × (hi < 120) }
    ensures { result ≡ scale_step_of pool.now lo hi note up steps }
{
    let space = room(up, lo, hi, note);
    let n = walk(pool, up, note, space, steps);
    snapped(pool, lo, hi, n)
}
