// The lead's rhythm: a statement of four bars, and four that answer it.
ghost use Rattle.std.specs.Prelude.{◌≡◌, cond, ℕ, ◌≤◌, get_or};
ghost use Rattle.composer.specs.Lead.Beats.{past_beats};
ghost use Rattle.composer.specs.Lead.Rhythm.{rhythm_of};

use crate::lead::answer::answer_bar;
use crate::lead::beats::{Beats, NO_BEATS};
use crate::lead::statement::statement_bar;
use crate::style::LeadStyle;
use streams::stream::{Draw, NoiseStream};

const STATEMENT_BARS: usize = 4;

// A statement with fewer notes than this gets the two below, in its first and third bars.
const FALLBACK_NOTES: usize = 2;

const FALLBACK_FIRST: Beats = Beats {
    at: [1.0, 0.0, 0.0, 0.0, 0.0, 0.0, 0.0],
    n: 1,
};

const FALLBACK_THIRD: Beats = Beats {
    at: [2.0, 0.0, 0.0, 0.0, 0.0, 0.0, 0.0],
    n: 1,
};

// The spare bar where the statement has too few notes, else the one drawn.
fn spared(few: bool, spare: Beats, drawn: Beats) -> Beats
    requires { (spare.n ≤ 7) × (drawn.n ≤ 7) }
    ensures value { result ≡ cond few spare drawn }
    ensures n_bound { result.n ≤ 7 }
{
    if few { spare } else { drawn }
}

// Each bar's beats: the statement's four bars, then the answer's.
pub(crate) fn rhythm_of(s: NoiseStream, style: LeadStyle) -> Draw<[Beats; 8]>
    ensures value { result ≡ rhythm_of s style }
    ensures by_index { (k : ℕ) → (get_or result.value k past_beats).n ≤ 7 }
{
    let mut bars = [NO_BEATS; 8];
    let mut stream = s;
    for k in 0..STATEMENT_BARS {
        let d = statement_bar(stream, style);
        bars[k] = d.value;
        stream = d.stream;
    }
    let few = bars[0].n + bars[1].n + bars[2].n + bars[3].n < FALLBACK_NOTES;
    let first = spared(few, FALLBACK_FIRST, bars[0]);
    let third = spared(few, FALLBACK_THIRD, bars[2]);
    bars[0] = first;
    bars[2] = third;
    for k in 0..STATEMENT_BARS {
        let d = answer_bar(stream, bars[k]);
        bars[STATEMENT_BARS + k] = d.value;
        stream = d.stream;
    }
    Draw {
        value: bars,
        stream,
    }
}
