// A score's kicks, and a score without its drums.
ghost use Rattle.std.specs.Prelude.{◌≡◌, ◌+◌, ◌<◌, ◌≤◌, length};
ghost use Rattle.composer.specs.Kicks.{kick_times, times_of, kicks_of, unbeaten_of};

use crate::few::Few;
use crate::note::{DrumKind, Hit, NO_HIT};
use crate::refusal::Refusal;
use crate::score::Score;
use crate::sort::sort_front;

// The first n entries, in order; the others are 0.
pub type KickTimes = Few<f32, 98>;

// The times of the kicks among the hits, in their order.
fn heard(hits: &[Hit]) -> KickTimes
    requires { length hits.now ≤ 98 }
    ensures value { result ≡ kick_times (times_of hits.now) }
    ensures n_bound { result.n ≤ 98 }
{
    let mut at = [0.0f32; 98];
    let mut count: usize = 0;
    for hit in hits {
        if hit.kind == DrumKind::Kick {
            at[count] = hit.at;
            count += 1;
        }
    }
    KickTimes { at, n: count }
}

// The times of the kicks among the hits in use, ascending: equal ones kept, -0 before 0, a NaN last. A
// count of more than 98 is refused with 4.
pub fn kicks(score: Score) -> Result<KickTimes, Refusal>
    ensures { result ≡ kicks_of score }
{
    if score.hits.n > 98 {
        return Err(Refusal::Malformed);
    }
    let t = heard(score.hits.used());
    let mut at = t.at;
    sort_front(&mut at, t.n);
    Ok(KickTimes { at, n: t.n })
}

// The score with no hits: their count 0, their entries zero, the rest kept. It refuses nothing.
pub fn unbeaten(score: Score) -> Score
    ensures { result ≡ unbeaten_of score }
{
    let mut out = score;
    out.hits = Few {
        at: [NO_HIT; 98],
        n: 0,
    };
    out
}
