// The counters of a song's streams.
ghost use Rattle.std.specs.Prelude.{◌≡◌, length};
ghost use Rattle.composer.specs.Compose.{compose_of};
ghost use Rattle.probe.specs.Counters.{room_answer, room_buffer, counters_answer, counters_buffer};

use crate::forms::minus_number;
use crate::scores::counts;
use composer::compose::compose;
use composer::refusal::Refusal;
use composer::score::Counters;

fn put_counters(c: Counters, out: &mut [u64]) -> i64
    ensures value { result ≡ room_answer (length out.old) }
    ensures out_after { out.new ≡ room_buffer c out.old }
{
    if out.len() < 7 {
        return minus_number(Refusal::ShortBuffer);
    }
    out[..7].copy_from_slice(&counts(c));
    7
}

// Writes the counters of the song's streams, harmony, tempo, lead, keys, drums, bass, voice, into the
// first seven places of `out` and answers 7; what lies beyond stays. An unknown style is -1, then fewer
// than seven places -2; neither writes anything.
pub fn probe_counters(style: u8, seed: u64, out: &mut [u64]) -> i64
    ensures value { result ≡ counters_answer (compose_of style seed) (length out.old) }
    ensures out_after { out.new ≡ counters_buffer (compose_of style seed) out.old }
{
    match compose(style, seed) {
        Ok(song) => put_counters(song.counters, out),
        Err(r) => minus_number(r),
    }
}
