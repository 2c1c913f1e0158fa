// The counters of a song's streams.
ghost use Rattle.std.specs.Prelude.{◌≡◌, length};
ghost use Rattle.composer.specs.Compose.{compose_of};
ghost use Rattle.probe.specs.Counters.{counters_answer, counters_buffer};

// Writes the counters of the song's streams, harmony, tempo, lead, keys, drums, bass, voice, into the
// first seven places of `out` and answers 7; what lies beyond stays. An unknown style is -1, then fewer
// than seven places -2; neither writes anything.
#[unsafe(no_mangle)]
pub extern "C" fn probe_counters(style: u8, seed: u64, out: &mut [u64]) -> i64
    ensures value { result ≡ counters_answer (compose_of style seed) (length out.old) }
    ensures out_after { out.new ≡ counters_buffer (compose_of style seed) out.old }
{
    probe::counters::probe_counters(style, seed, out)
}
