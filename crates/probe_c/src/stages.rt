// The streams of the stages.
ghost use Rattle.std.specs.Prelude.{◌≡◌};
ghost use Rattle.probe.specs.Stages.{seed_answer, seed_buffer};

// Writes the seed of the stage's stream for the song seed `seed` into the first place of `out` and
// answers 1; -16 for a stage outside 1 to 8, then -2 for an empty `out`.
#[unsafe(no_mangle)]
pub extern "C" fn probe_stage_seed(stage: u8, seed: u64, out: &mut [u64]) -> i64
    ensures value { result ≡ seed_answer stage out.old }
    ensures out_after { out.new ≡ seed_buffer stage seed out.old }
{
    probe::stages::probe_stage_seed(stage, seed, out)
}
