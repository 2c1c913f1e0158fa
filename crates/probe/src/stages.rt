// The streams of the stages.
ghost use Rattle.std.specs.Prelude.{◌≡◌};
ghost use Rattle.probe.specs.Stages.{seed_answer, seed_buffer};

use streams::stage::Stage;

// Writes the seed of the stage's stream for the song seed `seed` into the first place of `out` and
// answers 1; -16 for a stage outside 1 to 8, then -2 for an empty `out`.
#[tactic(auto, unfolding(crate::specs::Stages::stage_of))]
pub fn probe_stage_seed(stage: u8, seed: u64, out: &mut [u64]) -> i64
    ensures value { result ≡ seed_answer stage out.old }
    ensures out_after { out.new ≡ seed_buffer stage seed out.old }
{
    let Ok(st) = Stage::try_from(stage) else {
        return -16;
    };
    let Some(place) = out.first_mut() else {
        return -2;
    };
    *place = st.stream(seed).seed;
    1
}
