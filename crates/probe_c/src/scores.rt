// Scores in words. A score has 1894: 8 numbers, 7 counters, 7 for the scale, 5 for each bar's chord,
// then the lanes at their capacities, 5 for a note and 4 for a hit. Any further word is 0.
ghost use Rattle.std.specs.Prelude.{◌≡◌, length};
ghost use Rattle.laws.specs.Lists.{list_to};
ghost use Rattle.composer.specs.Compose.{compose_of};
ghost use Rattle.probe.specs.Scores.{word_of, unbeaten_song};

// Word i of the song in place i of `out`, for each of its places. An unknown style has the refusal 1.
#[unsafe(no_mangle)]
pub extern "C" fn probe_score(style: u8, seed: u64, out: &mut [u64])
    ensures { out.new ≡ list_to (word_of (compose_of style seed)) (length out.old) }
{
    probe::scores::probe_score(style, seed, out);
}

// The same without its drums.
#[unsafe(no_mangle)]
pub extern "C" fn probe_unbeaten(style: u8, seed: u64, out: &mut [u64])
    ensures { out.new ≡ list_to (word_of (unbeaten_song (compose_of style seed))) (length out.old) }
{
    probe::scores::probe_unbeaten(style, seed, out);
}
