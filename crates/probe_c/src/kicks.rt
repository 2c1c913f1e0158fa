// Kicks in words: the refusal, 0 for none, how many times there are, then 98 places for them. Any
// further word is 0.
ghost use Rattle.std.specs.Prelude.{◌≡◌, length};
ghost use Rattle.laws.specs.Lists.{list_to};
ghost use Rattle.composer.specs.Compose.{compose_of};
ghost use Rattle.composer.specs.Kicks.{kicks_of};
ghost use Rattle.probe.specs.Scores.{song_or_none};
ghost use Rattle.probe.specs.Kicks.{kicks_word_of, score_by};

// Word i of the kicks of the seed's score in place i of `out`, for each of its places. An unknown style has the score
// of zeros, and so no kicks.
#[unsafe(no_mangle)]
pub extern "C" fn probe_kicks(style: u8, seed: u64, out: &mut [u64])
    ensures { out.new ≡ list_to (kicks_word_of (kicks_of (song_or_none (compose_of style seed)).score)) (length out.old) }
{
    probe::kicks::probe_kicks(style, seed, out);
}

// The same of a score with other hits: `words` has their count, then two words for each of 98 hits,
// the bits of its time, modulo 2^32, and its drum's number. What is missing is 0; a number of no drum is a kick.
#[unsafe(no_mangle)]
pub extern "C" fn probe_made_kicks(words: &[u64], out: &mut [u64])
    ensures { out.new ≡ list_to (kicks_word_of (kicks_of (score_by words.now))) (length out.old) }
{
    probe::kicks::probe_made_kicks(words, out);
}
