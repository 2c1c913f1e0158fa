// Kicks in words: the refusal, 0 for none, how many times there are, then 98 places for them. Any
// further word is 0.
ghost use Rattle.std.specs.Prelude.{◌≡◌, ◌<◌, length, get_or};
ghost use Rattle.std.specs.Float.{binary32};
ghost use Rattle.std.specs.Float.Ieee.{of_bits};
ghost use Rattle.laws.specs.Lists.{list_to};
ghost use Rattle.composer.specs.Compose.{compose_of};
ghost use Rattle.composer.specs.Kicks.{kicks_of};
ghost use Rattle.probe.specs.Scores.{song_or_none};
ghost use Rattle.probe.specs.Kicks.{times_word_of, kicks_word_of, kind_by, hit_by, score_by};

use crate::forms::outcome_number;
use crate::scores::no_song;
use composer::compose::compose;
use composer::few::Few;
use composer::kicks::{KickTimes, kicks};
use composer::note::{DrumKind, Hit};
use composer::refusal::Refusal;
use composer::score::Score;
use streams::float::bits_of;

#[tactic(auto, unfolding(crate::specs::Kicks::times_word_of))]
fn times_word(refusal: u64, times: &KickTimes, k: usize) -> u64
    ensures { result ≡ times_word_of refusal times.now k }
{
    if k == 0 {
        return refusal;
    }
    if k == 1 {
        return times.n as u64;
    }
    if k < 100 {
        return bits_of(times.at[k - 2]) as u64;
    }
    0
}

fn fill(a: Result<KickTimes, Refusal>, out: &mut [u64])
    ensures { out.new ≡ list_to (kicks_word_of a) (length out.old) }
{
    let refusal = outcome_number(a);
    let times = a.unwrap_or(KickTimes {
        at: [0.0; 98],
        n: 0,
    });
    for (i, place) in out.iter_mut().enumerate() {
        *place = times_word(refusal, &times, i);
    }
}

// Word k, 0 past the end.
fn word_at(words: &[u64], k: usize) -> u64
    ensures { result ≡ get_or words.now k 0 }
{
    words.get(k).copied().unwrap_or(0)
}

// The float of any bits; every NaN's bits give a NaN.
fn float_by(bits: u32) -> f32
    ensures { result ≡ of_bits binary32 bits }
{
    if bits % 0x8000_0000 > 0x7f80_0000 {
        0.0 / 0.0
    } else {
        f32::from_bits(bits)
    }
}

// The drums by number.
const KINDS: [DrumKind; 4] = [
    DrumKind::Kick,
    DrumKind::Snare,
    DrumKind::Hat,
    DrumKind::OpenHat,
];

// The drum by its number; a number of none is a kick.
#[tactic(auto, unfolding(crate::specs::Kicks::kind_by))]
fn kind_by(n: u64) -> DrumKind
    ensures { result ≡ kind_by n }
{
    KINDS.get(n as usize).copied().unwrap_or(DrumKind::Kick)
}

// Hit i of the words: the bits of its time, then its drum.
#[tactic(auto, unfolding(crate::specs::Kicks::hit_by))]
fn hit_by(words: &[u64], i: usize) -> Hit
    requires { i < 98 }
    ensures { result ≡ hit_by words.now i }
{
    let bits = word_at(words, 2 * i + 1);
    let number = word_at(words, 2 * i + 2);
    let at = float_by((bits % 0x1_0000_0000) as u32);
    let kind = kind_by(number);
    Hit {
        bar: 0,
        spare: 0,
        at,
        kind,
        gain: 0.0,
    }
}

fn hits_by(words: &[u64]) -> [Hit; 98]
    ensures { result ≡ list_to (hit_by words.now) 98 }
{
    std::array::from_fn(|i| hit_by(words, i))
}

// A song's score with the hits that the words say: their count, then 98 hits.
#[tactic(auto, unfolding(crate::specs::Kicks::score_by))]
fn score_by(words: &[u64]) -> Score
    ensures { result ≡ score_by words.now }
{
    let mut score = compose(0, 0).unwrap_or(no_song()).score;
    score.hits = Few {
        at: hits_by(words),
        n: word_at(words, 0) as usize,
    };
    score
}

// Word i of the kicks of the seed's score in place i of `out`, for each of its places. An unknown style has the score
// of zeros, and so no kicks.
pub fn probe_kicks(style: u8, seed: u64, out: &mut [u64])
    ensures { out.new ≡ list_to (kicks_word_of (kicks_of (song_or_none (compose_of style seed)).score)) (length out.old) }
{
    let song = compose(style, seed).unwrap_or(no_song());
    fill(kicks(song.score), out);
}

// The same of a score with other hits: `words` has their count, then two words for each of 98 hits,
// the bits of its time, modulo 2^32, and its drum's number. What is missing is 0; a number of no drum is a kick.
pub fn probe_made_kicks(words: &[u64], out: &mut [u64])
    ensures { out.new ≡ list_to (kicks_word_of (kicks_of (score_by words.now))) (length out.old) }
{
    fill(kicks(score_by(words)), out);
}
