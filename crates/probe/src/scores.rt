// Scores in words. A score has 1894: 8 numbers, 7 counters, 7 for the scale, 5 for each bar's chord,
// then the lanes at their capacities, 5 for a note and 4 for a hit. Any further word is 0.
ghost use Rattle.std.specs.Prelude.{◌≡◌, ◌<◌, length};
ghost use Rattle.laws.specs.Lists.{list_to};
ghost use Rattle.composer.specs.Compose.{compose_of};
ghost use Rattle.probe.specs.Scores.{no_song, numbers_of, counters_of, scale_word_of, chord_word_of, note_words_of, hit_words_of, head_word_of, lane_word_of, song_word_of, word_of, unbeaten_song};

use crate::forms::outcome_number;
use composer::chord::Chord;
use composer::compose::{Composed, compose, no_score};
use composer::harmony::Scale;
use composer::kicks::unbeaten;
use composer::note::{Hit, Note};
use composer::refusal::Refusal;
use composer::score::{Counters, Score};
use streams::float::bits_of;

// What is told of a song that is refused.
pub(crate) fn no_song() -> Composed
    ensures { result ≡ no_song }
{
    let score = no_score();
    let scale = Scale { pcs: [0; 6], n: 0 };
    let counters = Counters {
        harmony: 0,
        tempo: 0,
        lead: 0,
        keys: 0,
        drums: 0,
        bass: 0,
        voice: 0,
    };
    Composed {
        score,
        scale,
        counters,
    }
}

// The refusal, 0 for none, the style, the tempo, the lead's voice, and how many events each lane has.
fn numbers(refusal: u64, s: &Score) -> [u64; 8]
    ensures { result ≡ numbers_of refusal s.now }
{
    [
        refusal,
        s.style.number() as u64,
        bits_of(s.bpm) as u64,
        s.lead_voice.number() as u64,
        s.lead.n as u64,
        s.keys.n as u64,
        s.hits.n as u64,
        s.bass.n as u64,
    ]
}

// The counters: harmony, tempo, lead, keys, drums, bass, voice.
pub fn counts(c: Counters) -> [u64; 7]
    ensures { result ≡ counters_of c }
{
    [c.harmony, c.tempo, c.lead, c.keys, c.drums, c.bass, c.voice]
}

// How many classes the scale has, then its six places.
fn scale_word(s: &Scale, k: usize) -> u64
    requires { k < 7 }
    ensures { result ≡ scale_word_of s.now k }
{
    if k == 0 {
        return s.n as u64;
    }
    s.pcs[k - 1] as u64
}

// The root's class, then the four notes.
fn chord_word(c: &Chord, k: usize) -> u64
    requires { k < 5 }
    ensures { result ≡ chord_word_of c.now k }
{
    if k == 0 {
        return c.root_class() as u64;
    }
    c.notes[k - 1] as u64
}

fn note_words(n: &Note) -> [u64; 5]
    ensures { result ≡ note_words_of n.now }
{
    [
        n.bar as u64,
        bits_of(n.at) as u64,
        n.midi as u64,
        bits_of(n.vel) as u64,
        bits_of(n.dur) as u64,
    ]
}

fn hit_words(h: &Hit) -> [u64; 4]
    ensures { result ≡ hit_words_of h.now }
{
    [
        h.bar as u64,
        bits_of(h.at) as u64,
        h.kind.number() as u64,
        bits_of(h.gain) as u64,
    ]
}

// A word before the lanes.
#[tactic(auto, unfolding(crate::specs::Scores::head_word_of))]
fn head_word(refusal: u64, song: &Composed, k: usize) -> u64
    requires { k < 62 }
    ensures { result ≡ head_word_of refusal song.now k }
{
    if k < 8 {
        return numbers(refusal, &song.score)[k];
    }
    if k < 15 {
        return counts(song.counters)[k - 8];
    }
    if k < 22 {
        return scale_word(&song.scale, k - 15);
    }
    chord_word(&song.score.bar_chords[(k - 22) / 5], (k - 22) % 5)
}

// A word of the lanes: the lead's, the keys', the drums', the bass's.
#[tactic(auto, unfolding(crate::specs::Scores::lane_word_of))]
fn lane_word(s: &Score, k: usize) -> u64
    ensures { result ≡ lane_word_of s.now k }
{
    if k < 280 {
        return note_words(&s.lead.at[k / 5])[k % 5];
    }
    if k < 920 {
        return note_words(&s.keys.at[(k - 280) / 5])[(k - 280) % 5];
    }
    if k < 1312 {
        return hit_words(&s.hits.at[(k - 920) / 4])[(k - 920) % 4];
    }
    if k < 1832 {
        return note_words(&s.bass.at[(k - 1312) / 5])[(k - 1312) % 5];
    }
    0
}

#[tactic(auto, unfolding(crate::specs::Scores::song_word_of))]
fn word(refusal: u64, song: &Composed, k: usize) -> u64
    ensures { result ≡ song_word_of refusal song.now k }
{
    if k < 62 {
        return head_word(refusal, song, k);
    }
    lane_word(&song.score, k - 62)
}

fn fill(song: Result<Composed, Refusal>, out: &mut [u64])
    ensures { out.new ≡ list_to (word_of song) (length out.old) }
{
    let refusal = outcome_number(song);
    let told = song.unwrap_or(no_song());
    for (i, place) in out.iter_mut().enumerate() {
        *place = word(refusal, &told, i);
    }
}

// Word i of the song in place i of `out`, for each of its places. An unknown style has the refusal 1.
pub fn probe_score(style: u8, seed: u64, out: &mut [u64])
    ensures { out.new ≡ list_to (word_of (compose_of style seed)) (length out.old) }
{
    fill(compose(style, seed), out);
}

// The same without its drums.
pub fn probe_unbeaten(style: u8, seed: u64, out: &mut [u64])
    ensures { out.new ≡ list_to (word_of (unbeaten_song (compose_of style seed))) (length out.old) }
{
    let song = compose(style, seed).map(|song| Composed {
        score: unbeaten(song.score),
        ..song
    });
    fill(song, out);
}
