// The sum of all that a song's sheet shows, for the benchmark (bench/): whoever asks for it has every
// part of the song composed and arranged.
ghost use Rattle.std.specs.Prelude.{◌≡◌, ◌+◌, ◌^◌, ◌≤◌, ◌<◌, T, All, length};
ghost use Rattle.std.specs.Float.{binary32};
ghost use Rattle.std.specs.Float.Ieee.{to_bits};
ghost use Rattle.laws.specs.Floats.{nonneg};
ghost use Rattle.composer.specs.Plain.{PlainNote, PlainHit};
ghost use Rattle.composer.specs.Promise.{EventsPromise};
ghost use Rattle.probe.specs.Songs.{note_sum, hit_sum, notes_sum, hits_sum, chord_sum, chords_sum, scale_sum, ends_sum, bits_sum, score_sum, form_sum, song_sum};

use composer::chord::Chord;
use composer::compose::compose;
use composer::form::Form;
use composer::form::plays::Plays;
use composer::form::song::arrange;
use composer::harmony::Scale;
use composer::note::{Hit, Note};
use composer::score::Score;

// The bits of x, which is no NaN: nothing tests for one.
fn plain_bits(x: f32) -> u32
    requires { T (nonneg x) }
    ensures { result ≡ to_bits binary32 x }
{
    f32::to_bits(x)
}

fn note_sum(n: &Note) -> u64
    requires { PlainNote n.now }
    ensures value { result ≡ note_sum n.now }
    ensures upper_bound { result < 2 ^ 34 }
{
    let at = plain_bits(n.at);
    let vel = plain_bits(n.vel);
    let dur = plain_bits(n.dur);
    n.bar as u64 + at as u64 + n.midi as u64 + vel as u64 + dur as u64
}

fn hit_sum(h: &Hit) -> u64
    requires { PlainHit h.now }
    ensures value { result ≡ hit_sum h.now }
    ensures upper_bound { result < 2 ^ 34 }
{
    let number = h.kind.number();
    let at = plain_bits(h.at);
    let gain = plain_bits(h.gain);
    h.bar as u64 + number as u64 + at as u64 + gain as u64
}

// Of a lane, which has at most as many events as the keys have.
fn notes_sum(notes: &[Note]) -> u64
    requires few { length notes.now ≤ 128 }
    requires plain { All PlainNote notes.now }
    ensures value { result ≡ notes_sum notes.now }
    ensures upper_bound { result ≤ 2 ^ 41 }
{
    let mut w = 0;
    for n in notes {
        w += note_sum(n);
    }
    w
}

// The same of hits: a trait with the sum of an event and its bound would be longer than the loop.
fn hits_sum(hits: &[Hit]) -> u64
    requires few { length hits.now ≤ 128 }
    requires plain { All PlainHit hits.now }
    ensures value { result ≡ hits_sum hits.now }
    ensures upper_bound { result ≤ 2 ^ 41 }
{
    let mut w = 0;
    for h in hits {
        w += hit_sum(h);
    }
    w
}

fn four_sum(a: u8, b: u8, c: u8, d: u8) -> u64
    ensures value { result ≡ a + b + c + d }
    ensures upper_bound { result < 2 ^ 10 }
{
    a as u64 + b as u64 + c as u64 + d as u64
}

fn chord_sum(c: &Chord) -> u64
    ensures value { result ≡ chord_sum c.now }
    ensures upper_bound { result < 2 ^ 10 }
{
    four_sum(c.notes[0], c.notes[1], c.notes[2], c.notes[3])
}

fn chords_sum(bars: &[Chord]) -> u64
    requires { length bars.now ≤ 8 }
    ensures value { result ≡ chords_sum bars.now }
    ensures upper_bound { result ≤ 2 ^ 13 }
{
    let mut w = 0;
    for c in bars {
        w += chord_sum(c);
    }
    w
}

// Places past the scale's classes are 0.
fn scale_sum(s: &Scale) -> u64
    ensures value { result ≡ scale_sum s.now }
    ensures upper_bound { result < 2 ^ 11 }
{
    let low = four_sum(s.pcs[0], s.pcs[1], s.pcs[2], s.pcs[3]);
    let high = four_sum(s.pcs[4], s.pcs[5], 0, 0);
    low + high
}

fn ends_sum(f: &Form) -> u64
    ensures value { result ≡ ends_sum f.now }
    ensures upper_bound { result < 2 ^ 11 }
{
    let intro = f.intro.code() as u64 + f.intro.bars() as u64;
    let outro = f.outro.code() as u64 + f.outro.bars() as u64;
    intro + f.phrases as u64 + outro + u64::from(f.dip)
}

fn bits_sum(plays: &[Plays]) -> u64
    requires { length plays.now ≤ 64 }
    ensures value { result ≡ bits_sum plays.now }
    ensures upper_bound { result ≤ 2 ^ 14 }
{
    let mut w = 0;
    for p in plays {
        w += p.bits() as u64;
    }
    w
}

// Tempo, voice, chords, scale and events.
fn score_sum(s: &Score, scale: &Scale) -> u64
    requires { EventsPromise s.now }
    ensures value { result ≡ score_sum s.now scale.now }
    ensures upper_bound { result < 2 ^ 44 }
{
    let tempo = plain_bits(s.bpm);
    let number = s.lead_voice.number();
    let chords = chords_sum(&s.bar_chords) + scale_sum(scale);
    let high = notes_sum(s.lead.used()) + notes_sum(s.keys.used());
    let low = hits_sum(s.hits.used());
    let events = high + low + notes_sum(s.bass.used());
    tempo as u64 + number as u64 + chords + events
}

fn form_sum(f: &Form) -> u64
    requires { f.now.bars ≤ 64 }
    ensures value { result ≡ form_sum f.now }
    ensures upper_bound { result < 2 ^ 16 }
{
    ends_sum(f) + bits_sum(&f.plays[..f.bars as usize])
}

// The numbers on the sheet of a seed's song, but for its style and seed, summed, each f32 by its bits. An unknown
// style has the sum 0.
pub fn probe_song(style: u8, seed: u64) -> u64
    ensures { result ≡ song_sum style seed }
{
    match compose(style, seed) {
        Ok(song) => score_sum(&song.score, &song.scale) + form_sum(&arrange(seed)),
        Err(_) => 0,
    }
}
