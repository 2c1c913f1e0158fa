// Whether every number of a value is in its range.
ghost use Rattle.std.specs.Prelude.{◌≡◌, length};
ghost use Rattle.reader.specs.Within.{role_within, note_within, hit_within, notes_within, hits_within, chord_within, chords_within, scale_within, form_within, score_within, within};

use crate::song::Song;
use composer::chord::Chord;
use composer::form::Form;
use composer::harmony::Scale;
use composer::note::{Hit, Note, NoteRole};
use composer::score::Score;
use pages::edition::Edition;

// A role: in edition 2 the lead has 0 to 5 and all else 6, in edition 1 all have 6.
#[tactic(auto, unfolding(crate::specs::Within::role_within))]
fn role_within(role: NoteRole, edition: Edition, leads: bool) -> bool
    ensures { result ≡ role_within edition leads role }
{
    let number = role.number();
    match edition {
        Edition::Two if leads => number < 6,
        _ => number == 6,
    }
}

#[tactic(auto, using(crate::proofs::LibraryLaws::finite_is), unfolding(crate::specs::Within::note_within))]
fn note_within(n: &Note, edition: Edition, leads: bool) -> bool
    ensures { result ≡ note_within edition leads n.now }
{
    n.bar < 8
        && n.midi <= 127
        && role_within(n.role, edition, leads)
        && n.spare == 0
        && n.at.is_finite()
        && n.vel.is_finite()
        && n.dur.is_finite()
}

#[tactic(auto, using(crate::proofs::LibraryLaws::finite_is), unfolding(crate::specs::Within::hit_within))]
fn hit_within(h: &Hit) -> bool
    ensures { result ≡ hit_within h.now }
{
    h.bar < 8 && h.spare == 0 && h.at.is_finite() && h.gain.is_finite()
}

// The lanes: the first n entries are in use.
#[tactic(auto, using(crate::proofs::LibraryLaws::notes_within_is))]
fn notes_within(notes: &[Note], n: usize, edition: Edition, leads: bool) -> bool
    ensures { result ≡ notes_within edition leads notes.now (length notes.now) n }
{
    n <= notes.len() && notes[..n].iter().all(|x| note_within(x, edition, leads))
}

// The same of hits: a trait for the two would be longer than this line.
#[tactic(auto, using(crate::proofs::LibraryLaws::hits_within_is))]
fn hits_within(hits: &[Hit], n: usize) -> bool
    ensures { result ≡ hits_within hits.now (length hits.now) n }
{
    n <= hits.len() && hits[..n].iter().all(hit_within)
}

fn chord_within(c: &Chord) -> bool
    ensures { result ≡ chord_within c.now }
{
    c.notes.iter().all(|note| *note <= 127)
}

pub(crate) fn chords_within(chords: [Chord; 8]) -> bool
    ensures { result ≡ chords_within chords }
{
    chords.iter().all(chord_within)
}

#[tactic(auto, unfolding(crate::specs::Within::scale_within))]
pub(crate) fn scale_within(s: Scale) -> bool
    ensures { result ≡ scale_within s }
{
    5 <= s.n && s.n <= 6 && s.pcs[..s.n].iter().all(|pc| *pc < 12)
}

#[tactic(auto, unfolding(crate::specs::Within::form_within))]
fn form_within(f: &Form) -> bool
    ensures { result ≡ form_within f.now }
{
    let parts = f.intro_bars() as u16 + f.body_bars() + f.outro_bars() as u16;
    4 <= f.phrases && f.phrases <= 6 && parts == f.bars as u16
}

#[tactic(auto, using(crate::proofs::LibraryLaws::finite_is), unfolding(crate::specs::Within::score_within))]
fn score_within(s: &Score, edition: Edition) -> bool
    ensures { result ≡ score_within edition s.now }
{
    s.bpm.is_finite()
        && chords_within(s.bar_chords)
        && notes_within(&s.lead.at, s.lead.n, edition, true)
        && notes_within(&s.keys.at, s.keys.n, edition, false)
        && hits_within(&s.hits.at, s.hits.n)
        && notes_within(&s.bass.at, s.bass.n, edition, false)
}

// Whether every number is in its range.
#[tactic(auto, unfolding(crate::specs::Within::within))]
pub(crate) fn is_within(v: &Song) -> bool
    ensures { result ≡ within v.now }
{
    score_within(&v.score, v.edition) && scale_within(v.scale) && form_within(&v.form)
}
