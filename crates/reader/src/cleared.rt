// Which entries of a value are unused, and that those are zero.
ghost use Rattle.std.specs.Prelude.{◌≡◌, drop};
ghost use Rattle.std.specs.List.{list_all};
ghost use Rattle.reader.specs.Cleared.{is_zero, note_zero, hit_zero, scale_zero, plays_zero, score_zero, cleared};

use crate::song::Song;
use composer::form::Form;
use composer::harmony::Scale;
use composer::note::{Hit, Note};
use composer::score::Score;
use streams::float::bits_of;

// Whether x is 0.0, and not -0.0.
fn is_zero(x: f32) -> bool
    ensures { result ≡ is_zero x }
{
    bits_of(x) == 0
}

#[tactic(auto, unfolding(crate::specs::Cleared::note_zero))]
fn note_zero(n: &Note) -> bool
    ensures { result ≡ note_zero n.now }
{
    n.bar == 0
        && n.midi == 0
        && n.role.number() == 0
        && n.spare == 0
        && is_zero(n.at)
        && is_zero(n.vel)
        && is_zero(n.dur)
}

#[tactic(auto, unfolding(crate::specs::Cleared::hit_zero))]
fn hit_zero(h: &Hit) -> bool
    ensures { result ≡ hit_zero h.now }
{
    h.bar == 0 && h.kind.number() == 0 && h.spare == 0 && is_zero(h.at) && is_zero(h.gain)
}

// Of a lane's entries those past the first n.
fn notes_zero(notes: &[Note], n: usize) -> bool
    ensures { result ≡ list_all note_zero (drop n notes.now) }
{
    notes.iter().skip(n).all(note_zero)
}

// The same of hits: a trait for these two would be longer than the one line.
fn hits_zero(hits: &[Hit], n: usize) -> bool
    ensures { result ≡ list_all hit_zero (drop n hits.now) }
{
    hits.iter().skip(n).all(hit_zero)
}

fn scale_zero(s: Scale) -> bool
    ensures { result ≡ scale_zero s }
{
    s.pcs.iter().skip(s.n).all(|pc| *pc == 0)
}

// No layer plays past the song's bars.
fn plays_zero(f: &Form) -> bool
    ensures { result ≡ plays_zero f.now }
{
    f.plays.iter().skip(f.bars as usize).all(|p| p.bits() == 0)
}

#[tactic(auto, using(crate::proofs::LibraryLaws::notes_zero_is, crate::proofs::LibraryLaws::hits_zero_is), unfolding(crate::specs::Cleared::score_zero))]
fn score_zero(s: &Score) -> bool
    ensures { result ≡ score_zero s.now }
{
    notes_zero(&s.lead.at, s.lead.n)
        && notes_zero(&s.keys.at, s.keys.n)
        && hits_zero(&s.hits.at, s.hits.n)
        && notes_zero(&s.bass.at, s.bass.n)
}

// Whether every unused entry is zero.
#[tactic(auto, unfolding(crate::specs::Cleared::cleared))]
pub(crate) fn is_cleared(v: &Song) -> bool
    ensures { result ≡ cleared v.now }
{
    score_zero(&v.score) && scale_zero(v.scale) && plays_zero(&v.form)
}
