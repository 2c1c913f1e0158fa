// Notes and hits at a place in bytes: whether they are in range, and the lanes that they fill. All are tested before
// one is read, so that no number that is read is a NaN. Bytes and a place, and no slice of them: the definitions read a
// sheet at a place.
ghost use Rattle.std.specs.Prelude.{true, false, ◌≡◌, ◌+◌, ◌*◌, ◌<◌, ◌≤◌, length};
ghost use Rattle.laws.specs.Lists.{pad};
ghost use Rattle.composer.specs.Note.{no_note, no_hit};
ghost use Rattle.pages.specs.Edition.{note_width};
ghost use Rattle.reader.specs.Codes.{role_at};
ghost use Rattle.reader.specs.Inner.Reading.{notes_pass, hits_pass};
ghost use Rattle.reader.specs.Layout.{edition_in, body_at};
ghost use Rattle.reader.specs.Song.{note_at, hit_at, notes_at, hits_at, note_count_in, hit_count_in};
ghost use Rattle.reader.specs.Within.{role_within, note_within, hit_within};

use crate::codes::{kind_coded, role_coded};
use crate::layout::Formed;
use composer::note::{Hit, NO_HIT, NO_NOTE, Note, NoteRole};
use pages::edition::Edition;
use pages::get::{byte_in, f32_at, finite_at};

// Whether the role of the note there is one that it can have; edition 1 tells none.
#[tactic(auto, using(crate::proofs::CodeLaws::role_tests), unfolding(crate::specs::Codes::role_at, crate::specs::Within::role_within))]
fn role_passes(bytes: &[u8], at: usize, edition: Edition, leads: bool) -> bool
    requires { at + note_width edition ≤ length bytes.now }
    ensures { result ≡ role_within edition leads (role_at edition leads bytes.now (at + 14)) }
{
    match edition {
        Edition::One => true,
        Edition::Two => {
            let number = byte_in(bytes, at + 14);
            if leads {
                return number < 6;
            }
            number == 6
        }
    }
}

#[tactic(auto, unfolding(crate::specs::Codes::role_at))]
fn role_at(bytes: &[u8], at: usize, edition: Edition, leads: bool) -> NoteRole
    requires { at + note_width edition ≤ length bytes.now }
    ensures { result ≡ role_at edition leads bytes.now (at + 14) }
{
    match edition {
        Edition::One => NoteRole::Backing,
        Edition::Two => role_coded(leads, byte_in(bytes, at + 14)),
    }
}

// Whether the note there is in range. The first fault ends the test: branches that are hardly ever taken cost less than
// as many answers and their conjunction.
#[tactic(auto, using(crate::proofs::WidthLaws::width_least), unfolding(crate::specs::Song::note_at, crate::specs::Within::note_within))]
fn note_passes(bytes: &[u8], at: usize, edition: Edition, leads: bool) -> bool
    requires { at + note_width edition ≤ length bytes.now }
    ensures { result ≡ note_within edition leads (note_at edition leads bytes.now at) }
{
    byte_in(bytes, at) < 8
        && byte_in(bytes, at + 5) <= 127
        && role_passes(bytes, at, edition, leads)
        && finite_at(bytes, at + 1)
        && finite_at(bytes, at + 6)
        && finite_at(bytes, at + 10)
}

#[tactic(auto, using(crate::proofs::WidthLaws::width_least), unfolding(crate::specs::Song::note_at))]
fn note_at(bytes: &[u8], at: usize, edition: Edition, leads: bool) -> Note
    requires room { at + note_width edition ≤ length bytes.now }
    requires within { note_within edition leads (note_at edition leads bytes.now at) ≡ true }
    ensures { result ≡ note_at edition leads bytes.now at }
{
    Note {
        bar: byte_in(bytes, at),
        midi: byte_in(bytes, at + 5),
        role: role_at(bytes, at, edition, leads),
        spare: 0,
        at: f32_at(bytes, at + 1),
        vel: f32_at(bytes, at + 6),
        dur: f32_at(bytes, at + 10),
    }
}

// The same for a hit, but for its kind: whether that is known is asked with the other codes.
#[tactic(auto, unfolding(crate::specs::Song::hit_at, crate::specs::Within::hit_within))]
fn hit_passes(bytes: &[u8], at: usize) -> bool
    requires { at + 10 ≤ length bytes.now }
    ensures { result ≡ hit_within (hit_at bytes.now at) }
{
    byte_in(bytes, at) < 8 && finite_at(bytes, at + 2) && finite_at(bytes, at + 6)
}

#[tactic(auto, unfolding(crate::specs::Song::hit_at))]
fn hit_at(bytes: &[u8], at: usize) -> Hit
    requires room { at + 10 ≤ length bytes.now }
    requires within { hit_within (hit_at bytes.now at) ≡ true }
    ensures { result ≡ hit_at bytes.now at }
{
    Hit {
        bar: byte_in(bytes, at),
        kind: kind_coded(byte_in(bytes, at + 1)),
        spare: 0,
        at: f32_at(bytes, at + 2),
        gain: f32_at(bytes, at + 6),
    }
}

// Whether the notes of field k are in range: the first that is not ends the test.
pub(crate) fn notes_pass(formed: &Formed, k: usize, leads: bool) -> bool
    requires { k < 10 }
    ensures { let b = formed.now.fields.bytes.now in result ≡ notes_pass (edition_in b) leads b (body_at b k) (note_count_in b k) }
{
    let fields = &formed.fields;
    let bytes = fields.bytes;
    let edition = fields.edition;
    let at = fields.body(k);
    let width = edition.note_width();
    (0..fields.notes(k)).all(|i| note_passes(bytes, at + width * i, edition, leads))
}

// The same of hits: a trait for `note_passes` and `hit_passes` would be longer than this line.
pub(crate) fn hits_pass(formed: &Formed, k: usize) -> bool
    requires { k < 10 }
    ensures { let b = formed.now.fields.bytes.now in result ≡ hits_pass b (body_at b k) (hit_count_in b k) }
{
    let fields = &formed.fields;
    let bytes = fields.bytes;
    let at = fields.body(k);
    (0..fields.hits(k)).all(|i| hit_passes(bytes, at + 10 * i))
}

// The lane of field k: its notes, and zeros behind them.
#[tactic(auto, using(laws::proofs::Lists::pad_start, crate::proofs::LoopLaws::padded_more, crate::proofs::WidthLaws::width_fits))]
pub(crate) fn notes_at<const N: usize>(formed: &Formed, k: usize, leads: bool) -> [Note; N]
    requires field { k < 10 }
    requires few { let b = formed.now.fields.bytes.now in note_count_in b k ≤ N }
    requires pass { let b = formed.now.fields.bytes.now in notes_pass (edition_in b) leads b (body_at b k) (note_count_in b k) ≡ true }
    ensures { let b = formed.now.fields.bytes.now in result ≡ pad no_note N (notes_at (edition_in b) leads b (body_at b k) (note_count_in b k)) }
{
    let fields = &formed.fields;
    let bytes = fields.bytes;
    let edition = fields.edition;
    let at = fields.body(k);
    let width = edition.note_width();
    let mut out = [NO_NOTE; N];
    for i in 0..fields.notes(k) {
        out[i] = note_at(bytes, at + width * i, edition, leads);
    }
    out
}

// The same of hits. One function for all lanes, over a closure that reads an event, needed a bound of N besides and was
// no shorter.
#[tactic(auto, using(laws::proofs::Lists::pad_start, crate::proofs::LoopLaws::padded_more))]
pub(crate) fn hits_at<const N: usize>(formed: &Formed, k: usize) -> [Hit; N]
    requires field { k < 10 }
    requires few { let b = formed.now.fields.bytes.now in hit_count_in b k ≤ N }
    requires pass { let b = formed.now.fields.bytes.now in hits_pass b (body_at b k) (hit_count_in b k) ≡ true }
    ensures { let b = formed.now.fields.bytes.now in result ≡ pad no_hit N (hits_at b (body_at b k) (hit_count_in b k)) }
{
    let fields = &formed.fields;
    let bytes = fields.bytes;
    let at = fields.body(k);
    let mut out = [NO_HIT; N];
    for i in 0..fields.hits(k) {
        out[i] = hit_at(bytes, at + 10 * i);
    }
    out
}
