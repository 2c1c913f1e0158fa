// The song that bytes name.
ghost use Rattle.std.specs.Prelude.{true, ◌≡◌, ◌+◌, ◌*◌, ◌≤◌, length};
ghost use Rattle.laws.specs.Lists.{pad};
ghost use Rattle.composer.specs.Form.Plays.{silent};
ghost use Rattle.reader.specs.Layout.{edition_in};
ghost use Rattle.reader.specs.Within.{score_within, within};
ghost use Rattle.reader.specs.Song.{chord_from, chords_from, scale_at, score_in, plays_from, form_in, song_in};

use crate::codes::{end_coded, outro_coded, plays_coded, voice_coded};
use crate::event::{hits_at, notes_at};
use crate::layout::Formed;
use composer::chord::{Chord, NO_CHORD};
use composer::compose::style_by;
use composer::few::Few;
use composer::form::Form;
use composer::form::ends::{End, Outro};
use composer::form::plays::{Plays, SILENT};
use composer::harmony::Scale;
use composer::score::Score;
use pages::edition::Edition;
use pages::get::{byte_in, f32_at, u64_at};

// What a sheet names, and the edition that it is of; style and voice stand in the score.
#[derive(Clone, Copy)]
pub struct Song {
    pub edition: Edition,
    pub seed: u64,
    pub score: Score,
    pub scale: Scale,
    pub form: Form,
}

// Four notes, of which the first is the root.
#[tactic(auto, unfolding(crate::specs::Song::chord_from))]
fn chord_from(bytes: &[u8], at: usize) -> Chord
    requires { at + 4 ≤ length bytes.now }
    ensures { result ≡ chord_from bytes.now at }
{
    Chord {
        notes: [
            byte_in(bytes, at),
            byte_in(bytes, at + 1),
            byte_in(bytes, at + 2),
            byte_in(bytes, at + 3),
        ],
    }
}

#[tactic(auto, using(laws::proofs::Lists::pad_start, crate::proofs::LoopLaws::padded_more, crate::proofs::LoopLaws::padded_all))]
pub(crate) fn chords_from(bytes: &[u8], at: usize) -> [Chord; 8]
    requires { at + 32 ≤ length bytes.now }
    ensures { result ≡ chords_from bytes.now at }
{
    let mut out = [NO_CHORD; 8];
    for b in 0..8 {
        out[b] = chord_from(bytes, at + 4 * b);
    }
    out
}

#[tactic(auto, using(laws::proofs::Lists::pad_start, crate::proofs::LoopLaws::padded_more), unfolding(crate::specs::Song::scale_at))]
pub(crate) fn scale_at(bytes: &[u8], at: usize, n: usize) -> Scale
    requires room { at + n ≤ length bytes.now }
    requires n_bound { n ≤ 6 }
    ensures { result ≡ scale_at bytes.now at n }
{
    let mut pcs = [0u8; 6];
    for i in 0..n {
        pcs[i] = byte_in(bytes, at + i);
    }
    Scale { pcs, n }
}

fn score_in(formed: &Formed) -> Score
    requires { let b = formed.now.fields.bytes.now in score_within (edition_in b) (score_in b) ≡ true }
    ensures { result ≡ score_in formed.now.fields.bytes.now }
{
    let fields = &formed.fields;
    let bytes = fields.bytes;
    let name = fields.body(0);
    Score {
        style: style_by(byte_in(bytes, name)),
        bpm: f32_at(bytes, fields.body(1)),
        bar_chords: chords_from(bytes, fields.body(2)),
        lead: Few {
            at: notes_at(formed, 4, true),
            n: fields.notes(4),
        },
        keys: Few {
            at: notes_at(formed, 5, false),
            n: fields.notes(5),
        },
        hits: Few {
            at: hits_at(formed, 6),
            n: fields.hits(6),
        },
        bass: Few {
            at: notes_at(formed, 7, false),
            n: fields.notes(7),
        },
        lead_voice: voice_coded(byte_in(bytes, name + 9)),
    }
}

// The layers of n bars, a byte each.
#[tactic(auto, using(laws::proofs::Lists::pad_start, crate::proofs::LoopLaws::padded_more))]
fn plays_from(bytes: &[u8], at: usize, n: usize) -> [Plays; 64]
    requires room { at + n ≤ length bytes.now }
    requires n_bound { n ≤ 64 }
    ensures { result ≡ pad silent 64 (plays_from bytes.now at n) }
{
    let mut out = [SILENT; 64];
    for b in 0..n {
        out[b] = plays_coded(byte_in(bytes, at + b));
    }
    out
}

// The intro and the outro, each by its code and its bars.
#[tactic(auto, unfolding(crate::specs::Song::form_in))]
pub(crate) fn intro_in(formed: &Formed) -> End
    ensures { result ≡ (form_in formed.now.fields.bytes.now).intro }
{
    let fields = &formed.fields;
    let at = fields.body(8);
    end_coded(byte_in(fields.bytes, at), byte_in(fields.bytes, at + 1))
}

#[tactic(auto, unfolding(crate::specs::Song::form_in))]
pub(crate) fn outro_in(formed: &Formed) -> Outro
    ensures { result ≡ (form_in formed.now.fields.bytes.now).outro }
{
    let fields = &formed.fields;
    let at = fields.body(8);
    outro_coded(byte_in(fields.bytes, at + 3), byte_in(fields.bytes, at + 4))
}

#[tactic(auto, unfolding(crate::specs::Song::form_in))]
pub(crate) fn phrases_in(formed: &Formed) -> u8
    ensures { result ≡ (form_in formed.now.fields.bytes.now).phrases }
{
    let fields = &formed.fields;
    byte_in(fields.bytes, fields.body(8) + 2)
}

#[tactic(auto, unfolding(crate::specs::Song::form_in))]
fn form_in(formed: &Formed) -> Form
    ensures { result ≡ form_in formed.now.fields.bytes.now }
{
    let fields = &formed.fields;
    let bars = fields.size(9);
    Form {
        intro: intro_in(formed),
        phrases: phrases_in(formed),
        outro: outro_in(formed),
        dip: byte_in(fields.bytes, fields.body(8) + 5) == 1,
        plays: plays_from(fields.bytes, fields.body(9), bars),
        bars: bars as u8,
    }
}

// The song that formed bytes name whose numbers are in range, field by field; its codes are tested in codes.rt.
#[tactic(auto, unfolding(crate::specs::Song::song_in))]
pub(crate) fn song_in(formed: &Formed) -> Song
    requires { within (song_in formed.now.fields.bytes.now) ≡ true }
    ensures { result ≡ song_in formed.now.fields.bytes.now }
{
    let fields = &formed.fields;
    Song {
        edition: fields.edition,
        seed: u64_at(fields.bytes, fields.body(0) + 1),
        score: score_in(formed),
        scale: scale_at(fields.bytes, fields.body(3), fields.size(3)),
        form: form_in(formed),
    }
}
