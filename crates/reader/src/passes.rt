// Whether the song that formed bytes name has its numbers in range. Nothing is read for good yet: events are tested
// where they stand.
ghost use Rattle.std.specs.Prelude.{◌≡◌};
ghost use Rattle.reader.specs.Layout.{edition_in};
ghost use Rattle.reader.specs.Song.{score_in, form_in, song_in};
ghost use Rattle.reader.specs.Within.{form_within, score_within, within};

use crate::event::{hits_pass, notes_pass};
use crate::layout::Formed;
use crate::song::{chords_from, intro_in, outro_in, phrases_in, scale_at};
use crate::within::{chords_within, scale_within};
use pages::get::finite_at;

// 0x02, 0x03 and 0x05 to 0x08.
fn score_passes(formed: &Formed) -> bool
    ensures { let b = formed.now.fields.bytes.now in result ≡ score_within (edition_in b) (score_in b) }
{
    let fields = &formed.fields;
    let bytes = fields.bytes;
    let tempo = finite_at(bytes, fields.body(1));
    let chords = chords_within(chords_from(bytes, fields.body(2)));
    let lead = notes_pass(formed, 4, true);
    let keys = notes_pass(formed, 5, false);
    let hits = hits_pass(formed, 6);
    let bass = notes_pass(formed, 7, false);
    tempo & chords & lead & keys & hits & bass
}

// 0x09 and how long 0x0A is: so many bars.
#[tactic(auto, unfolding(crate::specs::Song::form_in, crate::specs::Within::form_within))]
fn form_passes(formed: &Formed) -> bool
    ensures { result ≡ form_within (form_in formed.now.fields.bytes.now) }
{
    let phrases = phrases_in(formed);
    let before = intro_in(formed).bars() as usize;
    let after = outro_in(formed).bars() as usize;
    let all = before + 8 * phrases as usize + after;
    (4 <= phrases) & (phrases <= 6) & (all == formed.fields.size(9))
}

#[tactic(auto, unfolding(crate::specs::Song::song_in, crate::specs::Within::within))]
pub(crate) fn song_passes(formed: &Formed) -> bool
    ensures { result ≡ within (song_in formed.now.fields.bytes.now) }
{
    let fields = &formed.fields;
    let score = score_passes(formed);
    let scale = scale_within(scale_at(fields.bytes, fields.body(3), fields.size(3)));
    let form = form_passes(formed);
    score & scale & form
}
