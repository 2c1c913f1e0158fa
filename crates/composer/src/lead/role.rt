// What a note does in the melody: the first role that applies.
ghost use Rattle.std.specs.Prelude.{◌≡◌};
ghost use Rattle.composer.specs.Lead.Role.{noted_of, quotes_of, peaks_of, leapt_of, chosen_of, chance_role_of, role_of};

use crate::lead::line::{Line, Place};
use crate::note::NoteRole;
use streams::draw::chance;
use streams::stream::{Draw, NoiseStream};

// The answer's first bar, which quotes the statement.
const QUOTE_BAR: u8 = 4;

const PEAK_BAR: u8 = 5;

// A move wider than this, in semitones, is a leap that the next note resolves.
const LEAP: u8 = 4;

// The chance that an off-beat note is a chord tone.
const CHORD_TONE_P: f32 = 0.55;

#[derive(Clone, Copy, PartialEq, Eq, Debug)]
pub enum Role {
    // the answer opens on the statement's opening notes
    Quote,
    // the last note returns near the opening, onto a chord tone
    Close,
    // a lift onto a chord tone
    Peak,
    // after a leap, a step against it
    Resolve,
    // a chord tone near the last note, at most a fifth away
    ChordTone,
    // a scale step or two from the last note
    Passing,
}

// The same role as a note of the score has it.
impl From<Role> for NoteRole {
    ghost from_gives = { λ r n. n ≡ noted_of r };

    fn from(r: Role) -> NoteRole {
        match r {
            Role::Quote => NoteRole::Quote,
            Role::Close => NoteRole::Close,
            Role::Peak => NoteRole::Peak,
            Role::Resolve => NoteRole::Resolve,
            Role::ChordTone => NoteRole::ChordTone,
            Role::Passing => NoteRole::Passing,
        }
    }
}

// Whether the note quotes one of the statement's first.
fn quotes(p: Place, heads: usize) -> bool
    ensures { result ≡ quotes_of p heads }
{
    (p.bar == QUOTE_BAR) & (p.i < heads) & !p.last
}

// Whether the note is the answer's peak.
fn peaks(p: Place) -> bool
    ensures { result ≡ peaks_of p }
{
    (p.bar == PEAK_BAR) & (p.i == 0)
}

// Whether the last move was a leap.
fn leapt(from: u8, prev: u8) -> bool
    ensures { result ≡ leapt_of from prev }
{
    from.abs_diff(prev) > LEAP
}

// A role beside the stream as it is then.
fn chosen(role: Role, s: NoiseStream) -> Draw<Role>
    ensures { result ≡ chosen_of role s }
{
    Draw {
        value: role,
        stream: s,
    }
}

// A chord tone or a passing one, by a draw.
fn chance_role(s: NoiseStream) -> Draw<Role>
    ensures { result ≡ chance_role_of s }
{
    chance(s, CHORD_TONE_P).map(|tone| if tone { Role::ChordTone } else { Role::Passing })
}

// The role of the note at p. Only where no earlier role applies and the beat is weak is it drawn.
pub(crate) fn role_of(l: Line, p: Place) -> Draw<Role>
    ensures { result ≡ role_of l p }
{
    let s = l.stream;
    if quotes(p, l.head.n) {
        return chosen(Role::Quote, s);
    }
    if p.last {
        return chosen(Role::Close, s);
    }
    if peaks(p) {
        return chosen(Role::Peak, s);
    }
    if leapt(l.from, l.prev) {
        return chosen(Role::Resolve, s);
    }
    if p.strong {
        return chosen(Role::ChordTone, s);
    }
    chance_role(s)
}
