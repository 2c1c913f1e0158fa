// What a lane plays: notes and drum hits. Each has the loop bar that it was drawn for.
ghost use Rattle.std.specs.Prelude.{◌≡◌};
ghost use Rattle.composer.specs.Note.{role_number_of, role_named, kind_number_of, kind_named};

use crate::refusal::Refusal;

// Why a note is what it is: a lead note's role in the melody, and one for all that lies under the lead.
#[derive(Clone, Copy, PartialEq, Eq, Debug)]
pub enum NoteRole {
    Quote = 0,
    Close = 1,
    Peak = 2,
    Resolve = 3,
    ChordTone = 4,
    Passing = 5,
    // a note of the keys or the bass
    Backing = 6,
}

impl NoteRole {
    // Its number on a sheet: the cast by a name that is public.
    pub fn number(self) -> u8
        ensures { result ≡ role_number_of self }
    {
        self as u8
    }
}

// The role by its number; a number of none is refused.
impl TryFrom<u8> for NoteRole {
    type Error = Refusal;

    ghost try_from_gives = { λ n r. r ≡ role_named n };

    fn try_from(n: u8) -> Result<NoteRole, Refusal> {
        match n {
            0 => Ok(NoteRole::Quote),
            1 => Ok(NoteRole::Close),
            2 => Ok(NoteRole::Peak),
            3 => Ok(NoteRole::Resolve),
            4 => Ok(NoteRole::ChordTone),
            5 => Ok(NoteRole::Passing),
            6 => Ok(NoteRole::Backing),
            _ => Err(Refusal::SheetValues),
        }
    }
}

// Its pitch (MIDI), its role, its time, in seconds into the loop, its velocity, and how long it is held, in seconds.
// The bytes stand together, here and in `Hit`, so that an entry of a lane is small, and `spare`, which is 0 in every
// song, fills the gap behind them: an array of entries without gaps is cleared at one stroke.
#[derive(Clone, Copy)]
pub struct Note {
    pub bar: u8,
    pub midi: u8,
    pub role: NoteRole,
    pub spare: u8,
    pub at: f32,
    pub vel: f32,
    pub dur: f32,
}

#[derive(Clone, Copy, PartialEq, Eq, Debug)]
pub enum DrumKind {
    Kick = 0,
    Snare = 1,
    Hat = 2,
    OpenHat = 3,
}

impl DrumKind {
    // Its number on a sheet: the cast by a name that is public.
    pub fn number(self) -> u8
        ensures { result ≡ kind_number_of self }
    {
        self as u8
    }
}

// The drum by its number; a number of none is refused.
impl TryFrom<u8> for DrumKind {
    type Error = Refusal;

    ghost try_from_gives = { λ n r. r ≡ kind_named n };

    fn try_from(n: u8) -> Result<DrumKind, Refusal> {
        match n {
            0 => Ok(DrumKind::Kick),
            1 => Ok(DrumKind::Snare),
            2 => Ok(DrumKind::Hat),
            3 => Ok(DrumKind::OpenHat),
            _ => Err(Refusal::SheetValues),
        }
    }
}

#[derive(Clone, Copy)]
pub struct Hit {
    pub bar: u8,
    pub kind: DrumKind,
    pub spare: u16,
    pub at: f32,
    pub gain: f32,
}

// An unused entry of a lane: zero throughout, and so its role is the one with the number 0.
pub const NO_NOTE: Note = Note {
    bar: 0,
    role: NoteRole::Quote,
    spare: 0,
    at: 0.0,
    midi: 0,
    vel: 0.0,
    dur: 0.0,
};

pub const NO_HIT: Hit = Hit {
    bar: 0,
    spare: 0,
    at: 0.0,
    kind: DrumKind::Kick,
    gain: 0.0,
};
