// The two editions of the sheet. The second begins with its number, and its notes have their roles; so does the bar
// page, which has no other edition.
ghost use Rattle.std.specs.Prelude.{◌≡◌, ◌+◌, ◌≤◌, length};
ghost use Rattle.laws.specs.Writes.{Wrote};
ghost use Rattle.pages.specs.Edition.{note_width, edition_size, edition_field};

use crate::put::{put_head, put_u8};

// The most bytes that a sheet has, in edition 2: a buffer of this length serves every seed.
pub const SHEET_MOST: usize = 5456;

#[derive(Clone, Copy, Debug, PartialEq, Eq)]
pub enum Edition {
    One,
    Two,
}

impl Edition {
    // The bytes of one note.
    pub fn note_width(self) -> usize
        ensures { result ≡ note_width self }
    {
        match self {
            Edition::One => 14,
            Edition::Two => 15,
        }
    }

    // The bytes of the field that it begins with; the first has none.
    pub fn field_size(self) -> usize
        ensures value { result ≡ edition_size self }
        ensures upper_bound { result ≤ 4 }
    {
        match self {
            Edition::One => 0,
            Edition::Two => 4,
        }
    }
}

// 0x00: the edition's number.
pub(crate) fn put_edition(buf: &mut [u8], at: usize, edition: Edition) -> usize
    requires { at + edition_size edition ≤ length buf.old }
    ensures { Wrote buf.old buf.new at result (edition_size edition) (edition_field edition) }
{
    match edition {
        Edition::One => at,
        Edition::Two => {
            let a = put_head(buf, at, 0x00, 1);
            put_u8(buf, a, 2)
        }
    }
}
