// What a lane holds, notes and hits, in bytes: a note is bar, time, pitch, velocity, duration, and in edition 2 its
// role; a hit is bar, kind, time, gain.
ghost use Rattle.std.specs.Prelude.{◌≡◌, List, ℕ, ◌+◌, ◌≤◌, length};
ghost use Rattle.laws.specs.Writes.{Wrote};
ghost use Rattle.composer.specs.Note.{note_bar, hit_bar};
ghost use Rattle.pages.specs.Edition.{note_width};
ghost use Rattle.pages.specs.Lane.{sound_bytes, note_bytes, hit_bytes};
ghost use Rattle.pages.specs.Writable.{FiniteNote, FiniteHit};
ghost use Rattle.pages.specs.declared.edition.Edition.{Edition};

use crate::edition::Edition;
use crate::put::{put_f32, put_u8};
use composer::note::{Hit, Note};

pub(crate) trait Event {
    ghost bar_of: { Self → ℕ };

    // its numbers can be written
    ghost Finite: { Self → Type 0 };

    ghost width: { Edition → ℕ };

    ghost bytes: { Edition → Self → List ℕ };

    // The loop bar that it was drawn for.
    fn bar(&self) -> u8
        ensures { result ≡ bar_of self.now };

    // Its bytes in an edition, from `at` on.
    fn put(&self, buf: &mut [u8], at: usize, edition: Edition) -> usize
        requires finite { Finite self.now }
        requires room { at + width edition ≤ length buf.old }
        ensures { Wrote buf.old buf.new at result (width edition) (bytes edition self.now) };
}

// What both editions tell of a note.
fn put_sound(buf: &mut [u8], at: usize, n: &Note) -> usize
    requires finite_note { FiniteNote n.now }
    requires room { at + 14 ≤ length buf.old }
    ensures { Wrote buf.old buf.new at result 14 (sound_bytes n.now) }
{
    let a = put_u8(buf, at, n.bar);
    let b = put_f32(buf, a, n.at);
    let c = put_u8(buf, b, n.midi);
    let d = put_f32(buf, c, n.vel);
    put_f32(buf, d, n.dur)
}

impl Event for Note {
    ghost bar_of = { note_bar };

    ghost Finite = { FiniteNote };

    ghost width = { note_width };

    ghost bytes = { note_bytes };

    fn bar(&self) -> u8 {
        self.bar
    }

    fn put(&self, buf: &mut [u8], at: usize, edition: Edition) -> usize {
        let a = put_sound(buf, at, self);
        match edition {
            Edition::One => a,
            Edition::Two => put_u8(buf, a, self.role.number()),
        }
    }
}

impl Event for Hit {
    ghost bar_of = { hit_bar };

    ghost Finite = { FiniteHit };

    ghost width = { λ edition. 10 };

    ghost bytes = { λ edition. hit_bytes };

    fn bar(&self) -> u8 {
        self.bar
    }

    fn put(&self, buf: &mut [u8], at: usize, _edition: Edition) -> usize {
        let a = put_u8(buf, at, self.bar);
        let b = put_u8(buf, a, self.kind.number());
        let c = put_f32(buf, b, self.at);
        put_f32(buf, c, self.gain)
    }
}
