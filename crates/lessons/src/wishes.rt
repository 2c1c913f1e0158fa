// What a teacher wishes of a song.
ghost use Rattle.std.specs.Prelude.{◌≡◌};
ghost use Rattle.lessons.specs.Inner.Search.{met_by};
ghost use Rattle.lessons.specs.Wishes.{is_unknown};

use composer::traits::Traits;

#[derive(Clone, Copy, Debug, PartialEq, Eq)]
pub struct Wishes {
    // 0 to 11, the first entry of the scale; 12 for any
    pub key: u8,
    // 1 to 255 beats per minute; 0 for any
    pub tempo: u8,
    // 0 to 3, as on the sheet; 255 for any
    pub voice: u8,
}

impl Wishes {
    // Whether a wish is outside its codes. Every tempo is a code.
    pub fn is_unknown(self) -> bool
        ensures { result ≡ is_unknown self }
    {
        (self.key > 12) | ((self.voice > 3) & (self.voice != 255))
    }

    // Whether a song of these traits has all three.
    pub(crate) fn met_by(self, t: Traits) -> bool
        ensures { result ≡ met_by self t }
    {
        let voice = t.voice;
        let number = voice.number();
        ((self.key == 12) | (self.key == t.key))
            & ((self.tempo == 0) | (self.tempo == t.tempo))
            & ((self.voice == 255) | (self.voice == number))
    }
}
