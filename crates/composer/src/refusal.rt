// Why a call refuses.
ghost use Rattle.std.specs.Prelude.{◌≡◌};
ghost use Rattle.composer.specs.Refusal.{number_of};

#[derive(Clone, Copy, Debug, PartialEq, Eq)]
pub enum Refusal {
    UnknownStyle = 1,
    ShortBuffer = 2,
    NoSuchBar = 3,
    Malformed = 4,
    WrongLength = 5,
    HallCount = 6,
    SheetFields = 7,
    SheetValues = 8,
    OtherSong = 9,
    LessonSpan = 10,
    LessonWish = 11,
    NoSeed = 12,
}

impl Refusal {
    // Its number.
    pub fn number(self) -> u8
        ensures { result ≡ number_of self }
    {
        self as u8
    }
}
