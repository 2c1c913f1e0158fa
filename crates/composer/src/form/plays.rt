// The layers that strike in one bar. The lead plays in the keys' layer.
ghost use Rattle.std.specs.Prelude.{◌≡◌};
ghost use Rattle.composer.specs.Form.Plays.{bits_of};

#[derive(Clone, Copy, Debug, PartialEq, Eq)]
pub struct Plays {
    pub pad: bool,
    pub keys: bool,
    pub drums: bool,
    pub bass: bool,
}

impl Plays {
    // Its byte on a sheet: bit 0 the pad, 1 the keys, 2 the drums, 3 the bass.
    pub fn bits(self) -> u8
        ensures { result ≡ bits_of self }
    {
        u8::from(self.pad)
            | u8::from(self.keys) << 1
            | u8::from(self.drums) << 2
            | u8::from(self.bass) << 3
    }
}

pub const ALL: Plays = Plays {
    pad: true,
    keys: true,
    drums: true,
    bass: true,
};

pub const SILENT: Plays = Plays {
    pad: false,
    keys: false,
    drums: false,
    bass: false,
};

// The bed alone: the pad's chords.
pub const BED: Plays = Plays {
    pad: true,
    keys: false,
    drums: false,
    bass: false,
};

pub const KEYS: Plays = Plays {
    pad: true,
    keys: true,
    drums: false,
    bass: false,
};

pub const KEYS_BASS: Plays = Plays {
    pad: true,
    keys: true,
    drums: false,
    bass: true,
};

pub const KEYS_DRUMS: Plays = Plays {
    pad: true,
    keys: true,
    drums: true,
    bass: false,
};

pub const DRUMS_BASS: Plays = Plays {
    pad: true,
    keys: false,
    drums: true,
    bass: true,
};
