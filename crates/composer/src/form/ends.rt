// How a song begins and ends.
ghost use Rattle.std.specs.Prelude.{◌≡◌};
ghost use Rattle.composer.specs.Form.Ends.{count_of, edge_code_of, end_bars_of, end_edged_of, end_plain_of, end_code_of, outro_length_of, outro_edged_of, outro_plain_of, outro_code_of};

// The bars of an intro or outro that has some.
#[derive(Clone, Copy, PartialEq, Eq, Debug)]
pub enum Bars {
    Four = 4,
    Eight = 8,
}

// How the music's level or colour moves over an intro or outro.
#[derive(Clone, Copy, PartialEq, Eq, Debug)]
pub enum Edge {
    Fade = 2,
    Filter = 3,
}

// An intro, or an outro that does not ring out.
#[derive(Clone, Copy, PartialEq, Eq, Debug)]
pub enum End {
    Cold,
    Plain(Bars),
    Edged(Bars, Edge),
}

#[derive(Clone, Copy, PartialEq, Eq, Debug)]
pub enum Outro {
    Ends(End),
    // the pad's chord, then a bar of the room alone
    RingOut,
}

impl Bars {
    // Them as a number.
    pub fn count(self) -> u8
        ensures { result ≡ count_of self }
    {
        self as u8
    }
}

impl Edge {
    // Its code on the sheet, as an ending's.
    pub fn code(self) -> u8
        ensures { result ≡ edge_code_of self }
    {
        self as u8
    }
}

impl End {
    // The bars it has, none if it is cold.
    pub fn bars(self) -> u8
        ensures { result ≡ end_bars_of self }
    {
        match self {
            End::Cold => 0,
            End::Plain(n) => n.count(),
            End::Edged(n, _) => n.count(),
        }
    }

    // Whether an edge moves it.
    pub fn edged(self) -> bool
        ensures { result ≡ end_edged_of self }
    {
        match self {
            End::Cold => false,
            End::Plain(_) => false,
            End::Edged(_, _) => true,
        }
    }

    // The same bars with no edge.
    pub fn plain(self) -> End
        ensures { result ≡ end_plain_of self }
    {
        match self {
            End::Cold => End::Cold,
            End::Plain(n) => End::Plain(n),
            End::Edged(n, _) => End::Plain(n),
        }
    }

    // Its code on the sheet.
    pub fn code(self) -> u8
        ensures { result ≡ end_code_of self }
    {
        match self {
            End::Cold => 0,
            End::Plain(_) => 1,
            End::Edged(_, e) => e.code(),
        }
    }
}

impl Outro {
    // The bars it has; a ring-out has two.
    pub fn bars(self) -> u8
        ensures { result ≡ outro_length_of self }
    {
        match self {
            Outro::Ends(e) => e.bars(),
            Outro::RingOut => 2,
        }
    }

    // Whether an edge moves it.
    pub fn edged(self) -> bool
        ensures { result ≡ outro_edged_of self }
    {
        match self {
            Outro::Ends(e) => e.edged(),
            Outro::RingOut => false,
        }
    }

    // The same bars with no edge.
    pub fn plain(self) -> Outro
        ensures { result ≡ outro_plain_of self }
    {
        match self {
            Outro::Ends(e) => Outro::Ends(e.plain()),
            Outro::RingOut => Outro::RingOut,
        }
    }

    // Its code on the sheet.
    pub fn code(self) -> u8
        ensures { result ≡ outro_code_of self }
    {
        match self {
            Outro::Ends(e) => e.code(),
            Outro::RingOut => 4,
        }
    }
}
