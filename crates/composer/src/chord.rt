// Chords: a degree of the grammar voiced in a key.
ghost use Rattle.std.specs.Prelude.{◌≡◌, ◌≤◌, ◌<◌};
ghost use Rattle.composer.specs.Chord.{root_class_of, in_octave_from, degree_at, voiced_of};

pub const OCTAVE: u8 = 12;

pub const FIFTH: u8 = 7;

// The lowest a chord's root sits: as low as a minor third sounds clear.
const VOICING_FLOOR: u8 = 48;

// One chord of the grammar in C: its root's pitch class, and its third and seventh in semitones.
#[derive(Clone, Copy, Debug, PartialEq, Eq)]
pub struct Degree {
    pub root_pc: u8,
    pub third: u8,
    pub seventh: u8,
}

// A chord's notes, its root first.
#[derive(Clone, Copy, Debug, PartialEq, Eq)]
pub struct Chord {
    pub notes: [u8; 4],
}

// An entry that is not set.
pub const NO_CHORD: Chord = Chord {
    notes: [0, 0, 0, 0],
};

// C, D minor, E minor, F, G, A minor.
const DEGREES: [Degree; 6] = [
    Degree {
        root_pc: 0,
        third: 4,
        seventh: 11,
    },
    Degree {
        root_pc: 2,
        third: 3,
        seventh: 10,
    },
    Degree {
        root_pc: 4,
        third: 3,
        seventh: 10,
    },
    Degree {
        root_pc: 5,
        third: 4,
        seventh: 11,
    },
    Degree {
        root_pc: 7,
        third: 4,
        seventh: 10,
    },
    Degree {
        root_pc: 9,
        third: 3,
        seventh: 10,
    },
];

impl Chord {
    // The root's pitch class.
    pub fn root_class(self) -> u8
        ensures { result ≡ root_class_of self }
    {
        self.notes[0] % OCTAVE
    }
}

// The pitch with class pc in the octave from lo up.
pub(crate) fn in_octave_from(lo: u8, pc: u8) -> u8
    requires { (lo ≤ 244) × (pc ≤ 243) }
    ensures { result ≡ in_octave_from lo pc }
{
    lo + (pc + OCTAVE - lo % OCTAVE) % OCTAVE
}

// Degree d in a key, in root position with its seventh.
pub(crate) fn voiced(d: u8, key: u8) -> Chord
    requires { (d < 6) × (key < 12) }
    ensures { result ≡ voiced_of (degree_at d) key }
{
    let degree = DEGREES[d as usize];
    let pc = (degree.root_pc + key) % OCTAVE;
    let root = in_octave_from(VOICING_FLOOR, pc);
    let notes = [
        root,
        root + degree.third,
        root + FIFTH,
        root + degree.seventh,
    ];
    Chord { notes }
}
