// A line of data/: a letter and three words of 16 hexadecimal digits.
ghost use Rattle.std.specs.Prelude.{◌<◌};

#[derive(Clone, Copy)]
pub struct Line {
    pub what: u8,
    pub a: u64,
    pub b: u64,
    pub answer: u64,
}

// The byte at i, 0 past the end.
fn byte(s: &[u8], i: usize) -> u8 {
    s.get(i).copied().unwrap_or(0)
}

// A digit's value; 0 for any other byte.
fn digit(c: u8) -> u8
    ensures { result < 16 }
{
    match c {
        b'0'..=b'9' => c - b'0',
        b'a'..=b'f' => c - b'a' + 10,
        _ => 0,
    }
}

// The 16 digits from `at` on.
fn word(s: &[u8], at: usize) -> u64
    requires { at < 64 }
{
    let mut w: u64 = 0;
    for i in at..at + 16 {
        w = w % 0x1000_0000_0000_0000 * 16 + digit(byte(s, i)) as u64;
    }
    w
}

// A line's letter and words; what is missing counts as 0.
pub fn parsed(s: &[u8]) -> Line {
    let a = word(s, 2);
    let b = word(s, 19);
    let answer = word(s, 36);
    Line {
        what: byte(s, 0),
        a,
        b,
        answer,
    }
}
