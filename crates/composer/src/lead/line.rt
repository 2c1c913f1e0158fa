// A note's place in the melody, and what the line carries from note to note.
ghost use Rattle.std.specs.Prelude.{◌≡◌, ◌≤◌, ◌<◌};
ghost use Rattle.composer.specs.Lead.Line.{is_strong_of, is_last_of, place_of, opens_line_of, carried_of};

use crate::few::Few;
use crate::lead::beats::Beats;
use streams::float::fract;
use streams::stream::NoiseStream;

// The statement's first notes, which the answer opens by quoting.
const QUOTE_NOTES: usize = 2;

const LAST_BAR: u8 = 7;

// Note i of a bar: whether it closes the loop, as the last note of bar 7, and whether its beat is strong.
#[derive(Clone, Copy)]
pub struct Place {
    pub bar: u8,
    pub i: usize,
    pub last: bool,
    pub strong: bool,
}

// The last two notes, `from` and `prev`, the first notes of bar 0, and the stream. No `Draw`: the stream is one of four
// things that the line carries on.
#[derive(Clone, Copy)]
pub struct Line {
    pub stream: NoiseStream,
    pub from: u8,
    pub prev: u8,
    pub head: Few<u8, 2>,
}

// On a beat, or pushed a sixteenth ahead of one.
fn is_strong(beat: f32) -> bool
    ensures { result ≡ is_strong_of beat }
{
    let f = fract(beat);
    (f == 0.0) | (f == 0.75)
}

// Whether note i of n is the last one of bar 7.
fn is_last(bar: u8, i: usize, n: usize) -> bool
    requires { i < 7 }
    ensures { result ≡ is_last_of bar i n }
{
    (bar == LAST_BAR) & (i + 1 == n)
}

// Where note i of a bar stands.
pub(crate) fn place_of(bar: u8, b: Beats, i: usize) -> Place
    requires { i < 7 }
    ensures { result ≡ place_of bar b i }
{
    Place {
        bar,
        i,
        last: is_last(bar, i, b.n),
        strong: is_strong(b.at[i]),
    }
}

// Whether a note of this bar is one of those that the answer quotes.
fn opens_line(bar: u8, heads: usize) -> bool
    ensures { result ≡ opens_line_of bar heads }
{
    (bar == 0) & (heads < QUOTE_NOTES)
}

// The line after one note more.
pub(crate) fn carried(l: Line, bar: u8, note: u8, s: NoiseStream) -> Line
    requires { l.head.n ≤ 2 }
    ensures { result ≡ carried_of l bar note s }
{
    let mut head = l.head;
    if opens_line(bar, head.n) {
        head.at[head.n] = note;
        head.n += 1;
    }
    Line {
        stream: s,
        from: l.prev,
        prev: note,
        head,
    }
}
