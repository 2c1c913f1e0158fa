// The melody as played: behind the grid, each note with an accent.
ghost use Rattle.std.specs.Prelude.{◌≡◌, ◌≤◌};
ghost use Rattle.composer.specs.Lead.Played.{on_grid_of, played_note_of, played_of};

use crate::few::Few;
use crate::lead::LeadLane;
use crate::lead::melody::{LeadNote, Sung};
use crate::note::{NO_NOTE, Note};
use crate::spread::Spread;
use crate::timing::bar_start;
use streams::stream::{Draw, NoiseStream};

// How far behind the grid a note sounds, in seconds.
const LEAD_LAG: Spread = Spread {
    base: 0.008,
    span: 0.014,
};

// How its velocity swells or softens.
const LEAD_ACCENT: Spread = Spread {
    base: 0.92,
    span: 0.16,
};

// A note's time on the grid, in seconds.
fn on_grid(x: LeadNote, beat_s: f32) -> f32
    ensures { result ≡ on_grid_of x beat_s }
{
    bar_start(x.bar, beat_s) + x.beat * beat_s
}

// Its lag is drawn, then its accent.
fn play(x: LeadNote, beat_s: f32, dur: f32, s: NoiseStream) -> Draw<Note>
    ensures { result ≡ played_note_of x beat_s dur s }
{
    let at = LEAD_LAG.after(on_grid(x, beat_s), s);
    LEAD_ACCENT.draw(at.stream).map(|accent| Note {
        bar: x.bar,
        role: x.role.into(),
        spare: 0,
        at: at.value,
        midi: x.note,
        vel: x.vel * accent,
        dur,
    })
}

// All notes of the melody.
pub(crate) fn played(m: Sung, beat_s: f32, dur: f32) -> LeadLane
    requires { m.notes.n ≤ 56 }
    ensures { result ≡ played_of m beat_s dur }
{
    let mut notes = [NO_NOTE; 56];
    let mut stream = m.line.stream;
    for (i, &x) in m.notes.used().iter().enumerate() {
        let p = play(x, beat_s, dur, stream);
        notes[i] = p.value;
        stream = p.stream;
    }
    Draw {
        value: Few {
            at: notes,
            n: m.notes.n,
        },
        stream,
    }
}
