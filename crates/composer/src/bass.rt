// The bass stage: a rhythm for each bar of the loop, then the notes of every bar.
ghost use Rattle.std.specs.Prelude.{◌≡◌};
ghost use Rattle.composer.specs.Harmony.{Tonal};
ghost use Rattle.composer.specs.Bass.{bass_of};

use crate::bass::line::{BarPart, played_note};
use crate::bass::rhythm::bass_rhythms;
use crate::few::Few;
use crate::harmony::Harmony;
use crate::note::{NO_NOTE, Note};
use crate::style::{Style, bass_style};
use streams::stream::{Draw, NoiseStream};

pub mod line;
pub mod rhythm;

// The notes, in the order drawn, and the stream after their draws; the others are zero.
pub type BassLane = Draw<Few<Note, 104>>;

// Every bar's rhythm before any note, since a bar's last note is held by where the next bar starts.
pub(crate) fn bass(s: NoiseStream, h: Harmony, style: Style, beat_s: f32) -> BassLane
    requires { Tonal h }
    ensures { result ≡ bass_of s h style beat_s }
{
    let knobs = bass_style(style);
    let rhythms = bass_rhythms(s);
    let mut notes = [NO_NOTE; 104];
    let mut count: usize = 0;
    let mut stream = rhythms.stream;
    for b in 0..8usize {
        // Bar 0 follows bar 7.
        let next = (b + 1) % 8;
        let steps = rhythms.value[b];
        let part = BarPart {
            bar: b as u8,
            root_pc: h.bars[b].root_class(),
            next_pc: h.bars[next].root_class(),
            steps,
            next_step: rhythms.value[next].at[0],
        };
        for i in 0..steps.n {
            let d = played_note(stream, part, knobs, beat_s, i);
            notes[count] = d.value;
            count += 1;
            stream = d.stream;
        }
    }
    Draw {
        value: Few {
            at: notes,
            n: count,
        },
        stream,
    }
}
