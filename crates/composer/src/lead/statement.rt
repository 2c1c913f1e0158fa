// A bar of the statement: the slots of the grid that sound, pushed and settled.
ghost use Rattle.std.specs.Prelude.{◌≡◌, cond, ◌≤◌};
ghost use Rattle.composer.specs.Lead.Statement.{statement_bar_of};

use crate::lead::beats::{Beats, NO_BEATS, settle};
use crate::lead::grid::grid_beat;
use crate::lead::push::push;
use crate::style::LeadStyle;
use streams::draw::chance;
use streams::stream::{Draw, NoiseStream};

// One of two numbers.
fn chosen(first: bool, a: u64, b: u64) -> u64
    ensures { result ≡ cond first a b }
{
    if first { a } else { b }
}

// The stream after a slot's push, which only a slot that sounds has drawn.
fn after(sounds: bool, pushed: NoiseStream, before: NoiseStream) -> NoiseStream
    ensures { result ≡ cond sounds pushed before }
{
    let seed = chosen(sounds, pushed.seed, before.seed);
    let counter = chosen(sounds, pushed.counter, before.counter);
    NoiseStream { seed, counter }
}

// A bar of the statement: all slots are drawn, then the pushes of those that sound.
pub(crate) fn statement_bar(s: NoiseStream, style: LeadStyle) -> Draw<Beats>
    ensures value { result ≡ statement_bar_of s style }
    ensures n_bound { result.value.n ≤ 7 }
{
    let rests = style.rest_p.draw(s);
    if rests.value {
        return rests.map(|_| NO_BEATS);
    }
    let mut sounds = [false; 7];
    let mut stream = rests.stream;
    for sound in &mut sounds {
        let c = chance(stream, style.note_p);
        *sound = c.value;
        stream = c.stream;
    }
    let mut at = [0.0f32; 7];
    let mut n: usize = 0;
    for i in 0..7u8 {
        // Each is written, and the next over it unless it sounds.
        let d = push(stream, grid_beat(i));
        let heard = sounds[i as usize];
        at[n] = d.value;
        n += heard as usize;
        stream = after(heard, d.stream, stream);
    }
    Draw {
        value: settle(&mut at, n),
        stream,
    }
}
