// What may be asked of a form, also of one that `arrange` did not make.
ghost use Rattle.std.specs.Prelude.{◌≡◌, ◌+◌, ◌≤◌};
ghost use Rattle.composer.specs.Form.Ask.{sound_of, plays_of, filled, beatless_of};

use crate::form::Form;
use crate::form::plays::{ALL, Plays};
use crate::refusal::Refusal;

// Whether the parts are the form's bars, and at most 64.
fn is_sound(f: &Form) -> bool
    ensures { result ≡ sound_of f.now }
{
    let intro = f.intro_bars() as u16;
    let body = f.body_bars();
    let outro = f.outro_bars() as u16;
    let parts = intro + body + outro;
    let bars = f.bars as u16;
    (parts == bars) & (parts <= 64)
}

// The layers that strike in song bar `bar`. A form whose parts are not its bars, or are more than 64, is
// refused with 4, then a bar that it does not have with 3.
pub fn plays(f: &Form, bar: usize) -> Result<Plays, Refusal>
    ensures { result ≡ plays_of f.now bar }
{
    let sound = is_sound(f);
    if !sound {
        return Err(Refusal::Malformed);
    }
    let n = f.bars as usize;
    if n <= bar {
        return Err(Refusal::NoSuchBar);
    }
    Ok(f.plays[bar])
}

// All layers strike in the n bars from a on.
fn fill(plays: [Plays; 64], a: u8, n: u16) -> [Plays; 64]
    requires { a + n ≤ 64 }
    ensures { result ≡ filled plays a n }
{
    let mut out = plays;
    let from = a as usize;
    out[from..from + n as usize].fill(ALL);
    out
}

// The form that a band with no beat plays: its body plays all, its edges are plain, there is no dip, and the bars of
// intro and outro keep their plays. A form whose parts are not its bars, or are more than 64, is refused with 4.
pub fn beatless(f: &Form) -> Result<Form, Refusal>
    ensures { result ≡ beatless_of f.now }
{
    let sound = is_sound(f);
    if !sound {
        return Err(Refusal::Malformed);
    }
    let n = f.intro_bars();
    let body = f.body_bars();
    Ok(Form {
        intro: f.intro.plain(),
        phrases: f.phrases,
        outro: f.outro.plain(),
        dip: false,
        plays: fill(f.plays, n, body),
        bars: f.bars,
    })
}
