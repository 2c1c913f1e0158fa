// The whole song: intro, body and outro of what the draws decide.
ghost use Rattle.std.specs.Prelude.{◌≡◌, ◌+◌, ◌*◌, ◌≤◌};
ghost use Rattle.composer.specs.Form.Song.{bars_by, intro_of, intro_plays, outro_of, outro_plays, song_plays_of, form_of, arrange_of};

use crate::form::Form;
use crate::form::body::{cut_heard, phrase_bar, phrase_of};
use crate::form::decisions::{Closing, Decisions, Opening, decide};
use crate::form::ends::{Bars, End, Outro};
use crate::form::plays::{ALL, Plays, SILENT};
use streams::stage::Stage;

fn bars_by(long: bool) -> Bars
    ensures { result ≡ bars_by long }
{
    if long { Bars::Eight } else { Bars::Four }
}

fn intro_of(o: Opening, long: bool) -> End
    ensures { result ≡ intro_of o long }
{
    let n = bars_by(long);
    match o {
        Opening::Sparse(_) => End::Plain(n),
        Opening::Edged(e) => End::Edged(n, e),
        Opening::Cold => End::Cold,
    }
}

fn intro_plays(o: Opening) -> Plays
    ensures { result ≡ intro_plays o }
{
    match o {
        Opening::Sparse(p) => p,
        Opening::Edged(_) => ALL,
        Opening::Cold => ALL,
    }
}

fn outro_of(c: Closing, long: bool) -> Outro
    ensures { result ≡ outro_of c long }
{
    let n = bars_by(long);
    match c {
        Closing::Sparse(_) => Outro::Ends(End::Plain(n)),
        Closing::RingOut => Outro::RingOut,
        Closing::Edged(e) => Outro::Ends(End::Edged(n, e)),
        Closing::Cold => Outro::Ends(End::Cold),
    }
}

// The layers that strike in outro bar k: a ring-out is the pad's chord, then the room alone.
fn outro_plays(c: Closing, k: u8) -> Plays
    ensures { result ≡ outro_plays c k }
{
    match c {
        Closing::Sparse(p) => p,
        Closing::RingOut => Plays {
            pad: k == 0,
            keys: false,
            drums: false,
            bass: false,
        },
        Closing::Edged(_) => ALL,
        Closing::Cold => ALL,
    }
}

// The song's bars after an intro of n bars, and silence past its end.
fn song_plays(d: Decisions, n: u8, bars: u8) -> [Plays; 64]
    requires { (d.phrases ≤ 6) × (n + 8 * d.phrases ≤ bars) × (bars ≤ 64) }
    ensures { result ≡ song_plays_of d n bars }
{
    let mut out = [SILENT; 64];
    let intro = intro_plays(d.opening);
    out[..n as usize].fill(intro);
    // taken out before the loop: an index into d's array would copy it for each phrase
    let cuts = d.cuts;
    for p in 0..d.phrases {
        let cut = cuts[p as usize];
        let phrase = phrase_of(d, cut, p);
        let first = n + 8 * p;
        for i in 0..8u8 {
            out[(first + i) as usize] = phrase_bar(phrase, i);
        }
    }
    let body = n + 8 * d.phrases;
    for b in body..bars {
        out[b as usize] = outro_plays(d.closing, b - body);
    }
    out
}

// The form of what the draws decide.
fn form_of(d: Decisions) -> Form
    requires { d.phrases ≤ 6 }
    ensures { result ≡ form_of d }
{
    let o = d.opening;
    let intro = intro_of(o, d.long_intro);
    let c = d.closing;
    let outro = outro_of(c, d.long_outro);
    let n = intro.bars();
    let bars = n + 8 * d.phrases + outro.bars();
    let plays = song_plays(d, n, bars);
    let cuts = d.cuts;
    let cut = cut_heard(d, cuts[1], 1);
    Form {
        intro,
        phrases: d.phrases,
        outro,
        dip: d.dip & !cut,
        plays,
        bars,
    }
}

// The form of the song with this seed.
pub fn arrange(seed: u64) -> Form
    ensures { result ≡ arrange_of seed }
{
    let s = Stage::Form.stream(seed);
    form_of(decide(s).value)
}
