// The codes of a sheet: what each names, and whether there is such a code. A code that nothing has gives some value;
// who asks tests the codes as well.
ghost use Rattle.std.specs.Prelude.{◌≡◌, ◌+◌, ◌*◌, ◌≤◌, length};
ghost use Rattle.reader.specs.Codes.{voice_coded, lead_role_coded, role_coded, kind_coded, bars_coded, edge_coded, end_coded, outro_coded, plays_coded, end_known, outro_known, name_known, kinds_known, ends_known, plays_known, coded};

use crate::layout::Formed;
use composer::form::ends::{Bars, Edge, End, Outro};
use composer::form::plays::Plays;
use composer::note::{DrumKind, NoteRole};
use composer::style::Style;
use composer::voice::LeadVoice;
use pages::get::byte_in;

pub(crate) fn voice_coded(n: u8) -> LeadVoice
    ensures { result ≡ voice_coded n }
{
    LeadVoice::try_from(n).unwrap_or(LeadVoice::Vibraphone)
}

pub(crate) fn kind_coded(n: u8) -> DrumKind
    ensures { result ≡ kind_coded n }
{
    DrumKind::try_from(n).unwrap_or(DrumKind::OpenHat)
}

// A lead note's six roles; any other code is none of them.
fn lead_role_coded(n: u8) -> NoteRole
    ensures { result ≡ lead_role_coded n }
{
    NoteRole::try_from(n).unwrap_or(NoteRole::Backing)
}

// The role of a note of the lead, or of any other.
pub(crate) fn role_coded(leads: bool, n: u8) -> NoteRole
    ensures { result ≡ role_coded leads n }
{
    if leads {
        lead_role_coded(n)
    } else if n == 6 {
        NoteRole::Backing
    } else {
        NoteRole::Quote
    }
}

// Bars and edges have two codes each: one test says that plainer than a conversion that may refuse.
fn bars_coded(n: u8) -> Bars
    ensures { result ≡ bars_coded n }
{
    if n == 4 { Bars::Four } else { Bars::Eight }
}

fn edge_coded(code: u8) -> Edge
    ensures { result ≡ edge_coded code }
{
    if code == 2 { Edge::Fade } else { Edge::Filter }
}

// An ending by its code and its bars.
#[tactic(auto, unfolding(crate::specs::Codes::end_coded))]
pub(crate) fn end_coded(code: u8, bars: u8) -> End
    ensures { result ≡ end_coded code bars }
{
    match code {
        0 => End::Cold,
        1 => End::Plain(bars_coded(bars)),
        _ => End::Edged(bars_coded(bars), edge_coded(code)),
    }
}

#[tactic(auto, unfolding(crate::specs::Codes::outro_coded))]
pub(crate) fn outro_coded(code: u8, bars: u8) -> Outro
    ensures { result ≡ outro_coded code bars }
{
    if code == 4 {
        Outro::RingOut
    } else {
        Outro::Ends(end_coded(code, bars))
    }
}

// The layers of a bar by its byte.
#[tactic(auto, unfolding(crate::specs::Codes::plays_coded))]
pub(crate) fn plays_coded(n: u8) -> Plays
    ensures { result ≡ plays_coded n }
{
    Plays {
        pad: n % 2 == 1,
        keys: n / 2 % 2 == 1,
        drums: n / 4 % 2 == 1,
        bass: n / 8 % 2 == 1,
    }
}

// Whether there is an intro, and an outro, of this code with so many bars.
#[tactic(auto, unfolding(crate::specs::Codes::end_known))]
fn end_known(code: u8, bars: u8) -> bool
    ensures { result ≡ end_known code bars }
{
    if code == 0 {
        bars == 0
    } else {
        (code <= 3) & ((bars == 4) | (bars == 8))
    }
}

#[tactic(auto, unfolding(crate::specs::Codes::outro_known))]
fn outro_known(code: u8, bars: u8) -> bool
    ensures { result ≡ outro_known code bars }
{
    if code == 4 {
        bars == 2
    } else {
        end_known(code, bars)
    }
}

// Style and voice.
#[tactic(auto, unfolding(crate::specs::Codes::name_known))]
fn name_known(bytes: &[u8], at: usize) -> bool
    requires { at + 10 ≤ length bytes.now }
    ensures { result ≡ name_known bytes.now at }
{
    let style = byte_in(bytes, at);
    let voice = byte_in(bytes, at + 9);
    Style::try_from(style).is_ok() & LeadVoice::try_from(voice).is_ok()
}

// The drums of n hits. By `all`, which ends at the first fault, reading a sheet took an eighth more instructions: a
// loop that has no such end tests many at once.
#[tactic(auto, unfolding(crate::specs::Codes::kinds_known, crate::specs::Tests::all_to))]
fn kinds_known(bytes: &[u8], at: usize, n: usize) -> bool
    requires { at + 10 * n ≤ length bytes.now }
    ensures { result ≡ kinds_known bytes.now at n }
{
    let mut ok = true;
    for i in 0..n {
        let kind = byte_in(bytes, at + 10 * i + 1);
        ok &= DrumKind::try_from(kind).is_ok();
    }
    ok
}

// Intro, outro and dip.
#[tactic(auto, unfolding(crate::specs::Codes::ends_known))]
fn ends_known(bytes: &[u8], at: usize) -> bool
    requires { at + 6 ≤ length bytes.now }
    ensures { result ≡ ends_known bytes.now at }
{
    let intro_code = byte_in(bytes, at);
    let intro_bars = byte_in(bytes, at + 1);
    let outro_code = byte_in(bytes, at + 3);
    let outro_bars = byte_in(bytes, at + 4);
    let dip = byte_in(bytes, at + 5);
    let intro = end_known(intro_code, intro_bars);
    let outro = outro_known(outro_code, outro_bars);
    intro & outro & (dip <= 1)
}

// The layers of n bars, in the same way.
#[tactic(auto, unfolding(crate::specs::Codes::plays_known, crate::specs::Tests::all_to))]
fn plays_known(bytes: &[u8], at: usize, n: usize) -> bool
    requires { at + n ≤ length bytes.now }
    ensures { result ≡ plays_known bytes.now at n }
{
    let mut ok = true;
    for b in 0..n {
        ok &= byte_in(bytes, at + b) < 16;
    }
    ok
}

// Whether every code of formed bytes is known.
#[tactic(auto, unfolding(crate::specs::Codes::coded))]
pub(crate) fn is_coded(formed: &Formed) -> bool
    ensures { result ≡ coded formed.now.fields.bytes.now }
{
    let fields = &formed.fields;
    let bytes = fields.bytes;
    let name = name_known(bytes, fields.body(0));
    let kinds = kinds_known(bytes, fields.body(6), fields.hits(6));
    let ends = ends_known(bytes, fields.body(8));
    let plays = plays_known(bytes, fields.body(9), fields.size(9));
    name & kinds & ends & plays
}
