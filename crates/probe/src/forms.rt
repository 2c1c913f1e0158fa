// Forms in numbers: of a seed, and of parts that no draw need give.
ghost use Rattle.std.specs.Prelude.{false, ◌≡◌, ◌+◌, ◌≤◌, length, pos, neg_ℤ};
ghost use Rattle.composer.specs.Form.Ask.{plays_of};
ghost use Rattle.composer.specs.Form.Song.{arrange_of};
ghost use Rattle.composer.specs.Form.Spans.{spans_of, spans_number_of};
ghost use Rattle.composer.specs.Refusal.{number_of};
ghost use Rattle.probe.specs.Forms.{bars_word_of, head_of, form_word_of, counter_of, outcome_number_of, beatless_word_of, plays_number_of, end_by, outro_by, made_of};

use composer::form::Form;
use composer::form::ask::{beatless, plays};
use composer::form::decisions::decide;
use composer::form::ends::{Bars, Edge, End, Outro};
use composer::form::plays::Plays;
use composer::form::song::arrange;
use composer::form::spans::spans;
use composer::refusal::Refusal;
use streams::stage::Stage;

// 16 bars from `from` on, four bits each, the first bar highest.
#[tactic(auto, unfolding(crate::specs::Forms::bars_word_of))]
fn bars_word(plays: &[Plays], from: usize) -> u64
    requires { from + 16 ≤ length plays.now }
    ensures { result ≡ bars_word_of plays.now from 16 }
{
    let mut w: u64 = 0;
    for p in &plays[from..from + 16] {
        w = w * 16 + p.bits() as u64;
    }
    w
}

// The form's numbers, a byte each.
#[tactic(auto, unfolding(crate::specs::Forms::head_of))]
fn head(f: &Form) -> u64
    ensures { result ≡ head_of f.now }
{
    u64::from_be_bytes([
        f.intro.code(),
        f.intro_bars(),
        f.phrases,
        f.outro.code(),
        f.outro_bars(),
        u8::from(f.dip),
        f.bars,
        f.lead_in(),
    ])
}

// Word k of the form.
#[tactic(auto, unfolding(crate::specs::Forms::form_word_of))]
fn word(f: &Form, k: u8) -> u64
    ensures { result ≡ form_word_of f.now k }
{
    if k == 0 {
        return head(f);
    }
    if k > 4 {
        return 0;
    }
    bars_word(&f.plays, 16 * (k as usize - 1))
}

// The number of the refusal, 0 for none.
pub fn outcome_number<T: Copy>(o: Result<T, Refusal>) -> u64
    ensures { result ≡ outcome_number_of o }
{
    match o {
        Ok(_) => 0,
        Err(r) => r.number() as u64,
    }
}

// Word k of the form without a beat; word 5 is the number of the refusal.
#[tactic(auto, unfolding(crate::specs::Forms::beatless_word_of))]
fn beatless_word(f: &Form, k: u8) -> u64
    ensures { result ≡ beatless_word_of f.now k }
{
    let still = beatless(f);
    if k == 5 {
        return outcome_number(still);
    }
    word(&still.unwrap_or(*f), k)
}

// Minus the number of the refusal.
pub fn minus_number(r: Refusal) -> i64
    ensures { result ≡ neg_ℤ (pos (number_of r)) }
{
    -(r.number() as i64)
}

// The bar's layers, or minus the number of the refusal.
fn plays_number(a: Result<Plays, Refusal>) -> i64
    ensures { result ≡ plays_number_of a }
{
    match a {
        Ok(p) => p.bits() as i64,
        Err(r) => minus_number(r),
    }
}

// The ends by number.
const ENDS: [End; 7] = [
    End::Cold,
    End::Plain(Bars::Four),
    End::Plain(Bars::Eight),
    End::Edged(Bars::Four, Edge::Fade),
    End::Edged(Bars::Eight, Edge::Fade),
    End::Edged(Bars::Four, Edge::Filter),
    End::Edged(Bars::Eight, Edge::Filter),
];

// The end by its number; a number of none is cold.
#[tactic(auto, unfolding(crate::specs::Forms::end_by))]
fn end_by(n: u8) -> End
    ensures { result ≡ end_by n }
{
    ENDS.get(n as usize).copied().unwrap_or(End::Cold)
}

// The outro by its number: 7 rings out.
fn outro_by(n: u8) -> Outro
    ensures { result ≡ outro_by n }
{
    if n == 7 {
        Outro::RingOut
    } else {
        Outro::Ends(end_by(n))
    }
}

// The seed's form with other parts.
#[tactic(auto, unfolding(crate::specs::Forms::made_of))]
fn made(seed: u64, intro: u8, phrases: u8, outro: u8, dip: bool, bars: u8) -> Form
    ensures { result ≡ made_of seed intro phrases outro dip bars }
{
    let f = arrange(seed);
    let plays = f.plays;
    Form {
        intro: end_by(intro),
        phrases,
        outro: outro_by(outro),
        dip,
        plays,
        bars,
    }
}

// Word k of the seed's form. Word 0 has eight bytes: the intro's code and bars, the phrases, the
// outro's code and bars, the dip, the bar count, the lead-in. Words 1 to 4 have 16 bars each. Any
// other is 0.
pub fn probe_form(seed: u64, k: u8) -> u64
    ensures { result ≡ form_word_of (arrange_of seed) k }
{
    word(&arrange(seed), k)
}

// The same without a beat; word 5 is the number of the refusal, 0 for none.
pub fn probe_beatless(seed: u64, k: u8) -> u64
    ensures { result ≡ beatless_word_of (arrange_of seed) k }
{
    beatless_word(&arrange(seed), k)
}

// The counter of the form's stream after its draws.
pub fn probe_form_counter(seed: u64) -> u64
    ensures value { result ≡ counter_of seed }
    ensures draws { result ≡ 29 }
{
    let s = Stage::Form.stream(seed);
    decide(s).stream.counter
}

// The layers of a bar of the seed's form with other parts, or minus the number of the refusal. Its
// ends go by number: 0 cold, then plain, fading and filtering, 4 bars and 8 of each; an outro 7
// rings out.
pub fn probe_made_plays(seed: u64, intro: u8, phrases: u8, outro: u8, bars: u8, bar: u64) -> i64
    ensures { result ≡ plays_number_of (plays_of (made_of seed intro phrases outro false bars) bar) }
{
    let f = made(seed, intro, phrases, outro, false, bars);
    plays_number(plays(&f, bar as usize))
}

// Word k of such a form without a beat; word 5 is the number of the refusal, 0 for none.
pub fn probe_made_beatless(
    seed: u64,
    intro: u8,
    phrases: u8,
    outro: u8,
    dip: bool,
    bars: u8,
    k: u8,
) -> u64
    ensures { result ≡ beatless_word_of (made_of seed intro phrases outro dip bars) k }
{
    beatless_word(&made(seed, intro, phrases, outro, dip, bars), k)
}

// The number of what the seeds' forms span: 1, 2 or 0, as `spans` has them.
pub fn probe_spans(seeds: &[u64]) -> u8
    ensures { result ≡ spans_number_of (spans_of seeds.now) }
{
    let a = spans(seeds);
    a.number()
}
