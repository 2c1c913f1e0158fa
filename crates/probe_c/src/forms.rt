// Forms in numbers: of a seed, and of parts that no draw need give.
ghost use Rattle.std.specs.Prelude.{false, ◌≡◌};
ghost use Rattle.composer.specs.Form.Ask.{plays_of};
ghost use Rattle.composer.specs.Form.Song.{arrange_of};
ghost use Rattle.composer.specs.Form.Spans.{spans_of, spans_number_of};
ghost use Rattle.probe.specs.Forms.{form_word_of, counter_of, beatless_word_of, plays_number_of, made_of};

// Word k of the seed's form. Word 0 has eight bytes: the intro's code and bars, the phrases, the
// outro's code and bars, the dip, the bar count, the lead-in. Words 1 to 4 have 16 bars each. Any
// other is 0.
#[unsafe(no_mangle)]
pub extern "C" fn probe_form(seed: u64, k: u8) -> u64
    ensures { result ≡ form_word_of (arrange_of seed) k }
{
    probe::forms::probe_form(seed, k)
}

// The same without a beat; word 5 is the number of the refusal, 0 for none.
#[unsafe(no_mangle)]
pub extern "C" fn probe_beatless(seed: u64, k: u8) -> u64
    ensures { result ≡ beatless_word_of (arrange_of seed) k }
{
    probe::forms::probe_beatless(seed, k)
}

// The counter of the form's stream after its draws.
#[unsafe(no_mangle)]
pub extern "C" fn probe_form_counter(seed: u64) -> u64
    ensures value { result ≡ counter_of seed }
    ensures draws { result ≡ 29 }
{
    probe::forms::probe_form_counter(seed)
}

// The layers of a bar of the seed's form with other parts, or minus the number of the refusal. Its
// ends go by number: 0 cold, then plain, fading and filtering, 4 bars and 8 of each; an outro 7
// rings out.
#[unsafe(no_mangle)]
pub extern "C" fn probe_made_plays(
    seed: u64,
    intro: u8,
    phrases: u8,
    outro: u8,
    bars: u8,
    bar: u64,
) -> i64
    ensures { result ≡ plays_number_of (plays_of (made_of seed intro phrases outro false bars) bar) }
{
    probe::forms::probe_made_plays(seed, intro, phrases, outro, bars, bar)
}

// Word k of such a form without a beat; word 5 is the number of the refusal, 0 for none.
#[unsafe(no_mangle)]
pub extern "C" fn probe_made_beatless(
    seed: u64,
    intro: u8,
    phrases: u8,
    outro: u8,
    dip: bool,
    bars: u8,
    k: u8,
) -> u64
    ensures { result ≡ beatless_word_of (made_of seed intro phrases outro dip bars) k }
{
    probe::forms::probe_made_beatless(seed, intro, phrases, outro, dip, bars, k)
}

// The number of what the seeds' forms span: 1, 2 or 0, as `spans` has them.
#[unsafe(no_mangle)]
pub extern "C" fn probe_spans(seeds: &[u64]) -> u8
    ensures { result ≡ spans_number_of (spans_of seeds.now) }
{
    probe::forms::probe_spans(seeds)
}
