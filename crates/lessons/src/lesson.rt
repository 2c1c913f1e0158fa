// A seed for a lesson: one of a span whose song has what is wished.
ghost use Rattle.std.specs.Prelude.{◌≡◌, ◌+◌, ◌^◌, ◌≤◌};
ghost use Rattle.composer.specs.Refusal.{answered};
ghost use Rattle.lessons.specs.Inner.Search.{is_suited, SuitsIn};
ghost use Rattle.lessons.specs.Lesson.{is_no_span, Found, LessonAllowed};

use crate::wishes::Wishes;
use composer::refusal::Refusal;
use composer::style::Style;
use composer::traits::traits_of;

// Whether the song of a seed has what is wished. It is not composed.
#[tactic(auto, unfolding(crate::specs::Inner::Search::is_suited))]
fn suits(style: Style, wishes: Wishes, seed: u64) -> bool
    ensures { result ≡ is_suited style wishes seed }
{
    let t = traits_of(style, seed);
    wishes.met_by(t)
}

// A seed among the `count` seeds from `start` on whose song has what is wished, or 12.
fn search(style: Style, wishes: Wishes, start: u64, count: u64) -> Result<u64, Refusal>
    requires { start + count ≤ 2 ^ 64 }
    ensures { Found (SuitsIn style wishes) start count (answered result) }
{
    for i in 0..count {
        let seed = start + i;
        if suits(style, wishes, seed) {
            return Ok(seed);
        }
    }
    Err(Refusal::NoSeed)
}

// Whether it is no span: of no seed, of more than 65,536, or past the largest seed. Nothing is added up, so nothing
// wraps.
#[tactic(auto, unfolding(crate::specs::Lesson::is_no_span))]
fn is_no_span(start: u64, count: u64) -> bool
    ensures { result ≡ is_no_span start count }
{
    if count < 1 {
        return true;
    }
    if count > 65536 {
        return true;
    }
    u64::MAX - start < count - 1
}

// Some seed among the `count` seeds from `start` on whose song, in style 0 or 1, has key, tempo and voice as wished;
// which of them is left to this program. Any other style is refused with 1, then a count outside 1 to 65,536 or a span
// past the largest seed with 10, then a wish outside its codes with 11, and then with 12 just where no seed of the span
// has all three.
#[tactic(auto, unfolding(crate::specs::Lesson::is_no_span))]
pub fn lesson(style: u8, start: u64, count: u64, wishes: Wishes) -> Result<u64, Refusal>
    ensures { LessonAllowed style start count wishes result }
{
    let known = Style::try_from(style)?;
    if is_no_span(start, count) {
        return Err(Refusal::LessonSpan);
    }
    if wishes.is_unknown() {
        return Err(Refusal::LessonWish);
    }
    search(known, wishes, start, count)
}
