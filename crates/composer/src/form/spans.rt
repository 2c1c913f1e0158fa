// Whether songs span a form: some bar mutes a layer, and some edge or dip moves.
ghost use Rattle.std.specs.Prelude.{◌≡◌, ◌≤◌};
ghost use Rattle.composer.specs.Form.Spans.{mutes_in, edged_of, spans_by, spans_of, spans_number_of};

use crate::form::Form;
use crate::form::plays::ALL;
use crate::form::song::arrange;

#[derive(Clone, Copy, PartialEq, Eq, Debug)]
pub enum SpansAnswer {
    NoneMutes = 1,
    NoneMoves = 2,
    Spans = 0,
}

impl SpansAnswer {
    // Its number: 1, 2 and 0.
    pub fn number(self) -> u8
        ensures { result ≡ spans_number_of self }
    {
        self as u8
    }
}

// Whether one of the form's bars has a silent layer.
fn mutes_any(f: &Form) -> bool
    requires { f.now.bars ≤ 64 }
    ensures { result ≡ mutes_in f.now.plays f.now.bars }
{
    f.plays[..f.bars as usize].iter().any(|p| *p != ALL)
}

// Whether the form fades, filters or dips somewhere.
fn edged(f: Form) -> bool
    ensures { result ≡ edged_of f }
{
    let intro = f.intro;
    let outro = f.outro;
    intro.edged() | outro.edged() | f.dip
}

fn spans_by(mutes: bool, moves: bool) -> SpansAnswer
    ensures { result ≡ spans_by mutes moves }
{
    if mutes {
        if moves {
            SpansAnswer::Spans
        } else {
            SpansAnswer::NoneMoves
        }
    } else {
        SpansAnswer::NoneMutes
    }
}

// NoneMutes if no form of the seeds has a bar with a silent layer, as where there are no seeds; else NoneMoves if none
// has an edge or a dip; else Spans. It refuses nothing.
pub fn spans(seeds: &[u64]) -> SpansAnswer
    ensures { result ≡ spans_of seeds.now }
{
    let mut mutes = false;
    let mut moves = false;
    for &seed in seeds {
        let f = arrange(seed);
        mutes |= mutes_any(&f);
        moves |= edged(f);
    }
    spans_by(mutes, moves)
}
