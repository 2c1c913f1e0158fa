// What the 29 draws of a song's form decide. Every draw is made whether or not its branch applies.
ghost use Rattle.std.specs.Prelude.{◌≡◌};
ghost use Rattle.composer.specs.Form.Decisions.{opening_of, thinning_of, closing_of, cut_of, cuts_by, long_outro_p, decisions_by, listed, draw_all_of, decide_of};

use crate::band::band;
use crate::form::ends::Edge;
use crate::form::plays::{BED, DRUMS_BASS, KEYS, KEYS_BASS, KEYS_DRUMS, Plays};
use streams::draw::picked;
use streams::stream::{Draw, NoiseStream};

// How a song opens.
#[derive(Clone, Copy, Debug, PartialEq, Eq)]
pub enum Opening {
    // some layers sit out the intro
    Sparse(Plays),
    // the band plays the intro through the edge
    Edged(Edge),
    Cold,
}

// How a song closes.
#[derive(Clone, Copy, Debug, PartialEq, Eq)]
pub enum Closing {
    // some layers sit out the outro
    Sparse(Plays),
    RingOut,
    // the band plays the outro through the edge
    Edged(Edge),
    Cold,
}

// What drops out in the body's middle phrase.
#[derive(Clone, Copy, PartialEq, Eq, Debug)]
pub enum Thinning {
    Break,
    BassDrop,
    Steady,
}

// A phrase's cut: whether it is drawn, the bars it takes, and whether the bass leaves with the beat. All three are drawn
// whether it is on or not, so it is no Option.
#[derive(Clone, Copy, Debug, PartialEq, Eq)]
pub struct Cut {
    pub on: bool,
    pub bars: u8,
    pub low: bool,
}

#[derive(Clone, Copy, Debug, PartialEq, Eq)]
pub struct Decisions {
    pub opening: Opening,
    pub long_intro: bool,
    pub phrases: u8,
    pub thinning: Thinning,
    pub whole: bool,
    pub low_with_break: bool,
    pub cutting: bool,
    pub cuts: [Cut; 6],
    pub bass_drop: bool,
    pub dip: bool,
    pub closing: Closing,
    pub long_outro: bool,
}

// The intros and their weights.
const OPENINGS: [Opening; 8] = [
    Opening::Sparse(KEYS),
    Opening::Sparse(KEYS_BASS),
    Opening::Sparse(KEYS_DRUMS),
    Opening::Sparse(BED),
    Opening::Sparse(DRUMS_BASS),
    Opening::Edged(Edge::Fade),
    Opening::Edged(Edge::Filter),
    Opening::Cold,
];

const INTRO_WEIGHTS: [u16; 8] = [27, 13, 10, 7, 5, 13, 10, 5];

// The outros and their weights.
const CLOSINGS: [Closing; 7] = [
    Closing::Sparse(KEYS),
    Closing::Sparse(KEYS_DRUMS),
    Closing::Sparse(KEYS_BASS),
    Closing::RingOut,
    Closing::Edged(Edge::Fade),
    Closing::Edged(Edge::Filter),
    Closing::Cold,
];

const OUTRO_WEIGHTS: [u16; 7] = [14, 11, 10, 18, 31, 7, 4];

// The thinnings and their weights.
const THINNINGS: [Thinning; 3] = [Thinning::Break, Thinning::BassDrop, Thinning::Steady];

const THINNING_WEIGHTS: [u16; 3] = [3, 5, 2];

// The weights of cuts of 1, 2 and 3 bars.
const CUT_WEIGHTS: [u16; 3] = [55, 20, 25];

const LONG_INTRO_P: f32 = 0.65;

const WHOLE_THINNING_P: f32 = 0.4;

const LOW_WITH_BREAK_P: f32 = 0.5;

const CUTTING_P: f32 = 0.5;

const CUT_P: f32 = 0.75;

const LOW_WITH_CUT_P: f32 = 0.3;

const BASS_DROP_P: f32 = 0.2;

const DIP_P: f32 = 0.2;

const LONG_SPARSE_OUTRO_P: f32 = 0.4;

const LONG_EDGED_OUTRO_P: f32 = 0.5;

fn opening_of(u: f32) -> Opening
    ensures { result ≡ opening_of u }
{
    let row = band(u, &INTRO_WEIGHTS);
    OPENINGS[row]
}

fn thinning_of(u: f32) -> Thinning
    ensures { result ≡ thinning_of u }
{
    let row = band(u, &THINNING_WEIGHTS);
    THINNINGS[row]
}

fn closing_of(u: f32) -> Closing
    ensures { result ≡ closing_of u }
{
    let row = band(u, &OUTRO_WEIGHTS);
    CLOSINGS[row]
}

// A cut, by its three draws.
fn cut_of(u: f32, v: f32, w: f32) -> Cut
    ensures { result ≡ cut_of u v w }
{
    let row = band(v, &CUT_WEIGHTS);
    Cut {
        on: u < CUT_P,
        bars: row as u8 + 1,
        low: w < LOW_WITH_CUT_P,
    }
}

// The share of long outros among those that close so. Ring-outs and cold ends have one length.
fn long_outro_p(c: Closing) -> f32
    ensures { result ≡ long_outro_p c }
{
    match c {
        Closing::Sparse(_) => LONG_SPARSE_OUTRO_P,
        Closing::RingOut => LONG_EDGED_OUTRO_P,
        Closing::Edged(_) => LONG_EDGED_OUTRO_P,
        Closing::Cold => LONG_EDGED_OUTRO_P,
    }
}

// A cut for each phrase that a body may have, whatever this one has.
fn cuts_by(u: [f32; 29]) -> [Cut; 6]
    ensures { result ≡ cuts_by (listed u) }
{
    let a = cut_of(u[7], u[8], u[9]);
    let b = cut_of(u[10], u[11], u[12]);
    let c = cut_of(u[13], u[14], u[15]);
    let d = cut_of(u[16], u[17], u[18]);
    let e = cut_of(u[19], u[20], u[21]);
    let f = cut_of(u[22], u[23], u[24]);
    [a, b, c, d, e, f]
}

// What the draws decide: u[n - 1] is draw n.
fn decisions_by(u: [f32; 29]) -> Decisions
    ensures { result ≡ decisions_by (listed u) }
{
    let opening = opening_of(u[0]);
    let more = picked(u[2], 3);
    let thinning = thinning_of(u[3]);
    let cuts = cuts_by(u);
    let closing = closing_of(u[27]);
    let share = long_outro_p(closing);
    Decisions {
        opening,
        long_intro: u[1] < LONG_INTRO_P,
        phrases: 4 + more,
        thinning,
        whole: u[4] < WHOLE_THINNING_P,
        low_with_break: u[5] < LOW_WITH_BREAK_P,
        cutting: u[6] < CUTTING_P,
        cuts,
        bass_drop: u[25] < BASS_DROP_P,
        dip: u[26] < DIP_P,
        closing,
        long_outro: u[28] < share,
    }
}

// All 29 draws.
fn draw_all(s: NoiseStream) -> Draw<[f32; 29]>
    ensures { result ≡ draw_all_of s }
{
    let mut values = [0.0f32; 29];
    let mut stream = s;
    for value in &mut values {
        let d = stream.unit();
        *value = d.value;
        stream = d.stream;
    }
    Draw {
        value: values,
        stream,
    }
}

// What the 29 draws of a stream decide.
pub fn decide(s: NoiseStream) -> Draw<Decisions>
    ensures { result ≡ decide_of s }
{
    draw_all(s).map(decisions_by)
}
