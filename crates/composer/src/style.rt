// The two styles, and every setting their songs are written with.
ghost use Rattle.std.specs.Prelude.{◌≡◌};
ghost use Rattle.composer.specs.Style.{style_number_of, style_named, odds_of, major_share_of, bpm_of, lead_style_of, keys_style_of, bass_style_of};

use crate::refusal::Refusal;
use crate::spread::{Spread, between};
use streams::draw::chance;
use streams::stream::{Draw, NoiseStream};

#[derive(Clone, Copy, Debug, PartialEq, Eq)]
pub enum Style {
    Hiphop = 0,
    Sleep = 1,
}

impl Style {
    // Its number on a sheet: the cast by a name that is public.
    pub fn number(self) -> u8
        ensures { result ≡ style_number_of self }
    {
        self as u8
    }
}

// The style by its number; a number of none is refused.
impl TryFrom<u8> for Style {
    type Error = Refusal;

    ghost try_from_gives = { λ n r. r ≡ style_named n };

    fn try_from(n: u8) -> Result<Style, Refusal> {
        match n {
            0 => Ok(Style::Hiphop),
            1 => Ok(Style::Sleep),
            _ => Err(Refusal::UnknownStyle),
        }
    }
}

// The chance of what a style may not do at all. Document 01 asks for an enum here where the Rust has an Option.
#[derive(Clone, Copy)]
pub enum Odds {
    Never,
    Chance(f32),
}

impl Odds {
    // Yes by its chance; where there is none, no without a draw.
    pub fn draw(self, s: NoiseStream) -> Draw<bool>
        ensures { result ≡ odds_of self s }
    {
        match self {
            Odds::Never => Draw {
                value: false,
                stream: s,
            },
            Odds::Chance(p) => chance(s, p),
        }
    }
}

// The lead's window, the chance that a bar rests and that a slot sounds, how hard and how long a note is.
#[derive(Clone, Copy)]
pub struct LeadStyle {
    pub lo: u8,
    pub hi: u8,
    pub rest_p: Odds,
    pub note_p: f32,
    pub velocity: Spread,
    pub dur: f32,
}

// The chance that an eighth strikes: drawn once a song, or the same in every song with no draw. Document 01 names its
// form.
#[derive(Clone, Copy)]
pub enum Density {
    Drawn(Spread),
    Fixed(f32),
}

// What the keys strike: a rolled shell of third and seventh, or one chord tone.
#[derive(Clone, Copy, PartialEq, Eq, Debug)]
pub enum Comp {
    Shell,
    Single,
}

#[derive(Clone, Copy)]
pub struct KeysStyle {
    pub density: Density,
    pub velocity: Spread,
    pub comp: Comp,
    pub dur: f32,
}

// The chance of a fifth, the chance of a pickup, and the root's velocity.
#[derive(Clone, Copy)]
pub struct BassStyle {
    pub fifth_p: f32,
    pub pickup_p: Odds,
    pub velocity: Spread,
}

// The share of songs over a major loop.
pub(crate) fn major_share(style: Style) -> f32
    ensures { result ≡ major_share_of style }
{
    match style {
        Style::Hiphop => 0.8,
        Style::Sleep => 0.42,
    }
}

// The tempo's window, in beats per minute.
pub(crate) fn bpm(style: Style) -> Spread
    ensures { result ≡ bpm_of style }
{
    match style {
        Style::Hiphop => between(70.0, 82.0),
        Style::Sleep => between(73.0, 77.0),
    }
}

// How a style writes its lead.
pub(crate) fn lead_style(style: Style) -> LeadStyle
    ensures { result ≡ lead_style_of style }
{
    match style {
        Style::Hiphop => LeadStyle {
            lo: 65,
            hi: 81,
            rest_p: Odds::Never,
            note_p: 0.45,
            velocity: Spread {
                base: 0.34,
                span: 0.10,
            },
            dur: 2.0,
        },
        Style::Sleep => LeadStyle {
            lo: 60,
            hi: 79,
            rest_p: Odds::Chance(0.25),
            note_p: 0.35,
            velocity: Spread {
                base: 0.25,
                span: 0.12,
            },
            dur: 2.2,
        },
    }
}

// How a style writes its keys.
pub(crate) fn keys_style(style: Style) -> KeysStyle
    ensures { result ≡ keys_style_of style }
{
    let drawn = between(0.28, 0.38);
    match style {
        Style::Hiphop => KeysStyle {
            density: Density::Drawn(drawn),
            velocity: Spread {
                base: 0.42,
                span: 0.30,
            },
            comp: Comp::Shell,
            dur: 0.9,
        },
        Style::Sleep => KeysStyle {
            density: Density::Fixed(0.15),
            velocity: Spread {
                base: 0.35,
                span: 0.25,
            },
            comp: Comp::Single,
            dur: 1.1,
        },
    }
}

// How a style writes its bass.
pub(crate) fn bass_style(style: Style) -> BassStyle
    ensures { result ≡ bass_style_of style }
{
    match style {
        Style::Hiphop => BassStyle {
            fifth_p: 0.4,
            pickup_p: Odds::Chance(0.25),
            velocity: Spread {
                base: 0.62,
                span: 0.08,
            },
        },
        Style::Sleep => BassStyle {
            fifth_p: 0.2,
            pickup_p: Odds::Never,
            velocity: Spread {
                base: 0.55,
                span: 0.08,
            },
        },
    }
}
