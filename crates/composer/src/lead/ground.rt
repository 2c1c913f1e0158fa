// What a bar's notes are drawn from: the window, the velocities, and the chord's tones.
ghost use Rattle.std.specs.Prelude.{◌≡◌, ◌≤◌};
ghost use Rattle.composer.specs.Lead.Ground.{ground_from, tones_for_of};

use crate::chord::Chord;
use crate::lead::tones::{Tones, chord_tones, strong_of};
use crate::spread::Spread;
use crate::style::LeadStyle;

// `strong` has the tones of a strong beat: none is the root, where there are others.
#[derive(Clone, Copy)]
pub struct Ground {
    pub lo: u8,
    pub hi: u8,
    pub velocity: Spread,
    pub tones: Tones,
    pub strong: Tones,
}

// The ground of a bar with this chord: `sung` has the scale's notes in the window.
pub(crate) fn ground_of(style: LeadStyle, chord: Chord, sung: Tones) -> Ground
    requires { sung.n ≤ 20 }
    ensures { result ≡ ground_from style chord sung }
{
    let found = chord_tones(sung, chord);
    Ground {
        lo: style.lo,
        hi: style.hi,
        velocity: style.velocity,
        tones: found.tones,
        strong: strong_of(found.tones, found.rootless),
    }
}

// The tones for a strong beat or a weak one.
pub(crate) fn tones_for(g: Ground, strong: bool) -> Tones
    ensures { result ≡ tones_for_of g strong }
{
    if strong { g.strong } else { g.tones }
}
