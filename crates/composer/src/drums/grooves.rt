// The grooves: where their kicks, snares and hats land, and how they swing and drag.
ghost use Rattle.std.specs.Prelude.{◌≡◌, ◌<◌};
ghost use Rattle.composer.specs.Drums.Grooves.{hiphop_groove_of};

use crate::few::Few;
use crate::spread::Spread;

// A kick: the beat it lands on in even bars and in odd ones, and its gain.
#[derive(Clone, Copy)]
pub struct Kick {
    pub even: f32,
    pub odd: f32,
    pub gain: f32,
}

// Whether only the off-eighths may strike, the chance that a slot stays silent, and the off-eighths' swing.
#[derive(Clone, Copy)]
pub struct Hats {
    pub off_eighths_only: bool,
    pub skip_p: f32,
    pub swing: f32,
    pub velocity: Spread,
}

// `snares` are the beats that the snare lands on. The kicks land `drag_s` seconds behind the grid. A ghost kick and an
// open hat may end each statement and answer.
#[derive(Clone, Copy)]
pub struct Groove {
    pub first: Kick,
    pub second: Kick,
    pub ghost_pickup: bool,
    pub drag_s: f32,
    pub snares: Few<f32, 2>,
    pub snare_gain: f32,
    pub hats: Hats,
    pub open_hat: bool,
}

const DOWNBEAT: f32 = 0.0;

const DRAG_KICK_S: f32 = 0.015;

// On 2 and 4.
const BACKBEATS: Few<f32, 2> = Few {
    at: [1.0, 3.0],
    n: 2,
};

const SNARE_GAIN: f32 = 0.85;

const HAT_VELOCITY: Spread = Spread {
    base: 0.4,
    span: 0.2,
};

pub const GHOST_KICK: Kick = Kick {
    even: 3.75,
    odd: 3.75,
    gain: 0.35,
};

// Backbeats on 2 and 4.
const BOOM_BAP: Groove = Groove {
    first: Kick {
        even: DOWNBEAT,
        odd: DOWNBEAT,
        gain: 0.82,
    },
    second: Kick {
        even: 2.25,
        odd: 2.5,
        gain: 0.70,
    },
    ghost_pickup: true,
    drag_s: DRAG_KICK_S,
    snares: BACKBEATS,
    snare_gain: SNARE_GAIN,
    hats: Hats {
        off_eighths_only: false,
        skip_p: 0.15,
        swing: 0.56,
        velocity: HAT_VELOCITY,
    },
    open_hat: true,
};

// Boom-bap again, its hats swung hard.
const SWUNG_BOOM_BAP: Groove = Groove {
    first: Kick {
        even: DOWNBEAT,
        odd: DOWNBEAT,
        gain: 0.82,
    },
    second: Kick {
        even: 2.25,
        odd: 2.5,
        gain: 0.70,
    },
    ghost_pickup: true,
    drag_s: DRAG_KICK_S,
    snares: BACKBEATS,
    snare_gain: SNARE_GAIN,
    hats: Hats {
        off_eighths_only: false,
        skip_p: 0.15,
        swing: 0.74,
        velocity: HAT_VELOCITY,
    },
    open_hat: true,
};

// The lazy backbeat.
const HALF_TIME: Groove = Groove {
    first: Kick {
        even: DOWNBEAT,
        odd: DOWNBEAT,
        gain: 0.82,
    },
    second: Kick {
        even: 2.75,
        odd: 2.75,
        gain: 0.7,
    },
    ghost_pickup: false,
    drag_s: DRAG_KICK_S,
    snares: Few {
        at: [2.0, 0.0],
        n: 1,
    },
    snare_gain: SNARE_GAIN,
    hats: Hats {
        off_eighths_only: false,
        skip_p: 0.30,
        swing: 0.56,
        velocity: HAT_VELOCITY,
    },
    open_hat: true,
};

// Quiet focus.
const SPARSE: Groove = Groove {
    first: Kick {
        even: DOWNBEAT,
        odd: DOWNBEAT,
        gain: 0.78,
    },
    second: Kick {
        even: 2.5,
        odd: 2.5,
        gain: 0.6,
    },
    ghost_pickup: false,
    drag_s: DRAG_KICK_S,
    snares: BACKBEATS,
    snare_gain: SNARE_GAIN,
    hats: Hats {
        off_eighths_only: false,
        skip_p: 0.45,
        swing: 0.56,
        velocity: HAT_VELOCITY,
    },
    open_hat: false,
};

// Soft closed hats, and a backbeat under the hiphop grooves'. Its drag is its own.
pub const SLEEP_GROOVE: Groove = Groove {
    first: Kick {
        even: DOWNBEAT,
        odd: DOWNBEAT,
        gain: 0.5,
    },
    second: Kick {
        even: 2.5,
        odd: 2.5,
        gain: 0.38,
    },
    ghost_pickup: false,
    drag_s: 0.018,
    snares: BACKBEATS,
    snare_gain: 0.43,
    hats: Hats {
        off_eighths_only: true,
        skip_p: 0.45,
        swing: 0.58,
        velocity: Spread {
            base: 0.40,
            span: 0.24,
        },
    },
    open_hat: false,
};

const HIPHOP_GROOVES: [Groove; 4] = [BOOM_BAP, SWUNG_BOOM_BAP, HALF_TIME, SPARSE];

pub(crate) fn hiphop_groove(n: u8) -> Groove
    requires { n < 4 }
    ensures { result ≡ hiphop_groove_of n }
{
    HIPHOP_GROOVES[n as usize]
}
