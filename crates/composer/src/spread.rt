// Draws of a time or a strength: from a spread, behind a time, or around the grid.
ghost use Rattle.std.specs.Prelude.{◌≡◌};
ghost use Rattle.composer.specs.Spread.{between_of, draw_of, after_of, jitter_of};

use streams::stream::{Draw, NoiseStream};

// A uniform draw from `base` up to `base + span`.
#[derive(Clone, Copy)]
pub struct Spread {
    pub base: f32,
    pub span: f32,
}

// A timing jitter `width` wide, `early` of it before the grid.
#[derive(Clone, Copy)]
pub struct Jitter {
    pub early: f32,
    pub width: f32,
}

// The spread from lo up to hi.
pub(crate) fn between(lo: f32, hi: f32) -> Spread
    ensures { result ≡ between_of lo hi }
{
    Spread {
        base: lo,
        span: hi - lo,
    }
}

impl Spread {
    // A value of the spread, from one draw.
    pub fn draw(self, s: NoiseStream) -> Draw<f32>
        ensures { result ≡ draw_of self s }
    {
        s.unit().map(|u| self.base + self.span * u)
    }

    // t, delayed by a value of the spread, from one draw.
    pub fn after(self, t: f32, s: NoiseStream) -> Draw<f32>
        ensures { result ≡ after_of self t s }
    {
        s.unit().map(|u| t + self.base + self.span * u)
    }
}

impl Jitter {
    // A time before or after the grid, from one draw.
    pub fn draw(self, s: NoiseStream) -> Draw<f32>
        ensures { result ≡ jitter_of self s }
    {
        s.unit().map(|u| (u - self.early) * self.width)
    }
}
