// Times in a bar.
ghost use Rattle.std.specs.Prelude.{◌≡◌};
ghost use Rattle.composer.specs.Timing.{bar_start_of, swing_delay_of, held_at_zero};

pub const BEATS_PER_BAR: f32 = 4.0;

pub const SIXTEENTH_BEATS: f32 = 0.25;

// Where a loop bar starts, in seconds: its bar line.
pub fn bar_start(bar: u8, beat_s: f32) -> f32
    ensures { result ≡ bar_start_of bar beat_s }
{
    bar as f32 * (beat_s * BEATS_PER_BAR)
}

// How far an off-eighth is delayed at swing s.
pub(crate) fn swing_delay(s: f32, eighth_s: f32) -> f32
    ensures { result ≡ swing_delay_of s eighth_s }
{
    (s - 0.5) * eighth_s
}

// t, or 0 where t is not above it: no hit is before the loop. `max` leaves it open which of 0 and -0 it gives.
pub(crate) fn held_at_zero(t: f32) -> f32
    ensures { result ≡ held_at_zero t }
{
    if t > 0.0 { t } else { 0.0 }
}
