// The lead's grid: the beats among which a bar of the statement is drawn. 0.0 is the kick's.
ghost use Rattle.std.specs.Prelude.{◌≡◌};
ghost use Rattle.composer.specs.Lead.Grid.{grid_beat_of};

// Beat i of the grid, for i from 0 to 6: half of i + 1. In 16 bits that sum has room for every i.
pub(crate) fn grid_beat(i: u8) -> f32
    ensures { result ≡ grid_beat_of i }
{
    (i as u16 + 1) as f32 / 2.0
}
