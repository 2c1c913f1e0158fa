// A bar of the song, and whether it plays drums.
ghost use Rattle.std.specs.Prelude.{◌≡◌};
ghost use Rattle.pages.specs.Bar.{plays_drums};

use composer::form::Form;
use composer::form::ask::plays;

// Whether the song has a bar `bar` and it plays drums.
pub(crate) fn plays_drums(f: &Form, bar: u64) -> bool
    ensures { result ≡ plays_drums f.now bar }
{
    match plays(f, bar as usize) {
        Ok(p) => p.drums,
        Err(_) => false,
    }
}
