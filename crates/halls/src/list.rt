// A hall's list of seeds.
ghost use Rattle.std.specs.Prelude.{◌≡◌, ◌*◌, ◌≤◌, length};
ghost use Rattle.laws.specs.Writes.{Wrote};
ghost use Rattle.pages.specs.Answer.{written_of, buffer_of};
ghost use Rattle.halls.specs.List.{is_outside, list_bytes, list_asked};

use composer::refusal::Refusal;
use pages::put::put_u64;
use streams::mix::splitmix_draw;

// The first `count` seeds of a hall, 8 bytes each.
fn put_seeds(buf: &mut [u8], hall: u64, count: u64) -> usize
    requires { 8 * count ≤ length buf.old }
    ensures { Wrote buf.old buf.new 0 result (8 * count) (list_bytes hall count) }
{
    let mut at: usize = 0;
    for i in 0..count {
        let seed = splitmix_draw(hall, i + 1);
        at = put_u64(buf, at, seed);
    }
    at
}

// A list has 1 to 4,096 seeds.
fn is_outside(count: u64) -> bool
    ensures { result ≡ is_outside count }
{
    (count < 1) | (count > 4096)
}

// Writes a hall's list of `count` seeds from the buffer's first byte on and answers its length; what lies beyond stays.
// A count outside 1 to 4,096 is refused with 6, whatever the buffer, then a buffer that is too short with 2; a refusal
// writes nothing.
pub fn hall_list(hall: u64, count: u64, buf: &mut [u8]) -> Result<usize, Refusal>
    ensures value { result ≡ written_of (length buf.old) (list_asked hall count) }
    ensures buf_after { buf.new ≡ buffer_of buf.old (list_asked hall count) }
{
    let outside = is_outside(count);
    if outside {
        return Err(Refusal::HallCount);
    }
    if buf.len() as u64 / 8 < count {
        return Err(Refusal::ShortBuffer);
    }
    Ok(put_seeds(buf, hall, count))
}
