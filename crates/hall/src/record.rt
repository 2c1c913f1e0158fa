// A record, 8 bytes of hall number and 2 of count, and what the program writes for it.
ghost use Rattle.std.specs.Prelude.{◌≡◌, length};
ghost use Rattle.pages.specs.Reply.{replied_length, replied_buffer};
ghost use Rattle.hall.specs.Record.{hall_asked};

use composer::refusal::Refusal;
use halls::list::hall_list;
use pages::get::{u16_at, u64_at};
use pages::reply::{put_refusal, reply};

// Writes what the program answers to a record from the first byte of `out` on, and answers its length: the hall's list,
// or the field of a refusal, 5 where the record has not ten bytes, then 6 for a count outside 1 to 4,096. With fewer
// than 32,768 places, the most a list takes, it writes nothing and answers 0.
pub fn respond(input: &[u8], out: &mut [u8]) -> usize
    ensures value { result ≡ replied_length 32768 (length out.old) (hall_asked input.now) }
    ensures out_after { out.new ≡ replied_buffer 32768 out.old (hall_asked input.now) }
{
    if out.len() < 32768 {
        return 0;
    }
    if input.len() != 10 {
        return put_refusal(out, Refusal::WrongLength);
    }
    let hall = u64_at(input, 0);
    let count = u16_at(input, 8);
    let w = hall_list(hall, count as u64, out);
    reply(w, out)
}
