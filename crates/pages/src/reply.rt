// What a program writes for a call: the call's bytes, or one field with the number of its refusal.
ghost use Rattle.std.specs.Prelude.{◌++◌, ◌≡◌, ◌≤◌, length, drop};
ghost use Rattle.pages.specs.Reply.{refusal_field, length_after, buffer_after};

use crate::put::{put_head, put_u8};
use composer::refusal::Refusal;

// One field with tag 0x7f whose single byte is the refusal.
pub fn put_refusal(out: &mut [u8], r: Refusal) -> usize
    requires { 4 ≤ length out.old }
    ensures value { result ≡ length (refusal_field r) }
    ensures out_after { out.new ≡ refusal_field r ++ drop (length (refusal_field r)) out.old }
{
    let number = r.number();
    let at = put_head(out, 0, 0x7f, 1);
    put_u8(out, at, number)
}

// After a call has answered w and written to `out`: a refusal's field is written now. Answers how long the reply is.
pub fn reply(w: Result<usize, Refusal>, out: &mut [u8]) -> usize
    requires { 4 ≤ length out.old }
    ensures value { result ≡ length_after w }
    ensures out_after { out.new ≡ buffer_after w out.old }
{
    match w {
        Ok(n) => n,
        Err(r) => put_refusal(out, r),
    }
}
