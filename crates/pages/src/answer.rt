// What a call answers that writes into a buffer.
ghost use Rattle.std.specs.Prelude.{◌≡◌, length};
ghost use Rattle.pages.specs.Answer.{Writes, written_of, buffer_of};

use crate::put::put_bytes;
use composer::refusal::Refusal;

// Bytes as they stand, if the buffer is as long as they are, and how many.
pub fn bytes_into(bytes: &[u8], buf: &mut [u8]) -> Result<usize, Refusal>
    ensures value { result ≡ written_of (length buf.old) (Writes bytes.now) }
    ensures buf_after { buf.new ≡ buffer_of buf.old (Writes bytes.now) }
{
    if buf.len() < bytes.len() {
        return Err(Refusal::ShortBuffer);
    }
    Ok(put_bytes(buf, 0, bytes))
}
