// Numbers at a place in bytes, big-endian, as put.rt writes them. They serve the crates above. Who looks for a field
// may look past the end, where zeros stand: `byte_at` and `u16_at` read anywhere. The others ask that their bytes
// stand there.
ghost use Rattle.std.specs.Prelude.{◌≡◌, ◌+◌, ◌^◌, ◌≤◌, T, length};
ghost use Rattle.std.specs.Float.Ieee.Scale.{finite};
ghost use Rattle.pages.specs.Bytes.{byte_at, be16_at, be32_at, be64_at, f32_at};

// One byte.
pub fn byte_at(bytes: &[u8], at: usize) -> u8
    ensures { result ≡ byte_at bytes.now at }
{
    bytes.get(at).copied().unwrap_or(0)
}

// A number of two bytes.
pub fn u16_at(bytes: &[u8], at: usize) -> u16
    requires { at + 2 ≤ 2 ^ 64 }
    ensures { result ≡ be16_at bytes.now at }
{
    u16::from_be_bytes([byte_at(bytes, at), byte_at(bytes, at + 1)])
}

// One byte that stands there: nothing is tested.
pub fn byte_in(bytes: &[u8], at: usize) -> u8
    requires { at + 1 ≤ length bytes.now }
    ensures { result ≡ byte_at bytes.now at }
{
    bytes[at]
}

// A number of four bytes.
pub fn u32_at(bytes: &[u8], at: usize) -> u32
    requires { at + 4 ≤ length bytes.now }
    ensures { result ≡ be32_at bytes.now at }
{
    u32::from_be_bytes([
        byte_in(bytes, at),
        byte_in(bytes, at + 1),
        byte_in(bytes, at + 2),
        byte_in(bytes, at + 3),
    ])
}

// A number of eight bytes, by its halves: eight bytes one by one would be no plainer.
pub fn u64_at(bytes: &[u8], at: usize) -> u64
    requires { at + 8 ≤ length bytes.now }
    ensures { result ≡ be64_at bytes.now at }
{
    let a = u32_at(bytes, at);
    let b = u32_at(bytes, at + 4);
    a as u64 * 4294967296 + b as u64
}

// Whether the f32 there is finite: not all bits of its exponent are set, the lower seven of its first byte and the
// upper one of its second. The first byte alone tells it of a number from 0 to below 2 ^ 127, as nearly all of a
// sheet's are.
pub fn finite_at(bytes: &[u8], at: usize) -> bool
    requires { at + 4 ≤ length bytes.now }
    ensures { result ≡ finite (f32_at bytes.now at) }
{
    let a = byte_in(bytes, at);
    if a < 127 {
        return true;
    }
    let b = byte_in(bytes, at + 1);
    (a % 128 < 127) | (b < 128)
}

// An f32 that is finite and so no NaN: nothing tests for one.
pub fn f32_at(bytes: &[u8], at: usize) -> f32
    requires room { at + 4 ≤ length bytes.now }
    requires finite { T (finite (f32_at bytes.now at)) }
    ensures { result ≡ f32_at bytes.now at }
{
    let n = u32_at(bytes, at);
    f32::from_bits(n)
}
