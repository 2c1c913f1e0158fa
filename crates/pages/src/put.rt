// Writers at a place in a buffer: each answers the place after what it wrote. Numbers are big-endian. They serve the
// crates above as well, and ask for their room.
// No cursor of buffer and place: a clause would name both of its parts, before and after. `halls` calls `put_u64`.
ghost use Rattle.std.specs.Prelude.{[], ◌∷◌, ◌≡◌, ◌+◌, ◌*◌, ◌/◌, ◌%◌, ◌<◌, ◌≤◌, T, length};
ghost use Rattle.std.specs.Float.Ieee.Scale.{finite};
ghost use Rattle.laws.specs.Writes.{Wrote};
ghost use Rattle.pages.specs.Bytes.{be16, be32, be64, f32_bytes, head};

// One byte.
pub fn put_u8(buf: &mut [u8], at: usize, x: u8) -> usize
    requires { at + 1 ≤ length buf.old }
    ensures { Wrote buf.old buf.new at result 1 (x ∷ []) }
{
    buf[at] = x;
    at + 1
}

// A number of two bytes.
pub fn put_u16(buf: &mut [u8], at: usize, x: u16) -> usize
    requires { at + 2 ≤ length buf.old }
    ensures { Wrote buf.old buf.new at result 2 (be16 x) }
{
    put_bytes(buf, at, &x.to_be_bytes())
}

// A number of four bytes.
pub fn put_u32(buf: &mut [u8], at: usize, x: u32) -> usize
    requires { at + 4 ≤ length buf.old }
    ensures { Wrote buf.old buf.new at result 4 (be32 x) }
{
    put_bytes(buf, at, &x.to_be_bytes())
}

// A number of eight bytes.
pub fn put_u64(buf: &mut [u8], at: usize, x: u64) -> usize
    requires { at + 8 ≤ length buf.old }
    ensures { Wrote buf.old buf.new at result 8 (be64 x) }
{
    put_bytes(buf, at, &x.to_be_bytes())
}

// The bits of x, which is finite and so no NaN: nothing tests for one.
pub fn put_f32(buf: &mut [u8], at: usize, x: f32) -> usize
    requires finite { T (finite x) }
    requires room { at + 4 ≤ length buf.old }
    ensures { Wrote buf.old buf.new at result 4 (f32_bytes x) }
{
    put_u32(buf, at, f32::to_bits(x))
}

// The head of a field: its tag and its body's length.
pub fn put_head(buf: &mut [u8], at: usize, tag: u8, size: usize) -> usize
    requires size_bound { size < 65536 }
    requires room { at + 3 ≤ length buf.old }
    ensures { Wrote buf.old buf.new at result 3 (head tag size) }
{
    let a = put_u8(buf, at, tag);
    put_u16(buf, a, size as u16)
}

// Bytes as they stand, one by one: with the library's copy of a slice here the library for C asked for `memmove`.
pub fn put_bytes(buf: &mut [u8], at: usize, bytes: &[u8]) -> usize
    requires { at + length bytes.now ≤ length buf.old }
    ensures { Wrote buf.old buf.new at result (length bytes.now) bytes.now }
{
    let mut o = at;
    for b in bytes {
        o = put_u8(buf, o, *b);
    }
    o
}
