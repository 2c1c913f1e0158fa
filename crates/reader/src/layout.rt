// Which edition a sheet is of, where its fields stand, and whether they are those that some value has.
ghost use Rattle.std.specs.Prelude.{◌≡◌, ℕ, ◌<◌, get_or};
ghost use Rattle.reader.specs.Layout.{edition_in, start_at, body_at, size_at, entries_fit, length_fits, led, formed};
ghost use Rattle.reader.specs.Tests.{all_to};
ghost use Rattle.reader.specs.Inner.Layout.{Roomy};

use pages::edition::Edition;
use pages::get::{byte_at, u16_at};

// A sheet: its bytes, its edition, where the body of each of the ten fields begins, how long it is, and where the tenth
// ends.
#[derive(Clone, Copy)]
pub struct Fields<'a> {
    pub bytes: &'a [u8],
    pub edition: Edition,
    pub bodies: [usize; 10],
    pub sizes: [usize; 10],
    pub end: usize,
    pub ghost edition_is: { edition ≡ edition_in bytes.now },
    pub ghost bodies_are: { (k : ℕ) → k < 10 → get_or bodies k 0 ≡ body_at bytes.now k },
    pub ghost sizes_are: { (k : ℕ) → k < 10 → get_or sizes k 0 ≡ size_at bytes.now k },
    pub ghost end_is: { end ≡ start_at bytes.now 10 },
}

// The fields of a formed sheet: each body stands in the bytes, and no array is too small for it. That is told once, of
// the type, and not by each function that reads such a sheet.
#[derive(Clone, Copy)]
pub struct Formed<'a> {
    pub fields: Fields<'a>,
    pub ghost roomy: { Roomy fields.bytes.now },
}

impl<'a> Fields<'a> {
    ghost use Rattle.reader.specs.Song.{note_count_in, hit_count_in};

    // Each field begins where the one before ends; its length says where its own end is. Nothing is tested yet.
    #[tactic(auto, using(std::proofs::lemmas::List::Edits::fill_by_more), unfolding(crate::specs::Layout::start_at))]
    pub(crate) fn of(bytes: &'a [u8]) -> Fields<'a>
        ensures { result.bytes.now ≡ bytes.now }
    {
        let edition = edition_in(bytes);
        let mut bodies = [0usize; 10];
        let mut sizes = [0usize; 10];
        let mut at = edition.field_size();
        for k in 0..10 {
            let size = u16_at(bytes, at + 1) as usize;
            bodies[k] = at + 3;
            sizes[k] = size;
            at += 3 + size;
        }
        Fields {
            bytes,
            edition,
            bodies,
            sizes,
            end: at,
        }
    }

    // Where the body of field k begins, counted from 0: a type for a number below ten would be no plainer than the
    // clause.
    pub(crate) fn body(&self, k: usize) -> usize
        requires { k < 10 }
        ensures { result ≡ body_at self.now.bytes.now k }
    {
        self.bodies[k]
    }

    // Its length: in bytes, in notes and in hits.
    pub(crate) fn size(&self, k: usize) -> usize
        requires { k < 10 }
        ensures { result ≡ size_at self.now.bytes.now k }
    {
        self.sizes[k]
    }

    pub(crate) fn notes(&self, k: usize) -> usize
        requires { k < 10 }
        ensures { result ≡ note_count_in self.now.bytes.now k }
    {
        self.sizes[k] / self.edition.note_width()
    }

    pub(crate) fn hits(&self, k: usize) -> usize
        requires { k < 10 }
        ensures { result ≡ hit_count_in self.now.bytes.now k }
    {
        self.sizes[k] / 10
    }
}

// A sheet that begins with 0x00 is of edition 2, any other of edition 1.
#[tactic(auto, unfolding(crate::specs::Layout::edition_in))]
fn edition_in(bytes: &[u8]) -> Edition
    ensures { result ≡ edition_in bytes.now }
{
    let first = byte_at(bytes, 0);
    if first == 0 {
        Edition::Two
    } else {
        Edition::One
    }
}

// Whether n bytes are whole entries of w bytes, from lo to hi of them; no field of any value has 62 bytes.
fn length_fits(n: usize, w: usize, lo: usize, hi: usize) -> bool
    requires { 0 < w }
    ensures { result ≡ entries_fit n w lo hi }
{
    (n % w == 0) & (lo <= n / w) & ((n / w <= hi) & (n != 62))
}

// Whether every field has a length that some value's has: by `widths`, `least` and `most`, field by field.
#[tactic(auto, using(crate::proofs::WidthLaws::width_least), unfolding(crate::specs::Layout::length_fits, crate::specs::Tests::all_to))]
fn lengths_fit(edition: Edition, sizes: &[usize; 10]) -> bool
    ensures { result ≡ all_to (λ k. length_fits edition k (get_or sizes.now k 0)) 10 }
{
    let note = edition.note_width();
    let name = length_fits(sizes[0], 10, 1, 1);
    let tempo = length_fits(sizes[1], 4, 1, 1);
    let chords = length_fits(sizes[2], 32, 1, 1);
    let scale = length_fits(sizes[3], 1, 5, 6);
    let lead = length_fits(sizes[4], note, 0, 56);
    let keys = length_fits(sizes[5], note, 0, 128);
    let hits = length_fits(sizes[6], 10, 0, 98);
    let bass = length_fits(sizes[7], note, 0, 104);
    let ends = length_fits(sizes[8], 6, 1, 1);
    let plays = length_fits(sizes[9], 2, 16, 32);
    name & tempo & chords & scale & lead & keys & hits & bass & ends & plays
}

// Whether the 0x00 that edition 2 begins with has length 1 and body 2.
#[tactic(auto, unfolding(crate::specs::Layout::led))]
fn is_led(bytes: &[u8], edition: Edition) -> bool
    ensures { result ≡ led edition bytes.now }
{
    match edition {
        Edition::One => true,
        Edition::Two => {
            let size = u16_at(bytes, 1);
            let body = byte_at(bytes, 3);
            (size == 1) & (body == 2)
        }
    }
}

// Whether the bytes are the edition's own field and ten fields in order, each of a length that some value's has, and
// nothing else.
pub(crate) fn is_formed(fields: &Fields) -> bool
    ensures { result ≡ formed fields.now.bytes.now }
{
    let bytes = fields.bytes;
    let first = is_led(bytes, fields.edition);
    let lengths = lengths_fit(fields.edition, &fields.sizes);
    let tags = (0..10).all(|k| byte_at(bytes, fields.body(k) - 3) as usize == k + 1);
    first & (tags & lengths) & (fields.end == bytes.len())
}
