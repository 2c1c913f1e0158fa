// Runs of draws of one kind, from a stream with any seed and counter, over the whole of `out`. Each
// answers the counter that its stream is left with.
ghost use Rattle.std.specs.Prelude.{◌≡◌};
ghost use Rattle.probe.specs.Draws.{stream_at, drawn_of, Ran};
ghost use Rattle.probe.specs.declared.draws.Kind.{Kind};

use streams::draw::{chance, coin, pick};
use streams::float::bits_of;
use streams::stream::{Draw, NoiseStream};

// What is drawn. A kind and no closure, since the five calls promise a run of draws by the name of its kind.
#[derive(Clone, Copy)]
pub enum Kind {
    Word,
    Unit,
    Pick(u8),
    Chance(f32),
    Coin,
}

// One draw, as a number: a unit by its bits, 1 for yes.
fn drawn(kind: Kind, s: NoiseStream) -> Draw<u64>
    ensures { result ≡ drawn_of kind s }
{
    match kind {
        Kind::Word => s.next_u64(),
        Kind::Unit => s.unit().map(|u| bits_of(u) as u64),
        Kind::Pick(n) => pick(s, n).map(|k| k as u64),
        Kind::Chance(p) => chance(s, p).map(|yes| u64::from(yes)),
        Kind::Coin => coin(s).map(|yes| u64::from(yes)),
    }
}

// Draws of one kind over the whole of `out`; the counter afterwards.
fn fill(kind: Kind, seed: u64, counter: u64, out: &mut [u64]) -> u64
    ensures { Ran kind (stream_at seed counter) out.old out.new result }
{
    let mut s = NoiseStream { seed, counter };
    for place in out.iter_mut() {
        let d = drawn(kind, s);
        *place = d.value;
        s = d.stream;
    }
    s.counter
}

// Each place of `out` gets the next word after `counter` draws; the counter afterwards.
pub fn probe_words(seed: u64, counter: u64, out: &mut [u64]) -> u64
    ensures { Ran Kind.Word (stream_at seed counter) out.old out.new result }
{
    fill(Kind::Word, seed, counter, out)
}

// The same of units, by their bits.
pub fn probe_units(seed: u64, counter: u64, out: &mut [u64]) -> u64
    ensures { Ran Kind.Unit (stream_at seed counter) out.old out.new result }
{
    fill(Kind::Unit, seed, counter, out)
}

// The same of picks of n.
pub fn probe_picks(seed: u64, counter: u64, n: u8, out: &mut [u64]) -> u64
    ensures { Ran (Kind.Pick n) (stream_at seed counter) out.old out.new result }
{
    fill(Kind::Pick(n), seed, counter, out)
}

// The same of chances of p, 1 for yes.
pub fn probe_chances(seed: u64, counter: u64, p: f32, out: &mut [u64]) -> u64
    ensures { Ran (Kind.Chance p) (stream_at seed counter) out.old out.new result }
{
    fill(Kind::Chance(p), seed, counter, out)
}

// The same of coins, 1 for yes.
pub fn probe_coins(seed: u64, counter: u64, out: &mut [u64]) -> u64
    ensures { Ran Kind.Coin (stream_at seed counter) out.old out.new result }
{
    fill(Kind::Coin, seed, counter, out)
}
