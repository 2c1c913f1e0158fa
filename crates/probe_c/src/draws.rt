// Runs of draws of one kind, from a stream with any seed and counter, over the whole of `out`. Each
// answers the counter that its stream is left with.
ghost use Rattle.probe.specs.Draws.{stream_at, Ran};
ghost use Rattle.probe.specs.declared.draws.Kind.{Kind};

// Each place of `out` gets the next word after `counter` draws; the counter afterwards.
#[unsafe(no_mangle)]
pub extern "C" fn probe_words(seed: u64, counter: u64, out: &mut [u64]) -> u64
    ensures { Ran Kind.Word (stream_at seed counter) out.old out.new result }
{
    probe::draws::probe_words(seed, counter, out)
}

// The same of units, by their bits.
#[unsafe(no_mangle)]
pub extern "C" fn probe_units(seed: u64, counter: u64, out: &mut [u64]) -> u64
    ensures { Ran Kind.Unit (stream_at seed counter) out.old out.new result }
{
    probe::draws::probe_units(seed, counter, out)
}

// The same of picks of n.
#[unsafe(no_mangle)]
pub extern "C" fn probe_picks(seed: u64, counter: u64, n: u8, out: &mut [u64]) -> u64
    ensures { Ran (Kind.Pick n) (stream_at seed counter) out.old out.new result }
{
    probe::draws::probe_picks(seed, counter, n, out)
}

// The same of chances of p, 1 for yes.
#[unsafe(no_mangle)]
pub extern "C" fn probe_chances(seed: u64, counter: u64, p: f32, out: &mut [u64]) -> u64
    ensures { Ran (Kind.Chance p) (stream_at seed counter) out.old out.new result }
{
    probe::draws::probe_chances(seed, counter, p, out)
}

// The same of coins, 1 for yes.
#[unsafe(no_mangle)]
pub extern "C" fn probe_coins(seed: u64, counter: u64, out: &mut [u64]) -> u64
    ensures { Ran Kind.Coin (stream_at seed counter) out.old out.new result }
{
    probe::draws::probe_coins(seed, counter, out)
}
