// A stream of draws: its seed, and how many draws it has made. It is taken by value and handed on, as document 01 has
// it.
ghost use Rattle.std.specs.Prelude.{◌≡◌};
ghost use Rattle.streams.specs.Stream.{new_of, after, next_u64_of, unit_of};

use crate::mix::splitmix_draw;

#[derive(Clone, Copy)]
pub struct NoiseStream {
    pub seed: u64,
    pub counter: u64,
}

// A draw beside the stream that has made it.
#[derive(Clone, Copy)]
pub struct Draw<T> {
    pub value: T,
    pub stream: NoiseStream,
}

impl<T> Draw<T> {
    // What is made of the value; the stream stays as it is.
    pub fn map<U, F: FnOnce(T) -> U>(self, f: F) -> Draw<U>
        requires { F.pre f self.value }
        ensures value { F.post f self.value result.value }
        ensures stream { result.stream ≡ self.stream }
    {
        Draw {
            value: f(self.value),
            stream: self.stream,
        }
    }
}

impl NoiseStream {
    // The stream seeded at `seed`, before its first draw.
    pub fn new(seed: u64) -> NoiseStream
        ensures { result ≡ new_of seed }
    {
        NoiseStream { seed, counter: 0 }
    }

    // The stream after n draws more, which are not made.
    #[tactic(auto, unfolding(crate::specs::Stream::after))]
    pub fn skipped(self, n: u64) -> NoiseStream
        ensures { result ≡ after self n }
    {
        NoiseStream {
            seed: self.seed,
            counter: self.counter.wrapping_add(n),
        }
    }

    // The next 64 bits.
    pub fn next_u64(self) -> Draw<u64>
        ensures { result ≡ next_u64_of self }
    {
        let n = self.counter.wrapping_add(1);
        let stream = NoiseStream {
            seed: self.seed,
            counter: n,
        };
        Draw {
            value: splitmix_draw(self.seed, n),
            stream,
        }
    }

    // The next unit: the top 24 bits of the next draw, over 2^24. At least 0 and below 1.
    pub fn unit(self) -> Draw<f32>
        ensures { result ≡ unit_of self }
    {
        self.next_u64().map(|w| (w >> 40) as f32 / 16777216.0)
    }
}
