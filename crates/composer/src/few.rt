// An array of which the first entries count.
ghost use Rattle.std.specs.Prelude.{◌≡◌, ◌≤◌, length, take};

// The first n entries of `at` are in use. That n is at most N is no ghost field: the definitions make such values of
// any list, and each would have to prove it.
#[derive(Clone, Copy)]
pub struct Few<T, const N: usize> {
    pub at: [T; N],
    pub n: usize,
}

impl<T, const N: usize> Few<T, N> {
    // The entries in use: all of them where n is more than there are.
    #[tactic(auto, using(std::proofs::lemmas::List::take_min))]
    pub fn used(&self) -> &[T]
        ensures value { result.now ≡ take self.now.n self.now.at }
        ensures size { self.now.n ≤ N → length result.now ≡ self.now.n }
    {
        let all: &[T] = &self.at;
        &all[..self.n.min(all.len())]
    }
}
