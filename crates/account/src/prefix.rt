// A table of which the first places count.
ghost use Rattle.std.specs.Prelude.{◌≡◌, take};

/// The first `count` of `N` places, or all where there are no more; what stands in the others says nothing.
// Two fields and no vector, so that a step can be copied and takes no memory of its own.
#[derive(Clone, Copy)]
pub struct Prefix<T, const N: usize> {
    pub items: [T; N],
    pub count: usize,
}

impl<T, const N: usize> Prefix<T, N> {
    /// The items that count, first to last.
    #[tactic(auto, using(std::proofs::lemmas::List::take_min))]
    pub fn as_slice(&self) -> &[T]
        ensures { result.now ≡ take self.now.count self.now.items }
    {
        let items = self.items.as_slice();
        &items[..self.count.min(items.len())]
    }
}
