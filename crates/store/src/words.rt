// 1 to 16 words, with zeros behind them.
ghost use Rattle.std.specs.Prelude.{◌≡◌, ◌-◌, ◌≤◌, length, drop, replicate};

// An array with a count: a put allocates nothing, and an `ArrayVec` is not `Copy`, as rows are that are moved within a slice.
#[derive(Clone, Copy)]
pub struct Words {
    pub(crate) count: usize,
    pub(crate) words: [u64; 16],
    ghost long: { length words ≡ 16 },
    ghost some: { 1 ≤ count },
    ghost few: { count ≤ 16 },
    ghost clear: { drop count words ≡ replicate (16 - count) 0 },
}
