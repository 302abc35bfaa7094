// The store that keeps its pairs in sorted rows, and whose limit is the number of rows.
ghost use Rattle.std.specs.Prelude.{◌≡◌, ◌≤◌, true, length, take};
ghost use Rattle.store.specs.Tables.{rising};

use super::pair::Pair;

// The host gives the rows and gets all of them back, so how many are in use stands beside them.
#[derive(Drop)]
pub struct TableStore {
    pub(crate) rows: Vec<Pair>,
    pub(crate) used: usize,
    ghost within: { used ≤ length rows.items },
    ghost few: { length rows.items ≤ 4096 },
    ghost sorted: { rising (take used rows.items) ≡ true },
}
