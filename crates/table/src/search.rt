// A search by halves among rows of which the first `used` are in use; a length beyond the slice counts as the slice's, and `get` looks at all rows of its slice.
// Clauses name the key of a record and what `<` answers of two keys each time: a ghost member that held both would be one more for each kind of record to give.
ghost use Rattle.std.specs.Prelude.{◌≡◌, ◌<◌, ◌≤◌, true, length, take, MatchResult};
ghost use Rattle.std.specs.Option.{option_map};
ghost use Rattle.std.specs.Ordering.{partial_lt};
ghost use Rattle.table.specs.Rows.{look, sorted, next as next_after};
ghost use Rattle.table.specs.Searching.{spot, found, found_sorted, look_found, next_found};

use super::keys::Keyed;

// The rows in use, which are all where the length is beyond them.
fn in_use<R>(rows: &[R], used: usize) -> &[R]
    ensures { result.now ≡ take used rows.now }
{
    &rows[..used.min(rows.len())]
}

// Where halving ends: among sorted rows, how many come before `key`.
// A loop: what `find` answers of rows out of order can't be proved by `partition_point` or `binary_search_by_key`, whose contracts say nothing of them.
fn lower_bound<R: Keyed>(rows: &[R], key: R::Key) -> usize
    ensures { result ≡ spot R.keyof (partial_lt R.Key.partial_cmp) key rows.now }
{
    let mut low = 0;
    let mut high = rows.len();
    while low < high {
        let middle = low + (high - low) / 2;
        if rows[middle].key() < key {
            low = middle + 1;
        } else {
            high = middle;
        }
    }
    low
}

// Where the record with `key` stands, or else where it would be put.
pub fn find<R: Keyed>(rows: &[R], used: usize, key: R::Key) -> Result<usize, usize>
    ensures answer { result ≡ found R.keyof (partial_lt R.Key.partial_cmp) key (take used rows.now) }
    ensures bound { MatchResult result (λ at. at < length (take used rows.now)) (λ at. at ≤ length (take used rows.now)) }
    ensures sorted { sorted R.keyof (partial_lt R.Key.partial_cmp) (take used rows.now) ≡ true → result ≡ found_sorted R.keyof (partial_lt R.Key.partial_cmp) key (take used rows.now) }
{
    let rows = in_use(rows, used);
    let at = lower_bound(rows, key);
    match rows.get(at) {
        Some(row) if row.key() <= key => Ok(at),
        _ => Err(at),
    }
}

// The record with `key`.
pub fn get<R: Keyed>(rows: &[R], key: R::Key) -> Option<&R>
    ensures answer { option_map (λ x. x.now) result ≡ look_found R.keyof (partial_lt R.Key.partial_cmp) key rows.now }
    ensures sorted { sorted R.keyof (partial_lt R.Key.partial_cmp) rows.now ≡ true → option_map (λ x. x.now) result ≡ look R.keyof (partial_lt R.Key.partial_cmp) key rows.now }
{
    let at = find(rows, rows.len(), key).ok()?;
    rows.get(at)
}

// The first record whose key comes after `key`.
pub fn next<R: Keyed>(rows: &[R], used: usize, key: R::Key) -> Option<R>
    ensures answer { result ≡ next_found R.keyof (partial_lt R.Key.partial_cmp) key (take used rows.now) }
    ensures sorted { sorted R.keyof (partial_lt R.Key.partial_cmp) (take used rows.now) ≡ true → result ≡ next_after R.keyof (partial_lt R.Key.partial_cmp) key (take used rows.now) }
{
    let behind = match find(rows, used, key) {
        Ok(at) => at + 1,
        Err(at) => at,
    };
    in_use(rows, used).get(behind).copied()
}
