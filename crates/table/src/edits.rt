// A record put into sorted rows, and one taken out.
ghost use Rattle.std.specs.Prelude.{◌≡◌, true, take};
ghost use Rattle.std.specs.Ordering.{partial_lt};
ghost use Rattle.table.specs.Editing.{insert_answer, insert_after, remove_answer, remove_after, put_answer, put_after, take_answer, take_after};
ghost use Rattle.table.specs.Rows.{sorted};
ghost use Rattle.table.specs.Searching.{found};

use super::keys::Keyed;
use super::search::find;

// No row is free for one more record.
#[derive(Clone, Copy, PartialEq, Eq, Debug)]
pub struct Full;

// Puts `x` in the place of the record of its key, or adds it, and answers how many rows are in use then.
// Where no row is free for it, the rows stay as they are.
// The number in use stands beside the rows and in no value with them: the rows are a host's, in memory of a fixed size, and a value over
// a `&mut` of them would be made anew at each call. A number beyond the rows counts as theirs.
pub fn insert<R: Keyed>(rows: &mut [R], used: usize, x: R) -> Result<usize, Full>
    ensures answer { result ≡ insert_answer rows.old (take used rows.old) (found R.keyof (partial_lt R.Key.partial_cmp) (R.keyof x) (take used rows.old)) }
    ensures after { rows.new ≡ insert_after rows.old (take used rows.old) x (found R.keyof (partial_lt R.Key.partial_cmp) (R.keyof x) (take used rows.old)) }
    ensures sorted { sorted R.keyof (partial_lt R.Key.partial_cmp) (take used rows.old) ≡ true → (result ≡ put_answer R.keyof (partial_lt R.Key.partial_cmp) rows.old (take used rows.old) x) × (rows.new ≡ put_after R.keyof (partial_lt R.Key.partial_cmp) rows.old (take used rows.old) x) }
{
    let used = used.min(rows.len());
    match find(rows, used, x.key()) {
        Ok(at) => {
            rows[at] = x;
            Ok(used)
        }
        Err(_) if used == rows.len() => Err(Full),
        Err(at) => {
            rows.copy_within(at..used, at + 1);
            rows[at] = x;
            Ok(used + 1)
        }
    }
}

// Takes the record of `key` out, and answers how many rows are in use then, or `None` where there is none.
pub fn remove<R: Keyed>(rows: &mut [R], used: usize, key: R::Key) -> Option<usize>
    ensures answer { result ≡ remove_answer (take used rows.old) (found R.keyof (partial_lt R.Key.partial_cmp) key (take used rows.old)) }
    ensures after { rows.new ≡ remove_after rows.old (take used rows.old) (found R.keyof (partial_lt R.Key.partial_cmp) key (take used rows.old)) }
    ensures sorted { sorted R.keyof (partial_lt R.Key.partial_cmp) (take used rows.old) ≡ true → (result ≡ take_answer R.keyof (partial_lt R.Key.partial_cmp) (take used rows.old) key) × (rows.new ≡ take_after R.keyof (partial_lt R.Key.partial_cmp) rows.old (take used rows.old) key) }
{
    let used = used.min(rows.len());
    let at = find(rows, used, key).ok()?;
    rows.copy_within(at + 1..used, at);
    Some(used - 1)
}
