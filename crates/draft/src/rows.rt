// Changes looked up, noted and forgotten.
ghost use Rattle.std.specs.Prelude.{◌≡◌, [], map, length, take, is_ok, if◌then◌else◌, Some};
ghost use Rattle.std.specs.Option.{option_map};
ghost use Rattle.store.specs.Keys.{key_before};
ghost use Rattle.store.specs.Model.{may_touch};
ghost use Rattle.store.specs.Pairs.{key_of};
ghost use Rattle.table.specs.Rows as rows;
ghost use Rattle.draft.specs.Changes.{change_key, changed};
ghost use Rattle.draft.specs.Layer.{entries};

use super::change::Change;
use super::changes::Changes;
use store::{Key, Refusal};

impl Changes {
    pub fn new() -> Changes
        ensures { entries result ≡ [] }
    {
        let rows = [Change::default(); 64];
        Changes { rows, used: 0 }
    }

    pub fn get(&self, key: Key) -> Option<&Change>
        ensures { option_map (λ x. x.now) result ≡ rows.look change_key key_before key (take self.now.used self.now.rows) }
    {
        table::get(self.as_slice(), key)
    }

    // Puts a change in the place of that of its key, or adds it, unless that would touch a 65th key. A new one is put behind those in use and turned
    // to its place: the table's `insert` copies row by row, which takes half as long again here and more, since a copy of words or none is made in two steps.
    pub fn note(&mut self, change: Change) -> Result<(), Refusal>
        ensures answer { result ≡ (if may_touch (Some (map key_of (entries self.old))) change.key then Ok tt else Err Refusal.TooManyTouched) }
        ensures after { entries self.new ≡ (if is_ok result then rows.put key_of key_before (changed change) (entries self.old) else entries self.old) }
    {
        match table::find(&self.rows, self.used, change.key) {
            Ok(at) => self.rows[at] = change,
            Err(_) if self.used == 64 => return Err(Refusal::TooManyTouched),
            Err(at) => {
                self.rows[self.used] = change;
                self.used += 1;
                self.rows[at..self.used].rotate_right(1);
            }
        }
        Ok(())
    }

    pub fn forget(&mut self)
        ensures { entries self.new ≡ [] }
    {
        self.used = 0;
    }

    pub fn as_slice(&self) -> &[Change]
        ensures { result.now ≡ take self.now.used self.now.rows }
    {
        &self.rows[..self.used]
    }
}
