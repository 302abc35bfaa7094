// The table store as a store.
ghost use Rattle.std.specs.Prelude.{◌≡◌, min, [], length, take, None, vec_len, refl};
ghost use Rattle.std.specs.Option.{option_map};
ghost use Rattle.store.specs.Keys.{key_before};
ghost use Rattle.store.specs.Tables.{pair_key, table_model};
ghost use Rattle.store.specs.TableLaws.{table_sound};
ghost use Rattle.table.specs.Rows.{look};

use super::keys::Key;
use super::pair::Pair;
use super::refusals::Refusal;
use super::stores::{ListingStore, Store, UncappedStore};
use super::table_store::TableStore;
use super::words::Words;

const MOST_ROWS: usize = 4096;

impl TableStore {
    // An empty store over the host's rows, of which it uses at most 4,096.
    pub fn over(mut rows: Vec<Pair>) -> TableStore
        ensures { table_model result.rows.items result.used ≡ record { pairs = []; limit = min (vec_len rows) 4096; touched = None } }
    {
        rows.truncate(MOST_ROWS);
        TableStore { rows, used: 0 }
    }

    // The rows, for the host.
    pub fn into_rows(self) -> Vec<Pair>
        ensures { result ≡ self.rows }
    {
        let TableStore { rows, used: _ } = self;
        rows
    }

    fn in_use(&self) -> &[Pair]
        ensures { result.now ≡ take self.now.used self.now.rows.items }
    {
        &self.rows[..self.used]
    }

    fn get(&self, key: Key) -> Option<&Pair>
        ensures { option_map (λ x. x.now) result ≡ look pair_key key_before key (take self.now.used self.now.rows.items) }
    {
        table::get(self.in_use(), key)
    }
}

impl Store for TableStore {
    ghost means = { λ s. table_model s.rows.items s.used };

    ghost under = { λ _. [] };

    ghost sound = { λ s. table_sound _ _ s.within s.few s.sorted };

    fn size(&self) -> u64 {
        self.used as u64
    }

    fn limit(&self) -> u64 {
        self.rows.len() as u64
    }

    #[tactic(auto, using(crate::specs::TableLaws::meanings))]
    fn has(&self, key: Key) -> bool {
        self.get(key).is_some()
    }

    fn touches(&self, _key: Key) -> bool {
        false
    }

    fn free_touches(&self) -> Option<usize> {
        None
    }

    #[tactic(auto, using(crate::specs::TableLaws::meanings))]
    fn read(&self, key: Key, place: &mut [u64; 16]) -> usize {
        match self.get(key) {
            Some(pair) => pair.words.fill(place),
            None => 0,
        }
    }

    fn put(&mut self, key: Key, words: &[u64]) -> Result<(), Refusal> {
        let words = Words::try_from(words)?;
        let pair = Pair { key, words };
        self.used = table::insert(&mut self.rows, self.used, pair).map_err(|_| Refusal::AtLimit)?;
        Ok(())
    }

    fn remove(&mut self, key: Key) -> Result<bool, Refusal> {
        let left = table::remove(&mut self.rows, self.used, key);
        self.used = left.unwrap_or(self.used);
        Ok(left.is_some())
    }
}

impl UncappedStore for TableStore {
    ghost uncapped = { λ _. refl };
}

impl ListingStore for TableStore {
    fn next(&self, after: Option<Key>) -> Option<Key> {
        match after {
            Some(key) => table::next(&self.rows, self.used, key).map(|pair| pair.key),
            None => self.in_use().first().map(|pair| pair.key),
        }
    }
}
