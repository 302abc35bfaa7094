// A draft as a store: it answers for its touched keys, and the store below for the others.
ghost use Rattle.std.specs.Prelude.{◌≡◌, [], ◌∷◌, take};
ghost use Rattle.std.specs.List.{count_by};
ghost use Rattle.draft.specs.Changes.{changed};
ghost use Rattle.draft.specs.Layer.{entries, layer};
ghost use Rattle.draft.specs.Overlay.{adds, takes};
ghost use Rattle.draft.specs.Soundness.{layer_sound};

use super::change::Change;
use super::changes::Changes;
use super::drafts::Draft;
use store::{Key, Refusal, Store, Words};

impl<S: Store> Store for Draft<S> {
    ghost means = { λ d. layer (S.Store.means d.below) (entries d.changes) };

    ghost under = { λ d. S.Store.means d.below ∷ S.Store.under d.below };

    ghost sound = { λ d. layer_sound _ d.changes (S.Store.sound d.below) };

    fn size(&self) -> u64 {
        let more = self.added() as u64;
        let fewer = self.taken() as u64;
        self.below.size().saturating_add(more).saturating_sub(fewer)
    }

    fn limit(&self) -> u64 {
        self.below.limit().saturating_add(64)
    }

    fn has(&self, key: Key) -> bool {
        match self.changes.get(key) {
            Some(change) => change.words.is_some(),
            None => self.below.has(key),
        }
    }

    fn touches(&self, key: Key) -> bool {
        self.changes.get(key).is_some()
    }

    fn free_touches(&self) -> Option<usize> {
        Some(64 - self.changes.used)
    }

    fn read(&self, key: Key, place: &mut [u64; 16]) -> usize {
        match self.changes.get(key) {
            Some(change) => match &change.words {
                Some(words) => words.fill(place),
                None => 0,
            },
            None => self.below.read(key, place),
        }
    }

    fn put(&mut self, key: Key, words: &[u64]) -> Result<(), Refusal> {
        let words = Some(Words::try_from(words)?);
        self.changes.note(Change { key, words })
    }

    fn remove(&mut self, key: Key) -> Result<bool, Refusal> {
        if !self.has(key) {
            return Ok(false);
        }
        self.changes.note(Change { key, words: None })?;
        Ok(true)
    }
}

impl<S: Store> Draft<S> {
    // Whether a change makes one pair more.
    fn adds(&self, change: &Change) -> bool
        ensures { result ≡ adds (S.Store.means self.now.below).pairs (changed change.now) }
    {
        change.words.is_some() && !self.below.has(change.key)
    }

    // Whether it makes one less.
    fn takes(&self, change: &Change) -> bool
        ensures { result ≡ takes (S.Store.means self.now.below).pairs (changed change.now) }
    {
        change.words.is_none() && self.below.has(change.key)
    }

    // How many changes put words where there are none below.
    fn added(&self) -> usize
        ensures { result ≡ count_by (λ c. adds (S.Store.means self.now.below).pairs (changed c)) (take self.now.changes.used self.now.changes.rows) }
    {
        self.changes
            .as_slice()
            .iter()
            .filter(|change| self.adds(change))
            .count()
    }

    // How many changes take a pair out that is there below. Like `added` but for its test: a test passed in would need clauses on its calls.
    fn taken(&self) -> usize
        ensures { result ≡ count_by (λ c. takes (S.Store.means self.now.below).pairs (changed c)) (take self.now.changes.used self.now.changes.rows) }
    {
        self.changes
            .as_slice()
            .iter()
            .filter(|change| self.takes(change))
            .count()
    }

    // A draft that changes nothing.
    pub fn over(below: S) -> Draft<S>
        ensures below { result.below ≡ below }
        ensures empty { entries result.changes ≡ [] }
    {
        Draft {
            below,
            changes: Changes::new(),
        }
    }

    // The store below, with the changes forgotten.
    pub fn into_below(self) -> S
        ensures { result ≡ self.below }
    {
        let Draft { below, changes: _ } = self;
        below
    }

    // Forgets the changes.
    pub fn forget(&mut self)
        ensures below { self.new.below ≡ self.old.below }
        ensures empty { entries self.new.changes ≡ [] }
    {
        self.changes.forget();
    }
}
