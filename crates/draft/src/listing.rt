// What a draft lists: its touched keys, each with its words or none.
ghost use Rattle.std.specs.Prelude.{◌≡◌, map};
ghost use Rattle.draft.specs.Changes.{changed};
ghost use Rattle.draft.specs.Layer.{entries};

use super::change::Change;
use super::drafts::Draft;
use store::{Key, Store};

impl Change {
    // The key that was touched, for hosts that do not know the table's trait `Keyed`.
    pub fn touched(&self) -> Key
        ensures { result ≡ (changed self.now).0 }
    {
        self.key
    }

    // The words that the key has then, or none where its pair is taken out: no `Option`, as a change in specs/ is a key with a list of words too.
    pub fn words(&self) -> &[u64]
        ensures { result.now ≡ (changed self.now).1 }
    {
        match &self.words {
            Some(words) => words.as_slice(),
            None => &[],
        }
    }
}

impl<S: Store> Draft<S> {
    // The touched keys, in order, each with its words or none.
    pub fn touched(&self) -> &[Change]
        ensures { map changed result.now ≡ entries self.now.changes }
    {
        self.changes.as_slice()
    }
}
