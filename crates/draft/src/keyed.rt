// The key of a change.
ghost use Rattle.draft.specs.Changes.{change_key};

use super::change::Change;
use store::Key;
use table::Keyed;

impl Keyed for Change {
    type Key = Key;

    ghost keyof = { change_key };

    fn key(&self) -> Key {
        self.key
    }
}
