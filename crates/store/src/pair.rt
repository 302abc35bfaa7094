// A pair: a key with its words, and the order of keys.
ghost use Rattle.std.specs.Prelude.{◌≡◌, false, MatchResult};
ghost use Rattle.store.specs.declared.refusals.Refusal.TheVariants.{WrongLength};
ghost use Rattle.store.specs.Model.{fits};
ghost use Rattle.store.specs.Orders.{keys_in_order};
ghost use Rattle.store.specs.Tables.{pair_key, meant};

use super::keys::Key;
use super::refusals::Refusal;
use super::words::Words;
use table::{Keyed, Ordered};

#[derive(Clone, Copy)]
pub struct Pair {
    pub(crate) key: Key,
    pub(crate) words: Words,
}

impl Pair {
    // The pair of a key and 1 to 16 words; any other number of words is refused.
    pub fn new(key: Key, words: &[u64]) -> Result<Pair, Refusal>
        ensures { MatchResult result (λ p. meant p ≡ (key, words.now)) (λ e. (e ≡ WrongLength) × (fits words.now ≡ false)) }
    {
        let words = Words::try_from(words)?;
        Ok(Pair { key, words })
    }
}

impl Ordered for Key {
    ghost order = { keys_in_order };
}

impl Keyed for Pair {
    type Key = Key;

    ghost keyof = { pair_key };

    fn key(&self) -> Key {
        self.key
    }
}
