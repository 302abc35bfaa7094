// What every store does.
ghost use Rattle.std.specs.Prelude.{◌≡◌, ◌^◌, ◌<◌, ◌≤◌, min, List, length, None};
ghost use Rattle.store.specs.Model.{Model, Sound, largest_word, is_touched, free_touches, put_answer, put_after, remove_answer, remove_after};
ghost use Rattle.store.specs.Pairs.{entry, holds, next_key, shown, words_of};

use super::keys::Key;
use super::refusals::Refusal;

pub trait Store {
    ghost means: { Self → Model };

    // what the stores below mean, the nearest first
    ghost under: { Self → List Model };

    fn size(&self) -> u64
        ensures { (means self.now).limit ≤ largest_word → result ≡ length (means self.now).pairs };

    fn limit(&self) -> u64
        ensures { result ≡ min (means self.now).limit largest_word };

    fn has(&self, key: Key) -> bool
        ensures { result ≡ holds key (means self.now).pairs };

    fn touches(&self, key: Key) -> bool
        ensures { result ≡ is_touched (means self.now).touched key };

    // How many keys more may be touched, where there is a cap.
    fn free_touches(&self) -> Option<usize>
        ensures { result ≡ free_touches (means self.now).touched };

    // Fills the caller's place with the words and zeros behind them, and answers how many there are: 0, and the place as it was, where the key is absent.
    // They go into memory that the caller has and are not lent, since a host's own store may keep them in another form.
    fn read(&self, key: Key, place: &mut [u64; 16]) -> usize
        ensures count { result ≡ length (words_of (entry key (means self.now).pairs)) }
        ensures place { place.new ≡ shown (entry key (means self.now).pairs) place.old };

    // Gives the key these words, unless that is refused: by 41, 36 or 40, the first of these that holds.
    fn put(&mut self, key: Key, words: &[u64]) -> Result<(), Refusal>
        ensures answer { result ≡ put_answer (means self.old) key words.now }
        ensures after { means self.new ≡ put_after (means self.old) key words.now result }
        ensures under { under self.new ≡ under self.old };

    // Takes the key's pair out, and answers whether there was one; 36 alone refuses it.
    fn remove(&mut self, key: Key) -> Result<bool, Refusal>
        ensures answer { result ≡ remove_answer (means self.old) key }
        ensures after { means self.new ≡ remove_after (means self.old) key result }
        ensures under { under self.new ≡ under self.old };

    // what every store keeps
    ghost sound: { (s : Self) → Sound (means s) };
}

// A store that counts no touched keys, and so has no cap on them.
pub trait UncappedStore: Store {
    ghost uncapped: { (s : Self) → (Self.Store.means s).touched ≡ None };
}

// A store whose keys can be gone through in order.
pub trait ListingStore: Store {
    // The smallest key above the given one, or the first.
    fn next(&self, after: Option<Key>) -> Option<Key>
        ensures { result ≡ next_key after (Self.Store.means self.now).pairs };
}
