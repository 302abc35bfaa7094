// Words made from a slice, and given back.
ghost use Rattle.std.specs.Prelude.{◌≡◌, true, false, length, MatchResult};
ghost use Rattle.store.specs.declared.refusals.Refusal.TheVariants.{WrongLength};
ghost use Rattle.store.specs.Model.{fits};
ghost use Rattle.store.specs.Pairs.{padded};
ghost use Rattle.store.specs.WordLists.{words_in};

use super::refusals::Refusal;
use super::words::Words;

impl TryFrom<&[u64]> for Words {
    type Error = Refusal;

    ghost try_from_gives = { λ words result. MatchResult result (λ w. words_in w ≡ words.now) (λ e. (e ≡ WrongLength) × (fits words.now ≡ false)) };

    fn try_from(words: &[u64]) -> Result<Words, Refusal> {
        if words.is_empty() || words.len() > 16 {
            return Err(Refusal::WrongLength);
        }
        let mut all = [0; 16];
        all[..words.len()].copy_from_slice(words);
        Ok(Words {
            count: words.len(),
            words: all,
        })
    }
}

impl Words {
    pub fn as_slice(&self) -> &[u64]
        ensures words { result.now ≡ words_in self.now }
        ensures few { fits (words_in self.now) ≡ true }
    {
        &self.words[..self.count]
    }

    // Fills a place with the words and zeros behind them, and answers how many words there are.
    pub fn fill(&self, place: &mut [u64; 16]) -> usize
        ensures count { result ≡ length (words_in self.now) }
        ensures place { place.new ≡ padded (words_in self.now) }
    {
        *place = self.words;
        self.count
    }
}
