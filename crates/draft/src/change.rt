// A change of one key: the words that it has then, or none where its pair is taken out.
use store::{Key, Words};

// No generic struct with `Pair`: the two fields are all that they would share, and a pair always has words.
// `Default`, for the places that are not in use.
#[derive(Clone, Copy, Default)]
pub struct Change {
    pub(crate) key: Key,
    pub(crate) words: Option<Words>,
}
