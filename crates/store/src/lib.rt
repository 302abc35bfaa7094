// Stores: keys and pairs, what every store means, and the store that keeps its pairs in sorted rows.
#![tactic(auto)]

mod keys;
mod pair;
mod refusals;
mod stores;
mod table_store;
mod tables;
mod theorems;
mod word_lists;
mod words;

pub use keys::Key;
pub use pair::Pair;
pub use refusals::Refusal;
pub use stores::{ListingStore, Store, UncappedStore};
pub use table_store::TableStore;
pub use theorems::{calls_alter_their_key_alone, calls_count_one_pair};
pub use words::Words;
