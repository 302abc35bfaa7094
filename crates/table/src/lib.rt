// Rows of records in the order of their keys, written once for every kind of record.
#![tactic(auto)]

mod edits;
mod keys;
mod search;

pub use edits::{Full, insert, remove};
pub use keys::{Keyed, Ordered};
pub use search::{find, get, next};
