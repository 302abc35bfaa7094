// The kinds of records, a record as an enum over its body, and what the codec refuses.
#![tactic(auto)]

mod kinds;
mod records;
mod refusals;

pub use kinds::body_length;
pub use records::Record;
pub use refusals::{Fault, Reason};
