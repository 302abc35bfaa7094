// A module's records as text for people.
#![tactic(auto)]

mod listing;

pub use listing::list_records;
