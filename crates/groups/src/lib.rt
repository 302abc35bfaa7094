// Lists of items, one behind the other in one row.
#![tactic(auto)]

mod grouped;

pub use grouped::Grouped;
