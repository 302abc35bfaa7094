// A draft: changes over any store, and itself a store.
#![tactic(auto)]

mod change;
mod changes;
mod drafts;
mod keyed;
mod layers;
mod listing;
mod merging;
mod rows;
mod theorems;

pub use change::Change;
pub use drafts::Draft;
pub use merging::NoFit;
pub use theorems::drafts_hide_what_they_touch;
