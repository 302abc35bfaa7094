// The grammar of a module: which records it has, in which order, and how many.
#![tactic(auto)]

mod order;

pub use order::Progress;
