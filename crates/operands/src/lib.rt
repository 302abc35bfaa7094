// What the bytes of a record's body say.
#![tactic(auto)]

mod numbers;

pub use numbers::{FunctionRef, TypeRef, module_number, word};
