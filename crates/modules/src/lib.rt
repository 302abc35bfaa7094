// A module decoded from its bytes.
#![tactic(auto)]

mod parts;
mod rows;
mod theorems;

pub use parts::{FunctionHead, Line, StructHead, Typed, Visibility};
pub use rows::Rows;
pub use theorems::{readable_modules_are_bounded, seven_says_so};
