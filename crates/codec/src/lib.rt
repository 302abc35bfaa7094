// Module bytes and records: one record read, walked to and written, and a whole module.
#![tactic(auto)]

mod modules;
mod reading;
mod theorems;
mod walk;
mod writing;

pub use modules::{MAX_MODULE, read_module, rewrite_module};
pub use reading::read_record;
pub use theorems::{examples_read_so, reading_and_writing_are_inverse};
pub use walk::{Placed, Walk};
pub use writing::write_record;
