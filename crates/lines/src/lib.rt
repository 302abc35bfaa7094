// The lines of a script: how each is read as a command, or what is wrong with it.
#![tactic(auto)]

mod bad_lines;
mod commands;
mod hex;
mod words;

pub use bad_lines::{BadLine, LineError};
pub use commands::{Command, parse_line};
