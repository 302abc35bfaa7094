// A script of commands, one a line: what each line is answered.
#![tactic(auto)]

mod answers;

pub use answers::answer_line;
