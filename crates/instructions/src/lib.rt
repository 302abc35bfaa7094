// Instructions, decoded from their records.
#![tactic(auto)]

mod instruction;

pub use instruction::Instruction;
