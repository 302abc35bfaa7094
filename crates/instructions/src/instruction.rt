// An instruction with its operand.
ghost use Rattle.std.specs.Prelude.{◌≡◌};
ghost use Rattle.bytecode.specs.Records.{shown};
ghost use Rattle.instructions.specs.Instructions.{instruction_of};

use bytecode::Record;
use operands::{FunctionRef, word};

// A local, a target and an own struct are numbers that count from 0.
#[derive(Clone, Copy, Debug, PartialEq, Eq)]
pub enum Instruction {
    PushBool(bool),
    PushNum(u64),
    PushAddr(u64),
    Sender,
    Pop,
    CopyLoc(u8),
    MoveLoc(u8),
    StLoc(u8),
    Add,
    Sub,
    Mul,
    Lt,
    Eq,
    Jump(u8),
    JumpIf(u8),
    Call(FunctionRef),
    Ret,
    Abort,
    Pack(u8),
    Unpack(u8),
    MoveTo(u8),
    MoveFrom(u8),
    Exists(u8),
}

impl Instruction {
    // The instruction that a record is, if it is one. No `TryFrom`, since a record that is none is no error.
    pub fn of(record: &Record) -> Option<Instruction>
        ensures { result ≡ instruction_of (shown «record».now) }
    {
        Some(match record {
            Record::PushBool([flag]) => Instruction::PushBool(*flag == 1),
            Record::PushNum(body) => Instruction::PushNum(word(body)),
            Record::PushAddr(body) => Instruction::PushAddr(word(body)),
            Record::Sender => Instruction::Sender,
            Record::Pop => Instruction::Pop,
            Record::CopyLoc([local]) => Instruction::CopyLoc(*local),
            Record::MoveLoc([local]) => Instruction::MoveLoc(*local),
            Record::StLoc([local]) => Instruction::StLoc(*local),
            Record::Add => Instruction::Add,
            Record::Sub => Instruction::Sub,
            Record::Mul => Instruction::Mul,
            Record::Lt => Instruction::Lt,
            Record::Eq => Instruction::Eq,
            Record::Jump([target]) => Instruction::Jump(*target),
            Record::JumpIf([target]) => Instruction::JumpIf(*target),
            Record::Call(body) => Instruction::Call(FunctionRef::from(*body)),
            Record::Ret => Instruction::Ret,
            Record::Abort => Instruction::Abort,
            Record::Pack([index]) => Instruction::Pack(*index),
            Record::Unpack([index]) => Instruction::Unpack(*index),
            Record::MoveTo([index]) => Instruction::MoveTo(*index),
            Record::MoveFrom([index]) => Instruction::MoveFrom(*index),
            Record::Exists([index]) => Instruction::Exists(*index),
            _ => return None,
        })
    }
}
