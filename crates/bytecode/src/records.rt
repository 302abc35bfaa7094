// A record as an enum with a case for each kind, which borrows its body from the module.
ghost use Rattle.std.specs.Prelude.{◌≡◌, ◌≢◌, [], length, MatchResult};
ghost use Rattle.bytecode.specs.declared.refusals.Reason.TheVariants.{WrongBodyLength};
ghost use Rattle.bytecode.specs.Names.{name_of};
ghost use Rattle.bytecode.specs.Ranges.{in_range};
ghost use Rattle.bytecode.specs.Records.{shown, shown_ok, formed};

use super::refusals::Reason;
use operands::module_number;

#[derive(Clone, Copy)]
pub enum Record<'a> {
    End,
    Module(&'a [u8; 2]),
    Struct(&'a [u8; 1]),
    Field(&'a [u8; 3]),
    Function(&'a [u8; 1]),
    Param(&'a [u8; 3]),
    Result(&'a [u8; 3]),
    Local(&'a [u8; 3]),
    PushBool(&'a [u8; 1]),
    PushNum(&'a [u8; 8]),
    PushAddr(&'a [u8; 8]),
    Sender,
    Pop,
    CopyLoc(&'a [u8; 1]),
    MoveLoc(&'a [u8; 1]),
    StLoc(&'a [u8; 1]),
    Add,
    Sub,
    Mul,
    Lt,
    Eq,
    Jump(&'a [u8; 1]),
    JumpIf(&'a [u8; 1]),
    Call(&'a [u8; 3]),
    Ret,
    Abort,
    Pack(&'a [u8; 1]),
    Unpack(&'a [u8; 1]),
    MoveTo(&'a [u8; 1]),
    MoveFrom(&'a [u8; 1]),
    Exists(&'a [u8; 1]),
}

// These bytes as the body of a kind whose bodies have `N`.
fn fixed<const N: usize>(body: &[u8]) -> Result<&[u8; N], Reason>
    ensures { MatchResult result (λ array. (array.now ≡ body.now) × (length body.now ≡ N)) (λ why. (why ≡ WrongBodyLength) × (length body.now ≢ N)) }
{
    body.as_array().ok_or(Reason::WrongBodyLength)
}

// This record, of a kind whose bodies have no byte.
fn bare<'a>(record: Record<'a>, body: &[u8]) -> Result<Record<'a>, Reason>
    ensures { MatchResult result (λ x. (shown x ≡ shown «record».entry) × (body.now ≡ [])) (λ why. (why ≡ WrongBodyLength) × (length body.now ≢ 0)) }
{
    if body.is_empty() {
        Ok(record)
    } else {
        Err(Reason::WrongBodyLength)
    }
}

impl<'a> Record<'a> {
    // The record of this kind with this body; no `TryFrom`, since callers have the two apart. A kind stays a byte here, as a module or a host may have any:
    // `Record` is itself the enum of kinds, and one beside it would list the 31 cases three times more.
    #[tactic(auto, unfolding(crate::specs::Kinds::body_length))]
    pub fn of(kind: u8, body: &'a [u8]) -> Result<Record<'a>, Reason>
        ensures { shown_ok result ≡ formed (kind, body.now) }
    {
        let record = match kind {
            0x00 => bare(Record::End, body)?,
            0x01 => Record::Module(fixed(body)?),
            0x02 => Record::Struct(fixed(body)?),
            0x03 => Record::Field(fixed(body)?),
            0x04 => Record::Function(fixed(body)?),
            0x05 => Record::Param(fixed(body)?),
            0x06 => Record::Result(fixed(body)?),
            0x07 => Record::Local(fixed(body)?),
            0x10 => Record::PushBool(fixed(body)?),
            0x11 => Record::PushNum(fixed(body)?),
            0x12 => Record::PushAddr(fixed(body)?),
            0x13 => bare(Record::Sender, body)?,
            0x14 => bare(Record::Pop, body)?,
            0x15 => Record::CopyLoc(fixed(body)?),
            0x16 => Record::MoveLoc(fixed(body)?),
            0x17 => Record::StLoc(fixed(body)?),
            0x18 => bare(Record::Add, body)?,
            0x19 => bare(Record::Sub, body)?,
            0x1a => bare(Record::Mul, body)?,
            0x1d => bare(Record::Lt, body)?,
            0x1e => bare(Record::Eq, body)?,
            0x22 => Record::Jump(fixed(body)?),
            0x23 => Record::JumpIf(fixed(body)?),
            0x24 => Record::Call(fixed(body)?),
            0x25 => bare(Record::Ret, body)?,
            0x26 => bare(Record::Abort, body)?,
            0x27 => Record::Pack(fixed(body)?),
            0x28 => Record::Unpack(fixed(body)?),
            0x29 => Record::MoveTo(fixed(body)?),
            0x2a => Record::MoveFrom(fixed(body)?),
            0x2b => Record::Exists(fixed(body)?),
            _ => return Err(Reason::UnknownKind),
        };
        Ok(record)
    }

    // The kind's byte, as modules have it.
    pub fn kind(&self) -> u8
        ensures { result ≡ (shown self.now).0 }
    {
        match self {
            Record::End => 0x00,
            Record::Module(_) => 0x01,
            Record::Struct(_) => 0x02,
            Record::Field(_) => 0x03,
            Record::Function(_) => 0x04,
            Record::Param(_) => 0x05,
            Record::Result(_) => 0x06,
            Record::Local(_) => 0x07,
            Record::PushBool(_) => 0x10,
            Record::PushNum(_) => 0x11,
            Record::PushAddr(_) => 0x12,
            Record::Sender => 0x13,
            Record::Pop => 0x14,
            Record::CopyLoc(_) => 0x15,
            Record::MoveLoc(_) => 0x16,
            Record::StLoc(_) => 0x17,
            Record::Add => 0x18,
            Record::Sub => 0x19,
            Record::Mul => 0x1a,
            Record::Lt => 0x1d,
            Record::Eq => 0x1e,
            Record::Jump(_) => 0x22,
            Record::JumpIf(_) => 0x23,
            Record::Call(_) => 0x24,
            Record::Ret => 0x25,
            Record::Abort => 0x26,
            Record::Pack(_) => 0x27,
            Record::Unpack(_) => 0x28,
            Record::MoveTo(_) => 0x29,
            Record::MoveFrom(_) => 0x2a,
            Record::Exists(_) => 0x2b,
        }
    }

    pub fn body(&self) -> &'a [u8]
        ensures { result.now ≡ (shown self.now).1 }
    {
        match self {
            Record::Struct(body)
            | Record::Function(body)
            | Record::PushBool(body)
            | Record::CopyLoc(body)
            | Record::MoveLoc(body)
            | Record::StLoc(body)
            | Record::Jump(body)
            | Record::JumpIf(body)
            | Record::Pack(body)
            | Record::Unpack(body)
            | Record::MoveTo(body)
            | Record::MoveFrom(body)
            | Record::Exists(body) => *body,
            Record::Module(body) => *body,
            Record::Field(body)
            | Record::Param(body)
            | Record::Result(body)
            | Record::Local(body)
            | Record::Call(body) => *body,
            Record::PushNum(body) | Record::PushAddr(body) => *body,
            Record::End
            | Record::Sender
            | Record::Pop
            | Record::Add
            | Record::Sub
            | Record::Mul
            | Record::Lt
            | Record::Eq
            | Record::Ret
            | Record::Abort => &[],
        }
    }

    // The record's name, as listings and texts of modules have it.
    pub fn name(&self) -> &'static str
        ensures { result.now ≡ name_of (shown self.now).0 }
    {
        match self {
            Record::End => "end",
            Record::Module(_) => "module",
            Record::Struct(_) => "struct",
            Record::Field(_) => "field",
            Record::Function(_) => "function",
            Record::Param(_) => "param",
            Record::Result(_) => "result",
            Record::Local(_) => "local",
            Record::PushBool(_) => "pushbool",
            Record::PushNum(_) => "pushnum",
            Record::PushAddr(_) => "pushaddr",
            Record::Sender => "sender",
            Record::Pop => "pop",
            Record::CopyLoc(_) => "copyloc",
            Record::MoveLoc(_) => "moveloc",
            Record::StLoc(_) => "stloc",
            Record::Add => "add",
            Record::Sub => "sub",
            Record::Mul => "mul",
            Record::Lt => "lt",
            Record::Eq => "eq",
            Record::Jump(_) => "jump",
            Record::JumpIf(_) => "jumpif",
            Record::Call(_) => "call",
            Record::Ret => "ret",
            Record::Abort => "abort",
            Record::Pack(_) => "pack",
            Record::Unpack(_) => "unpack",
            Record::MoveTo(_) => "moveto",
            Record::MoveFrom(_) => "movefrom",
            Record::Exists(_) => "exists",
        }
    }

    // Whether the body's value is one that this kind may have.
    pub fn in_range(&self) -> bool
        ensures { result ≡ in_range (shown self.now) }
    {
        match self {
            Record::Module(number) => module_number(number) > 0,
            Record::Struct([abilities]) => *abilities <= 15,
            Record::Function([visibility]) => *visibility <= 2,
            Record::PushBool([flag]) => *flag <= 1,
            _ => true,
        }
    }
}
