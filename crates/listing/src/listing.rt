// A module's records as text, a line for each: its place, its name and its operands.
ghost use Rattle.std.specs.Prelude.{◌≡◌, ◌++◌, Some, string_bytes, OnOk};
ghost use Rattle.bytecode.specs.Records.{shown};
ghost use Rattle.listing.specs.Listing.{operands_text, record_text, listing};

use bytecode::Record;
use codec::{Placed, Walk};
use operands::{FunctionRef, TypeRef, module_number, word};
use std::{fmt, io};

// What a record has behind its name in a listing, a blank before each operand.
#[derive(Clone, Copy)]
struct Operands<'a>(Record<'a>);

impl fmt::Display for Operands<'_> {
    ghost output = { λ x. Some (operands_text (shown x.0)) };

    fn fmt<W: fmt::Write>(&self, f: &mut fmt::Formatter<W>) -> fmt::Result {
        match self.0 {
            Record::Module(body) => write!(f, " {}", module_number(body)),
            Record::PushBool([flag]) => write!(f, " {}", *flag != 0),
            Record::Struct(body)
            | Record::Function(body)
            | Record::CopyLoc(body)
            | Record::MoveLoc(body)
            | Record::StLoc(body)
            | Record::Jump(body)
            | Record::JumpIf(body)
            | Record::Pack(body)
            | Record::Unpack(body)
            | Record::MoveTo(body)
            | Record::MoveFrom(body)
            | Record::Exists(body) => {
                let [number] = body;
                write!(f, " {number}")
            }
            Record::Field(body)
            | Record::Param(body)
            | Record::Result(body)
            | Record::Local(body) => write!(f, " {}", TypeRef::from(body)),
            Record::PushNum(body) | Record::PushAddr(body) => write!(f, " {}", word(body)),
            Record::Call(body) => {
                let FunctionRef { module, function } = FunctionRef::from(body);
                write!(f, " {module} {function}")
            }
            Record::End
            | Record::Sender
            | Record::Pop
            | Record::Add
            | Record::Sub
            | Record::Mul
            | Record::Lt
            | Record::Eq
            | Record::Ret
            | Record::Abort => Ok(()),
        }
    }
}

// A record as a line of a listing has it.
#[derive(Clone, Copy)]
struct Listed<'a>(Placed<'a>);

impl fmt::Display for Listed<'_> {
    ghost output = { λ x. Some (record_text (x.0.place, shown x.0.«record»)) };

    fn fmt<W: fmt::Write>(&self, f: &mut fmt::Formatter<W>) -> fmt::Result {
        let Placed { place, record } = self.0;
        let name = record.name();
        let operands = Operands(record);
        write!(f, "{place} {name}{operands}")
    }
}

// Writes a line for each record of a module, up to the first that cannot be read.
pub fn list_records(bytes: &[u8], out: &mut String) -> io::Result<()>
    ensures { OnOk result (string_bytes out.new ≡ string_bytes out.old ++ listing bytes.now) }
{
    for placed in Walk::over(bytes) {
        writeln!(out, "{}", Listed(placed))?;
    }
    Ok(())
}
