// What may be wrong with a line, and why a line may not be read.
ghost use Rattle.std.specs.Prelude.{◌≡◌, Some, alloc_error};
ghost use Rattle.lines.specs.BadLines.{words_of};
ghost use Rattle.lines.specs.declared.bad_lines.LineError.TheVariants.{Bad, OutOfMemory};

use std::alloc::{AllocError, AllocFailed};
use std::fmt;

#[derive(Clone, Copy, Debug, PartialEq, Eq)]
pub enum BadLine {
    UnknownCommand,
    MissingOperand,
    ExtraWord,
    NoHexDigit,
    OddHexDigits,
}

// By hand, as thiserror's derive writes a Display with no contract, and the text is proved here.
impl fmt::Display for BadLine {
    ghost output = { λ x. Some (words_of x) };

    fn fmt<W: fmt::Write>(&self, f: &mut fmt::Formatter<W>) -> fmt::Result {
        f.write_str(match self {
            BadLine::UnknownCommand => "there is no such command",
            BadLine::MissingOperand => "an operand is missing",
            BadLine::ExtraWord => "a word too many",
            BadLine::NoHexDigit => "a character that is no hex digit",
            BadLine::OddHexDigits => "an odd number of hex digits",
        })
    }
}

// Why something could not be read from a line.
#[derive(Clone, Copy, Debug, PartialEq, Eq)]
pub enum LineError {
    Bad(BadLine),
    OutOfMemory(AllocError),
}

// By hand, as thiserror's From does not tell a contract which error a `?` gives.
impl From<BadLine> for LineError {
    ghost from_gives = { λ why error. error ≡ Bad why };

    fn from(why: BadLine) -> LineError {
        LineError::Bad(why)
    }
}

impl<T: Drop> From<AllocFailed<T>> for LineError {
    ghost from_gives = { λ _ error. error ≡ OutOfMemory alloc_error };

    fn from(failed: AllocFailed<T>) -> LineError {
        LineError::OutOfMemory(failed.into())
    }
}
