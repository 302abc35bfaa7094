// What the reader and the writer refuse, with the numbers that users see.
ghost use Rattle.std.specs.Prelude.{◌≡◌, Some};
ghost use Rattle.bytecode.specs.Refusals.{number, fault};
ghost use Rattle.bytecode.specs.Texts.{reason_text, fault_text};

use std::fmt;

#[derive(Clone, Copy, Debug, PartialEq, Eq)]
pub enum Reason {
    MissingEnd,
    UnknownKind,
    CutRecord,
    WrongBodyLength,
    BytesAfterEnd,
    OutOfOrder,
    TooMany,
    TooLong,
    OutOfRange,
    NoRoom,
}

impl Reason {
    // This refusal at that place.
    pub fn at(self, place: usize) -> Fault
        ensures { result ≡ fault self place }
    {
        Fault {
            reason: self,
            place,
        }
    }

    // The refusal's number, by which users know it.
    pub fn number(self) -> u8
        ensures { result ≡ number self }
    {
        match self {
            Reason::MissingEnd
            | Reason::UnknownKind
            | Reason::CutRecord
            | Reason::WrongBodyLength
            | Reason::BytesAfterEnd => 1,
            Reason::OutOfOrder => 2,
            Reason::TooMany | Reason::TooLong => 3,
            Reason::OutOfRange => 4,
            Reason::NoRoom => 16,
        }
    }
}

// By hand, as every Display here: thiserror's derive writes one with no contract, and this text is proved.
impl fmt::Display for Reason {
    ghost output = { λ x. Some (reason_text x) };

    fn fmt<W: fmt::Write>(&self, f: &mut fmt::Formatter<W>) -> fmt::Result {
        f.write_str(match self {
            Reason::MissingEnd => "the bytes stop where a record should begin",
            Reason::UnknownKind => "no kind of record has this byte",
            Reason::CutRecord => "the bytes stop inside this record",
            Reason::WrongBodyLength => "the body is not as long as this kind asks",
            Reason::BytesAfterEnd => "there are bytes after the end record",
            Reason::OutOfOrder => "this record may not stand here",
            Reason::TooMany => "one more of these than there may be",
            Reason::TooLong => "a module has at most 4096 bytes",
            Reason::OutOfRange => "a value in this record's body is out of range",
            Reason::NoRoom => "the buffer has no room for this record",
        })
    }
}

// A refusal and its place: an offset in the module, or the length that was written before.
#[derive(Clone, Copy, Debug, PartialEq, Eq)]
pub struct Fault {
    pub reason: Reason,
    pub place: usize,
}

impl fmt::Display for Fault {
    ghost output = { λ x. Some (fault_text x) };

    fn fmt<W: fmt::Write>(&self, f: &mut fmt::Formatter<W>) -> fmt::Result {
        let number = self.reason.number();
        let place = self.place;
        let reason = self.reason;
        write!(f, "refused {number} at {place} by codec ({reason})")
    }
}
