// Which record may follow which, and how many of each there may be.
ghost use Rattle.std.specs.Prelude.{◌≡◌};
ghost use Rattle.bytecode.specs.Records.{shown};
ghost use Rattle.grammar.specs.Order.{part_of, may_follow, most, had, counting, advance, is_end};

use bytecode::{Reason, Record};

// The parts of a module, of which each record is one. `Start` is before the first record, and every instruction is `Code`.
// `Start` is a part, and no `None`, since what may follow it is a line of the same table.
#[derive(Clone, Copy, Debug, PartialEq, Eq)]
pub enum Part {
    Start,
    Module,
    Struct,
    Field,
    Function,
    Param,
    Result,
    Local,
    Code,
    End,
}

impl From<&Record<'_>> for Part {
    ghost from_gives = { λ x part. part ≡ part_of (shown x.now).0 };

    fn from(record: &Record<'_>) -> Part {
        match record {
            Record::Module(_) => Part::Module,
            Record::Struct(_) => Part::Struct,
            Record::Field(_) => Part::Field,
            Record::Function(_) => Part::Function,
            Record::Param(_) => Part::Param,
            Record::Result(_) => Part::Result,
            Record::Local(_) => Part::Local,
            Record::End => Part::End,
            _ => Part::Code,
        }
    }
}

impl Part {
    fn may_follow(self, last: Part) -> bool
        ensures { result ≡ may_follow last self }
    {
        match self {
            Part::Start => false,
            Part::Module => matches!(last, Part::Start),
            Part::Struct => matches!(last, Part::Module | Part::Field),
            Part::Field => matches!(last, Part::Struct | Part::Field),
            Part::Function | Part::End => matches!(last, Part::Module | Part::Field | Part::Code),
            Part::Param => matches!(last, Part::Function | Part::Param),
            Part::Result => matches!(last, Part::Function | Part::Param | Part::Result),
            Part::Local => matches!(
                last,
                Part::Function | Part::Param | Part::Result | Part::Local
            ),
            Part::Code => matches!(
                last,
                Part::Function | Part::Param | Part::Result | Part::Local | Part::Code
            ),
        }
    }

    // The most that a module, a struct or a function may have of it.
    fn most(self) -> u16
        ensures { result ≡ most self }
    {
        match self {
            Part::Start => 0,
            Part::Module | Part::End => 1,
            Part::Struct | Part::Field | Part::Param => 8,
            Part::Result => 4,
            Part::Function | Part::Local => 16,
            Part::Code => 128,
        }
    }
}

// What matters of the records so far.
#[derive(Clone, Copy, Debug, PartialEq, Eq)]
pub struct Progress {
    // the part of the last record
    last: Part,
    // how many of that part there are: in the module, or in its last struct or function; a local counts with the parameters
    count: u16,
    structs: u16,
    functions: u16,
    // those of the last function
    params: u16,
}

impl Progress {
    pub const START: Progress = Progress {
        last: Part::Start,
        count: 0,
        structs: 0,
        functions: 0,
        params: 0,
    };

    // How many of this part there are so far.
    fn had(self, part: Part) -> u16
        ensures { result ≡ had self part }
    {
        match part {
            Part::Struct => self.structs,
            Part::Function => self.functions,
            Part::Param => self.params,
            _ if self.last == part => self.count,
            Part::Local => self.params,
            _ => 0,
        }
    }

    pub fn is_over(self) -> bool
        ensures { result ≡ is_end self.last }
    {
        self.last == Part::End
    }

    // The progress with this record, or why it may not come here.
    pub fn with(self, record: &Record) -> Result<Progress, Reason>
        ensures { result ≡ advance self (shown «record».now) }
    {
        let part = Part::from(record);
        if !part.may_follow(self.last) {
            return Err(Reason::OutOfOrder);
        }
        let count = self.had(part);
        if count >= part.most() {
            return Err(Reason::TooMany);
        }
        if !record.in_range() {
            return Err(Reason::OutOfRange);
        }
        Ok(self.counting(part, count + 1))
    }

    // The progress where this part is last, and there are `count` of it.
    // A `match` for each field: one over the part, with `..next` in each arm, reads modules a tenth slower.
    fn counting(self, part: Part, count: u16) -> Progress
        ensures { result ≡ counting self part count }
    {
        Progress {
            last: part,
            count,
            structs: match part {
                Part::Struct => count,
                _ => self.structs,
            },
            functions: match part {
                Part::Function => count,
                _ => self.functions,
            },
            params: match part {
                Part::Function => 0,
                Part::Param => count,
                _ => self.params,
            },
        }
    }
}
