// A walk over the records of a module, one at a time, each with its place.
ghost use Rattle.std.specs.Prelude.{◌≡◌, length, drop};
ghost use Rattle.std.specs.Iterator.{YieldsFirstBy, item_count};
ghost use Rattle.codec.specs.FirstRecord.{read_one};
ghost use Rattle.codec.specs.Walking.{placed, shown_placed, place_after, shown_at, to_come, records_in};

use super::reading::read_record;
use bytecode::{Fault, Reason, Record};

// A record with the offset of its kind byte.
#[derive(Clone, Copy)]
pub struct Placed<'a> {
    pub place: usize,
    pub record: Record<'a>,
}

// The module, and where its next record should begin: a place, and not the bytes that are left, since faults and listings tell it.
#[derive(Clone, Copy)]
pub struct Walk<'a> {
    module: &'a [u8],
    pub place: usize,
}

impl<'a> Walk<'a> {
    pub fn over(bytes: &'a [u8]) -> Walk<'a>
        ensures begins { result.place ≡ 0 }
        ensures over { result.«module».now ≡ bytes.now }
        ensures gives { to_come result ≡ records_in bytes.now }
    {
        Walk {
            module: bytes,
            place: 0,
        }
    }

    // The next record. A refusal leaves the walk where it is.
    pub fn next_record(&mut self) -> Result<Placed<'a>, Fault>
        ensures answer { shown_placed result ≡ placed self.old.place (read_one (drop self.old.place self.old.«module».now)) }
        ensures after { self.new.place ≡ place_after self.old.place (shown_placed result) }
        ensures same { self.new.«module».now ≡ self.old.«module».now }
    {
        let place = self.place;
        if place >= self.module.len() {
            return Err(Reason::MissingEnd.at(place));
        }
        let rest = &self.module[place..];
        let (record, after) = read_record(rest).map_err(|reason| reason.at(place))?;
        self.place = self.module.len() - after.len();
        Ok(Placed { place, record })
    }
}

impl<'a> Iterator for Walk<'a> {
    type Item = Placed<'a>;

    ghost next_gives = { YieldsFirstBy shown_at to_come };

    ghost remaining = { item_count to_come };

    #[tactic(auto, using(crate::proofs::Walks::takes_first, crate::proofs::Walks::goes_on))]
    fn next(&mut self) -> Option<Placed<'a>> {
        self.next_record().ok()
    }
}
