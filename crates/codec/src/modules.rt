// A whole module: read, and written again from its records.
ghost use Rattle.std.specs.Prelude.{◌≡◌, ℕ, take, IfOk, Ok, MatchResult};
ghost use Rattle.codec.specs.Readable.{IsModule, Refused};
ghost use Rattle.codec.specs.Reading.{read_module};
ghost use Rattle.codec.specs.RoundTrip.{rewriting, rewritten};

use super::walk::Walk;
use super::writing::write_record;
use bytecode::{Fault, Reason};
use grammar::Progress;

pub const MAX_MODULE: usize = 4096;

// How many records the module has, or the first place at which the bytes stop being one.
pub fn read_module(bytes: &[u8]) -> Result<usize, Fault>
    ensures answer { result ≡ read_module bytes.now }
    ensures means { MatchResult result (IsModule bytes.now) (Refused bytes.now) }
    ensures complete { (n : ℕ) → IsModule bytes.now n → result ≡ Ok n }
{
    if bytes.len() > MAX_MODULE {
        return Err(Reason::TooLong.at(MAX_MODULE));
    }
    let mut walk = Walk::over(bytes);
    let mut progress = Progress::START;
    let mut records = 0;
    // A `while`, since the grammar says where the records end, and `next_record` why there is no further one. Were that an item of the walk,
    // each other loop over records would have to pass over it.
    while !progress.is_over() {
        let placed = walk.next_record()?;
        progress = progress
            .with(&placed.record)
            .map_err(|reason| reason.at(placed.place))?;
        records += 1;
    }
    if walk.place < bytes.len() {
        return Err(Reason::BytesAfterEnd.at(walk.place));
    }
    Ok(records)
}

// Writes the records of a module into a buffer one by one, and answers how many bytes that were.
// A refusal leaves the buffer as it was; the buffer is refused whole where it is shorter than the module.
pub fn rewrite_module(bytes: &[u8], buffer: &mut [u8]) -> Result<usize, Fault>
    ensures answer { result ≡ rewriting bytes.now buffer.old (read_module bytes.now) }
    ensures after { buffer.new ≡ rewritten bytes.now buffer.old result }
    ensures back { IfOk result (λ n. take n buffer.new ≡ bytes.now) }
{
    read_module(bytes)?;
    if buffer.len() < bytes.len() {
        return Err(Reason::NoRoom.at(0));
    }
    let mut used = 0;
    for placed in Walk::over(bytes) {
        used = write_record(buffer, used, placed.record.kind(), placed.record.body())?;
    }
    Ok(used)
}
