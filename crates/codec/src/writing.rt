// One record more in a buffer.
ghost use Rattle.std.specs.Prelude.{◌≡◌};
ghost use Rattle.codec.specs.Writing.{writing, filled};

use bytecode::{Fault, Reason, Record};

// Writes a record behind the first `used` bytes of the buffer, and answers how many are used then.
// A refusal leaves the buffer as it was. The buffer is the host's memory, which is fixed and may be used in part, and the kind is any byte that the host hands in.
pub fn write_record(buffer: &mut [u8], used: usize, kind: u8, body: &[u8]) -> Result<usize, Fault>
    ensures answer { result ≡ writing buffer.old used (kind, body.now) }
    ensures after { buffer.new ≡ filled buffer.old used (kind, body.now) result }
{
    let record = Record::of(kind, body).map_err(|reason| reason.at(used))?;
    if !record.in_range() {
        return Err(Reason::OutOfRange.at(used));
    }
    // Two comparisons: `body.len() >= buffer.len().saturating_sub(used)` says the same and can cost a caller that inlines this a quarter more.
    if used >= buffer.len() || body.len() > buffer.len() - used - 1 {
        return Err(Reason::NoRoom.at(used));
    }
    let end = used + 1 + body.len();
    buffer[used] = kind;
    buffer[used + 1..end].copy_from_slice(body);
    Ok(end)
}
