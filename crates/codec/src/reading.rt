// The first record of a row of bytes.
ghost use Rattle.std.specs.Prelude.{◌≡◌};
ghost use Rattle.codec.specs.FirstRecord.{read_one, shown_read};

use bytecode::{Reason, Record, body_length};

// The first record of these bytes, and the bytes after it.
pub fn read_record<'a>(bytes: &'a [u8]) -> Result<(Record<'a>, &'a [u8]), Reason>
    ensures { shown_read result ≡ read_one bytes.now }
{
    let [kind, rest @ ..] = bytes else {
        return Err(Reason::MissingEnd);
    };
    let length = body_length(*kind).ok_or(Reason::UnknownKind)?;
    let (body, after) = rest.split_at_checked(length).ok_or(Reason::CutRecord)?;
    Ok((Record::of(*kind, body)?, after))
}
