// The commands of a script, and how a line is read as one.
ghost use Rattle.std.specs.Prelude.{◌≡◌};
ghost use Rattle.lines.specs.BadLines.{UnlessOutOfMemory};
ghost use Rattle.lines.specs.Hex.{items_of};
ghost use Rattle.lines.specs.Lines.{says_nothing, bytes_operand, request_of, parsed};

use super::bad_lines::{BadLine, LineError};
use super::hex::decode_hex;
use super::words::first_word;
use std::alloc::Global;

#[derive(Debug, Drop)]
pub enum Command {
    Read(Vec<u8>),
}

// Whether a line says nothing, by its first word: it is blank, or a comment.
fn says_nothing(word: &[u8]) -> bool
    ensures { result ≡ says_nothing word.now }
{
    matches!(word, [] | [b'#', ..])
}

// The bytes that are a command's only operand: hex digits, or `-` for none.
fn bytes_operand(heap: Global, operands: &[u8]) -> Result<Vec<u8>, LineError>
    ensures { UnlessOutOfMemory result (λ o. items_of o ≡ bytes_operand operands.now) }
{
    let (word, behind) = first_word(operands);
    let (extra, _) = first_word(behind);
    match (word, extra) {
        ([], _) => Err(BadLine::MissingOperand.into()),
        (_, [_, ..]) => Err(BadLine::ExtraWord.into()),
        (b"-", []) => Ok(Vec::new(heap)),
        (_, []) => decode_hex(heap, word),
    }
}

// The command on a line; a line that says nothing has none.
pub fn parse_line(heap: Global, line: &[u8]) -> Result<Option<Command>, LineError>
    ensures { UnlessOutOfMemory result (λ o. request_of o ≡ parsed line.now) }
{
    let (name, operands) = first_word(line);
    match name {
        _ if says_nothing(name) => Ok(None),
        b"read" => Ok(Some(Command::Read(bytes_operand(heap, operands)?))),
        _ => Err(BadLine::UnknownCommand.into()),
    }
}
