// Bytes that are written as pairs of hex digits.
ghost use Rattle.std.specs.Prelude.{◌≡◌};
ghost use Rattle.lines.specs.BadLines.{UnlessOutOfMemory};
ghost use Rattle.lines.specs.Hex.{digit_value, unhex, items_of};

use super::bad_lines::{BadLine, LineError};
use std::alloc::Global;

fn hex_digit(c: u8) -> Option<u8>
    ensures { result ≡ digit_value c }
{
    char::from(c).to_digit(16).map(|digit| digit as u8)
}

// The bytes that this text writes, or what is wrong with it. Not by the kit's crate `hex`, which tells an odd length before a wrong digit.
pub fn decode_hex(heap: Global, text: &[u8]) -> Result<Vec<u8>, LineError>
    ensures { UnlessOutOfMemory result (λ o. items_of o ≡ unhex text.now) }
{
    let mut bytes = Vec::new(heap);
    for pair in text.chunks(2) {
        let high = hex_digit(pair[0]).ok_or(BadLine::NoHexDigit)?;
        let second = pair.get(1).ok_or(BadLine::OddHexDigits)?;
        let low = hex_digit(*second).ok_or(BadLine::NoHexDigit)?;
        bytes.push(high * 16 + low)?;
    }
    Ok(bytes)
}
