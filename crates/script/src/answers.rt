// What each line of a script is answered.
ghost use Rattle.std.specs.Prelude.{◌≡◌, ◌++◌, is_ok, IfOk, string_bytes, OnOk};
ghost use Rattle.codec.specs.Reading.{read_module};
ghost use Rattle.script.specs.Answers.{same_text, read_answer, line_answer};
ghost use Rattle.lines.specs.Lines.{parsed};

use codec::{read_module, rewrite_module};
use lines::{Command, LineError, parse_line};
use listing::list_records;
use std::alloc::{AllocError, Global};
use std::io;

// Whether the module is written again as the same bytes.
fn same_again(heap: Global, bytes: &[u8]) -> Result<bool, AllocError>
    ensures { IfOk result (λ same. same ≡ is_ok (read_module bytes.now)) }
{
    let mut buffer = vec![in heap; 0; bytes.len()]?;
    Ok(rewrite_module(bytes, &mut buffer) == Ok(bytes.len()) && buffer.as_slice() == bytes)
}

// A function of its own, so that what `answer_read` writes is proved as one text.
fn same_words(same: bool) -> &'static str
    ensures { result.now ≡ same_text same }
{
    if same {
        "the same bytes"
    } else {
        "other bytes"
    }
}

// Appends what `read` answers to these bytes.
fn answer_read(heap: Global, bytes: &[u8], out: &mut String) -> io::Result<()>
    ensures { OnOk result (string_bytes out.new ≡ string_bytes out.old ++ read_answer bytes.now (read_module bytes.now)) }
{
    match read_module(bytes) {
        Err(fault) => writeln!(out, "read: {fault}")?,
        Ok(records) => {
            writeln!(out, "read: ok, {records} records")?;
            list_records(bytes, out)?;
            let again = same_words(same_again(heap, bytes)?);
            writeln!(out, "written again: {again}")?;
        }
    }
    Ok(())
}

// Appends the answer to a line, whose number counts from 1, and says whether the line has the form of one: a bool and no error, since a bad line is answered too.
pub fn answer_line(heap: Global, number: u64, line: &[u8], out: &mut String) -> io::Result<bool>
    ensures text { OnOk result (string_bytes out.new ≡ string_bytes out.old ++ line_answer number (parsed line.now)) }
    ensures good { IfOk result (λ good. good ≡ is_ok (parsed line.now)) }
{
    match parse_line(heap, line) {
        Ok(None) => Ok(true),
        Ok(Some(Command::Read(bytes))) => {
            answer_read(heap, &bytes, out)?;
            Ok(true)
        }
        Err(LineError::Bad(why)) => {
            writeln!(out, "line {number}: {why}")?;
            Ok(false)
        }
        Err(LineError::OutOfMemory(error)) => Err(error.into()),
    }
}
