//! Reads a line of a Breakpad file.
ghost use Rattle.std.specs.Prelude.{◌≡◌, ◌==◌, Ok, Err, MatchResult};
ghost use Rattle.std.specs.List.{list_any};
ghost use Rattle.lnt_symbols.specs.Stepping.{said_of};
ghost use Rattle.lnt_symbols.specs.BreakpadLines.{file_of, function_of, line_record_of, is_passed, range_of, record_of};

use crate::breakpad::fields::{decimal, decimal_field, hexadecimal_field};
use crate::breakpad::record::{LineRecord, Range, Record};
use crate::fault::LineReason;

/// What a line says. `Err` if it says nothing that it may, with the reason.
pub(crate) fn record_of<'a>(line: &'a [u8]) -> Result<Record<'a>, LineReason>
    ensures { MatchResult result (λ said. record_of line.now ≡ Ok (said_of said)) (λ reason. record_of line.now ≡ Err reason) }
{
    if has_zero(line) {
        return Err(LineReason::ZeroByte);
    }
    if line.starts_with(b"FILE ") {
        return file_of(&line[5..]);
    }
    if line.starts_with(b"FUNC ") {
        return function_of(&line[5..]);
    }
    if line.starts_with(b"PUBLIC ") {
        return Ok(Record::Public);
    }
    if is_passed(line) {
        return Ok(Record::Nothing);
    }
    line_record_of(line)
}

// Whether one of the bytes is zero.
pub(crate) fn has_zero(line: &[u8]) -> bool
    ensures { result ≡ list_any (λ c. c == 0) line.now }
{
    line.contains(&0)
}

// Whether a line is empty or says nothing for a table.
fn is_passed(line: &[u8]) -> bool
    ensures { result ≡ is_passed line.now }
{
    line.is_empty()
        || line.starts_with(b"MODULE ")
        || line.starts_with(b"INFO ")
        || line.starts_with(b"STACK ")
        || line.starts_with(b"INLINE ")
        || line.starts_with(b"INLINE_ORIGIN ")
}

// `FILE N NAME`, after its word.
fn file_of<'a>(text: &'a [u8]) -> Result<Record<'a>, LineReason>
    ensures { MatchResult result (λ said. file_of text.now ≡ Ok (said_of said)) (λ reason. file_of text.now ≡ Err reason) }
{
    let (number, name) = decimal_field(text)?;
    if name.is_empty() {
        return Err(LineReason::NotARecord);
    }
    Ok(Record::File(number, name))
}

// An address, a size, and what is left.
fn range_of<'a>(text: &'a [u8]) -> Result<(Range, &'a [u8]), LineReason>
    ensures { MatchResult result (λ f. range_of text.now ≡ Ok (f.0, f.1.now)) (λ reason. range_of text.now ≡ Err reason) }
{
    let (address, rest) = hexadecimal_field(text)?;
    let (size, rest) = hexadecimal_field(rest)?;
    Ok((Range { address, size }, rest))
}

// `FUNC [m ]ADDRESS SIZE PARAMETERS NAME`, after its word.
fn function_of<'a>(text: &'a [u8]) -> Result<Record<'a>, LineReason>
    ensures { MatchResult result (λ said. function_of text.now ≡ Ok (said_of said)) (λ reason. function_of text.now ≡ Err reason) }
{
    let text = if text.starts_with(b"m ") {
        &text[2..]
    } else {
        text
    };
    let (range, rest) = range_of(text)?;
    let (_, name) = hexadecimal_field(rest)?;
    if name.is_empty() {
        return Err(LineReason::NotARecord);
    }
    Ok(Record::Function(range))
}

// `ADDRESS SIZE LINE N`.
fn line_record_of<'a>(text: &'a [u8]) -> Result<Record<'a>, LineReason>
    ensures { MatchResult result (λ said. line_record_of text.now ≡ Ok (said_of said)) (λ reason. line_record_of text.now ≡ Err reason) }
{
    let (range, rest) = range_of(text)?;
    let (line, rest) = decimal_field(rest)?;
    let file = decimal(rest)?;
    Ok(Record::Line(LineRecord { range, line, file }))
}
