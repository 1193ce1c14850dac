//! Looks up the positions in the lines of a text.
ghost use Rattle.std.specs.Prelude.{◌≡◌, ◌+◌, ◌-◌, ◌^◌, ◌<◌, ◌==◌, [], ◌∷◌, length, IfErr, IfOk, IfSome, IsErrOf, MatchOption};
ghost use Rattle.std.specs.Prelude.{◌++◌, ◌≤◌, OnErr, OnOk, Some, drop, take, position};
ghost use Rattle.std.specs.Str.Lines.{strip_carriage_return};
ghost use Rattle.lnt_io.specs.declared.io_stop.IoStop.TheVariants as io_stop;
ghost use Rattle.lnt_io.specs.declared.status.Status.TheVariants.{Done};
ghost use Rattle.lnt_io.specs.IoStops.{IsPrinting};
ghost use Rattle.lnt_io.specs.Stopping.{IsTooLongOn};
ghost use Rattle.lnt_answers.specs.AddressBlocks.{AreFirstBegun, AreFirstPrinted, BeginsWithLine, HasNo, IsCut};
ghost use Rattle.lnt_answers.specs.AddressLines.{AreAddressesBegun, AreAddressesPrinted, AreLinesBegun, AreLinesPrinted};
ghost use Rattle.lnt_answers.specs.Lines.{NamesPosition};
ghost use Rattle.lnt_spans.specs.declared.position.Position.{Position as Spec};

use crate::display::put_text;
use crate::lookup::{CachedLookups, put_lookup, send};
use lnt_io::{BLOCK, IoStop, Source, Status};
use lnt_lines::{Index, KeepsFrom};
use lnt_spans::Position;
use lnt_text::{Quoted, address, address_until, decimal, decimal_until};
use std::alloc::{AllocError, Global};
use std::io::Write;

// The lines that were made are written once they have this many bytes, and at the end of a block.
const FULL: usize = 1 << 15;

/// Prints a line for each line of the text from the source: the answer at its position, as `print_lookups` prints it, or
/// that the line is bad.
///
/// A line is `ADDRESS` or `ADDRESS,N`, and ends with a line feed, with a carriage return and a line feed, or with the text.
/// If N is left out, the operation index is `op`. The lines that end within the bytes of one read are answered, and the
/// writer is flushed, before the next read.
///
/// Returns `Done` if each line has a position, and `No` otherwise. In both cases these lines have been written, and nothing
/// else (`AreAddressesPrinted`). Stops with `Read` only if the source failed, and with `TooLong` only if the source has more
/// bytes than it may give: the lines before it are then answered. Stops with `Write` if the writer failed, and with `Memory`.
/// If it stops, a prefix of the lines for all lines of the text has been written, and nothing else (`AreAddressesBegun`). The
/// caller ensures that the number of the source's failures is below `u64::MAX`.
pub fn print_addresses<T: Source, W: Write>(
    alloc: Global,
    index: &Index<'_>,
    lines: &mut T,
    op: u64,
    out: &mut W,
) -> Result<Status, IoStop>
    requires { T.failures lines.old < 2 ^ 64 - 1 }
    ensures printed { IfOk result (λ status. AreAddressesPrinted index.now op (T.remaining lines.old)
        (W.contents out.old) (W.contents out.new) status) }
    ensures begun { OnErr result (AreAddressesBegun index.now op (T.remaining lines.old) (W.contents out.old) (W.contents out.new)) }
    ensures read { IsErrOf result io_stop.Read → T.failures lines.new ≡ T.failures lines.old + 1 }
    ensures name { T.name lines.new ≡ T.name lines.old }
    ensures too_long { IsTooLongOn ⟦<T as Source>⟧ lines.old lines.new result io_stop.TooLong }
{
    // Of the size of a file's buffer, so that a pull is one read.
    let mut block = vec![in alloc; 0; BLOCK]?;
    let mut lookups = CachedLookups::new(alloc, index, KeepsFrom::First)?;
    let mut asked = Asked::new(alloc, op);
    loop {
        let Ok(count) = lines.pull(&mut block) else {
            return Err(IoStop::Read);
        };
        if count == 0 {
            break;
        }
        asked.answer_block(alloc, &mut lookups, &block[..count], out)?;
        out.flush()?;
    }
    if lines.too_long() {
        return Err(IoStop::TooLong);
    }
    if !asked.line.is_empty() {
        asked.answer_line(alloc, &mut lookups, out)?;
    }
    Ok(asked.answers.status)
}

// The state between two pulls.
#[derive(Drop)]
struct Asked {
    // the bytes of the current line that have come
    line: Vec<u8>,
    // the answers to the lines before it
    answers: Answers,
}

impl Asked {
    // No byte has come yet. The operation index is for a line without one.
    fn new(alloc: Global, op: u64) -> Asked
        ensures line { result.line.items ≡ [] }
        ensures lines { result.answers.lines.items ≡ [] }
        ensures op { result.answers.op ≡ op }
        ensures status { result.answers.status ≡ Done }
    {
        Asked {
            line: Vec::new(alloc),
            answers: Answers {
                op,
                lines: Vec::new(alloc),
                status: Status::Done,
            },
        }
    }

    // Answers the lines that end in a block, and keeps the bytes after them as the current line.
    fn answer_block<W: Write>(
        &mut self,
        alloc: Global,
        lookups: &mut CachedLookups<'_, '_>,
        block: &[u8],
        out: &mut W,
    ) -> Result<(), IoStop>
        requires line { HasNo 10 self.old.line.items }
        requires none { self.old.answers.lines.items ≡ [] }
        ensures err { IfErr result IsPrinting }
        ensures printed { OnOk result (AreFirstPrinted lookups.old self.old.answers.op (self.old.line.items ++ block.now)
            self.new.line.items
            (W.contents out.old) (W.contents out.new) self.old.answers.status self.new.answers.status) }
        ensures stopped { OnErr result (AreFirstBegun lookups.old self.old.answers.op (self.old.line.items ++ block.now)
            (W.contents out.old) (W.contents out.new)) }
        ensures line { OnOk result (HasNo 10 self.new.line.items) }
        ensures none { OnOk result (self.new.answers.lines.items ≡ []) }
        ensures same { OnOk result (self.new.answers.op ≡ self.old.answers.op) }
        ensures index { lookups.new ≡ lookups.old }
    {
        let mut rest = block;
        while let Some(end) = place_of(b'\n', rest) {
            self.end_line(alloc, lookups, &rest[..end])?;
            rest = self.answers.put_lines(alloc, lookups, &rest[end + 1..])?;
            send(&mut self.answers.lines, out)?;
        }
        self.line.extend_from_slice(rest)?;
        Ok(())
    }

    // Appends the answer to the current line, which ends with these bytes before a line feed, and empties it for the next one.
    fn end_line(
        &mut self,
        alloc: Global,
        lookups: &mut CachedLookups<'_, '_>,
        bytes: &[u8],
    ) -> Result<(), AllocError>
        ensures printed { OnOk result (AreLinesPrinted lookups.old self.old.answers.op
            (strip_carriage_return (self.old.line.items ++ bytes.now) ∷ [])
            (Some self.old.answers.lines.items) (Some self.new.answers.lines.items) self.old.answers.status self.new.answers.status) }
        ensures begun { OnOk result (self.new.line.items ≡ []) }
        ensures same { OnOk result (self.new.answers.op ≡ self.old.answers.op) }
        ensures index { lookups.new ≡ lookups.old }
    {
        self.line.extend_from_slice(bytes)?;
        self.answers
            .put_line(alloc, lookups, without_return(&self.line))?;
        self.line.clear();
        Ok(())
    }

    // Answers the current line, with which the text ends.
    fn answer_line<W: Write>(
        &mut self,
        alloc: Global,
        lookups: &mut CachedLookups<'_, '_>,
        out: &mut W,
    ) -> Result<(), IoStop>
        requires { self.old.answers.lines.items ≡ [] }
        ensures err { IfErr result IsPrinting }
        ensures printed { OnOk result (AreLinesPrinted lookups.old self.old.answers.op (self.old.line.items ∷ [])
            (W.contents out.old) (W.contents out.new) self.old.answers.status self.new.answers.status) }
        ensures stopped { OnErr result (AreLinesBegun lookups.old self.old.answers.op (self.old.line.items ∷ [])
            (W.contents out.old) (W.contents out.new)) }
    {
        self.answers.put_line(alloc, lookups, &self.line)?;
        send(&mut self.answers.lines, out)
    }
}

// The answers to lines.
#[derive(Drop)]
struct Answers {
    // the operation index for a line without one
    op: u64,
    // the lines of those that weren't written yet
    lines: Vec<u8>,
    // `Done` if each line so far had a position
    status: Status,
}

impl Answers {
    // Appends the answers to the first lines of a text, until there is enough to write or no line ends; gives the rest of the text.
    fn put_lines<'t>(
        &mut self,
        alloc: Global,
        lookups: &mut CachedLookups<'_, '_>,
        text: &'t [u8],
    ) -> Result<&'t [u8], AllocError>
        ensures printed { IfOk result (λ rest. AreFirstPrinted lookups.old self.old.op text.now rest.now
            (Some self.old.lines.items) (Some self.new.lines.items) self.old.status self.new.status) }
        ensures shorter { IfOk result (λ rest. length rest.now ≤ length text.now) }
        ensures same { OnOk result (self.new.op ≡ self.old.op) }
        ensures index { lookups.new ≡ lookups.old }
    {
        let mut rest = text;
        while let Some(next) = self.put_next(alloc, lookups, rest)? {
            rest = next;
        }
        Ok(rest)
    }

    // Appends the answer to the first line of a text; gives the rest of the text. `None` if no line ends in it, or if there is enough
    // to write.
    #[inline(always)]
    fn put_next<'t>(
        &mut self,
        alloc: Global,
        lookups: &mut CachedLookups<'_, '_>,
        text: &'t [u8],
    ) -> Result<Option<&'t [u8]>, AllocError>
        ensures printed { IfOk result (λ found. MatchOption found
            (AreFirstPrinted lookups.old self.old.op text.now text.now
            (Some self.old.lines.items) (Some self.new.lines.items) self.old.status self.new.status)
            (λ rest. AreFirstPrinted lookups.old self.old.op text.now rest.now
            (Some self.old.lines.items) (Some self.new.lines.items) self.old.status self.new.status)) }
        ensures shorter { IfOk result (λ found. IfSome found (λ rest. length rest.now < length text.now)) }
        ensures same { OnOk result (self.new.op ≡ self.old.op) }
        ensures index { lookups.new ≡ lookups.old }
    {
        if self.lines.len() >= FULL {
            return Ok(None);
        }
        if let Some((position, rest)) = line_at(text, self.op) {
            put_lookup(alloc, lookups, position, &mut self.lines)?;
            return Ok(Some(rest));
        }
        let Some(end) = place_of(b'\n', text) else {
            return Ok(None);
        };
        self.put_line(alloc, lookups, without_return(&text[..end]))?;
        Ok(Some(&text[end + 1..]))
    }

    // Appends the answer to a line.
    fn put_line(
        &mut self,
        alloc: Global,
        lookups: &mut CachedLookups<'_, '_>,
        line: &[u8],
    ) -> Result<(), AllocError>
        ensures printed { OnOk result (AreLinesPrinted lookups.old self.old.op (line.now ∷ [])
            (Some self.old.lines.items) (Some self.new.lines.items) self.old.status self.new.status) }
        ensures same { OnOk result (self.new.op ≡ self.old.op) }
        ensures index { lookups.new ≡ lookups.old }
    {
        match position_in(line, self.op) {
            Some(position) => {
                put_lookup(alloc, lookups, position, &mut self.lines)?;
            }
            None => {
                put_text(&format_args!("bad {}\n", Quoted(line)), &mut self.lines)?;
                self.status = Status::No;
            }
        }
        Ok(())
    }
}

// A line without the carriage return at its end, if it has one.
fn without_return(line: &[u8]) -> &[u8]
    ensures { result.now ≡ strip_carriage_return line.now }
{
    if line.last() == Some(&b'\r') {
        &line[..line.len() - 1]
    } else {
        line
    }
}

// Parses a line `ADDRESS` or `ADDRESS,N` at the start of a text, up to its line feed; gives the rest of the text. Without N the
// operation index is `op`. With `None`, another line may be there, with or without a position.
#[inline(always)]
fn line_at(text: &[u8], op: u64) -> Option<(Position, &[u8])>
    ensures { IfSome result (λ found. BeginsWithLine op text.now found.0 found.1.now) }
{
    if let Some((address, next)) = address_until(text, 0, b'\n') {
        return Some((Position { address, op }, text.get(next..)?));
    }
    let (address, past) = address_until(text, 0, b',')?;
    let (op, next) = decimal_until(text, past, b'\n')?;
    Some((Position { address, op }, text.get(next..)?))
}

// Parses a line `ADDRESS` or `ADDRESS,N`; without N the operation index is `op`. `None` if the line is neither.
fn position_in(line: &[u8], op: u64) -> Option<Position>
    ensures { MatchOption result ((position : Spec) → NamesPosition op line.now position → ⊥) (NamesPosition op line.now) }
{
    let Some(comma) = place_of(b',', line) else {
        return Some(Position {
            address: address(line)?,
            op,
        });
    };
    Some(Position {
        address: address(&line[..comma])?,
        op: decimal(&line[comma + 1..])?,
    })
}

// The index of the first such byte in a text.
fn place_of(byte: u8, text: &[u8]) -> Option<usize>
    ensures place { result ≡ position (λ other. other == byte) text.now }
    ensures within { IfSome result (λ place. place < length text.now) }
    ensures cut { MatchOption result (HasNo byte text.now) (λ place.
        IsCut byte text.now (take place text.now) (drop (place + 1) text.now)) }
{
    for place in 0..text.len() {
        if text[place] == byte {
            return Some(place);
        }
    }
    None
}
