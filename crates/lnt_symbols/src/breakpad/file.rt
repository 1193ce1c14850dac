//! Reads the records of a Breakpad file.
ghost use Rattle.std.specs.Prelude.{◌≡◌, ◌+◌, ◌<◌, ◌≤◌, ◌-◌, ℕ, List, [], ◌∷◌};
ghost use Rattle.std.specs.Prelude.{◌++◌, true, false, drop, length, Ok, Err, IfOk, IfErr, IfSome};
ghost use Rattle.std.specs.Prelude.{IsSome, IsSomeAnd, IsTrue, MatchBool, MatchOption, Some};
ghost use Rattle.lnt_symbols.specs.Stepping.{HasRead, IsEnd, IsHeldStop, IsStop, MayFollow, left_length, lines_left, said_of};
ghost use Rattle.lnt_symbols.specs.BreakpadLines.{lines_from, lines_of, record_of};
ghost use Rattle.lnt_symbols.specs.declared.breakpad.file.ReadingStop.TheVariants.{Fault};
ghost use Rattle.lnt_symbols.specs.declared.fault.SymbolFault.TheVariants.{Line};
ghost use Rattle.lnt_symbols.specs.BreakpadAnswers.{is_inside, may_follow};

use crate::breakpad::line::{has_zero, record_of};
use crate::breakpad::plain::plain_line;
use crate::breakpad::reading::Reading;
use crate::breakpad::record::Record;
use crate::fault::{LineReason, SymbolFault};
use lnt_io::Stop;
use std::alloc::{AllocError, Global};

/// Why a file wasn't read.
#[derive(Clone, Copy)]
pub(crate) enum ReadingStop {
    /// The first fault of the file.
    Fault(SymbolFault),
    /// Its bytes weren't read, or memory ran out.
    Stop(Stop),
}

// A line number that is too large to be counted: so many lines don't fit any memory.
const OUT_OF_NUMBERS: ReadingStop = ReadingStop::Stop(Stop::Memory);

/// The records of a file whose address 0 is loaded at `base`, as far as its lines were read.
#[derive(Drop)]
pub(crate) struct Reader {
    base: u64,
    /// What they come to.
    pub(crate) reading: Reading,
    // the number of lines
    number: u64,
    // whether a function goes on
    inside: bool,
}

impl Reader {
    /// No line was read.
    pub(crate) fn new(alloc: Global, base: u64) -> Reader
        ensures base { result.base ≡ base }
        ensures read { (whole : List ℕ) → HasRead whole result (lines_of whole) }
    {
        Reader {
            base,
            reading: Reading::new(alloc),
            number: 0,
            inside: false,
        }
    }

    /// Reads the next lines, which begin with these bytes: those whose end can be told, or all if the file ends with these bytes. Gives
    /// the number of bytes that are left.
    pub(crate) fn read(
        &mut self,
        alloc: Global,
        bytes: &[u8],
        is_last: bool,
    ) -> Result<usize, ReadingStop>
        ensures base { self.new.base ≡ self.old.base }
        ensures left { IfOk result (λ left. left ≤ length bytes.now) }
        ensures read { (whole more : List ℕ) → HasRead whole self.old (lines_of (bytes.now ++ more)) → (IsTrue is_last → more ≡ [])
            → IfOk result (λ left. MatchBool is_last (HasRead whole self.new [])
            (HasRead whole self.new (lines_of (drop (length bytes.now - left) bytes.now ++ more)))) }
        ensures stop { (whole more : List ℕ) → HasRead whole self.old (lines_of (bytes.now ++ more)) → (IsTrue is_last → more ≡ [])
            → IfErr result (IsStop whole) }
        ensures held { IfErr result IsHeldStop }
        ensures counts { IsTrue is_last → IfOk result (λ _. 0 < self.new.number) }
    {
        let mut rest = Some(bytes);
        while let Some(left) = rest {
            match self.read_line(alloc, left, is_last) {
                Ok(Some(after)) => rest = after,
                Ok(None) => return Ok(left.len()),
                Err(stop) => return Err(stop),
            }
        }
        Ok(0)
    }

    // Reads the first line, and gives what stands after its end, if it has one; or `None` if its end can't be told yet.
    #[inline(always)]
    fn read_line<'b>(
        &mut self,
        alloc: Global,
        bytes: &'b [u8],
        is_last: bool,
    ) -> Result<Option<Option<&'b [u8]>>, ReadingStop>
        ensures base { self.new.base ≡ self.old.base }
        ensures some { IfOk result (λ found. MatchOption found (is_last ≡ false) (λ after. is_last ≡ false → IsSome after)) }
        ensures at_end { IfOk result (λ found. IfSome found (λ after. IfSome after (λ rest. IsEnd bytes.now rest.now))) }
        ensures shorter { IfOk result (λ found. IfSome found (λ after. left_length after ≤ length bytes.now)) }
        ensures read { (whole more : List ℕ) → HasRead whole self.old (lines_of (bytes.now ++ more)) → (IsTrue is_last → more ≡ [])
            → IfOk result (λ found. MatchOption found (HasRead whole self.new (lines_of (bytes.now ++ more)))
            (λ after. HasRead whole self.new (lines_left after more))) }
        ensures stop { (whole more : List ℕ) → HasRead whole self.old (lines_of (bytes.now ++ more)) → (IsTrue is_last → more ≡ [])
            → IfErr result (IsStop whole) }
        ensures held { IfErr result IsHeldStop }
        ensures counts { IfOk result (λ found. IfSome found (λ _. 0 < self.new.number)) }
    {
        if self.number > 0 {
            if let Some((line, rest)) = plain_line(bytes) {
                return match self.take(alloc, Record::Line(line)) {
                    Ok(()) => Ok(Some(Some(rest))),
                    Err(stop) => Err(stop),
                };
            }
        }
        self.read_any(alloc, bytes, is_last)
    }

    // The same, whatever stands in the line.
    #[inline(never)]
    fn read_any<'b>(
        &mut self,
        alloc: Global,
        bytes: &'b [u8],
        is_last: bool,
    ) -> Result<Option<Option<&'b [u8]>>, ReadingStop>
        ensures base { self.new.base ≡ self.old.base }
        ensures some { IfOk result (λ found. MatchOption found (is_last ≡ false) (λ after. is_last ≡ false → IsSome after)) }
        ensures at_end { IfOk result (λ found. IfSome found (λ after. IfSome after (λ rest. IsEnd bytes.now rest.now))) }
        ensures shorter { IfOk result (λ found. IfSome found (λ after. left_length after ≤ length bytes.now)) }
        ensures read { (whole more : List ℕ) → HasRead whole self.old (lines_of (bytes.now ++ more)) → (IsTrue is_last → more ≡ [])
            → IfOk result (λ found. MatchOption found (HasRead whole self.new (lines_of (bytes.now ++ more)))
            (λ after. HasRead whole self.new (lines_left after more))) }
        ensures stop { (whole more : List ℕ) → HasRead whole self.old (lines_of (bytes.now ++ more)) → (IsTrue is_last → more ≡ [])
            → IfErr result (IsStop whole) }
        ensures held { IfErr result IsHeldStop }
        ensures counts { IfOk result (λ found. IfSome found (λ _. 0 < self.new.number)) }
    {
        let (line, rest) = next_line(bytes);
        if !is_last && !goes_on(rest) {
            return Ok(None);
        }
        match self.take_line(alloc, line) {
            Ok(()) => Ok(Some(rest)),
            Err(stop) => Err(stop),
        }
    }

    // Takes the next line.
    fn take_line(&mut self, alloc: Global, line: &[u8]) -> Result<(), ReadingStop>
        ensures base { self.new.base ≡ self.old.base }
        ensures read { (whole : List ℕ) (lines : List (List ℕ)) → HasRead whole self.old (line.now ∷ lines)
            → IfOk result (λ _. HasRead whole self.new lines) }
        ensures stop { (whole : List ℕ) (lines : List (List ℕ)) → HasRead whole self.old (line.now ∷ lines) → IfErr result (IsStop whole) }
        ensures held { IfErr result IsHeldStop }
        ensures counts { IfOk result (λ _. 0 < self.new.number) }
    {
        if self.number == 0 {
            return self.take_first(line);
        }
        let Some(number) = self.number.checked_add(1) else {
            return Err(OUT_OF_NUMBERS);
        };
        match record_of(line) {
            Ok(said) => self.take(alloc, said),
            Err(reason) => Err(fault_in(number, reason)),
        }
    }

    // Takes the first line.
    fn take_first(&mut self, line: &[u8]) -> Result<(), ReadingStop>
        requires { self.old.number ≡ 0 }
        ensures base { self.new.base ≡ self.old.base }
        ensures read { (whole : List ℕ) (lines : List (List ℕ)) → HasRead whole self.old (line.now ∷ lines)
            → IfOk result (λ _. HasRead whole self.new lines) }
        ensures stop { (whole : List ℕ) (lines : List (List ℕ)) → HasRead whole self.old (line.now ∷ lines) → IfErr result (IsStop whole) }
        ensures held { IfErr result IsHeldStop }
        ensures counts { IfOk result (λ _. 0 < self.new.number) }
    {
        if !line.starts_with(b"MODULE ") {
            return Err(fault_in(1, LineReason::NotASymbolFile));
        }
        if has_zero(line) {
            return Err(fault_in(1, LineReason::ZeroByte));
        }
        self.number = 1;
        self.inside = false;
        Ok(())
    }

    // Takes what the next line says, which isn't the first one.
    #[inline(always)]
    fn take(&mut self, alloc: Global, said: Record<'_>) -> Result<(), ReadingStop>
        requires { 0 < self.old.number }
        ensures base { self.new.base ≡ self.old.base }
        ensures read { (whole line : List ℕ) (lines : List (List ℕ)) → record_of line ≡ Ok (said_of said.entry)
            → HasRead whole self.old (line ∷ lines) → IfOk result (λ _. HasRead whole self.new lines) }
        ensures stop { (whole line : List ℕ) (lines : List (List ℕ)) → record_of line ≡ Ok (said_of said.entry)
            → HasRead whole self.old (line ∷ lines) → IfErr result (IsStop whole) }
        ensures held { IfErr result IsHeldStop }
        ensures counts { IfOk result (λ _. 0 < self.new.number) }
    {
        let Some(number) = self.number.checked_add(1) else {
            return Err(OUT_OF_NUMBERS);
        };
        if !may_follow(self.inside, &said) {
            return Err(fault_in(number, LineReason::NoFunction));
        }
        self.number = number;
        self.inside = is_inside(self.inside, &said);
        match self.reading.take(alloc, said, self.base) {
            Ok(()) => Ok(()),
            Err(AllocError) => Err(ReadingStop::Stop(Stop::Memory)),
        }
    }
}

// Whether a line has an end, and a byte stands after it.
fn goes_on(rest: Option<&[u8]>) -> bool
    ensures { IsTrue result → IsSomeAnd rest.entry (λ rest. 0 < length rest.now) }
{
    match rest {
        Some(rest) => !rest.is_empty(),
        None => false,
    }
}

// The first line, and what stands after its end, if it has one.
pub(crate) fn next_line<'a>(bytes: &'a [u8]) -> (&'a [u8], Option<&'a [u8]>)
    ensures lines { (more : List ℕ) → MayFollow result.1 more → lines_of (bytes.now ++ more) ≡ result.0.now ∷ lines_left result.1 more }
    ensures at_end { IfSome result.1 (λ rest. IsEnd bytes.now rest.now) }
    ensures shorter { IfSome result.1 (λ rest. length rest.now < length bytes.now) }
{
    for i in 0..bytes.len() {
        if bytes[i] == b'\n' {
            return (&bytes[..i], Some(&bytes[i + 1..]));
        }
        if bytes[i] == b'\r' {
            let rest = &bytes[i + 1..];
            return (&bytes[..i], Some(after_return(rest)));
        }
    }
    (bytes, None)
}

// What stands after a carriage return: without the line feed that belongs to it.
fn after_return<'a>(rest: &'a [u8]) -> &'a [u8]
    ensures lines { (more : List ℕ) → MayFollow (Some result) more → lines_from true [] (rest.now ++ more) ≡ lines_of (result.now ++ more) }
    ensures at_end { IsEnd rest.now result.now }
    ensures length { length result.now ≤ length rest.now }
{
    if !rest.is_empty() && rest[0] == b'\n' {
        &rest[1..]
    } else {
        rest
    }
}

// Whether the record may stand where a function goes on or not.
fn may_follow(inside: bool, said: &Record<'_>) -> bool
    ensures { result ≡ may_follow inside (said_of said.now) }
{
    match said {
        Record::Line(_) => inside,
        _ => true,
    }
}

// Whether a function goes on after the record.
fn is_inside(inside: bool, said: &Record<'_>) -> bool
    ensures { result ≡ is_inside inside (said_of said.now) }
{
    match said {
        Record::Function(_) => true,
        Record::Public => false,
        _ => inside,
    }
}

// A line at fault.
fn fault_in(number: u64, reason: LineReason) -> ReadingStop
    ensures { result ≡ Fault (Line number reason) }
{
    ReadingStop::Fault(SymbolFault::Line(number, reason))
}
