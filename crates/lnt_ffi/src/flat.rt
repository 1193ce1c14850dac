//! Spans and answers as C sees them: structs of numbers, one after another.
ghost use Rattle.std.specs.Prelude.{◌≡◌};
ghost use Rattle.lnt_ffi.specs.Flat.{answer_of, flat_answer, flat_side, nothing, span_of};

use lnt_spans::{Answer, Position, Span};

/// What is answered at a position: `struct linetab_answer`.
#[repr(C)]
#[derive(Clone, Copy, Default)]
pub struct FlatAnswer {
    /// The offset in the section of the unit that says so.
    pub unit: u64,
    /// The index of the source file in that unit, from 0 on.
    pub file: u64,
    /// The line in it: 1 is the first, and 0 says that there is none.
    pub line: u64,
    /// The column in the line: 1 is the first, and 0 is the line's left edge.
    pub column: u64,
    /// The instruction set if `is_wide` is set; else 0.
    pub isa: u64,
    /// Which of the blocks of one source line it is if `is_wide` is set; else 0.
    pub discriminator: u64,
    /// Whether it is a good place for a breakpoint.
    pub is_stmt: bool,
    /// Whether the instruction set and the discriminator are known. A section has them; a table of version 1 hasn't.
    pub is_wide: bool,
}

/// The positions from `low` up to `high`, which is not among them, with one answer: `struct linetab_span`.
#[repr(C)]
#[derive(Clone, Copy)]
pub struct FlatSpan {
    /// The address of the first position that it holds.
    pub low: u64,
    /// Its operation index.
    pub low_op: u64,
    /// The address of the first position after it.
    pub high: u64,
    /// Its operation index.
    pub high_op: u64,
    /// The answer at each position that it holds.
    pub answer: FlatAnswer,
}

impl FlatSpan {
    // The first position that it holds.
    #[inline(always)]
    pub(crate) fn low_end(&self) -> Position
        ensures { result ≡ (span_of self.now).low }
    {
        Position {
            address: self.low,
            op: self.low_op,
        }
    }

    // The first position after it.
    #[inline(always)]
    pub(crate) fn high_end(&self) -> Position
        ensures { result ≡ (span_of self.now).high }
    {
        Position {
            address: self.high,
            op: self.high_op,
        }
    }
}

// No answer.
pub(crate) fn nothing() -> FlatAnswer
    ensures { result ≡ nothing }
{
    FlatAnswer::default()
}

// The answer as C sees it.
pub(crate) fn flat_answer(answer: Answer) -> FlatAnswer
    ensures flat { result ≡ flat_answer answer }
    ensures same { answer_of result ≡ answer }
{
    FlatAnswer {
        unit: answer.unit,
        file: answer.file,
        line: answer.line,
        column: answer.column,
        isa: answer.more.map_or(0, |more| more.isa),
        discriminator: answer.more.map_or(0, |more| more.discriminator),
        is_stmt: answer.is_stmt,
        is_wide: answer.more.is_some(),
    }
}

// The answer of one side of a difference, which may be none, as C sees it.
pub(crate) fn flat_side(answer: Option<Answer>) -> FlatAnswer
    ensures { result ≡ flat_side answer }
{
    match answer {
        Some(answer) => flat_answer(answer),
        None => nothing(),
    }
}

// The span as C sees it.
pub(crate) fn flat_span(span: &Span) -> FlatSpan
    ensures { span_of result ≡ span.now }
{
    FlatSpan {
        low: span.low.address,
        low_op: span.low.op,
        high: span.high.address,
        high_op: span.high.op,
        answer: flat_answer(span.answer),
    }
}
