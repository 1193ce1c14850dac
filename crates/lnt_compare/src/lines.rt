//! Reads tables line by line: each record on a line of its own that ends in a line feed, with nothing in quotes, as lines of spans are
//! written.
ghost use Rattle.std.specs.Prelude.{◌≡◌, ◌+◌, ◌-◌, ◌^◌, ◌<◌, ℕ, List, IfOk, IsErrOf, OnOk};
ghost use Rattle.lnt_compare.specs.Passing.{HasTakenLines, Passes};
ghost use Rattle.lnt_io.specs.Stopping.{CountsFailure};

use crate::line_telling::LineTelling;
use crate::window::Window;
use lnt_io::{Source, Stop};
use lnt_records::{TakesRecords, next_number};
use std::alloc::{AllocError, Global};

// The number of bytes that a usual line has at most.
const USUAL: usize = 8192;

/// Takes the lines of a table one after another.
pub(crate) trait TakesLines<C>: LineTelling + TakesRecords<C> {
    ghost use Rattle.std.specs.Prelude.{◌≡◌, ◌++◌, ◌∷◌, List, [], All, IfOk, MatchOption, OnOk, drop};
    ghost use Rattle.lnt_spans.specs.declared.span.Span.{Span};
    ghost use Rattle.lnt_records.specs.PathLines.{IsPlainByte};
    ghost use Rattle.lnt_records.specs.Table.{Fields};
    ghost use Rattle.lnt_compare.specs.Passing.{IsLineIn};

    /// Takes the record of the first line of a text, and gives the length of the line. `None` if the line isn't well formed, has quotes or
    /// a number of more than 18 digits, or has a span that is empty or begins below the end of the record before it. `last` is the path of
    /// that record, if it has one. Fails only if memory runs out.
    fn take_line(
        &self,
        state: &mut C,
        last: &mut Vec<u8>,
        text: &[u8],
    ) -> Result<Option<usize>, AllocError>
        requires right { Self.is_right self.now state.old }
        requires plain { All IsPlainByte last.old.items }
        ensures right { OnOk result (Self.is_right self.now state.new) }
        ensures plain { OnOk result (All IsPlainByte last.new.items) }
        ensures taken { IfOk result (λ found. MatchOption found (state.new ≡ state.old) (λ length. (span : Self.Spans)
            × (line : IsLineIn Self.format Self.plain (Self.version self.now) span text.now (drop length text.now))
            × ((section : List Span) (passed : List Fields) → Self.judges self.now state.old section passed
            → Self.judges self.now state.new section (passed ++ line.fields ∷ [])))) };
}

// Takes the lines of a table, up to the first that can't be taken so. The next record has this number; gives the number of that after
// these lines.
pub(crate) fn push_lines<C, L: TakesLines<C>, T: Source>(
    alloc: Global,
    telling: &L,
    state: &mut C,
    mut number: u64,
    source: &mut T,
    window: &mut Window,
) -> Result<u64, Stop>
    requires failures { T.failures source.old < 2 ^ 64 - 1 }
    requires right { L.is_right telling.now state.old }
    ensures right { OnOk result (L.is_right telling.now state.new) }
    ensures ok { IfOk result (λ next. (text : List ℕ) × Passes (T.remaining source.old) (T.remaining source.new) (T.left source.old)
        (T.left source.new) window.old window.new text
        × HasTakenLines L.format L.plain (L.version telling.now) (L.judges telling.now) state.old state.new text number next) }
    ensures failures { CountsFailure ⟦<T as Source>⟧ source.old source.new result Stop.Read }
    ensures not_long { IsErrOf result Stop.TooLong → ⊥ }
{
    let mut last = Vec::new(alloc);
    loop {
        let Some(length) = telling.take_line(state, &mut last, window.bytes())? else {
            if !window.grow(alloc, source, USUAL)? {
                return Ok(number);
            }
            continue;
        };
        window.pass(length);
        number = next_number(number)?;
    }
}
