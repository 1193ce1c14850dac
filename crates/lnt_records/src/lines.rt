//! Parses lines of a table by number, each in one pass over its bytes.
ghost use Rattle.std.specs.Prelude.{drop, IfSome};
ghost use Rattle.lnt_text.specs.Digits.{IsAddress, IsDecimal};
ghost use Rattle.lnt_records.specs.Lines.{IsAnswer, IsFlagBefore, IsTextLine, IsMore, IsPosition};

use lnt_spans::{Answer, More, Position, Span, Version};
use lnt_text::{address_until, decimal_until, past};

/// Parses the first line of a text; gives its span and the index of the next line. `None` leaves the line to `csv`.
#[inline(always)]
pub fn first_span(text: &[u8], version: Version) -> Option<(Span, usize)>
    ensures { IfSome result (λ found. IsTextLine version found.0 text.now (drop found.1 text.now)) }
{
    let (low, at) = position_at(text, 0)?;
    let (high, at) = position_at(text, at)?;
    let (answer, at) = answer_at(text, at, version)?;
    Some((Span { low, high, answer }, at))
}

// Parses the two fields of a position, each with the comma after it; gives the next index.
#[inline(always)]
fn position_at(table: &[u8], at: usize) -> Option<(Position, usize)>
    ensures { IfSome result (λ found. IsPosition IsAddress IsDecimal found.0 (drop at table.now) (drop found.1 table.now)) }
{
    let (address, at) = address_until(table, at, b',')?;
    let (op, at) = decimal_until(table, at, b',')?;
    Some((Position { address, op }, at))
}

// Parses the fields of an answer, up to and including the line feed; gives the next index.
#[inline(always)]
fn answer_at(table: &[u8], at: usize, version: Version) -> Option<(Answer, usize)>
    ensures { IfSome result (λ found. IsAnswer IsDecimal version found.0 (drop at table.now) (drop found.1 table.now)) }
{
    let (unit, at) = decimal_until(table, at, b',')?;
    let (file, at) = decimal_until(table, at, b',')?;
    let (line, at) = decimal_until(table, at, b',')?;
    let (column, at) = decimal_until(table, at, b',')?;
    let (is_stmt, at) = flag_at(table, at)?;
    let (more, at) = more_at(table, at, version)?;
    let answer = Answer {
        unit,
        file,
        line,
        column,
        is_stmt,
        more,
    };
    Some((answer, at))
}

// Parses a flag; gives the next index.
#[inline(always)]
fn flag_at(table: &[u8], at: usize) -> Option<(bool, usize)>
    ensures { IfSome result (λ found. IsFlagBefore found.0 (drop at table.now) (drop found.1 table.now)) }
{
    if let Some(at) = past(table, at, b'1') {
        return Some((true, at));
    }
    let at = past(table, at, b'0')?;
    Some((false, at))
}

// Parses what only version 2 has, up to and including the line feed; gives the next index.
#[inline(always)]
#[tactic(auto, using(crate::proofs::LineLemmas::no_more_taken))]
fn more_at(table: &[u8], at: usize, version: Version) -> Option<(Option<More>, usize)>
    ensures { IfSome result (λ found. IsMore IsDecimal version found.0 (drop at table.now) (drop found.1 table.now)) }
{
    match version {
        Version::One => {
            let at = past(table, at, b'\n')?;
            Some((None, at))
        }
        Version::Two => {
            let at = past(table, at, b',')?;
            let (isa, at) = decimal_until(table, at, b',')?;
            let (discriminator, at) = decimal_until(table, at, b'\n')?;
            Some((Some(More { isa, discriminator }), at))
        }
    }
}
