//! The rows of a sequence in few bytes each, which a lookup finds without decoding.
ghost use Rattle.std.specs.Prelude.{◌≡◌, ◌-◌, ◌<◌, ◌≤◌, List, None, Some, get_or, length, IfOk, IfSome, MatchBool};
ghost use Rattle.lnt_machine.specs.Walking.{WillGive};
ghost use Rattle.lnt_machine.specs.declared.row.Row as spec;
ghost use Rattle.lnt_sequences.specs.declared.brief.BriefRow as brief;
ghost use Rattle.lnt_sequences.specs.Briefs.{AreInBrief, AreKept, IsAdded, IsInBrief, IsReached, IsReachedIn, WereKept};
ghost use Rattle.lnt_sequences.specs.Briefs.{brief_answer, place_of};

use crate::buckets::Buckets;
use lnt_machine::{Row, SequenceRows};
use lnt_spans::{Answer, More, Position};
use std::alloc::{AllocError, Global};

// What a lookup needs of a row whose numbers are small: 16 bytes.
#[derive(Clone, Copy)]
pub(crate) struct BriefRow {
    // the row's address, counted from a base
    pub(crate) address: u32,
    line: u32,
    file: u16,
    column: u16,
    discriminator: u16,
    op_index: u8,
    is_stmt: bool,
}

impl BriefRow {
    // A row in brief, whose address counts from `base`. `None` if a number doesn't fit, or the instruction set isn't 0.
    #[inline(always)]
    fn of(base: u64, row: &Row) -> Option<BriefRow>
        ensures { IfSome result (IsInBrief base row.now) }
    {
        if row.isa != 0 {
            return None;
        }
        Some(BriefRow {
            address: u32::try_from(row.address.checked_sub(base)?).ok()?,
            line: u32::try_from(row.line).ok()?,
            file: u16::try_from(row.file).ok()?,
            column: u16::try_from(row.column).ok()?,
            discriminator: u16::try_from(row.discriminator).ok()?,
            op_index: u8::try_from(row.op_index).ok()?,
            is_stmt: row.is_stmt,
        })
    }

    // The row's position, with its address counted from the base.
    #[inline(always)]
    pub(crate) fn place(self) -> Position
        ensures { result ≡ place_of self }
    {
        Position {
            address: u64::from(self.address),
            op: u64::from(self.op_index),
        }
    }

    // What the row says.
    fn answer(self, unit: u64) -> Answer
        ensures { result ≡ brief_answer unit self }
    {
        Answer {
            unit,
            file: u64::from(self.file),
            line: u64::from(self.line),
            column: u64::from(self.column),
            is_stmt: self.is_stmt,
            more: Some(More {
                isa: 0,
                discriminator: u64::from(self.discriminator),
            }),
        }
    }
}

// The first rows of a sequence in brief, or all of them.
#[derive(Drop)]
pub(crate) struct BriefRows {
    base: u64,
    rows: Vec<BriefRow>,
    is_whole: bool,
}

impl BriefRows {
    // The first of these rows: all, or those before the first that can't be kept in brief, or `most` of them.
    pub(crate) fn of(
        alloc: Global,
        rows: SequenceRows<'_>,
        most: usize,
    ) -> Result<BriefRows, AllocError>
        ensures { IfOk result (λ brief. (list : List spec.Row) → WillGive list rows.entry → AreInBrief list brief) }
    {
        let mut brief = BriefRows {
            base: rows.fork().next().map_or(0, |row| row.address),
            rows: Vec::new(alloc),
            is_whole: false,
        };
        let mut left = rows;
        for _ in 0..most {
            if !brief.add_short(&mut left, most)? {
                return Ok(brief);
            }
            let Some(row) = left.next() else {
                brief.is_whole = true;
                return Ok(brief);
            };
            if !brief.add(&row, most)? {
                return Ok(brief);
            }
        }
        Ok(brief)
    }

    // Keeps the rows that the next operations append while these are short. False if a row wasn't kept.
    #[inline(always)]
    fn add_short(&mut self, left: &mut SequenceRows<'_>, most: usize) -> Result<bool, AllocError>
        ensures base { self.new.base ≡ self.old.base }
        ensures part { self.new.is_whole ≡ self.old.is_whole }
        ensures kept { IfOk result (λ all. (list : List spec.Row) → AreKept list self.old left.old
            → MatchBool all (AreKept list self.new left.new) (WereKept list self.new)) }
    {
        while let Some(made) = left.step_short() {
            let Some(row) = made else {
                continue;
            };
            if !self.add(&row, most)? {
                return Ok(false);
            }
        }
        Ok(true)
    }

    // Keeps one more row, if it can be kept in brief and there are fewer than `most`. Else returns false.
    #[inline(always)]
    fn add(&mut self, row: &Row, most: usize) -> Result<bool, AllocError>
        ensures base { self.new.base ≡ self.old.base }
        ensures part { self.new.is_whole ≡ self.old.is_whole }
        ensures kept { IfOk result (λ kept. MatchBool kept (IsAdded row.now self.old self.new) (self.new ≡ self.old)) }
    {
        if self.rows.len() >= most {
            return Ok(false);
        }
        let Some(row) = BriefRow::of(self.base, row) else {
            return Ok(false);
        };
        self.rows.push(row)?;
        Ok(true)
    }

    // The rows that are kept.
    pub(crate) fn rows(&self) -> &[BriefRow]
        ensures { result.now ≡ self.now.rows.items }
    {
        &self.rows
    }

    // How many of the sequence's rows are at or below a position, where positions never fall. `None` if the rows that are kept
    // don't say it.
    #[inline(always)]
    pub(crate) fn reached(&self, buckets: &Buckets, position: Position) -> Option<usize>
        ensures { IfSome result (IsReachedIn self.now position) }
    {
        let at = Position {
            address: position.address.checked_sub(self.base)?,
            op: position.op,
        };
        let count = reached(&self.rows, buckets, at);
        if count == self.rows.len() && !self.is_whole {
            return None;
        }
        Some(count)
    }

    // What the last of the first `count` rows says. `None` if `count` is 0.
    pub(crate) fn answer(&self, unit: u64, count: usize) -> Option<Answer>
        requires { count ≤ length self.now.rows.items }
        ensures none { count ≡ 0 → result ≡ None }
        ensures last { 0 < count → (d : brief.BriefRow) → result ≡ Some (brief_answer unit (get_or self.now.rows.items (count - 1) d)) }
    {
        let last = count.checked_sub(1)?;
        Some(self.rows[last].answer(unit))
    }
}

// How many of these rows are at or below a place, where places never fall.
#[inline(always)]
fn reached(rows: &[BriefRow], buckets: &Buckets, at: Position) -> usize
    ensures { IsReached rows.now at result }
{
    let (mut low, mut high) = buckets.around(rows, at);
    while low < high {
        let middle = low + (high - low) / 2;
        if at < rows[middle].place() {
            high = middle;
        } else {
            low = middle + 1;
        }
    }
    low
}
