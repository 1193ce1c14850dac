//! Marks in a table: the places at which some of its entries begin, so that an entry is found without a walk over all
//! entries before it.
ghost use Rattle.std.specs.Prelude.{◌≡◌, ◌≤◌, ℕ, List, [], IfOk, IfSome, OnOk};
ghost use Rattle.lnt_header_bytes.specs.Borrowed.{borrowed_table, AreEntryBytes, BorrowedTable};
ghost use Rattle.lnt_header_bytes.specs.Marks.{AreMarks, BeginsAt};

use crate::pass::pass_entries;
use crate::read_table::EntriesInPlace;
use lnt_header::Pair;
use lnt_wire::{Cursor, Format, Order};
use std::alloc::{AllocError, Global};

// An entry is marked if it begins at least this many bytes after the last marked one, or after the first entry.
const STEP: usize = 64;

/// A mark: the place at which an entry begins.
#[derive(Clone, Copy, Debug)]
pub struct Mark {
    // The number of the entry, counted from 0.
    pub(crate) number: u64,
    // The index of its first byte among those of the entries.
    pub(crate) place: usize,
}

/// The marks of a header's tables: the places, in the bytes of a table's entries, at which some of them begin. They are in
/// ascending order. A table may have none.
#[derive(Clone, Copy, Debug)]
pub struct Marks<'a> {
    /// Those of the directories.
    pub directories: &'a [Mark],
    /// Those of the files.
    pub files: &'a [Mark],
}

impl<'a> Marks<'a> {
    /// No marks.
    pub fn none() -> Marks<'a>
        ensures directories { result.directories.now ≡ [] }
        ensures files { result.files.now ≡ [] }
    {
        Marks {
            directories: &[],
            files: &[],
        }
    }
}

/// The marks of a table of this format and order, whose entries consist of these pairs. Between the last mark before
/// an entry and that entry are fewer than 64 bytes. Fails only if memory runs out. Allocates nothing for a table of at most
/// 64 bytes, and for any other a quarter of its bytes.
pub(crate) fn marks_of(
    alloc: Global,
    format: Format,
    order: Order,
    pairs: &[Pair],
    entries: EntriesInPlace<'_>,
) -> Result<Vec<Mark>, AllocError>
    requires { AreEntryBytes (borrowed_table format order pairs.now entries.count entries.bytes.now)
        entries.bytes.now }
    ensures marks { IfOk result (λ marks. AreMarks (borrowed_table format order pairs.now entries.entry.count
        entries.entry.bytes.now) entries.entry.bytes.now marks.items) }
{
    if entries.bytes.len() <= STEP {
        return Ok(Vec::new(alloc));
    }
    let mut marks = Vec::with_capacity(alloc, entries.bytes.len() / STEP)?;
    let mut cursor = Cursor::new(entries.bytes, 0, order);
    for number in 1..entries.count {
        let Ok(_) = pass_entries(&mut cursor, format, pairs, 1) else {
            unreachable!()
        };
        let place = entries.bytes.len() - cursor.rest().len();
        add_mark(&mut marks, number, place)?;
    }
    Ok(marks)
}

// Adds the mark of the entry that begins at this place, if that is far enough after the last mark.
fn add_mark(marks: &mut Vec<Mark>, number: u64, place: usize) -> Result<(), AllocError>
    ensures { OnOk result ((table : BorrowedTable) (bytes : List ℕ) → AreMarks table bytes marks.old.items
        → BeginsAt table bytes number place → AreMarks table bytes marks.new.items) }
{
    let last = match marks.last() {
        Some(mark) => mark.place,
        None => 0,
    };
    if place.saturating_sub(last) < STEP {
        return Ok(());
    }
    Ok(marks.push(Mark { number, place })?)
}

/// The last mark of an entry up to this number. `None` if no entry up to it has a mark.
pub(crate) fn marked_before(marks: &[Mark], number: u64) -> Option<Mark>
    ensures before { IfSome result (λ mark. mark.number ≤ number) }
    ensures begins { IfSome result (λ mark. (table : BorrowedTable) (bytes : List ℕ) → AreMarks table bytes marks.now
        → BeginsAt table bytes mark.number mark.place) }
{
    let above = marks.partition_point(|mark| mark.number <= number);
    let mark = marks.get(above.checked_sub(1)?)?;
    // The marks are in ascending order, so this always holds; the proof relies only on the number.
    if mark.number <= number {
        Some(*mark)
    } else {
        None
    }
}
