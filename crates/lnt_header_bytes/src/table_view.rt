//! Tables of a header whose entries are read in place.
ghost use Rattle.std.specs.Prelude.{◌≡◌, ◌≤◌, length, IfOk};
ghost use Rattle.lnt_header_bytes.specs.Borrowed.{borrowed_table, AreEntryBytes};
ghost use Rattle.lnt_header_bytes.specs.Marks.{AreMarks, from_entry};

use crate::marks::{Mark, marked_before};
use crate::read_table::EntriesInPlace;
use crate::table::read_entries;
use lnt_header::{Entry, Pair};
use lnt_wire::{Cursor, Format, Order, Reason};
use std::alloc::{AllocError, Global};
use std::marker::Model;

/// A table of a header, of its directories or of its files: a format, and entries, which are read in place.
///
/// Contracts see the format, the entries, and how their numbers are encoded (`BorrowedTable`).
#[derive(Drop)]
pub struct EntryTableView<'a> {
    format: Format,
    order: Order,
    pairs: &'a [Pair],
    entries: EntriesInPlace<'a>,
    // Where in their bytes some of them begin.
    marks: &'a [Mark],
}

impl<'a> Model for EntryTableView<'a> {
    ghost use Rattle.lnt_header_bytes.specs.Borrowed.{BorrowedTable, borrowed_table};
    ghost use Rattle.lnt_header_bytes.specs.Marks.{IsMarkedTable};

    ghost Value = { BorrowedTable };

    ghost view = { λ t. borrowed_table t.format t.order t.pairs.now t.entries.count t.entries.bytes.now };

    ghost invariant = { λ t. IsMarkedTable (borrowed_table t.format t.order t.pairs.now t.entries.count t.entries.bytes.now)
        t.entries.bytes.now t.marks.now };
}

impl<'a> EntryTableView<'a> {
    /// A table of this format and order, whose entries consist of these pairs, with its marks.
    pub(crate) fn of(
        format: Format,
        order: Order,
        pairs: &'a [Pair],
        entries: EntriesInPlace<'a>,
        marks: &'a [Mark],
    ) -> EntryTableView<'a>
        requires lies { AreEntryBytes (borrowed_table format order pairs.now entries.count entries.bytes.now) entries.bytes.now }
        requires marks { AreMarks (borrowed_table format order pairs.now entries.count entries.bytes.now) entries.bytes.now marks.now }
        ensures { result ≡ borrowed_table format order pairs.entry.now entries.entry.count entries.entry.bytes.now }
    {
        EntryTableView {
            format,
            order,
            pairs,
            entries,
            marks,
        }
    }

    /// What each entry consists of.
    pub fn pairs(&self) -> &[Pair]
        ensures { result.now ≡ self.now.pairs }
    {
        self.pairs
    }

    /// The number of entries. Allocates nothing.
    #[tactic(auto, using(crate::proofs::BorrowedLaws::length_found))]
    pub fn count(&self) -> u64
        ensures { result ≡ length self.now.entries }
    {
        self.entries.count
    }

    /// The format of the offsets in the entries.
    pub fn format(&self) -> Format
        ensures { result ≡ self.now.format }
    {
        self.format
    }

    /// A cursor before the first entry. Its bytes are those of the entries, one after the other.
    pub fn cursor(&self) -> Cursor<'_>
        ensures order { result.order ≡ self.now.order }
        ensures rest { AreEntryBytes self.now result.rest }
    {
        Cursor::new(self.entries.bytes, 0, self.order)
    }

    /// A cursor before the entry of this number or an earlier one, and the number of that entry. If the table has marks,
    /// fewer than 64 bytes are between the two.
    pub fn cursor_before(&self, number: u64) -> (u64, Cursor<'_>)
        ensures before { result.0 ≤ number }
        ensures there { result.0 ≤ length self.now.entries }
        ensures order { result.1.order ≡ self.now.order }
        ensures rest { AreEntryBytes (from_entry result.0 self.now) result.1.rest }
    {
        let Some(mark) = marked_before(self.marks, number) else {
            return (0, self.cursor());
        };
        let (_, bytes) = self.entries.bytes.split_at(mark.place);
        (mark.number, Cursor::new(bytes, 0, self.order))
    }

    /// The entries in memory. Fails only if memory runs out.
    pub(crate) fn to_entries(&self, alloc: Global) -> Result<Vec<Entry>, AllocError>
        ensures { IfOk result (λ entries. entries.items ≡ self.now.entries) }
    {
        match read_entries(
            alloc,
            &mut self.cursor(),
            self.format,
            self.pairs,
            self.entries.count,
        ) {
            Ok(entries) => Ok(entries),
            Err(fault) => match fault.reason {
                Reason::Memory => Err(AllocError),
                // There are this many entries.
                _ => unreachable!(),
            },
        }
    }
}
