//! The entries of a table one after another, each read in place.
ghost use Rattle.std.specs.Prelude.{◌≡◌, ◌<◌, ◌≤◌, length};
ghost use Rattle.lnt_header_bytes.specs.Marks.{from_entry};
ghost use Rattle.lnt_files.specs.Walks.{EntryStep};

use crate::components::{Places, places_of};
use lnt_header_bytes::{EntryTableView, read_entry};
use lnt_wire::{Cursor, ValueView};
use std::marker::Model;

/// The components of an entry by content type (DWARF 5, section 6.2.4.1): the first of each type counts. `None` if the
/// entry has no component of a type.
#[derive(Clone, Copy, Debug)]
pub(crate) struct EntryView<'a> {
    /// The path.
    pub path: Option<ValueView<'a>>,
    /// The number of the directory.
    pub directory: Option<ValueView<'a>>,
    /// The MD5 sum.
    pub sum: Option<ValueView<'a>>,
}

/// A walk over the entries of a table in order, each read in place. Allocates nothing.
///
/// Contracts see the table with the remaining entries.
#[derive(Drop)]
pub(crate) struct Entries<'t> {
    table: &'t EntryTableView<'t>,
    places: Places,
    left: u64,
    cursor: Cursor<'t>,
}

impl<'t> Model for Entries<'t> {
    ghost use Rattle.lnt_header_bytes.specs.Borrowed.{BorrowedTable};
    ghost use Rattle.lnt_files.specs.Walks.{IsWalk, left_of};

    ghost Value = { BorrowedTable };

    ghost view = { λ w. left_of w.table.now w.left w.cursor };

    ghost invariant = { λ w. IsWalk w.table.now w.places w.left w.cursor };
}

impl<'t> Entries<'t> {
    /// A walk before the first entry of the table.
    #[tactic(auto, using(crate::proofs::WalkLemmas::walk_begun, crate::proofs::WalkLemmas::begun_is))]
    pub(crate) fn of(table: &'t EntryTableView<'t>) -> Entries<'t>
        ensures { result ≡ table.entry.now }
    {
        let pairs = table.pairs();
        Entries {
            table,
            places: places_of(pairs),
            left: table.count(),
            cursor: table.cursor(),
        }
    }

    /// A walk before the entry with this number or an earlier one, and the number of the entry before which it is. If the
    /// table has marks, fewer than 64 bytes are between the two.
    #[tactic(auto, using(crate::proofs::WalkLemmas::walk_before, crate::proofs::WalkLemmas::before_is))]
    pub(crate) fn before(table: &'t EntryTableView<'t>, number: u64) -> (u64, Entries<'t>)
        requires { number < length table.now.entries }
        ensures first { result.0 ≤ number }
        ensures walk { result.1 ≡ from_entry result.0 table.entry.now }
    {
        let (first, cursor) = table.cursor_before(number);
        let pairs = table.pairs();
        let entries = Entries {
            table,
            places: places_of(pairs),
            left: table.count() - first,
            cursor,
        };
        (first, entries)
    }

    /// The components of the next entry. `None` after the last one.
    #[inline(always)]
    #[tactic(auto, using(crate::proofs::WalkLemmas::next_entry_lemmas))]
    pub(crate) fn next_entry(&mut self) -> Option<EntryView<'t>>
        ensures { EntryStep self.old result self.new }
    {
        if self.left == 0 {
            return None;
        }
        let format = self.table.format();
        let pairs = self.table.pairs();
        let mut entry = EntryView {
            path: None,
            directory: None,
            sum: None,
        };
        let Ok(()) = read_entry(&mut self.cursor, format, pairs, &self.places, &mut entry) else {
            unreachable!()
        };
        self.left -= 1;
        Some(entry)
    }
}
