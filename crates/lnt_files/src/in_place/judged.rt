//! What is wrong with the tables of a header. Each is walked once.
ghost use Rattle.std.specs.Prelude.{◌≡◌, ◌<◌, ◌↔◌, IsTrue, MatchOption};
ghost use Rattle.std.specs.List.{AllByRecursion};
ghost use Rattle.lnt_header.specs.HeaderTests.{IsFirstNot};
ghost use Rattle.lnt_files.specs.Walks.{first_missing, HasAll, IsFilesFault};
ghost use Rattle.lnt_files.specs.Tables.{HasUsableFormat, HasPath, AreUsableTables, IsTablesFault};

use crate::ends::StringEnds;
use crate::tables::{EntryTableFault, is_usable_format};
use crate::walk::Entries;
use lnt_header::EntryTable;
use lnt_header_bytes::{EntryTableView, HeaderView};

/// What is wrong with the directories and files of the header, if its tables aren't usable (DWARF 5, section 6.2.4.1). The
/// first of these is reported, each for the directories before the files: `EntryFormat`, `StringOutside`,
/// `DirectoryNumber`. Allocates nothing, and walks each table once.
///
/// In an entry the first component of a content type counts, and a file without a directory number has directory 0. A table
/// with entries needs a path in the form `string`, `line_strp` or `strp`; a directory number, if it has one, has the form
/// `udata`, `data1`, `data2`, `data4` or `data8`, and an MD5 sum `data16`. Other components may have any form. Each path
/// has its text, and each file's directory number is below the number of directories.
pub fn tables_fault(header: &HeaderView<'_>, ends: &StringEnds<'_>) -> Option<EntryTableFault>
    ensures { MatchOption result (AreUsableTables ends.now.line ends.now.general header.now)
        (λ fault. IsTablesFault ends.now.line ends.now.general header.now fault) }
{
    let directories = header.directories();
    let files = header.files();
    if !has_usable_format(directories) {
        return Some(EntryTableFault::EntryFormat(EntryTable::Directories));
    }
    if !has_usable_format(files) {
        return Some(EntryTableFault::EntryFormat(EntryTable::Files));
    }
    if let Some(index) = first_without_path(directories, ends) {
        return Some(EntryTableFault::StringOutside(EntryTable::Directories, index));
    }
    files_fault(files, ends, directories.count())
}

#[tactic(auto, using(crate::proofs::JudgedLemmas::no_entries))]
fn has_usable_format(table: &EntryTableView<'_>) -> bool
    ensures { IsTrue result ↔ HasUsableFormat table.now.pairs table.now.entries }
{
    table.count() == 0 || is_usable_format(table.pairs())
}

// The first of the table's entries whose path has no text.
#[tactic(auto, using(crate::proofs::JudgedLemmas::first_without_path_lemmas))]
fn first_without_path(table: &EntryTableView<'_>, ends: &StringEnds<'_>) -> Option<u64>
    ensures { MatchOption result (AllByRecursion (HasPath ends.now.line ends.now.general table.now.pairs) table.now.entries)
        (λ index. IsFirstNot (HasPath ends.now.line ends.now.general table.now.pairs) table.now.entries index) }
{
    let count = table.count();
    let mut entries = Entries::of(table);
    for index in 0..count {
        let Some(entry) = entries.next_entry() else {
            unreachable!()
        };
        if !entry.has_path(ends) {
            return Some(index);
        }
    }
    None
}

// What is wrong with the files of a header with this many directories, if the format of the files is usable.
#[tactic(auto, using(crate::proofs::JudgedLemmas::files_fault_lemmas))]
fn files_fault(
    files: &EntryTableView<'_>,
    ends: &StringEnds<'_>,
    directories: u64,
) -> Option<EntryTableFault>
    ensures { MatchOption result (HasAll ends.now.line ends.now.general directories files.now)
        (λ fault. IsFilesFault ends.now.line ends.now.general directories files.now fault) }
{
    let count = files.count();
    let mut entries = Entries::of(files);
    let mut missing = None;
    for index in 0..count {
        let Some(file) = entries.next_entry() else {
            unreachable!()
        };
        if !file.has_path(ends) {
            return Some(EntryTableFault::StringOutside(EntryTable::Files, index));
        }
        missing = first_missing(missing, index, file.directory_number() < directories);
    }
    Some(EntryTableFault::DirectoryNumber(missing?))
}

// The first missing index among those up to `index`. `missing` is the first before it.
#[inline(always)]
fn first_missing(missing: Option<u64>, index: u64, is_there: bool) -> Option<u64>
    ensures { result ≡ first_missing missing index is_there }
{
    match missing {
        Some(_) => missing,
        None => { if is_there { None } else { Some(index) } }
    }
}
