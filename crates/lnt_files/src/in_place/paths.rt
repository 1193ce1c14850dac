//! The paths and MD5 sums of files, each built on request (DWARF 5, section 6.2.4.1).
ghost use Rattle.std.specs.Prelude.{◌≡◌, ◌<◌, ◌↔◌, length, IfOk, IsSome, option_map};
ghost use Rattle.lnt_files.specs.Paths.{path_bytes, listed_sum};
ghost use Rattle.lnt_files.specs.Walks.{EntryAt};
ghost use Rattle.lnt_files.specs.Tables.{AreUsableTables};

use crate::contents::place_of;
use crate::paths::add_path;
use crate::walk::{Entries, EntryView};
use lnt_header::content::MD5;
use lnt_header_bytes::{EntryTableView, HeaderView};
use lnt_wire::Strings;
use std::alloc::{AllocError, Global};

/// The number of files of the header. Allocates nothing.
pub fn file_count(header: &HeaderView<'_>) -> u64
    ensures { result ≡ length header.now.files }
{
    header.files().count()
}

/// The MD5 sum that is listed for the file, in the form `data16`. `None` if it lists none, or if there is no such file.
/// Files count from 0. Allocates nothing. Walks some of the files before it, as `path_of` does, unless no file can list a
/// sum.
#[tactic(auto, using(crate::proofs::AtLemmas::none_listed))]
pub fn listed(header: &HeaderView<'_>, file: u64) -> Option<[u8; 16]>
    ensures { result ≡ listed_sum header.now file }
{
    let files = header.files();
    place_of(MD5, files.pairs())?;
    entry_at(files, file)?.listed()
}

/// The path of the file: its text, below the path of its directory unless it begins with `/`. The path of a directory is
/// its text, below directory 0 unless it is directory 0 or begins with `/`. A `/` is between the two, unless the first is
/// empty or ends with one. `None` if and only if there is no such file. Files count from 0.
///
/// It walks the files before it, and the directories before its own; for a kept header fewer than 64 of each.
///
/// The caller ensures that the header's tables are usable, which `tables_fault` checks. Fails only if memory runs out.
pub fn path_of(
    alloc: Global,
    header: &HeaderView<'_>,
    strings: Strings<'_>,
    file: u64,
) -> Result<Option<Vec<u8>>, AllocError>
    requires { AreUsableTables strings.line.now strings.general.now header.now }
    ensures path { IfOk result (λ path. option_map (λ path. path.items) path
        ≡ path_bytes strings.entry.line.now strings.entry.general.now header.now file) }
    ensures there { IfOk result (λ path. IsSome path ↔ (file < length header.now.files)) }
{
    let Some(entry) = entry_at(header.files(), file) else {
        return Ok(None);
    };
    let mut path = Vec::new(alloc);
    match add_path(&mut path, header, strings, &entry) {
        Ok(()) => Ok(Some(path)),
        Err(error) => {
            drop(path);
            Err(error)
        }
    }
}

/// The components of the entry with this number. `None` if there is no such entry.
#[tactic(auto, using(crate::proofs::AtLemmas::entry_at_lemmas))]
pub(crate) fn entry_at<'t>(table: &'t EntryTableView<'t>, number: u64) -> Option<EntryView<'t>>
    ensures { EntryAt table.entry.now number result }
{
    if number >= table.count() {
        return None;
    }
    let (first, mut entries) = Entries::before(table, number);
    for _ in first..number {
        if entries.next_entry().is_none() {
            unreachable!()
        }
    }
    entries.next_entry()
}
