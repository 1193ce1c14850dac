//! Writes the table by path of a section's units.
ghost use Rattle.std.specs.Prelude.{◌≡◌, IfOk, OnErr};
ghost use Rattle.lnt_writing.specs.Canonical.{HasBecome};
ghost use Rattle.lnt_lines.specs.Indexed.{OfUnits};
ghost use Rattle.lnt_table.specs.Headline.{indexed_path, told_path};
ghost use Rattle.lnt_table.specs.Written.{BeginsPaths};

use lnt_lines::Index;
use lnt_records::{PathVersion, Paths, WriteStop};
use lnt_writing::{PathTable, write_by_path, write_instructions_by_path};
use std::alloc::{AllocError, Global};
use std::io::Write;

/// The paths of the files of an index, from which `DifferencesByPath` makes answers by path.
#[derive(Drop)]
pub struct IndexPaths<'i, 'a> {
    pub(crate) index: &'i Index<'a>,
}

impl<'i, 'a> IndexPaths<'i, 'a> {
    /// The full paths of the files that the units of this index name: the directory joined with the name, byte for byte.
    pub fn of(index: &'i Index<'a>) -> IndexPaths<'i, 'a>
        ensures { ⟦<IndexPaths<'i, 'a> as Paths>⟧.bytes_of result ≡ indexed_path index.entry.now }
    {
        IndexPaths { index }
    }
}

impl<'i, 'a> Paths for IndexPaths<'i, 'a> {
    ghost bytes_of = { λ paths unit file. indexed_path paths.index.now unit file };

    fn path_of(&self, alloc: Global, unit: u64, file: u64) -> Result<Vec<u8>, AllocError> {
        match self.index.path_of(alloc, unit, file)? {
            Some(path) => Ok(path),
            // For numbers that no answer of the index has: then there is no such file (`indexed_path`).
            None => Ok(Vec::new(alloc)),
        }
    }

    fn same_texts(&self, unit: u64, file: u64, other_unit: u64, other_file: u64) -> bool {
        self.index.same_texts(unit, file, other_unit, other_file)
    }

    fn texts_number(&self, unit: u64, file: u64) -> u64 {
        self.index.texts_number(unit, file)
    }
}

/// Writes the table by path of the units that an index was made of, in this version, line by line, without a list of their
/// spans. If the header of a unit allows several operations in an instruction, it walks the spans twice: first to check
/// that such a table can express them.
///
/// If it returns `Written`, the bytes that were written are a table of exactly the canonical spans with the answers of the
/// units' rows and the full paths of their files: the one shortest table that has them. If one of these spans begins or
/// ends at an operation index other than 0, it returns `OperationIndex` (43) with the least such position, and nothing has
/// been written.
///
/// Stops with `Memory` (33) if memory ran out, and with `Write` (42) if the writer failed. If it stops, a prefix of that
/// table has been written; or there can't be such a table, and nothing has been written.
pub fn write_paths<W: Write>(
    alloc: Global,
    index: &Index<'_>,
    version: PathVersion,
    out: &mut W,
) -> Result<PathTable, WriteStop>
    ensures table { IfOk result (λ table. OfUnits index.now (λ selection.
        HasBecome version (told_path version index.now selection) (W.contents out.old) (W.contents out.new) table)) }
    ensures begun { OnErr result (OfUnits index.now (λ selection.
        BeginsPaths version (told_path version index.now selection) (W.contents out.old) (W.contents out.new))) }
{
    let paths = IndexPaths { index };
    if index.has_single_operations() {
        write_instructions_by_path(alloc, index.spans(), &paths, version, out)?;
        return Ok(PathTable::Written);
    }
    write_by_path(alloc, index.spans(), index.spans(), &paths, version, out)
}
