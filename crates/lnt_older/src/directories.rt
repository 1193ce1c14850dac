//! The compilation directories of older units, which their section doesn't have: comma-separated values.
ghost use Rattle.std.specs.Prelude.{◌≡◌, ℕ, List, [], ◌∷◌, IfErr, IfOk, MatchOption, Some, MatchBool};
ghost use Rattle.lnt_header.specs.Joins.{AreRising};
ghost use Rattle.csv.specs.Records.{fields_of};
ghost use Rattle.lnt_csv.specs.Reading.{HasRead};
ghost use Rattle.lnt_csv.specs.Records.{BeginsWith};
ghost use Rattle.lnt_older.specs.Directories.{AreDirectories, IsAdded, IsDirectoryFile, IsDirectoryRecord, IsLastUnit, IsListingFault};
ghost use Rattle.lnt_older.specs.Directories.{IsNext, IsAmong, MayFollow, directory_at, directory_names, Directory as Spec};

use crate::section::UpgradeFault;
use csv::{ByteRecord, Reader};
use lnt_csv::{field, has_fields, read_next, reader_of};
use lnt_text::decimal;
use std::alloc::{AllocError, Global};

/// The directory in which an older unit was compiled.
#[derive(Drop)]
pub struct Directory {
    /// The offset of the unit in its section.
    pub unit: u64,
    /// The path, without a zero byte.
    pub path: Vec<u8>,
}

/// The directories that these bytes list for units at some of these offsets, which rise. Record 0 is `unit,directory`. Each
/// later record has the offset of a unit, a decimal number greater than the one before, and the path of a directory, without a zero
/// byte.
///
/// It refuses with `Directories` and the first record that isn't so, or whose unit isn't at one of the offsets; record 0 where
/// there is none. Else only with `Memory`.
pub fn read_directories(
    alloc: Global,
    text: &[u8],
    older: &[u64],
) -> Result<Vec<Directory>, UpgradeFault>
    requires { AreRising older.now }
    ensures ok { IfOk result (λ directories. IsDirectoryFile older.now text.now directories.items) }
    ensures err { IfErr result (IsListingFault older.now (Some text.now)) }
{
    let mut reader = reader_of(alloc, text);
    let mut row = ByteRecord::new(alloc);
    if !read_columns(&mut reader, &mut row)? {
        return Err(UpgradeFault::Directories(0));
    }
    let mut directories: Vec<Directory> = Vec::new(alloc);
    while read_next(&mut reader, &mut row)? {
        if !add_directory(alloc, &row, older, &mut directories)? {
            return Err(UpgradeFault::Directories(directories.len() as u64 + 1));
        }
    }
    Ok(directories)
}

// Reads record 0, and tells whether it names the columns.
fn read_columns(reader: &mut Reader<&[u8]>, row: &mut ByteRecord) -> Result<bool, AllocError>
    requires { (bytes : List ℕ) × HasRead reader.old bytes [] }
    ensures { IfOk result (λ named. (bytes : List ℕ) → HasRead reader.old bytes []
        → MatchBool named (HasRead reader.new bytes (directory_names ∷ [])) (BeginsWith bytes (directory_names ∷ []) → ⊥)) }
{
    if !read_next(reader, row)? {
        return Ok(false);
    }
    Ok(has_fields(row, &[b"unit".as_slice(), b"directory"]))
}

// Adds the directory in a record to those of the records before it. False exactly where the record has none that may follow
// them. Then nothing is added.
fn add_directory(
    alloc: Global,
    row: &ByteRecord,
    older: &[u64],
    directories: &mut Vec<Directory>,
) -> Result<bool, AllocError>
    requires older { AreRising older.now }
    requires rising { AreDirectories directories.old.items }
    ensures { IfOk result (λ added. MatchBool added
        (IsAdded older.now (fields_of row.now) directories.old.items directories.new.items)
        ((directories.new.items ≡ directories.old.items) × ((directory : Spec) → IsDirectoryRecord (fields_of row.now) directory
        → MayFollow older.now directories.old.items directory → ⊥))) }
{
    let before = last_unit(directories);
    let Some(directory) = directory_in(alloc, row, before, older)? else {
        return Ok(false);
    };
    directories.push(directory)?;
    Ok(true)
}

// The unit of the last of these directories.
fn last_unit(directories: &[Directory]) -> Option<u64>
    ensures { IsLastUnit directories.now result }
{
    directories.last().map(|last| last.unit)
}

// The directory in a record, whose unit is at one of the offsets, and after the unit before it. None exactly where there is none.
fn directory_in(
    alloc: Global,
    row: &ByteRecord,
    before: Option<u64>,
    older: &[u64],
) -> Result<Option<Directory>, AllocError>
    requires { AreRising older.now }
    ensures { IfOk result (λ found. MatchOption found
        ((directory : Spec) → IsDirectoryRecord (fields_of row.now) directory → IsNext before older.now directory → ⊥)
        (λ directory. IsDirectoryRecord (fields_of row.now) directory × IsNext before older.now directory)) }
{
    if row.len() != 2 {
        return Ok(None);
    }
    let Some(unit) = decimal(field(row, 0)) else {
        return Ok(None);
    };
    let path = field(row, 1);
    if path.contains(&0) || before.is_some_and(|last| unit <= last) || !is_among(unit, older) {
        return Ok(None);
    }
    let mut bytes = Vec::new(alloc);
    bytes.extend_from_slice(path)?;
    Ok(Some(Directory { unit, path: bytes }))
}

// Whether the offset is one of these.
#[tactic(auto, using(crate::proofs::DirectoryLemmas::among))]
fn is_among(offset: u64, offsets: &[u64]) -> bool
    requires { AreRising offsets.now }
    ensures { MatchBool result (IsAmong offsets.now offset) (IsAmong offsets.now offset → ⊥) }
{
    offsets.binary_search(&offset).is_ok()
}

/// The path of the directory of the unit at this offset. It is empty where none is listed.
pub fn directory_of(directories: &[Directory], offset: u64) -> &[u8]
    requires { AreDirectories directories.now }
    ensures { result.now ≡ directory_at directories.now offset }
{
    match directories.binary_search_by_key(&offset, |directory| directory.unit) {
        Ok(i) => directories[i].path.as_slice(),
        Err(_) => &[],
    }
}
