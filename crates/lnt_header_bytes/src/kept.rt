//! Headers that are kept without the bytes of their units.
ghost use Rattle.std.specs.Prelude.{◌≡◌, ◌++◌, IsTrue, IfOk};
ghost use Rattle.lnt_header_bytes.specs.Borrowed.{IsHeaderOver};
ghost use Rattle.lnt_header_bytes.specs.Stepping.{AreKept};
ghost use Rattle.lnt_header.specs.HeaderRules.{IsHeader};

use crate::header_view::HeaderView;
use crate::in_place::{HeaderInPlace, NumbersAndFormats};
use crate::marks::{Mark, Marks, marks_of};
use crate::read_table::EntriesInPlace;
use lnt_header::{HeaderNumbers, NumberParts, Pair};
use std::alloc::{AllocError, Global};
use std::marker::Model;
use std::rc::Rc;

/// A kept header, with its directories and files as the bytes that encode them. Headers with the same numbers and formats
/// share them.
///
/// Contracts see the parts of the whole header, as those of `Header` do.
#[derive(Drop)]
pub struct KeptHeader {
    plain: Rc<NumbersAndFormats>,
    entries: KeptEntries,
}

// The directories and files of a kept header, as bytes, and the bytes after them.
#[derive(Drop)]
struct KeptEntries {
    directories: u64,
    files: u64,
    // The bytes of the directories, then those of the files, then those between the file table and the program.
    bytes: Vec<u8>,
    directory_size: usize,
    file_size: usize,
    // Where in their bytes some directories and some files begin.
    directory_marks: Vec<Mark>,
    file_marks: Vec<Mark>,
}

impl Model for KeptHeader {
    ghost use Rattle.lnt_header.specs.Parts.{HeaderParts};
    ghost use Rattle.lnt_header_bytes.specs.Stepping.{kept_header, IsKeptHeader};

    ghost Value = { HeaderParts };

    ghost view = { λ h. kept_header h.plain.value h.entries };

    ghost invariant = { λ h. IsKeptHeader h.plain.value h.entries };
}

impl KeptHeader {
    /// A view of the header, whose entries are read in place, with its marks. Allocates nothing.
    pub fn view(&self) -> HeaderView<'_>
        ensures { result ≡ self.now }
    {
        let entries = &self.entries;
        let (directories, rest) = entries.bytes.split_at(entries.directory_size);
        let (files, extra) = rest.split_at(entries.file_size);
        HeaderView::over(
            self.plain.as_ref(),
            EntriesInPlace {
                count: entries.directories,
                bytes: directories,
            },
            EntriesInPlace {
                count: entries.files,
                bytes: files,
            },
            extra,
            Marks {
                directories: &entries.directory_marks,
                files: &entries.file_marks,
            },
        )
    }

    /// The numbers of the header.
    #[inline(always)]
    pub fn numbers(&self) -> &HeaderNumbers
        ensures numbers { result.now ≡ self.now.numbers }
        ensures header { IsHeader self.now }
    {
        &self.plain.as_ref().numbers
    }
}

impl<'a> HeaderInPlace<'a> {
    /// The header, kept without the bytes that it was read from. It shares its numbers and formats with the other header if
    /// they are the same. Fails only if memory runs out.
    pub fn keep(self, alloc: Global, other: Option<&KeptHeader>) -> Result<KeptHeader, AllocError>
        ensures { IfOk result (λ kept. kept ≡ self.entry) }
    {
        let HeaderInPlace {
            plain,
            directories,
            files,
            extra,
        } = self;
        let entries = entries_of(alloc, &plain, directories, files, extra);
        let plain = shared(alloc, plain, other)?;
        Ok(KeptHeader {
            plain,
            entries: entries?,
        })
    }
}

// The entries of a header with these numbers and formats, kept without the bytes that contain them.
fn entries_of(
    alloc: Global,
    plain: &NumbersAndFormats,
    directories: EntriesInPlace<'_>,
    files: EntriesInPlace<'_>,
    extra: &[u8],
) -> Result<KeptEntries, AllocError>
    requires { IsHeaderOver plain.now directories.count directories.bytes.now files.count files.bytes.now extra.now }
    ensures { IfOk result (λ kept. AreKept plain.now directories.entry.count directories.entry.bytes.now files.entry.count
        files.entry.bytes.now extra.now kept) }
{
    let (format, order) = (plain.format, plain.numbers.order());
    let directory_pairs = plain.directory_format.as_slice();
    let directory_marks = marks_of(alloc, format, order, directory_pairs, directories)?;
    let file_marks = marks_of(alloc, format, order, plain.file_format.as_slice(), files)?;
    let bytes = joined(alloc, directories.bytes, files.bytes, extra)?;
    Ok(KeptEntries {
        directories: directories.count,
        files: files.count,
        bytes,
        directory_size: directories.bytes.len(),
        file_size: files.bytes.len(),
        directory_marks,
        file_marks,
    })
}

// A copy of these bytes, one after the other.
fn joined(alloc: Global, first: &[u8], second: &[u8], third: &[u8]) -> Result<Vec<u8>, AllocError>
    ensures { IfOk result (λ bytes. bytes.items ≡ first.now ++ (second.now ++ third.now)) }
{
    let size = first
        .len()
        .saturating_add(second.len())
        .saturating_add(third.len());
    let mut bytes = Vec::with_capacity(alloc, size)?;
    bytes.extend_from_slice(first)?;
    bytes.extend_from_slice(second)?;
    bytes.extend_from_slice(third)?;
    Ok(bytes)
}

// These numbers and formats: shared with the other header if they are the same.
fn shared(
    alloc: Global,
    plain: NumbersAndFormats,
    other: Option<&KeptHeader>,
) -> Result<Rc<NumbersAndFormats>, AllocError>
    ensures { IfOk result (λ shared. shared.value ≡ plain) }
{
    match other {
        Some(other) if are_same(&plain, other.plain.as_ref()) => {
            drop(plain);
            other.plain.clone()
        }
        _ => Ok(Rc::new(alloc, plain)?),
    }
}

// Whether the numbers and formats are the same.
fn are_same(one: &NumbersAndFormats, other: &NumbersAndFormats) -> bool
    ensures { IsTrue result → one.now ≡ other.now }
{
    one.format == other.format
        && are_numbers_same(one.numbers.parts(), other.numbers.parts())
        && are_pairs_same(
            one.directory_format.as_slice(),
            other.directory_format.as_slice(),
        )
        && are_pairs_same(one.file_format.as_slice(), other.file_format.as_slice())
}

fn are_numbers_same(one: &NumberParts, other: &NumberParts) -> bool
    ensures { IsTrue result → one.now ≡ other.now }
{
    one == other
}

fn are_pairs_same(one: &[Pair], other: &[Pair]) -> bool
    ensures { IsTrue result → one.now ≡ other.now }
{
    one == other
}
