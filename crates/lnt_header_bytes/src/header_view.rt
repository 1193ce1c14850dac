//! Headers whose entries are read in place.
ghost use Rattle.std.specs.Prelude.{◌≡◌, IfOk};
ghost use Rattle.lnt_header_bytes.specs.Borrowed.{header_over, IsHeaderOver, IsTableIn};
ghost use Rattle.lnt_header_bytes.specs.Marks.{AreMarksOver};
ghost use Rattle.lnt_header.specs.HeaderRules.{IsHeader};

use crate::in_place::NumbersAndFormats;
use crate::marks::Marks;
use crate::read_table::EntriesInPlace;
use crate::table_view::EntryTableView;
use lnt_header::{Header, HeaderNumbers, HeaderParts};
use lnt_wire::Items;
use std::alloc::{AllocError, Global};
use std::marker::Model;

/// A header whose directories and files are read in place.
///
/// Contracts see the parts of the whole header, as those of `Header` do.
#[derive(Drop)]
pub struct HeaderView<'a> {
    numbers: &'a HeaderNumbers,
    directories: EntryTableView<'a>,
    files: EntryTableView<'a>,
    extra: &'a [u8],
}

impl<'a> Model for HeaderView<'a> {
    ghost use Rattle.lnt_header.specs.Parts.{HeaderParts};
    ghost use Rattle.lnt_header_bytes.specs.Borrowed.{borrowed_header, IsBorrowedHeader};

    ghost Value = { HeaderParts };

    ghost view = { λ h. borrowed_header h.numbers.now h.directories h.files h.extra.now };

    ghost invariant = { λ h. IsBorrowedHeader h.numbers.now h.directories h.files h.extra.now };
}

impl<'a> HeaderView<'a> {
    /// The header with these numbers and formats, these entries, and these bytes between the file table and the program;
    /// its tables have these marks. The caller ensures that the entries are those of a header, and that the marks are
    /// theirs. Allocates nothing.
    pub(crate) fn over(
        plain: &'a NumbersAndFormats,
        directories: EntriesInPlace<'a>,
        files: EntriesInPlace<'a>,
        extra: &'a [u8],
        marks: Marks<'a>,
    ) -> HeaderView<'a>
        requires header { IsHeaderOver plain.now directories.count directories.bytes.now files.count files.bytes.now extra.now }
        requires marks { AreMarksOver plain.now directories.count directories.bytes.now files.count files.bytes.now marks.directories.now
            marks.files.now }
        ensures { result ≡ header_over plain.entry.now directories.entry.count directories.entry.bytes.now files.entry.count
            files.entry.bytes.now extra.entry.now }
    {
        let (format, order) = (plain.format, plain.numbers.order());
        HeaderView {
            numbers: &plain.numbers,
            directories: EntryTableView::of(
                format,
                order,
                plain.directory_format.as_slice(),
                directories,
                marks.directories,
            ),
            files: EntryTableView::of(
                format,
                order,
                plain.file_format.as_slice(),
                files,
                marks.files,
            ),
            extra,
        }
    }

    /// The numbers of the header.
    pub fn numbers(&self) -> &'a HeaderNumbers
        ensures numbers { result.now ≡ self.now.numbers }
        ensures header { IsHeader self.now }
    {
        self.numbers
    }

    /// The directories, the compilation directory first, and what each consists of.
    pub fn directories(&self) -> &EntryTableView<'a>
        ensures pairs { result.now.pairs ≡ self.now.directory_format }
        ensures entries { result.now.entries ≡ self.now.directories }
        ensures table { IsTableIn self.now result.now }
    {
        &self.directories
    }

    /// The files, the primary source file first, and what each consists of.
    pub fn files(&self) -> &EntryTableView<'a>
        ensures pairs { result.now.pairs ≡ self.now.file_format }
        ensures entries { result.now.entries ≡ self.now.files }
        ensures table { IsTableIn self.now result.now }
    {
        &self.files
    }

    /// The bytes between the file table and the program.
    pub fn extra(&self) -> &[u8]
        ensures { result.now ≡ self.now.extra }
    {
        self.extra
    }

    /// The header itself, with its directories and files in memory. Fails only if memory runs out.
    pub fn to_header(&self, alloc: Global) -> Result<Header, AllocError>
        ensures { IfOk result (λ header. header ≡ self.now) }
    {
        let numbers = self.numbers.copied(alloc)?;
        let directory_format = Vec::from_slice(alloc, self.directories.pairs())?;
        let file_format = Vec::from_slice(alloc, self.files.pairs())?;
        let extra = Vec::from_slice(alloc, self.extra)?;
        let directories = self.directories.to_entries(alloc)?;
        let files = self.files.to_entries(alloc)?;
        Ok(Header::of(HeaderParts::of(
            self.directories.format(),
            numbers.into_parts(),
            Items::new(directory_format),
            Items::new(directories),
            Items::new(file_format),
            Items::new(files),
            Items::new(extra),
        )))
    }
}
