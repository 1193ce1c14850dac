//! The paths of a file's files.
ghost use Rattle.std.specs.Prelude.{◌≡◌, ◌*◌, ◌≤◌, [], length, MatchOption};
ghost use Rattle.lnt_gsym.specs.GsymAnswers.{has, joined, path_in, separator, text_at};
ghost use Rattle.lnt_gsym.specs.GsymFiles.{files_of};
ghost use Rattle.lnt_gsym.specs.GsymSpans.{tells};
ghost use Rattle.lnt_gsym.specs.Walking.{has_bytes, named};
ghost use Rattle.lnt_wire.specs.FirstValues.{first_number, first_text};

use crate::fields::{number_at, rest_after};
use crate::line_table::Row;
use lnt_records::Paths;
use lnt_wire::Order;
use std::alloc::{AllocError, Global};
use std::marker::Model;

/// The strings of a GSYM file, and where the names of its files are in them.
#[derive(Drop)]
pub struct Names<'a> {
    order: Order,
    strings: &'a [u8],
    files: &'a [u8],
    count: u32,
}

impl<'a> Model for Names<'a> {
    ghost use Rattle.std.specs.Prelude.{◌≡◌, ◌*◌, length};
    ghost use Rattle.lnt_gsym.specs.GsymFiles.{files_of};
    ghost use Rattle.lnt_gsym.specs.Walking.{NamesSaid};

    ghost Value = { NamesSaid };

    ghost view = { λ n. record { strings = n.strings.now; files = files_of n.order n.count n.files.now } };

    ghost invariant = { λ n. length n.files.now ≡ 8 * n.count };
}

impl<'a> Names<'a> {
    /// The names of so many files.
    pub(crate) fn of(order: Order, strings: &'a [u8], files: &'a [u8], count: u32) -> Names<'a>
        requires { length files.now ≡ 8 * count }
        ensures { result ≡ record { strings = strings.entry.now; files = files_of order count files.entry.now } }
    {
        Names {
            order,
            strings,
            files,
            count,
        }
    }

    // Where the directory of the file with a number is in the strings, and where its name is. `None` if there is no such file.
    #[inline(always)]
    #[tactic(auto, using(crate::proofs::NameLemmas::file_named, crate::proofs::NameLemmas::none_named, crate::proofs::NameLemmas::room_for_file))]
    fn offsets(&self, file: u64) -> Option<(u32, u32)>
        ensures { MatchOption result (path_in self.now.strings self.now.files file ≡ [])
            (λ at. path_in self.now.strings self.now.files file ≡ joined (text_at self.now.strings at.0) (text_at self.now.strings at.1)) }
    {
        if file >= u64::from(self.count) {
            return None;
        }
        let entry = rest_after(self.files, 8 * file as usize);
        let directory = number_at(self.order, entry, 0);
        let name = number_at(self.order, entry, 4);
        Some((directory, name))
    }

    // The directory of the file with a number, and its name in it; both are empty if there is no such file.
    #[tactic(auto, using(crate::proofs::NameLemmas::path_is_joined))]
    fn parts(&self, file: u64) -> (&'a [u8], &'a [u8])
        ensures { path_in self.now.strings self.now.files file ≡ joined result.0.now result.1.now }
    {
        match self.offsets(file) {
            Some((directory, name)) => (
                text_at(self.strings, directory),
                text_at(self.strings, name),
            ),
            None => (&[], &[]),
        }
    }

    /// Whether a row has an answer: it has a file, and this has a path.
    #[inline(always)]
    #[tactic(auto, using(crate::proofs::NameLemmas::row_told, crate::proofs::NameLemmas::row_untold, crate::proofs::NameLemmas::no_file))]
    pub(crate) fn tells(&self, row: Row) -> bool
        ensures { result ≡ tells (named self.now) row }
    {
        if row.file == 0 {
            return false;
        }
        match self.offsets(u64::from(row.file)) {
            Some((directory, name)) => {
                has_text(self.strings, directory) | has_text(self.strings, name)
            }
            None => false,
        }
    }
}

impl<'a> Paths for Names<'a> {
    ghost use Rattle.lnt_gsym.specs.GsymAnswers.{path_in};

    ghost bytes_of = { λ names unit file. path_in names.strings names.files file };

    fn path_of(&self, alloc: Global, _unit: u64, file: u64) -> Result<Vec<u8>, AllocError> {
        let (directory, name) = self.parts(file);
        let mut path = Vec::new(alloc);
        if !directory.is_empty() {
            path.extend_from_slice(directory)?;
            path.push(separator(directory))?;
        }
        path.extend_from_slice(name)?;
        Ok(path)
    }

    fn same_texts(&self, _unit: u64, file: u64, _other_unit: u64, other_file: u64) -> bool {
        file == other_file
    }

    fn texts_number(&self, _unit: u64, file: u64) -> u64 {
        file
    }
}

// What stands between a directory and a name in it.
fn separator(directory: &[u8]) -> u8
    ensures { result ≡ separator directory.now }
{
    if has(b'\\', directory) && !has(b'/', directory) {
        b'\\'
    } else {
        b'/'
    }
}

// Whether a text has a byte.
fn has(byte: u8, text: &[u8]) -> bool
    ensures { result ≡ has byte text.now }
{
    for c in text {
        if *c == byte {
            return true;
        }
    }
    false
}

// The text at an offset of the strings; none outside of them.
#[tactic(auto, using(crate::proofs::NameLemmas::none_outside))]
fn text_at<'a>(strings: &'a [u8], offset: u32) -> &'a [u8]
    ensures { result.now ≡ text_at strings.entry.now offset }
{
    if offset as usize >= strings.len() {
        return &[];
    }
    first_text(rest_after(strings, offset as usize))
}

// Whether the text at an offset of the strings has a byte.
#[inline(always)]
#[tactic(auto, using(crate::proofs::NameLemmas::no_text, crate::proofs::NameLemmas::empty_text, crate::proofs::NameLemmas::some_text))]
fn has_text(strings: &[u8], offset: u32) -> bool
    ensures { result ≡ has_bytes (text_at strings.now offset) }
{
    if offset as usize >= strings.len() {
        return false;
    }
    if strings[offset as usize] == 0 {
        return false;
    }
    true
}

// The bytes up to a zero byte, or to the end.
#[tactic(auto, using(crate::proofs::NameLemmas::text_ends, crate::proofs::NameLemmas::text_goes_on, crate::proofs::NameLemmas::whole_text))]
fn first_text<'a>(bytes: &'a [u8]) -> &'a [u8]
    ensures { result.now ≡ first_text bytes.entry.now }
{
    for i in 0..bytes.len() {
        if bytes[i] == 0 {
            return &bytes[..i];
        }
    }
    bytes
}
