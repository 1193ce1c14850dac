//! What may be wrong with the tables of a header, and the formats that are usable (DWARF 5, section 6.2.4.1).
ghost use Rattle.std.specs.Prelude.{◌↔◌, IsTrue, IsSomeAnd, IfSome, Some};
ghost use Rattle.lnt_files.specs.Contents.{content_path, content_directory_index, content_md5, form_at};
ghost use Rattle.lnt_files.specs.FaultTexts.{entry_table_fault_text, table_text};
ghost use Rattle.lnt_files.specs.Tables.{IsPathForm, IsNumberForm, IsSumForm, IsUsableFormat};

use crate::contents::form_at;
use lnt_header::content::{DIRECTORY_INDEX, MD5, PATH};
use lnt_header::{EntryTable, Pair};
use lnt_wire::Form;
use std::error::Error;
use std::fmt;

/// Why the directories and files of a header can't be used. Indices count from 0.
#[derive(Clone, Copy, Debug, PartialEq, Eq)]
pub enum EntryTableFault {
    /// A table with entries whose format has no path, or has a path, a directory number or an MD5 sum in a form that isn't
    /// allowed for it.
    EntryFormat(EntryTable),
    /// The first entry whose path has no text.
    StringOutside(EntryTable, u64),
    /// The first file whose directory doesn't exist.
    DirectoryNumber(u64),
}

impl fmt::Display for EntryTableFault {
    ghost output = { λ fault. Some (entry_table_fault_text fault) };

    fn fmt<W: fmt::Write>(&self, f: &mut fmt::Formatter<W>) -> fmt::Result {
        match *self {
            EntryTableFault::EntryFormat(which) => {
                write!(f, "entry format {}", EntryTableText(which))
            }
            EntryTableFault::StringOutside(which, entry) => {
                write!(f, "string outside {} entry {entry}", EntryTableText(which))
            }
            EntryTableFault::DirectoryNumber(file) => write!(f, "directory number file {file}"),
        }
    }
}

impl Error for EntryTableFault {}

/// Prints which of the two tables of a header it is: `directories` or `files`.
#[derive(Clone, Copy)]
pub struct EntryTableText(pub EntryTable);

impl fmt::Display for EntryTableText {
    ghost output = { λ text. Some (table_text text.0) };

    fn fmt<W: fmt::Write>(&self, f: &mut fmt::Formatter<W>) -> fmt::Result {
        match self.0 {
            EntryTable::Directories => f.write_str("directories"),
            EntryTable::Files => f.write_str("files"),
        }
    }
}

/// Whether the format is usable.
pub(crate) fn is_usable_format(pairs: &[Pair]) -> bool
    ensures { IsTrue result ↔ IsUsableFormat pairs.now }
{
    has_path_form(pairs) && has_number_form(pairs) && has_sum_form(pairs)
}

fn has_path_form(pairs: &[Pair]) -> bool
    ensures { IsTrue result ↔ IsSomeAnd (form_at content_path pairs.now) IsPathForm }
{
    matches!(
        form_at(PATH, pairs),
        Some(Form::Text | Form::LineStrp | Form::Strp)
    )
}

fn has_number_form(pairs: &[Pair]) -> bool
    ensures { IsTrue result ↔ IfSome (form_at content_directory_index pairs.now) IsNumberForm }
{
    matches!(
        form_at(DIRECTORY_INDEX, pairs),
        None | Some(Form::Udata | Form::Data1 | Form::Data2 | Form::Data4 | Form::Data8)
    )
}

fn has_sum_form(pairs: &[Pair]) -> bool
    ensures { IsTrue result ↔ IfSome (form_at content_md5 pairs.now) IsSumForm }
{
    matches!(form_at(MD5, pairs), None | Some(Form::Data16))
}
