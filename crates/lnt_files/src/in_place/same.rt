//! Whether the paths of two files are made of the same texts. That takes no look at long texts.
ghost use Rattle.std.specs.Prelude.{◌≡◌, ℕ, List, IsTrue, option_map};
ghost use Rattle.lnt_wire.specs.Borrowed.{value_of};
ghost use Rattle.lnt_files.specs.Paths.{directory_path, directory_text, path_bytes};

use crate::contents::form_at;
use crate::in_place::entry_at;
use crate::walk::EntryView;
use lnt_header::content::PATH;
use lnt_header_bytes::HeaderView;
use lnt_wire::{Form, ValueView};

// The number of bytes of the longest text in a table whose bytes are compared.
const LONGEST: usize = 4096;

/// Whether the paths of two files are made of the same texts. `true`: the paths are the same. `false`: they may be the same, or
/// there is no such file.
///
/// Texts are the same if they are at the same offset of the same section, or in tables and the same bytes. Of those in tables no
/// more than 4096 bytes are compared: a longer one is the same as itself only. The two headers are of one unit if `one_unit` says
/// so. Files count from 0. It walks the entries that `path_of` walks. Allocates nothing.
pub fn same_texts(
    one: &HeaderView<'_>,
    file: u64,
    other: &HeaderView<'_>,
    other_file: u64,
    one_unit: bool,
) -> bool
    requires { IsTrue one_unit → one.now ≡ other.now }
    ensures { IsTrue result
        → (line general : List ℕ) → path_bytes line general one.now file ≡ path_bytes line general other.now other_file }
{
    let Some(first) = entry_at(one.files(), file) else {
        return false;
    };
    let Some(second) = entry_at(other.files(), other_file) else {
        return false;
    };
    if !same_text(&first, &second) {
        return false;
    }
    let (number, other_number) = (first.directory_number(), second.directory_number());
    same_directory(one, number, other, other_number, one_unit)
}

/// A number that is the same for most files whose paths are made of the same texts, and differs for most others. It is that of the file's
/// text and its directory's: by their offsets in the string sections, and in tables by some bytes of a name, and by the number of a
/// directory, or of a name of more than 4096 bytes, and `unit`, which tells their unit from others. 0 if there is no such file.
pub fn texts_number(header: &HeaderView<'_>, unit: u64, file: u64) -> u64 {
    let Some(entry) = entry_at(header.files(), file) else {
        return 0;
    };
    let directory = directory_number(header, unit, entry.directory_number());
    mixed(text_number(&entry, unit, file), directory)
}

// A number for the path of a directory: for its text, and for that of directory 0, if it is another one. A text is told by its offset, or
// by the number of the directory where texts are in the table: such a text would be read to its end.
fn directory_number(header: &HeaderView<'_>, unit: u64, number: u64) -> u64 {
    if let Some(Form::Text) = form_at(PATH, header.directories().pairs()) {
        return mixed(unit, number);
    }
    let text = directory_text_number(header, unit, number);
    if number == 0 {
        return text;
    }
    mixed(text, directory_text_number(header, unit, 0))
}

// A number for the text of a directory.
fn directory_text_number(header: &HeaderView<'_>, unit: u64, number: u64) -> u64 {
    match entry_at(header.directories(), number) {
        Some(directory) => text_number(&directory, unit, number),
        None => 0,
    }
}

// A number for the text of an entry, by its offset, by some of its bytes if these are compared, or else by the number of the entry.
fn text_number(entry: &EntryView<'_>, unit: u64, number: u64) -> u64 {
    match entry.path {
        Some(ValueView::LineStrp(offset) | ValueView::Strp(offset)) => offset,
        Some(ValueView::Text(text)) if text.len() <= LONGEST => {
            let ends = mixed(byte_number(text.first()), byte_number(text.last()));
            mixed(text.len() as u64, ends)
        }
        _ => mixed(unit, number),
    }
}

fn byte_number(byte: Option<&u8>) -> u64 {
    match byte {
        Some(byte) => u64::from(*byte),
        None => 0,
    }
}

// One number made of two.
fn mixed(one: u64, other: u64) -> u64 {
    one.wrapping_mul(0x9e37_79b9_7f4a_7c15)
        .wrapping_add(other)
        .wrapping_add(1)
        .wrapping_mul(0xd6e8_feb8_6659_fd93)
        .rotate_left(32)
}

// Whether the paths of two directories are made of the same texts.
fn same_directory(
    one: &HeaderView<'_>,
    number: u64,
    other: &HeaderView<'_>,
    other_number: u64,
    one_unit: bool,
) -> bool
    requires { IsTrue one_unit → one.now ≡ other.now }
    ensures { IsTrue result → (line general : List ℕ)
        → directory_path line general one.now number ≡ directory_path line general other.now other_number }
{
    if number == 0 {
        return other_number == 0 && same_directory_text(one, 0, other, 0, one_unit);
    }
    other_number != 0
        && same_directory_text(one, number, other, other_number, one_unit)
        && same_directory_text(one, 0, other, 0, one_unit)
}

// Whether the texts of two directories are the same.
fn same_directory_text(
    one: &HeaderView<'_>,
    number: u64,
    other: &HeaderView<'_>,
    other_number: u64,
    one_unit: bool,
) -> bool
    requires { IsTrue one_unit → one.now ≡ other.now }
    ensures { IsTrue result → (line general : List ℕ)
        → directory_text line general one.now number ≡ directory_text line general other.now other_number }
{
    if one_unit && number == other_number {
        return true;
    }
    let Some(first) = entry_at(one.directories(), number) else {
        return false;
    };
    let Some(second) = entry_at(other.directories(), other_number) else {
        return false;
    };
    same_text(&first, &second)
}

// Whether the texts of two entries are the same.
fn same_text(one: &EntryView<'_>, other: &EntryView<'_>) -> bool
    ensures { IsTrue result → option_map value_of one.now.path ≡ option_map value_of other.now.path }
{
    match (one.path, other.path) {
        (Some(ValueView::Text(text)), Some(ValueView::Text(same))) => {
            text.len() <= LONGEST && text == same
        }
        (Some(ValueView::LineStrp(offset)), Some(ValueView::LineStrp(same))) => offset == same,
        (Some(ValueView::Strp(offset)), Some(ValueView::Strp(same))) => offset == same,
        _ => false,
    }
}
