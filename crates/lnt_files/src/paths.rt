//! The paths of the files of a header (DWARF 5, section 6.2.4.1).
ghost use Rattle.std.specs.Prelude.{◌≡◌, ◌≤◌, ◌++◌, length, take, drop, slice_get, OnOk, IsSome, Some, option_map};
ghost use Rattle.lnt_header.specs.declared.header.Entry.{Entry};
ghost use Rattle.lnt_files.specs.Paths.{is_full, is_byte, ends_with_slash, join};
ghost use Rattle.lnt_files.specs.Paths.{directory_text, directory_path, file_path, begins_with_drive, begins_with_machine};
ghost use Rattle.lnt_files.specs.Stepping.{whole_path};
ghost use Rattle.lnt_files.specs.Walks.{Says};

use crate::in_place::entry_at;
use crate::walk::EntryView;
use lnt_header_bytes::HeaderView;
use lnt_wire::Strings;
use std::alloc::AllocError;

// The pieces of a path: directory 0, the file's directory and the file's name. The first two are empty if the path doesn't
// need them.
#[derive(Clone, Copy)]
struct Pieces<'s> {
    first: &'s [u8],
    directory: &'s [u8],
    name: &'s [u8],
}

// The pieces of the path of the file with these components. `None` if a text is missing.
fn pieces_of<'s>(
    header: &'s HeaderView<'s>,
    strings: Strings<'s>,
    file: &EntryView<'s>,
) -> Option<Pieces<'s>>
    ensures { (entry : Entry) → Says header.entry.now.file_format entry file.now
        → option_map whole_path result ≡ file_path strings.entry.line.now strings.entry.general.now header.entry.now entry }
{
    let name = file.path_text(strings)?;
    if is_full(name) {
        return Some(Pieces {
            first: &[],
            directory: &[],
            name,
        });
    }
    let (first, directory) = directory_pieces(header, strings, file.directory_number())?;
    Some(Pieces {
        first,
        directory,
        name,
    })
}

// The two pieces of a directory's path.
fn directory_pieces<'s>(
    header: &'s HeaderView<'s>,
    strings: Strings<'s>,
    number: u64,
) -> Option<(&'s [u8], &'s [u8])>
    ensures { option_map (λ pieces. join pieces.0.now pieces.1.now) result
        ≡ directory_path strings.entry.line.now strings.entry.general.now header.entry.now number }
{
    let directory = directory_text(header, strings, number)?;
    if number == 0 || is_full(directory) {
        return Some((&[], directory));
    }
    let first = directory_text(header, strings, 0)?;
    Some((first, directory))
}

// The text of the directory with this number.
#[tactic(auto, using(crate::proofs::AtLemmas::directory_text_is, crate::proofs::AtLemmas::no_directory_text))]
fn directory_text<'s>(
    header: &'s HeaderView<'s>,
    strings: Strings<'s>,
    number: u64,
) -> Option<&'s [u8]>
    ensures { option_map (λ text. text.now) result ≡ directory_text strings.entry.line.now strings.entry.general.now header.entry.now
        number }
{
    entry_at(header.directories(), number)?.path_text(strings)
}

// Whether the path is a full one, of POSIX or of Windows.
fn is_full(path: &[u8]) -> bool
    ensures { result ≡ is_full path.now }
{
    has_at(path, 0, b'/') || begins_with_drive(path) || begins_with_machine(path)
}

// Whether the path begins with a letter, a colon and a separator.
fn begins_with_drive(path: &[u8]) -> bool
    ensures { result ≡ begins_with_drive path.now }
{
    path.first().is_some_and(|byte| byte.is_ascii_alphabetic())
        && has_at(path, 1, b':')
        && (has_at(path, 2, b'/') || has_at(path, 2, b'\\'))
}

// Whether the path begins with two backslashes.
fn begins_with_machine(path: &[u8]) -> bool
    ensures { result ≡ begins_with_machine path.now }
{
    has_at(path, 0, b'\\') && has_at(path, 1, b'\\')
}

// Whether the path has this byte at this index.
fn has_at(path: &[u8], index: usize, byte: u8) -> bool
    ensures { result ≡ is_byte byte (slice_get path.now index) }
{
    path.get(index).is_some_and(|at| *at == byte)
}

fn ends_with_slash(path: &[u8]) -> bool
    ensures { result ≡ ends_with_slash path.now }
{
    matches!(path.last(), Some(b'/'))
}

/// Appends the path of the file with these components, whose texts exist.
pub(crate) fn add_path<'s>(
    out: &mut Vec<u8>,
    header: &'s HeaderView<'s>,
    strings: Strings<'s>,
    file: &EntryView<'s>,
) -> Result<(), AllocError>
    requires { (entry : Entry) × Says header.now.file_format entry file.now
        × IsSome (file_path strings.line.now strings.general.now header.now entry) }
    ensures { OnOk result ((entry : Entry) → Says header.entry.now.file_format entry file.now
        → option_map (λ path. out.old.items ++ path)
        (file_path strings.entry.line.now strings.entry.general.now header.entry.now entry) ≡ Some out.new.items) }
{
    let Some(pieces) = pieces_of(header, strings, file) else {
        unreachable!()
    };
    add_pieces(out, &pieces)
}

// Appends the path of these pieces.
fn add_pieces(out: &mut Vec<u8>, pieces: &Pieces<'_>) -> Result<(), AllocError>
    ensures { OnOk result (out.new.items ≡ out.old.items ++ whole_path pieces.now) }
{
    let start = out.len();
    out.extend_from_slice(pieces.first)?;
    add_below(out, start, pieces.directory)?;
    add_below(out, start, pieces.name)
}

// Appends a name to the directory that `out` holds from index `start` on, after a `/` unless the directory is empty or ends
// with one.
fn add_below(out: &mut Vec<u8>, start: usize, name: &[u8]) -> Result<(), AllocError>
    requires { start ≤ length out.old.items }
    ensures { OnOk result (out.new.items ≡ take start out.old.items ++ join (drop start out.old.items) name.now) }
{
    let (_, directory) = out.split_at(start);
    if !directory.is_empty() && !ends_with_slash(directory) {
        out.push(b'/')?;
    }
    out.extend_from_slice(name)
}
