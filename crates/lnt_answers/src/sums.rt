//! Prints whether files have the MD5 sums that are listed for them.
ghost use Rattle.std.specs.Prelude.{◌≡◌, ◌≢◌, ◌↔◌, ◌<◌, ◌++◌, IfErr, IfOk, IsSome, IsTrue, OnErr, OnOk, codes, Any};
ghost use Rattle.lnt_io.specs.Files.{FindsNoMore, OpensOnly};
ghost use Rattle.lnt_io.specs.IoStops.{IsPrinting};
ghost use Rattle.lnt_lines.specs.Indexed.{file_count_in, file_sum_in};
ghost use Rattle.lnt_text.specs.Texts.{quoted_text};
ghost use Rattle.lnt_answers.specs.SumLines.{AreSumsBegun, AreSumsPrinted, IsTrueOfFile, both, found_status};
ghost use Rattle.lnt_answers.specs.SumLines.{found_text, head_text, listed_at};
ghost use Rattle.lnt_answers.specs.SumLines.{IsListedPath, listed_files, listed_in};

use crate::display::put_text;
use crate::files::file_path;
use crate::{Agreement, md5_agrees};
use lnt_io::{Files, IoStop, OpenedFile, Status, write_whole};
use lnt_lines::Index;
use lnt_text::Quoted;
use std::alloc::{AllocError, Global};
use std::io::Write;
use std::str;

/// Prints a line for each file with a listed MD5 sum (`DW_LNCT_MD5` of DWARF 5, section 6.2.4.1), unit by unit. It is
/// `unit U file F same "PATH"` if the bytes that the opener gives for its path have this sum. Otherwise it has `differs SUM`,
/// with the sum that they have, or `unreadable` instead of `same`. A file is unreadable if it can't be opened or read, has
/// more than 2^40 bytes, has a path that isn't UTF-8, or isn't a regular file, such as a pipe, a device or a folder. These are
/// never read, nor is a file named `-`: no file is opened but those at a listed path that isn't `-` (`IsListedPath`).
///
/// Returns `Done` if all of them have their sums, and `No` if one has another sum or can't be read. Stops with `Write` if
/// the writer failed, and with `Memory`. If it stops, a prefix of lines that are true of the files has been written, and
/// nothing else. It doesn't stop for a file that can't be read.
pub fn print_sums<O: Files, W: Write>(
    alloc: Global,
    index: &Index<'_>,
    opener: &mut O,
    out: &mut W,
) -> Result<Status, IoStop>
    ensures err { IfErr result IsPrinting }
    ensures later { FindsNoMore (O.finds opener.old) (O.finds opener.new) }
    ensures sums { IfOk result (λ status. AreSumsPrinted (O.finds opener.old) index.now (listed_files index.now)
        (W.contents out.old) (W.contents out.new) status) }
    ensures begun { OnErr result (AreSumsBegun (O.finds opener.old) index.now (listed_files index.now)
        (W.contents out.old) (W.contents out.new)) }
    ensures opened { OpensOnly (IsListedPath index.now) (O.opens opener.old) (O.opens opener.new) }
{
    let mut status = Status::Done;
    let mut room = Vec::new(alloc);
    for unit in index.units() {
        let of_unit = print_unit_sums(alloc, index, *unit, opener, &mut room, out)?;
        status = together(status, of_unit);
    }
    Ok(status)
}

// Prints the lines for the files of the unit at this offset that have a listed sum.
fn print_unit_sums<O: Files, W: Write>(
    alloc: Global,
    index: &Index<'_>,
    unit: u64,
    opener: &mut O,
    room: &mut Vec<u8>,
    out: &mut W,
) -> Result<Status, IoStop>
    ensures err { IfErr result IsPrinting }
    ensures later { FindsNoMore (O.finds opener.old) (O.finds opener.new) }
    ensures sums { IfOk result (λ status. AreSumsPrinted (O.finds opener.old) index.now (listed_in index.now unit)
        (W.contents out.old) (W.contents out.new) status) }
    ensures begun { OnErr result (AreSumsBegun (O.finds opener.old) index.now (listed_in index.now unit)
        (W.contents out.old) (W.contents out.new)) }
    ensures opened { OpensOnly (IsListedPath index.now) (O.opens opener.old) (O.opens opener.new) }
{
    let mut status = Status::Done;
    for file in 0..index.file_count(unit) {
        let of_file = print_sum(alloc, index, unit, file, opener, room, out)?;
        status = together(status, of_file);
    }
    Ok(status)
}

// Prints the line of a file of the unit, if a sum is listed for it. The line is made in `room` first, whose old contents are
// dropped.
fn print_sum<O: Files, W: Write>(
    alloc: Global,
    index: &Index<'_>,
    unit: u64,
    file: u64,
    opener: &mut O,
    room: &mut Vec<u8>,
    out: &mut W,
) -> Result<Status, IoStop>
    requires { file < file_count_in index.now unit }
    ensures err { IfErr result IsPrinting }
    ensures later { FindsNoMore (O.finds opener.old) (O.finds opener.new) }
    ensures sum { IfOk result (λ status. AreSumsPrinted (O.finds opener.old) index.now (listed_at index.now unit file)
        (W.contents out.old) (W.contents out.new) status) }
    ensures begun { OnErr result (AreSumsBegun (O.finds opener.old) index.now (listed_at index.now unit file)
        (W.contents out.old) (W.contents out.new)) }
    ensures opened { OpensOnly (IsListedPath index.now) (O.opens opener.old) (O.opens opener.new) }
{
    let Some(listed) = index.listed(unit, file) else {
        return Ok(Status::Done);
    };
    let path = file_path(alloc, index, unit, file)?;
    let found = found_of(alloc, &path, &listed, opener)?;
    room.clear();
    put_found(alloc, unit, file, &path, found, room)?;
    write_whole(out, room.as_slice())?;
    Ok(status_of(found))
}

// Whether the file at the path has the sum. `None` if it can't be read.
fn found_of<O: Files>(
    alloc: Global,
    path: &[u8],
    listed: &[u8; 16],
    opener: &mut O,
) -> Result<Option<Agreement>, AllocError>
    ensures later { FindsNoMore (O.finds opener.old) (O.finds opener.new) }
    ensures found { IfOk result (IsTrueOfFile (O.finds opener.old) path.now listed.now) }
    ensures opened { OpensOnly (λ name. (path.now ≡ name) × (name ≢ codes "-")) (O.opens opener.old) (O.opens opener.new) }
{
    let Ok(name) = str::from_utf8(path) else {
        return Ok(None);
    };
    if name == "-" || !opener.is_regular(name) {
        return Ok(None);
    }
    let mut file = match OpenedFile::open(alloc, opener, name, ()) {
        Ok(file) => file,
        Err(IoStop::Memory) => return Err(AllocError),
        Err(_) => return Ok(None),
    };
    match md5_agrees(&mut file, listed) {
        Ok(agreement) => Ok(Some(agreement)),
        Err(_) => {
            file.tell_unread(opener);
            Ok(None)
        }
    }
}

// Appends the line that says what was found for a file.
fn put_found(
    alloc: Global,
    unit: u64,
    file: u64,
    path: &[u8],
    found: Option<Agreement>,
    line: &mut Vec<u8>,
) -> Result<(), AllocError>
    ensures { OnOk result (line.new.items ≡ line.old.items
        ++ ((head_text unit file ++ found_text found) ++ (codes " " ++ (quoted_text path.now ++ codes "\n")))) }
{
    put_text(&format_args!("unit {unit} file {file} "), line)?;
    put_agreement(alloc, found, line)?;
    put_text(&format_args!(" {}\n", Quoted(path)), line)
}

// Appends that a file has its listed sum, or the sum that it has instead, or that it can't be read.
fn put_agreement(
    alloc: Global,
    found: Option<Agreement>,
    line: &mut Vec<u8>,
) -> Result<(), AllocError>
    ensures { OnOk result (line.new.items ≡ line.old.items ++ found_text found) }
{
    match found {
        Some(Agreement::Same) => line.extend_from_slice(b"same"),
        Some(Agreement::Differs(sum)) => {
            let sum = hex::encode(alloc, sum.as_slice())?;
            put_text(&format_args!("differs {sum}"), line)
        }
        None => line.extend_from_slice(b"unreadable"),
    }
}

// The status for this finding: `Done` only for a file with its listed sum.
fn status_of(found: Option<Agreement>) -> Status
    ensures { result ≡ found_status found }
{
    match found {
        Some(Agreement::Same) => Status::Done,
        Some(Agreement::Differs(_)) | None => Status::No,
    }
}

// `Done` if both are.
fn together(first: Status, second: Status) -> Status
    ensures { result ≡ both first second }
{
    match first {
        Status::Done => second,
        Status::No => Status::No,
    }
}

/// Whether an MD5 sum is listed for the first file of a unit. The files of a unit share one format (DWARF 5, section
/// 6.2.4.1), so if the first has no sum, none has. Allocates nothing.
pub fn lists_sums(index: &Index<'_>) -> bool
    ensures { IsTrue result ↔ Any (λ unit. IsSome (file_sum_in index.now unit 0)) index.now.units }
{
    for unit in index.units() {
        if index.listed(*unit, 0).is_some() {
            return true;
        }
    }
    false
}
