//! The files of a good section, as comma-separated values.
ghost use Rattle.std.specs.Prelude.{◌≡◌, ◌<◌, IfErr, IfOk, OnErr, OnOk, string_bytes};
ghost use Rattle.std.specs.Io.KnownBytes.{Appends};
ghost use Rattle.lnt_io.specs.Prefixes.{AppendsPrefix};
ghost use Rattle.lnt_io.specs.declared.status.Status.TheVariants.{Done};
ghost use Rattle.lnt_io.specs.IoStops.{IsPrinting};
ghost use Rattle.lnt_lines.specs.Indexed.{file_count_in, file_path_in, file_sum_in};
ghost use Rattle.lnt_files.specs.Paths.{path_or_empty};
ghost use Rattle.lnt_answers.specs.Lines.{file_record, files_text, sum_field, unit_records};

use csv::Writer;
use lnt_io::{IoStop, Status, write_whole};
use lnt_lines::Index;
use std::alloc::{AllocError, Global};
use std::io::Write;

/// Prints a header, `unit,file,path,md5`, and after it a record for each file of each unit. Its fields are the unit's offset
/// and the file's index, counted from 0, as decimal numbers; the full path; and the listed MD5 sum in hexadecimal, or nothing
/// if none is listed.
///
/// Returns `Done`. Stops with `Write` if the writer failed, and with `Memory`. If it stops, a prefix of these lines has
/// been written, and nothing else.
pub fn print_files<W: Write>(
    alloc: Global,
    index: &Index<'_>,
    out: &mut W,
) -> Result<Status, IoStop>
    ensures done { IfOk result (λ status. status ≡ Done) }
    ensures err { IfErr result IsPrinting }
    ensures files { OnOk result (Appends (W.contents out.old) (W.contents out.new) (files_text index.now)) }
    ensures prefix { OnErr result (AppendsPrefix (W.contents out.old) (W.contents out.new) (files_text index.now)) }
{
    write_whole(out, b"unit,file,path,md5\n")?;
    for unit in index.units() {
        print_unit_files(alloc, index, *unit, out)?;
    }
    Ok(Status::Done)
}

// Prints the records of the files of a unit.
#[tactic(auto, using(crate::proofs::FileLemmas::records_none, crate::proofs::FileLemmas::records_more))]
fn print_unit_files<W: Write>(
    alloc: Global,
    index: &Index<'_>,
    unit: u64,
    out: &mut W,
) -> Result<(), IoStop>
    ensures err { IfErr result IsPrinting }
    ensures records { OnOk result (Appends (W.contents out.old) (W.contents out.new) (unit_records index.now unit)) }
    ensures prefix { OnErr result (AppendsPrefix (W.contents out.old) (W.contents out.new) (unit_records index.now unit)) }
{
    for file in 0..index.file_count(unit) {
        print_file(alloc, index, unit, file, out)?;
    }
    Ok(())
}

// Prints the record of a file of the unit. Only this record is held in memory.
fn print_file<W: Write>(
    alloc: Global,
    index: &Index<'_>,
    unit: u64,
    file: u64,
    out: &mut W,
) -> Result<(), IoStop>
    requires { file < file_count_in index.now unit }
    ensures err { IfErr result IsPrinting }
    ensures record { OnOk result (Appends (W.contents out.old) (W.contents out.new) (file_record index.now unit file)) }
    ensures prefix { OnErr result (AppendsPrefix (W.contents out.old) (W.contents out.new) (file_record index.now unit file)) }
{
    let bytes = record_of(alloc, index, unit, file)?;
    write_whole(out, &bytes)?;
    Ok(())
}

// The record of a file of the unit.
fn record_of(alloc: Global, index: &Index<'_>, unit: u64, file: u64) -> Result<Vec<u8>, AllocError>
    requires { file < file_count_in index.now unit }
    ensures { IfOk result (λ bytes. bytes.items ≡ file_record index.now unit file) }
{
    let path = file_path(alloc, index, unit, file)?;
    let sum = sum_of(alloc, index, unit, file)?;
    let unit = format!(in alloc; "{unit}")?;
    let file = format!(in alloc; "{file}")?;
    let fields = [
        unit.as_bytes(),
        file.as_bytes(),
        path.as_slice(),
        sum.as_bytes(),
    ];
    let mut records = Writer::from_writer(Vec::new(alloc));
    // Writing to a vector fails only if memory runs out.
    let Ok(()) = records.write_fields(&fields) else {
        return Err(AllocError);
    };
    match records.into_inner() {
        Ok(bytes) => Ok(bytes),
        Err(_) => Err(AllocError),
    }
}

// The full path of a file of the unit.
pub(crate) fn file_path(
    alloc: Global,
    index: &Index<'_>,
    unit: u64,
    file: u64,
) -> Result<Vec<u8>, AllocError>
    requires { file < file_count_in index.now unit }
    ensures { IfOk result (λ path. path.items ≡ path_or_empty (file_path_in index.now unit file)) }
{
    match index.path_of(alloc, unit, file)? {
        Some(path) => Ok(path),
        None => unreachable!(),
    }
}

// The listed sum of a file in hexadecimal digits; empty if none is listed.
fn sum_of(alloc: Global, index: &Index<'_>, unit: u64, file: u64) -> Result<String, AllocError>
    ensures { IfOk result (λ sum. string_bytes sum ≡ sum_field (file_sum_in index.now unit file)) }
{
    match index.listed(unit, file) {
        Some(sum) => Ok(hex::encode(alloc, sum.as_slice())?),
        None => Ok(String::new(alloc)),
    }
}
