//! The subcommand `upgrade`.
ghost use Rattle.std.specs.Prelude.{◌≡◌, ◌≢◌, IfErr, IfOk, OnErr, OnOk, option_copied};
ghost use Rattle.std.specs.Io.KnownBytes.{Appends};
ghost use Rattle.lnt_io.specs.Prefixes.{AppendsPrefix};
ghost use Rattle.lnt_header.specs.HeaderRules.{IsAddressSize};
ghost use Rattle.lnt_io.specs.IoStops.{IsPrinting};
ghost use Rattle.lnt_io.specs.declared.status.Status.TheVariants.{No};
ghost use Rattle.lnt_older.specs.Sections.{IsUpgraded};
ghost use Rattle.lnt_older.specs.Upgradable.{AreSoundDirectories, CanUpgrade};
ghost use Rattle.lnt_dump.specs.Printed.{IsPrintedIn, IsUpgradeBegun, IsUpgradePrinted, upgrade_refusal};
ghost use Rattle.lnt_dump.specs.Stepping.{IsPrefixIn};

use crate::convert::print_refusal;
use crate::faults::print_fault;
use crate::page::{hand_on, turn_full};
use lnt_io::{IoStop, Status, print_line};
use lnt_older::{Directory, UpgradeFault, judge_upgrade, upgrade_next};
use lnt_unit::ConvertFault;
use lnt_wire::{Cursor, Order};
use std::alloc::Global;
use std::fmt;
use std::io::Write;

/// Prints the section `bytes`, whose byte order is `order`, with its units of versions 2 to 4 written anew in version 5; or the line
/// that says why there is no such section: `no 25 ..`, `no 44 ..`, `no 20 ..` or `no 30 ..`. Addresses of older units have
/// `address_size` bytes, 2, 4 or 8; `directories` are the bytes of the file of their compilation directories, if there is one.
///
/// If it returns `Done`, the section of version 5 has been written, and nothing else. If it returns `No`, only the line that says why
/// there is none. Stops with `Write` if the writer failed, and with `Memory`. If it stops, a prefix of that section or line has been
/// written, and nothing else. It takes the memory of the directories and of the largest new unit, which is written once each unit is
/// known to have an encoding.
pub fn print_upgraded<W: Write>(
    alloc: Global,
    bytes: &[u8],
    order: Order,
    address_size: u8,
    directories: Option<&[u8]>,
    out: &mut W,
) -> Result<Status, IoStop>
    requires { IsAddressSize address_size }
    ensures printed { IfOk result (IsUpgradePrinted order address_size bytes.now (option_copied directories.entry)
        (W.contents out.old) (W.contents out.new)) }
    ensures begun { OnErr result (IsUpgradeBegun order address_size bytes.now (option_copied directories.entry)
        (W.contents out.old) (W.contents out.new)) }
    ensures err { IfErr result IsPrinting }
{
    match judge_upgrade(alloc, bytes, order, address_size, directories) {
        Ok(directories) => {
            print_anew(alloc, bytes, order, address_size, &directories, out)?;
            Ok(Status::Done)
        }
        Err(fault) => print_reason(alloc, fault, out),
    }
}

// Prints a section of which each unit can be written anew, unit by unit, or a prefix of it.
#[tactic(auto, using(crate::proofs::Anew::anew_begun, crate::proofs::Anew::anew_left, lnt_older::proofs::SizeLemmas::added_long))]
fn print_anew<W: Write>(
    alloc: Global,
    bytes: &[u8],
    order: Order,
    address_size: u8,
    directories: &[Directory],
    out: &mut W,
) -> Result<(), IoStop>
    requires size { IsAddressSize address_size }
    requires sound { AreSoundDirectories directories.now }
    requires can { CanUpgrade order address_size directories.now bytes.now }
    ensures whole { OnOk result (IsPrintedIn (IsUpgraded order address_size directories.now bytes.now)
        (W.contents out.old) (W.contents out.new)) }
    ensures prefix { OnErr result (IsPrefixIn (IsUpgraded order address_size directories.now bytes.now)
        (W.contents out.old) (W.contents out.new)) }
    ensures err { IfErr result IsPrinting }
{
    let mut page = Vec::new(alloc);
    let mut cursor = Cursor::new(bytes, 0, order);
    while !cursor.rest().is_empty() {
        upgrade_next(alloc, &mut cursor, address_size, directories, &mut page)?;
        turn_full(&mut page, out)?;
    }
    hand_on(&mut page, out)?;
    Ok(())
}

// Prints the line that says why a section isn't written anew, or a prefix of it. Lack of memory has no line: it is a stop.
fn print_reason<W: Write>(alloc: Global, fault: UpgradeFault, out: &mut W) -> Result<Status, IoStop>
    ensures no { IfOk result (λ status. status ≡ No) }
    ensures not_memory { OnOk result (fault ≢ UpgradeFault.Memory) }
    ensures err { IfErr result IsPrinting }
    ensures line { OnOk result (Appends (W.contents out.old) (W.contents out.new) (upgrade_refusal fault)) }
    ensures prefix { OnErr result (AppendsPrefix (W.contents out.old) (W.contents out.new) (upgrade_refusal fault)) }
{
    match fault {
        UpgradeFault::Malformed(fault) => print_fault(alloc, fault, out),
        UpgradeFault::Directories(place) => print_record(alloc, place, out),
        UpgradeFault::FileZero(unit, row) => print_file_zero(alloc, FileZeroLine(unit, row), out),
        UpgradeFault::TooLarge(offset) => print_refusal(alloc, ConvertFault::TooLarge(offset), out),
        UpgradeFault::Memory => Err(IoStop::Memory),
    }
}

// Prints the line that names the first record that isn't so, or a prefix of it.
fn print_record<W: Write>(alloc: Global, place: u64, out: &mut W) -> Result<Status, IoStop>
    ensures no { IfOk result (λ status. status ≡ No) }
    ensures err { IfErr result IsPrinting }
    ensures line { OnOk result (Appends (W.contents out.old) (W.contents out.new) (upgrade_refusal (UpgradeFault.Directories place))) }
    ensures prefix { OnErr result (AppendsPrefix (W.contents out.old) (W.contents out.new)
        (upgrade_refusal (UpgradeFault.Directories place))) }
{
    print_line(
        alloc,
        &format_args!("no 44 directories record {place}"),
        out,
    )?;
    Ok(Status::No)
}

// The line that names the first row of file 0, by the offset of its unit and by its index there.
#[derive(Clone, Copy)]
struct FileZeroLine(u64, u64);

impl fmt::Display for FileZeroLine {
    ghost use Rattle.std.specs.Prelude.{Some};
    ghost use Rattle.lnt_dump.specs.Printed.{file_zero_text};

    ghost output = { λ line. Some (file_zero_text line.0 line.1) };

    fn fmt<W: fmt::Write>(&self, f: &mut fmt::Formatter<W>) -> fmt::Result {
        let FileZeroLine(unit, row) = *self;
        write!(f, "no 30 file number unit 0x{unit:x} row {row} file 0")
    }
}

// Prints that line, or a prefix of it.
fn print_file_zero<W: Write>(
    alloc: Global,
    line: FileZeroLine,
    out: &mut W,
) -> Result<Status, IoStop>
    ensures no { IfOk result (λ status. status ≡ No) }
    ensures err { IfErr result IsPrinting }
    ensures line { OnOk result (Appends (W.contents out.old) (W.contents out.new)
        (upgrade_refusal (UpgradeFault.FileZero line.0 line.1))) }
    ensures prefix { OnErr result (AppendsPrefix (W.contents out.old) (W.contents out.new)
        (upgrade_refusal (UpgradeFault.FileZero line.0 line.1))) }
{
    print_line(alloc, &line, out)?;
    Ok(Status::No)
}
