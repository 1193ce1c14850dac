//! Rows of older programs that name file 0, which is no file there: files count from 1 (DWARF 2 to 4, section 6.2.4).
ghost use Rattle.std.specs.Prelude.{◌≡◌, ◌<◌, IfErr, IfOk, OnOk};
ghost use Rattle.lnt_header.specs.HeaderRules.{AreHeaderNumbers, IsAddressSize};
ghost use Rattle.lnt_older.specs.FileZero.{AllNameFiles, IsFirstOfProgram, IsFirstOfUnit, JudgesRows, numbers_of};
ghost use Rattle.lnt_older.specs.OlderUnits.{IsOlderUnit};
ghost use Rattle.lnt_older.specs.Sections.{HasUnits};
ghost use Rattle.lnt_older.specs.Upgradable.{IsRowFault, IsUnitNext};

use crate::section::UpgradeFault;
use crate::unit::{AnyUnit, OlderUnit, take_any_unit};
use lnt_header::HeaderNumbers;
use lnt_header_bytes::numbers_of;
use lnt_machine::Rows;
use lnt_ops::Ops;
use lnt_wire::{Cursor, Order, copied};
use std::alloc::{AllocError, Global};

/// Tests that no row of the section's older units names file 0, end rows left out. A program counts up to its first operation that
/// can't be read or leaves the range of lines. The caller gives a section that units of versions 2 to 5 spell.
///
/// It refuses with `FileZero` and the first row that does, by units and then by rows, and else only with `Memory`.
#[tactic(auto, using(crate::proofs::FileZeroLemmas::judge_rows_lemmas))]
pub(crate) fn judge_rows(
    alloc: Global,
    bytes: &[u8],
    order: Order,
    address_size: u8,
) -> Result<(), UpgradeFault>
    requires size { IsAddressSize address_size }
    requires units { HasUnits order bytes.now }
    ensures ok { OnOk result (AllNameFiles order address_size bytes.now) }
    ensures err { IfErr result (λ fault. IsRowFault order address_size bytes.now fault) }
{
    let mut cursor = Cursor::new(bytes, 0, order);
    while !cursor.rest().is_empty() {
        let offset = cursor.place();
        if let Some(row) = next_zero_row(alloc, &mut cursor, address_size)? {
            return Err(UpgradeFault::FileZero(offset, row));
        }
    }
    Ok(())
}

// The first row that names file 0 of the unit at the cursor, which moves past that unit. The caller sees to it that a unit comes next.
#[tactic(auto, using(crate::proofs::FileZeroLemmas::five_judged, crate::proofs::FileZeroLemmas::older_judged))]
fn next_zero_row(
    alloc: Global,
    cursor: &mut Cursor<'_>,
    address_size: u8,
) -> Result<Option<u64>, AllocError>
    requires size { IsAddressSize address_size }
    requires next { IsUnitNext cursor.old }
    ensures { IfOk result (λ found. JudgesRows address_size found cursor.old cursor.new) }
{
    match take_any_unit(cursor) {
        Ok(AnyUnit::Five(_)) => Ok(None),
        Ok(AnyUnit::Older(unit)) => zero_row(alloc, &unit, address_size),
        // A unit comes next.
        Err(_) => unreachable!(),
    }
}

// The first row of the unit that names file 0, if the unit lists files.
fn zero_row(
    alloc: Global,
    unit: &OlderUnit<'_>,
    address_size: u8,
) -> Result<Option<u64>, AllocError>
    requires size { IsAddressSize address_size }
    requires unit { IsOlderUnit unit.now }
    ensures { IfOk result (λ found. IsFirstOfUnit unit.now address_size found) }
{
    if unit.header.files.count == 0 {
        return Ok(None);
    }
    let numbers = header_numbers(alloc, unit, address_size)?;
    Ok(first_zero_row(&numbers, unit.program))
}

// The numbers by which the program of the unit is read and run.
#[tactic(auto, using(crate::proofs::FileZeroLemmas::numbers_sound))]
fn header_numbers(
    alloc: Global,
    unit: &OlderUnit<'_>,
    address_size: u8,
) -> Result<HeaderNumbers, AllocError>
    requires size { IsAddressSize address_size }
    requires unit { IsOlderUnit unit.now }
    ensures { IfOk result (λ numbers. numbers ≡ numbers_of unit.now address_size) }
{
    let header = &unit.header;
    let lengths = copied(alloc, header.standard_lengths)?;
    let numbers = numbers_of(header.numbers, lengths, unit.order, address_size);
    Ok(HeaderNumbers::of(numbers))
}

// The first row of a program that is no end row and names file 0.
#[tactic(auto, using(crate::proofs::ZeroRowLemmas::first_zero_lemmas))]
fn first_zero_row(numbers: &HeaderNumbers, program: &[u8]) -> Option<u64>
    ensures { IsFirstOfProgram numbers.now program.now result }
{
    let mut index: u64 = 0;
    let mut rows = Rows::new(numbers, Ops::new(numbers, program, 0));
    while let Some(row) = rows.next() {
        let Ok(row) = row else {
            return None;
        };
        if row.file == 0 && !row.end_sequence {
            return Some(index);
        }
        index += 1;
    }
    None
}
