//! Sections written anew, unit by unit (DWARF 2 to 5, section 6.2.4).
ghost use Rattle.std.specs.Prelude.{◌≡◌, ◌<◌, length, IfErr, IfOk, OnErr, OnOk, option_copied};
ghost use Rattle.lnt_header.specs.Joins.{AreRising};
ghost use Rattle.lnt_wire.specs.Bytes.{Extends};
ghost use Rattle.lnt_header.specs.HeaderRules.{IsAddressSize};
ghost use Rattle.lnt_older.specs.FileZero.{AllNameFiles};
ghost use Rattle.lnt_older.specs.Directories.{AreListedFor, IsListingFault, directory_at};
ghost use Rattle.lnt_older.specs.Sections.{HasOlder, AreListed, HasUnits, IsUpgradeFault};
ghost use Rattle.lnt_older.specs.Upgradable.{IsLargeNext, IsSizeFault, IsUnitFault, IsUnitNext, AddsAny, AreSoundDirectories, CanBeLeft};
ghost use Rattle.lnt_older.specs.Upgradable.{CanUpgrade};

use crate::directories::{Directory, directory_of, read_directories};
use crate::rows::judge_rows;
use crate::{AnyUnit, append_upgraded_unit, take_any_unit};
use lnt_wire::{Cursor, EncodeFault, Fault, Order};
use std::alloc::{AllocError, Global};

/// Why a section isn't written anew.
#[derive(Clone, Copy, Debug, PartialEq, Eq)]
pub enum UpgradeFault {
    /// 25: no units of versions 2 to 5 spell the section.
    Malformed(Fault),
    /// 44: this record of the file of directories is the first one that isn't so.
    Directories(u64),
    /// 20: the unit of version 5 for the unit at this offset of the section is longer than its format can say.
    TooLarge(u64),
    /// 30: in the older unit at this offset of the section, which lists files, the row with this index is the first that names file 0,
    /// which isn't listed. Rows count from 0 over all rows of the unit. End rows name no file.
    FileZero(u64, u64),
    /// 21: memory ran out. It says nothing of the section.
    Memory,
}

impl From<AllocError> for UpgradeFault {
    ghost use Rattle.lnt_older.specs.declared.section.UpgradeFault.TheVariants.{Memory};

    ghost from_gives = { λ _ fault. fault ≡ Memory };

    fn from(_error: AllocError) -> UpgradeFault {
        UpgradeFault::Memory
    }
}

/// Tests that each unit of the section `bytes`, whose byte order is `order`, can be written in version 5, and gives the directories
/// that `text` lists for its older units; none where there is no text. Addresses of older units have `address_size` bytes, 2, 4 or 8. It
/// takes the memory of the directories, of the largest new unit, and of 8 bytes for each older unit.
///
/// It refuses with `Malformed` where no units of versions 2 to 5 spell the section: of a unit of version 5 only its initial length and its
/// version are judged, and programs aren't. Then with `Directories` and the first record of the text that isn't so. Then with `TooLarge`
/// and the offset of the first unit that has no encoding in its format. Then with `FileZero` and the first row that names file 0 in an
/// older unit that lists files. Else only with `Memory`.
pub fn judge_upgrade(
    alloc: Global,
    bytes: &[u8],
    order: Order,
    address_size: u8,
    text: Option<&[u8]>,
) -> Result<Vec<Directory>, UpgradeFault>
    requires { IsAddressSize address_size }
    ensures sound { IfOk result (λ directories. AreSoundDirectories directories.items) }
    ensures can { IfOk result (λ directories. CanUpgrade order address_size directories.items bytes.now) }
    ensures files { OnOk result (AllNameFiles order address_size bytes.now) }
    ensures listed { IfOk result (λ directories. AreListed order bytes.now (option_copied text.entry) directories.items) }
    ensures err { IfErr result (IsUpgradeFault order address_size bytes.now (option_copied text.entry)) }
{
    let older = older_units(alloc, bytes, order)?;
    let directories = list_directories(alloc, text, &older)?;
    judge_sizes(alloc, bytes, order, address_size, &directories)?;
    judge_rows(alloc, bytes, order, address_size)?;
    Ok(directories)
}

// The offsets of the older units of a section.
fn older_units(alloc: Global, bytes: &[u8], order: Order) -> Result<Vec<u64>, UpgradeFault>
    ensures ok { IfOk result (λ older. HasOlder order bytes.now older.items × AreRising older.items) }
    ensures err { IfErr result (λ fault. IsUnitFault order bytes.now fault) }
{
    let mut older = Vec::new(alloc);
    let mut cursor = Cursor::new(bytes, 0, order);
    while !cursor.rest().is_empty() {
        let offset = cursor.place();
        match take_any_unit(&mut cursor) {
            Ok(AnyUnit::Five(_)) => {}
            Ok(AnyUnit::Older(_)) => {
                if older.push(offset).is_err() {
                    return Err(UpgradeFault::Memory);
                }
            }
            Err(fault) => return Err(UpgradeFault::Malformed(fault)),
        }
    }
    Ok(older)
}

// The directories that the text lists for the units at these offsets; none where there is no text.
#[tactic(auto, using(crate::proofs::DirectoryLemmas::sound_from, crate::proofs::DirectoryLemmas::sound_none))]
fn list_directories(
    alloc: Global,
    text: Option<&[u8]>,
    older: &[u64],
) -> Result<Vec<Directory>, UpgradeFault>
    requires { AreRising older.now }
    ensures sound { IfOk result (λ directories. AreSoundDirectories directories.items) }
    ensures ok { IfOk result (λ directories. AreListedFor older.now (option_copied text.entry) directories.items) }
    ensures err { IfErr result (IsListingFault older.now (option_copied text.entry)) }
{
    match text {
        Some(text) => read_directories(alloc, text, older),
        None => Ok(Vec::new(alloc)),
    }
}

// Tests that the unit of version 5 for each unit is no longer than its format can say.
#[tactic(auto, using(crate::proofs::SizeLemmas::judge_sizes_lemmas))]
fn judge_sizes(
    alloc: Global,
    bytes: &[u8],
    order: Order,
    address_size: u8,
    directories: &[Directory],
) -> Result<(), UpgradeFault>
    requires size { IsAddressSize address_size }
    requires sound { AreSoundDirectories directories.now }
    requires units { HasUnits order bytes.now }
    ensures ok { OnOk result (CanUpgrade order address_size directories.now bytes.now) }
    ensures err { IfErr result (λ fault. IsSizeFault order address_size directories.now bytes.now fault) }
{
    let mut room = Vec::new(alloc);
    let mut cursor = Cursor::new(bytes, 0, order);
    while !cursor.rest().is_empty() {
        let offset = cursor.place();
        room.clear();
        match append_unit(alloc, &mut cursor, address_size, directories, &mut room) {
            Ok(()) => {}
            Err(EncodeFault::TooLarge) => return Err(UpgradeFault::TooLarge(offset)),
            Err(EncodeFault::Memory) => return Err(UpgradeFault::Memory),
        }
    }
    Ok(())
}

// Adds the unit of version 5 for the unit at the cursor, and moves the cursor past that unit. A unit of version 5 is copied.
// The caller sees to it that a unit comes next.
//
// It refuses with `TooLarge` where the new unit is longer than its format can say, and else only with `Memory`. Then a part of
// it may be there.
fn append_unit(
    alloc: Global,
    cursor: &mut Cursor<'_>,
    address_size: u8,
    directories: &[Directory],
    out: &mut Vec<u8>,
) -> Result<(), EncodeFault>
    requires size { IsAddressSize address_size }
    requires sound { AreSoundDirectories directories.now }
    requires next { IsUnitNext cursor.old }
    ensures ok { OnOk result (AddsAny address_size directories.now cursor.old cursor.new out.old.items out.new.items) }
    ensures err { IfErr result (λ fault. fault ≡ EncodeFault.TooLarge
        → IsLargeNext address_size (directory_at directories.now cursor.old.place) cursor.old) }
    ensures extends { OnErr result (Extends out.old.items out.new.items) }
{
    let place = cursor.place();
    match take_any_unit(cursor) {
        Ok(AnyUnit::Five(bytes)) => {
            out.extend_from_slice(bytes)?;
            Ok(())
        }
        Ok(AnyUnit::Older(unit)) => {
            let directory = directory_of(directories, place);
            append_upgraded_unit(alloc, out, &unit, address_size, directory)
        }
        // A unit comes next.
        Err(_) => unreachable!(),
    }
}

/// Adds the unit of version 5 for the unit at the cursor, and moves the cursor past that unit, in a section of which each unit can be
/// written anew (`judge_upgrade`). The caller sees to it that some bytes are left. It fails only if memory runs out. Then a part of
/// the unit may be there.
#[tactic(auto, using(crate::proofs::WritingLaws::can_next, crate::proofs::WritingLaws::never_large))]
pub fn upgrade_next(
    alloc: Global,
    cursor: &mut Cursor<'_>,
    address_size: u8,
    directories: &[Directory],
    out: &mut Vec<u8>,
) -> Result<(), AllocError>
    requires size { IsAddressSize address_size }
    requires sound { AreSoundDirectories directories.now }
    requires left { CanBeLeft address_size directories.now cursor.old }
    requires some { 0 < length cursor.old.rest }
    ensures ok { OnOk result (AddsAny address_size directories.now cursor.old cursor.new out.old.items out.new.items) }
{
    match append_unit(alloc, cursor, address_size, directories, out) {
        Ok(()) => Ok(()),
        Err(EncodeFault::Memory) => Err(AllocError),
        // Each unit that is left can be written anew.
        Err(EncodeFault::TooLarge) => unreachable!(),
    }
}
