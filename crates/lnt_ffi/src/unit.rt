//! The units of a section, and the paths of their files.
ghost use Rattle.std.specs.Prelude.{◌≡◌, length, map};
ghost use Rattle.lnt_ffi.specs.Returns.{ReturnsPath, ReturnsUnits, unit_in, with_prefix};

use crate::judging::index_of;
use crate::room::put_bytes;
use crate::section::FlatSection;
use crate::verdict::{FlatVerdict, verdict_of_stop};
use lnt_io::Stop;
use lnt_lines::Index;
use std::alloc::Global;

/// A unit: `struct linetab_unit`.
#[repr(C)]
#[derive(Clone, Copy)]
pub struct FlatUnit {
    /// Its offset in the section.
    pub offset: u64,
    /// How many files it lists. They count from 0.
    pub files: u64,
}

/// Writes the units of a good section to the beginning of `units` if there is room for all of them, in their order.
///
/// It answers how many there are. Where they are more than there is room for, nothing is put there, and the caller may
/// ask again with more room. Where the section isn't good, or memory ran out, it answers 0, and `verdict` says why; else
/// that is yes.
#[unsafe(no_mangle)]
pub extern "C" fn linetab_units(
    alloc: Global,
    section: &FlatSection<'_>,
    units: &mut [FlatUnit],
    verdict: &mut FlatVerdict,
) -> usize
    ensures length { length units.new ≡ length units.old }
    ensures returned { ReturnsUnits section.now result units.old units.new verdict.new }
{
    match index_of(alloc, section, verdict) {
        Some(index) => put_units(&index, units),
        None => 0,
    }
}

// Writes the units to the beginning of the room if there is room for all of them, and returns how many they are.
#[tactic(auto, using(crate::proofs::RoomLemmas::filled, crate::proofs::RoomLemmas::behind_set))]
fn put_units(index: &Index<'_>, room: &mut [FlatUnit]) -> usize
    ensures count { result ≡ length index.now.units }
    ensures length { length room.new ≡ length room.old }
    ensures there { room.new ≡ with_prefix (map (unit_in index.now) index.now.units) room.old }
{
    let offsets = index.units();
    let count = offsets.len();
    if count <= room.len() {
        let mut i = 0;
        while i < count {
            let offset = offsets[i];
            room[i] = FlatUnit {
                offset,
                files: index.file_count(offset),
            };
            i += 1;
        }
    }
    count
}

/// Whether the unit at this offset of a good section has this file. If so, the file's full path is written to the
/// beginning of `path` if there is room for all of it, and `count` is how many bytes the path has; else that is 0.
///
/// If they are more than there is room for, nothing is written, and the caller may ask again with more room. If the section
/// isn't good, or memory ran out, the file isn't there, and `verdict` says why; else that is yes. The section is judged by
/// each call, so a caller keeps the paths that it was given.
#[unsafe(no_mangle)]
pub extern "C" fn linetab_path(
    alloc: Global,
    section: &FlatSection<'_>,
    unit: u64,
    file: u64,
    path: &mut [u8],
    count: &mut usize,
    verdict: &mut FlatVerdict,
) -> bool
    ensures room { length path.new ≡ length path.old }
    ensures returned { ReturnsPath section.now unit file result count.new path.old path.new verdict.new }
{
    *count = 0;
    let found = match index_of(alloc, section, verdict) {
        Some(index) => index.path_of(alloc, unit, file),
        None => return false,
    };
    match found {
        Ok(Some(whole)) => {
            *count = put_bytes(&whole, path);
            true
        }
        Ok(None) => false,
        Err(_) => {
            *verdict = verdict_of_stop(Stop::Memory);
            false
        }
    }
}
