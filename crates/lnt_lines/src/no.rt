//! Why a section isn't good.
ghost use Rattle.std.specs.Prelude.{Some};
ghost use Rattle.lnt_lines.specs.FaultTexts.{no_text};

use lnt_files::EntryTableText;
use lnt_header::EntryTable;
use lnt_machine::{RunFault, RunLine};
use lnt_sequences::{Overlap, SeqId};
use lnt_spans::Position;
use lnt_text::MalformedLine;
use lnt_wire::Fault;
use std::fmt;

/// Why a section isn't good. Each reason has a number, from 25 to 32.
///
/// The first one is reported. Units are judged in order, each in the order of these numbers, and `Overlap` is judged after
/// the last one. A unit is named by its offset in the section. Rows count from 0 over all rows of the unit, end rows too;
/// entries and files count from 0.
#[derive(Clone, Copy, Debug, PartialEq, Eq)]
pub enum No {
    /// 25: the bytes after the last valid unit don't begin with a unit, for this fault (DWARF 5, section 6.2.4).
    Malformed(Fault),
    /// 26: the program of the unit at this offset doesn't run, for this fault, which isn't `Memory` (section 6.2.5).
    Run(u64, RunFault),
    /// 27: in the unit at this offset, this table has entries, and its format has no path, or has a path, a directory
    /// number or an MD5 sum in a form that isn't allowed for it (section 6.2.4.1).
    EntryFormat(u64, EntryTable),
    /// 28: in the unit at this offset, this entry of this table is the first whose path has no text: its offset lies outside of
    /// the string section, or no zero byte follows there (section 7.5.5).
    StringOutside(u64, EntryTable, u64),
    /// 29: in the unit at this offset, this file is the first whose directory doesn't exist.
    DirectoryNumber(u64, u64),
    /// 30: the first row of a live sequence that names a file that isn't listed. End rows name none. The fields are the
    /// offset of the row's unit in the section, the row's index in the unit, and the file that the row names.
    FileNumber(u64, u64, u64),
    /// 31: the first row whose position is below that of the row before it in the same live sequence. The fields are the
    /// offset of the row's unit in the section, and the row's index in the unit.
    Falls(u64, u64),
    /// 32: the first two kept sequences, by their first positions and then by their places in the section, that hold the
    /// same position. No lower position is held by two. The kept sequences are the live ones, without the copies if these
    /// are skipped.
    Overlap {
        /// The one that comes first.
        first: SeqId,
        /// The other one.
        second: SeqId,
        /// The least position that both hold.
        position: Position,
    },
}

/// The line that reports it, without its line feed.
impl fmt::Display for No {
    ghost output = { λ no. Some (no_text no) };

    fn fmt<W: fmt::Write>(&self, f: &mut fmt::Formatter<W>) -> fmt::Result {
        match *self {
            No::Malformed(fault) => write!(f, "{}", MalformedLine(fault)),
            No::Run(unit, fault) => write!(f, "{}", RunLine(unit, fault)),
            No::EntryFormat(unit, which) => {
                write!(
                    f,
                    "no 27 entry format unit 0x{unit:x} {}",
                    EntryTableText(which)
                )
            }
            No::StringOutside(unit, which, entry) => write!(
                f,
                "no 28 string outside unit 0x{unit:x} {} entry {entry}",
                EntryTableText(which)
            ),
            No::DirectoryNumber(unit, file) => {
                write!(f, "no 29 directory number unit 0x{unit:x} file {file}")
            }
            No::FileNumber(unit, row, file) => {
                write!(f, "no 30 file number unit 0x{unit:x} row {row} file {file}")
            }
            No::Falls(unit, row) => write!(f, "no 31 falls unit 0x{unit:x} row {row}"),
            No::Overlap {
                first,
                second,
                position,
            } => {
                let overlap = Overlap {
                    first,
                    second,
                    position,
                };
                write!(f, "no 32 {overlap}")
            }
        }
    }
}
