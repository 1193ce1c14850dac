//! Headers of older units, whose directories and files stay where they lie (DWARF 4, section 6.2.4).
ghost use Rattle.std.specs.Prelude.{◌+◌, ◌<◌, ◌^◌, length, IfErr, IfOk};
ghost use Rattle.lnt_wire.specs.Reading.{Refuses};
ghost use Rattle.lnt_header_bytes.specs.HeaderReading.{standing};
ghost use Rattle.lnt_older.specs.UnitReading.{ReadsParts};
ghost use Rattle.lnt_older.specs.OlderFields.{FieldsOf, IsFieldsFault, IsReadHeader};

use crate::lists::{DIRECTORY_PAIRS, FILE_PAIRS, pass_listed};
use crate::version::OlderVersion;
use lnt_header_bytes::{EntriesInPlace, Singles, read_lengths, read_singles};
use lnt_wire::{Cursor, Fault, Format, Order};

/// The header of an older unit, but for what stands before the bytes that `header_length` counts: its numbers, and where its lists
/// lie.
#[derive(Clone, Copy, Debug)]
pub struct OlderHeader<'a> {
    /// The numbers.
    pub numbers: Singles,
    /// `standard_opcode_lengths`: how many operands each opcode from 1 to `opcode_base` - 1 has.
    pub standard_lengths: &'a [u8],
    /// The directories, numbered from 1 on. Directory 0 isn't there.
    pub directories: EntriesInPlace<'a>,
    /// The files, numbered from 1 on.
    pub files: EntriesInPlace<'a>,
    /// The bytes between the files and the program.
    pub extra: &'a [u8],
}

/// The header that these bytes say, which `header_length` counts, and of which the first stands at the offset `place`. It takes
/// no memory.
///
/// It refuses only where they spell no header, with the fault of the first field that isn't there whole, or has a value that none
/// may have. Its place is the field's first byte; where the fields of one byte end too early, that is where they end.
#[tactic(auto, using(crate::proofs::HeaderLemmas::header_read))]
pub fn read_older_header<'a>(
    header: &'a [u8],
    place: u64,
    version: OlderVersion,
    format: Format,
    order: Order,
) -> Result<OlderHeader<'a>, Fault>
    requires { place + length header.now < 2 ^ 64 }
    ensures ok { IfOk result (λ o. IsReadHeader version format order header.entry.now o) }
    ensures err { IfErr result (λ fault. Refuses (IsFieldsFault version format order) (FieldsOf version format order)
        (standing place header.entry.now order) fault) }
{
    let mut cursor = Cursor::new(header, place, order);
    read_parts(&mut cursor, version, format)
}

// The fields up to the files, and what is left after them.
#[tactic(auto, using(crate::proofs::FieldLemmas::read_parts_lemmas, crate::proofs::HeaderLemmas::parts_read))]
fn read_parts<'a>(
    cursor: &mut Cursor<'a>,
    version: OlderVersion,
    format: Format,
) -> Result<OlderHeader<'a>, Fault>
    ensures ok { IfOk result (λ o. ReadsParts version format o cursor.old cursor.new) }
    ensures err { IfErr result (λ fault. Refuses (IsFieldsFault version format cursor.old.order)
        (FieldsOf version format cursor.old.order) cursor.old fault) }
{
    let numbers = read_singles(cursor, version.has_max_ops())?;
    let standard_lengths = read_lengths(cursor, numbers.opcode_base)?;
    let directories = pass_listed(cursor, format, &DIRECTORY_PAIRS)?;
    let files = pass_listed(cursor, format, &FILE_PAIRS)?;
    Ok(OlderHeader {
        numbers,
        standard_lengths,
        directories,
        files,
        extra: cursor.rest(),
    })
}
