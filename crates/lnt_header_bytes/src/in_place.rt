//! Headers whose entries are read in place, from the bytes of their units.
ghost use Rattle.std.specs.Prelude.{◌≡◌, ◌≢◌, ◌+◌, ◌^◌, ◌<◌, length, IfOk, IfErr};
ghost use Rattle.lnt_wire.specs.FrameBytes.{frame_bytes, IsPlacedFrame};
ghost use Rattle.lnt_wire.specs.Reading.{RefusesOr};
ghost use Rattle.lnt_header_bytes.specs.Stepping.{AreFieldsRead};
ghost use Rattle.lnt_header_bytes.specs.Broken.{BrokenHeader};
ghost use Rattle.lnt_header_bytes.specs.FieldsBytes.{FieldsBytes};
ghost use Rattle.lnt_header_bytes.specs.HeaderFaults.{IsHeaderFault};
ghost use Rattle.lnt_header_bytes.specs.HeaderBytes.{HeaderBytesIn};
ghost use Rattle.lnt_header_bytes.specs.HeaderReading.{HasFields, standing};
ghost use Rattle.lnt_header.specs.HeaderRules.{IsAddressSize, IsHeader};

use crate::decode::after_version;
use crate::header_view::HeaderView;
use crate::marks::Marks;
use crate::numbers::{Singles, numbers_of, read_lengths, read_singles};
use crate::read_table::{EntriesInPlace, EntryTableRead, read_table};
use crate::start::read_start;
use lnt_header::{HeaderNumbers, Pair};
use lnt_wire::{Cursor, Fault, Format, Frame, Items, Order, Reason, copied};
use std::alloc::Global;
use std::marker::Model;

/// What a header has besides its entries and its last bytes.
#[derive(Drop)]
pub(crate) struct NumbersAndFormats {
    pub format: Format,
    pub numbers: HeaderNumbers,
    pub directory_format: Items<Pair>,
    pub file_format: Items<Pair>,
}

/// A header whose directories and files are read in place: it borrows the bytes that it was read from, and allocates
/// nothing for them.
///
/// Contracts see the parts of the whole header, as those of `Header` do.
#[derive(Drop)]
pub struct HeaderInPlace<'a> {
    pub(crate) plain: NumbersAndFormats,
    pub(crate) directories: EntriesInPlace<'a>,
    pub(crate) files: EntriesInPlace<'a>,
    pub(crate) extra: &'a [u8],
}

impl<'a> Model for HeaderInPlace<'a> {
    ghost use Rattle.lnt_header.specs.Parts.{HeaderParts};
    ghost use Rattle.lnt_header_bytes.specs.Borrowed.{header_over, IsHeaderOver};

    ghost Value = { HeaderParts };

    ghost view = { λ h. header_over h.plain h.directories.count h.directories.bytes.now h.files.count h.files.bytes.now h.extra.now };

    ghost invariant = { λ h. IsHeaderOver h.plain h.directories.count h.directories.bytes.now h.files.count h.files.bytes.now
        h.extra.now };
}

impl<'a> HeaderInPlace<'a> {
    /// A view of the header, whose entries are read in place, without marks. Allocates nothing.
    pub fn view(&self) -> HeaderView<'_>
        ensures { result ≡ self.now }
    {
        HeaderView::over(
            &self.plain,
            self.directories,
            self.files,
            self.extra,
            Marks::none(),
        )
    }

    /// The numbers of the header.
    pub fn numbers(&self) -> &HeaderNumbers
        ensures numbers { result.now ≡ self.now.numbers }
        ensures header { IsHeader self.now }
    {
        &self.plain.numbers
    }
}

/// The header of a frame, whose entries are read in place, and the bytes of its program (DWARF 5, section 6.2.4).
///
/// Fails with `Memory`, and otherwise only if the frame's bytes aren't a header with a program. The fault is that of the
/// first field that is truncated or has an invalid value, and its place is the field's first byte; if the fields of one
/// byte end too early, it is their end. Allocates memory only for the formats of the entries and the standard opcode
/// lengths. The caller passes a frame from `take_frame`, and the order in which that was read.
#[tactic(auto, using(crate::proofs::HeaderFrames::view_header_lemmas))]
pub fn view_header<'a>(
    alloc: Global,
    frame: &Frame<'a>,
    order: Order,
) -> Result<(HeaderInPlace<'a>, &'a [u8]), Fault>
    requires { IsPlacedFrame order frame.now }
    ensures ok { IfOk result (λ found. HeaderBytesIn order (found.0, found.1.now) (frame_bytes order frame.now.format frame.now.body.now)) }
    ensures err { IfErr result (λ fault. fault.reason ≢ Reason.Memory
        → BrokenHeader order fault frame.now.offset (frame_bytes order frame.now.format frame.now.body.now)) }
{
    let mut cursor = after_version(frame, order);
    let start = read_start(&mut cursor, frame.format)?;
    let place = cursor.place() - start.header.len() as u64;
    let header = view_parts(
        alloc,
        start.header,
        place,
        order,
        frame.format,
        start.address_size,
    )?;
    Ok((header, cursor.rest()))
}

// A header, from the bytes that header_length counts, which are at the place.
fn view_parts<'a>(
    alloc: Global,
    header: &'a [u8],
    place: u64,
    order: Order,
    format: Format,
    address_size: u8,
) -> Result<HeaderInPlace<'a>, Fault>
    requires size { IsAddressSize address_size }
    requires room { place + length header.now < 2 ^ 64 }
    ensures ok { IfOk result (λ h. HasFields format order address_size header.entry.now h) }
    ensures err { IfErr result (λ fault. RefusesOr (IsHeaderFault format order) (FieldsBytes format order)
        (standing place header.entry.now order) fault) }
{
    let mut cursor = Cursor::new(header, place, order);
    let FieldsRead {
        singles,
        lengths,
        directories,
        files,
    } = read_fields(alloc, &mut cursor, format)?;
    let lengths = copied(alloc, lengths)?;
    let numbers = numbers_of(singles, lengths, order, address_size);
    Ok(HeaderInPlace {
        plain: NumbersAndFormats {
            format,
            numbers: HeaderNumbers::of(numbers),
            directory_format: Items::new(directories.pairs),
            file_format: Items::new(files.pairs),
        },
        directories: directories.entries,
        files: files.entries,
        extra: cursor.rest(),
    })
}

// The parts of a header that are read before its last bytes.
#[derive(Drop)]
struct FieldsRead<'a> {
    singles: Singles,
    lengths: &'a [u8],
    directories: EntryTableRead<'a>,
    files: EntryTableRead<'a>,
}

// The fields up to the file table.
#[tactic(auto, using(crate::proofs::HeaderReaders::read_fields_lemmas, crate::proofs::ViewLemmas::fields_read))]
fn read_fields<'a>(
    alloc: Global,
    cursor: &mut Cursor<'a>,
    format: Format,
) -> Result<FieldsRead<'a>, Fault>
    ensures ok { IfOk result (λ f. AreFieldsRead format f.singles f.lengths.now f.directories f.files cursor.old cursor.new) }
    ensures err { IfErr result (λ fault. RefusesOr (IsHeaderFault format cursor.old.order) (FieldsBytes format cursor.old.order) cursor.old
        fault) }
{
    let singles = read_singles(cursor, true)?;
    let lengths = read_lengths(cursor, singles.opcode_base)?;
    let directories = read_table(alloc, cursor, format)?;
    let files = read_table(alloc, cursor, format)?;
    Ok(FieldsRead {
        singles,
        lengths,
        directories,
        files,
    })
}
