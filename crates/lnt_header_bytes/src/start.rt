//! The fields of a header after its version, up to header_length.
ghost use Rattle.std.specs.Prelude.{IfOk, IfErr};
ghost use Rattle.lnt_wire.specs.Reading.{Reads, RefusesField, Refuses};
ghost use Rattle.lnt_header_bytes.specs.HeaderBytes.{AddressSizeBytes, SelectorBytes, CountedBytes, StartBytes};
ghost use Rattle.lnt_header_bytes.specs.HeaderFaults.{IsAddressSizeFault, IsSelectorFault, IsCountedFault, IsStartFault};

use lnt_header::is_address_size;
use lnt_wire::{Cursor, Fault, Format, Reason};

/// The address size, the segment selector size, which is 0, and the bytes that `header_length` counts.
#[derive(Clone, Copy)]
pub(crate) struct Start<'a> {
    pub address_size: u8,
    pub selector_size: u8,
    pub header: &'a [u8],
}

/// Reads the address size, which is 2, 4 or 8, the segment selector size, which is 0, and the bytes that header_length counts.
#[tactic(auto, using(crate::proofs::StartReaders::read_start_lemmas))]
pub(crate) fn read_start<'a>(cursor: &mut Cursor<'a>, format: Format) -> Result<Start<'a>, Fault>
    ensures ok { IfOk result (λ s. Reads (StartBytes format cursor.old.order) (s.address_size, (s.selector_size, s.header.now)) cursor.old
        cursor.new) }
    ensures err { IfErr result (λ fault. Refuses (IsStartFault format cursor.old.order) (StartBytes format cursor.old.order) cursor.old
        fault) }
{
    let address_size = read_address_size(cursor)?;
    let selector_size = read_selector_size(cursor)?;
    let header = read_counted(cursor, format)?;
    Ok(Start {
        address_size,
        selector_size,
        header,
    })
}

// Reads the size of an address: 2, 4 or 8.
#[tactic(auto, using(crate::proofs::StartReaders::read_address_size_lemmas))]
fn read_address_size(cursor: &mut Cursor<'_>) -> Result<u8, Fault>
    ensures ok { IfOk result (λ size. Reads AddressSizeBytes size cursor.old cursor.new) }
    ensures err { IfErr result (λ fault. RefusesField IsAddressSizeFault AddressSizeBytes cursor.old fault) }
{
    let place = cursor.place();
    let size = cursor.u8()?;
    if is_address_size(size) {
        Ok(size)
    } else {
        Err(Fault {
            place,
            reason: Reason::AddressSize(size),
        })
    }
}

// The size of a segment selector, which is 0.
#[tactic(auto, using(crate::proofs::StartReaders::read_selector_size_lemmas))]
fn read_selector_size(cursor: &mut Cursor<'_>) -> Result<u8, Fault>
    ensures ok { IfOk result (λ size. Reads SelectorBytes size cursor.old cursor.new) }
    ensures err { IfErr result (λ fault. RefusesField IsSelectorFault SelectorBytes cursor.old fault) }
{
    let place = cursor.place();
    let size = cursor.u8()?;
    if size == 0 {
        Ok(size)
    } else {
        Err(Fault {
            place,
            reason: Reason::SegmentSelector(size),
        })
    }
}

/// Reads `header_length`, and the bytes that it counts, which are borrowed (DWARF 5, section 6.2.4). Fails at the number if it
/// isn't there whole, and with `HeaderLength` if fewer bytes follow than it says.
#[tactic(auto, using(crate::proofs::StartReaders::read_counted_lemmas))]
pub fn read_counted<'a>(cursor: &mut Cursor<'a>, format: Format) -> Result<&'a [u8], Fault>
    ensures ok { IfOk result (λ counted. Reads (CountedBytes format cursor.old.order) counted.now cursor.old cursor.new) }
    ensures err { IfErr result (λ fault. RefusesField (IsCountedFault format cursor.old.order) (CountedBytes format cursor.old.order)
        cursor.old fault) }
{
    let place = cursor.place();
    let length = cursor.offset(format)?;
    let Ok(counted) = cursor.take(length as usize) else {
        return Err(Fault {
            place,
            reason: Reason::HeaderLength,
        });
    };
    Ok(counted)
}
