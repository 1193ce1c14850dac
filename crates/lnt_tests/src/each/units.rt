//! Each unit as it is, and in both formats and both orders.
use crate::samples::{WORKED, Worked};
use crate::unit::worked::{is_written, unit_of};
use lnt_machine::{Sequence, matrix};
use lnt_unit::{decode_header, decode_section, encode_header, encode_unit};
use lnt_wire::{Cursor, Format, Order, take_frame};
use std::alloc::Global;

/// Both formats in both orders.
pub(crate) const LAYOUTS: [(Format, Order); 4] = [
    (Format::D32, Order::Little),
    (Format::D32, Order::Big),
    (Format::D64, Order::Little),
    (Format::D64, Order::Big),
];

/// The bytes of the unit in another layout.
pub(crate) fn written_in(
    alloc: Global,
    worked: Worked,
    layout: (Format, Order),
) -> Option<Vec<u8>> {
    let unit = unit_of(alloc, worked.bytes, worked.order)?;
    encode_unit(alloc, &unit.with_format(layout.0, layout.1)).ok()
}

// Whether the header and the program that begin the bytes are written as these bytes.
fn is_header_written(alloc: Global, bytes: &[u8], order: Order) -> bool {
    let mut cursor = Cursor::new(bytes, 0, order);
    let Ok(frame) = take_frame(&mut cursor) else {
        return false;
    };
    let Ok((header, program)) = decode_header(alloc, &frame, order) else {
        return false;
    };
    encode_header(alloc, &header, program).is_ok_and(|written| written.as_slice() == bytes)
}

// How many sequences there are, and how many rows in all of them.
fn count_of(sequences: &[Sequence]) -> (usize, usize) {
    let mut rows: usize = 0;
    for sequence in sequences {
        rows = rows.saturating_add(sequence.rows.as_slice().len());
    }
    (sequences.len(), rows)
}

// Whether the unit that begins the bytes has this many sequences and rows, or doesn't run.
fn has_rows(alloc: Global, bytes: &[u8], order: Order, rows: Option<(usize, usize)>) -> bool {
    let Some(unit) = unit_of(alloc, bytes, order) else {
        return false;
    };
    match matrix(alloc, &unit) {
        Ok(sequences) => rows == Some(count_of(&sequences)),
        Err(_) => rows.is_none(),
    }
}

// Whether the bytes are a section of one unit.
fn is_section(alloc: Global, bytes: &[u8], order: Order) -> bool {
    decode_section(alloc, bytes, order).is_ok_and(|units| units.len() == 1)
}

// Whether each call answers for the unit in this layout.
fn is_same_in(alloc: Global, worked: Worked, layout: (Format, Order)) -> bool {
    let order = layout.1;
    let Some(bytes) = written_in(alloc, worked, layout) else {
        return false;
    };
    is_written(alloc, &bytes, order)
        && is_header_written(alloc, &bytes, order)
        && has_rows(alloc, &bytes, order, worked.rows)
        && is_section(alloc, &bytes, order)
}

// Whether this holds in each layout.
fn is_same_in_each(alloc: Global, worked: Worked) -> bool {
    LAYOUTS
        .iter()
        .all(|layout| is_same_in(alloc, worked, *layout))
}

#[test]
fn each_unit_in_each_layout(rt: HostRuntime) {
    let alloc = rt.alloc();
    assert!(rt; WORKED.iter().all(|worked| is_same_in_each(alloc, *worked)));
}
