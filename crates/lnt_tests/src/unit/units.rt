use crate::samples::{PLAIN, Pieces, WIDE};
use crate::unit::worked::{is_written, joined};
use lnt_io::Counted;
use lnt_unit::{SectionReader, Unit, UnitBuffer, UnitView, convert_section, decode_section};
use lnt_wire::{Format, Order};
use std::alloc::Global;

// Whether the units are two of five operations, the second at offset 71.
fn are_two(units: &[(u64, Unit)]) -> bool {
    match units {
        [(first, unit), (second, other)] => {
            (*first, *second) == (0, 71) && unit.ops().len() == 5 && other.ops().len() == 5
        }
        _ => false,
    }
}

// Whether these bytes, written twice, are read as two units.
fn are_units(alloc: Global, bytes: &[u8]) -> bool {
    let Some(twice) = joined(alloc, bytes, bytes) else {
        return false;
    };
    decode_section(alloc, &twice, Order::Little).is_ok_and(|units| are_two(&units))
}

// Whether the big-endian section is converted to these bytes.
fn is_converted(alloc: Global, bytes: &[u8], want: &[u8]) -> bool {
    convert_section(alloc, bytes, Order::Big, Format::D32, Order::Little).is_ok_and(
        |converted| converted.as_slice() == want,
    )
}

// The number of operations of the unit in the buffer, if it is one.
fn count_of(alloc: Global, unit: &UnitBuffer) -> Option<u64> {
    let view = UnitView::over(alloc, unit).ok()?;
    view.operation_count().ok()
}

fn is_viewed(alloc: Global, bytes: &[u8]) -> bool {
    let mut source = Counted::new(Pieces::new(alloc, bytes, 100, u64::MAX), 71);
    let mut reader = SectionReader::new(&mut source, Order::Little);
    matches!(reader.next_unit(alloc), Ok(Some(unit)) if count_of(alloc, &unit) == Some(5))
}

#[test]
fn units_and_sections(rt: HostRuntime) {
    let alloc = rt.alloc();
    assert!(rt; are_units(alloc, &PLAIN));
    assert!(rt; is_written(alloc, &PLAIN, Order::Little));
    assert!(rt; is_converted(alloc, &WIDE, &PLAIN));
    assert!(rt; is_viewed(alloc, &PLAIN));
}
