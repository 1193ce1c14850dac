use crate::samples::{BELOW_ZERO, OPEN, PLAIN};
use crate::unit::worked::unit_of;
use lnt_machine::{Row, RunFault, Sequence, matrix};
use lnt_unit::Unit;
use lnt_wire::Order;
use std::alloc::Global;

fn is_row(row: &Row, address: u64, line: u64, end_sequence: bool) -> bool {
    row.address == address && row.line == line && row.end_sequence == end_sequence
}

// Whether the sequences are one, that of `PLAIN`.
fn are_plain(sequences: &[Sequence]) -> bool {
    let [sequence] = sequences else {
        return false;
    };
    match sequence.rows.as_slice() {
        [first, second, end] => {
            is_row(first, 0x1000, 3, false)
                && is_row(second, 0x1004, 4, false)
                && is_row(end, 0x1006, 4, true)
        }
        _ => false,
    }
}

// Whether the unit's rows are those of `PLAIN`.
fn has_plain_matrix(alloc: Global, unit: &Unit) -> bool {
    matrix(alloc, unit).is_ok_and(|sequences| are_plain(&sequences))
}

fn is_run(alloc: Global, bytes: &[u8]) -> bool {
    unit_of(alloc, bytes, Order::Little).is_some_and(|unit| has_plain_matrix(alloc, &unit))
}

// Why the unit's program doesn't run.
fn fault_of(alloc: Global, bytes: &[u8]) -> Option<RunFault> {
    let unit = unit_of(alloc, bytes, Order::Little)?;
    matrix(alloc, &unit).err()
}

#[test]
fn matrices_and_faults(rt: HostRuntime) {
    let alloc = rt.alloc();
    assert!(rt; is_run(alloc, &PLAIN));
    assert!(rt; fault_of(alloc, &OPEN) == Some(RunFault::OpenSequence));
    assert!(rt; fault_of(alloc, &BELOW_ZERO) == Some(RunFault::LineOutOfRange(1)));
}
