//! Sections checked against tables by path.
use crate::samples::{PLAIN, TABLE, whole};
use crate::tables::lines::{OPTIONS, STRINGS};
use lnt_compare::TableRead;
use lnt_io::Counted;
use lnt_lines::{JudgedIndex, index_section};
use lnt_records::TableFault;
use lnt_table::{Compared, DifferenceByPath, OfKind, Verdict, check_any, differences_any};
use std::alloc::Global;

const COLUMNS: &[u8] = b"low,high,path,line,column
0x1000,0x1004,/s/a.c,3,0
0x1004,0x1006,/s/a.c,4,0
";

// The same spans in pieces, written otherwise, without columns.
const LINES: &[u8] = b"low,high,\"path\",line
0x1000,0x1003,\"/s/a.c\",3
0X1003,0x1004,/s/a.c,3
";

const PIECES: &[u8] = b"low,high,\"path\",line\r
0x1000,0x1003,\"/s/a.c\",03\r
0x1003,0x1004,/s/a.c,3\r
0x1004,0x1006,/s/a.c,4";

const OTHER: &[u8] = b"low,high,path,line
0x1000,0x1004,/s/a.c,3
0x1004,0x1006,/s/a.C,4
";

const SHORT: &[u8] = b"low,high,path,line
0x1000,0x1004,/s/a.c,3
";

const FALLING: &[u8] = b"low,high,path,line
0x1000,0x1004,/s/a.c,3
0x1003,0x1006,/s/a.c,4
";

// What a check of the unit against a table reports by path.
fn compared(alloc: Global, table: &[u8]) -> Option<Compared<DifferenceByPath>> {
    let mut section = Counted::new(whole(&PLAIN), 1000);
    let mut table = Counted::new(whole(table), 1000);
    match check_any(alloc, &mut section, &STRINGS, &mut table, &OPTIONS) {
        Ok(OfKind::ByPath(compared)) => Some(compared),
        _ => None,
    }
}

fn is_same(alloc: Global, table: &[u8]) -> bool {
    matches!(compared(alloc, table), Some(Compared::Same))
}

fn has_fault(alloc: Global, table: &[u8], fault: TableFault) -> bool {
    matches!(compared(alloc, table), Some(Compared::Fault(found)) if found == fault)
}

// Whether this is the least address at which they differ, and both answer there.
fn differs_at(alloc: Global, table: &[u8], address: u64, both: bool) -> bool {
    match compared(alloc, table) {
        Some(Compared::Differs(found)) => {
            found.position.address == address
                && found.by_section.is_some()
                && found.by_table.is_some() == both
        }
        _ => false,
    }
}

#[test]
fn tables_by_path_checked(rt: HostRuntime) {
    let alloc = rt.alloc();
    assert!(rt; is_same(alloc, COLUMNS));
    assert!(rt; is_same(alloc, PIECES));
    assert!(rt; differs_at(alloc, OTHER, 0x1004, true));
    assert!(rt; differs_at(alloc, SHORT, 0x1004, false));
    assert!(rt; has_fault(alloc, b"low,high,path\n", TableFault::Header));
    assert!(rt; has_fault(alloc, LINES, TableFault::Number(2, 0)));
    assert!(rt; has_fault(alloc, FALLING, TableFault::Order(2)));
}

// How many spans are held of a table by path that is to be compared with the unit at every position.
fn held_spans(alloc: Global, table: &[u8]) -> Option<usize> {
    let mut section = Counted::new(whole(&PLAIN), 1000);
    let mut table = Counted::new(whole(table), 1000);
    let Ok(JudgedIndex::Good(index)) = index_section(alloc, &mut section, &STRINGS, &OPTIONS) else {
        return None;
    };
    match differences_any(alloc, &mut table, &index) {
        Ok(OfKind::ByPath(TableRead::Table((_, spans)))) => Some(spans.len()),
        _ => None,
    }
}

#[test]
fn tables_by_path_held(rt: HostRuntime) {
    let alloc = rt.alloc();
    assert!(rt; held_spans(alloc, COLUMNS) == Some(2));
    assert!(rt; held_spans(alloc, PIECES) == Some(3));
    assert!(rt; held_spans(alloc, FALLING).is_none());
    assert!(rt; held_spans(alloc, TABLE).is_none());
}

#[test]
fn tables_by_number_checked(rt: HostRuntime) {
    let alloc = rt.alloc();
    let mut section = Counted::new(whole(&PLAIN), 1000);
    let mut table = Counted::new(whole(TABLE), 1000);
    let checked = check_any(alloc, &mut section, &STRINGS, &mut table, &OPTIONS);
    assert!(rt; matches!(checked, Ok(OfKind::Numbered(Verdict::Yes))));
}
