//! Sections checked against tables that answer at a part of the positions.
use crate::samples::{COPY, PLAIN, TABLE, whole};
use crate::tables::lines::{OPTIONS, STRINGS};
use lnt_io::Counted;
use lnt_table::CheckedWithin::{Checked, Covered};
use lnt_table::OfKind::{ByPath, Numbered};
use lnt_table::TableNo::Differs;
use lnt_table::Verdict::{No, Yes};
use lnt_table::{CheckedWithin, Compared, Coverage, Scope, check_any_copy, check_within};
use std::alloc::Global;

const NUMBERED: &[u8] = b"low,low_op,high,high_op,unit,file,line,column,is_stmt
";

const LATE: &[u8] = b"low,low_op,high,high_op,unit,file,line,column,is_stmt
0x1005,0,0x1006,0,0,1,4,0,1
";

const MISTAKEN: &[u8] = b"low,low_op,high,high_op,unit,file,line,column,is_stmt
0x1002,0,0x1003,0,0,1,3,0,1
0x1005,0,0x1006,0,0,1,5,0,1
";

// It reaches over the end of the sequence.
const LONG: &[u8] = b"low,low_op,high,high_op,unit,file,line,column,is_stmt
0x1005,0,0x1007,0,0,1,4,0,1
";

const PATHS: &[u8] = b"low,high,path,line
0x1001,0x1003,/s/a.c,3
";

const OTHER: &[u8] = b"low,high,path,line
0x1001,0x1003,/s/a.c,3
0x1004,0x1006,/s/a.C,4
";

// A line of each of two copies.
const MIXED: &[u8] = b"low,low_op,high,high_op,unit,file,line,column,is_stmt
0x1000,0,0x1004,0,71,1,5,0,1
0x1004,0,0x1006,0,0,1,4,0,1
";

const MIXED_PATHS: &[u8] = b"low,high,path,line
0x1000,0x1004,/s/a.c,3
0x1004,0x1006,/s/a.c,7
";

fn checked(alloc: Global, table: &[u8], scope: Scope) -> Option<CheckedWithin> {
    let mut section = Counted::new(whole(&PLAIN), 1000);
    let mut table = Counted::new(whole(table), 1000);
    check_within(alloc, &mut section, &STRINGS, &mut table, &OPTIONS, scope).ok()
}

// The same of two copies, each of which counts.
fn checked_of_copies(alloc: Global, table: &[u8]) -> Option<CheckedWithin> {
    let mut both = Vec::from_slice(alloc, &PLAIN).ok()?;
    both.extend_from_slice(&COPY).ok()?;
    let mut section = Counted::new(whole(&both), 1000);
    let mut table = Counted::new(whole(table), 1000);
    check_any_copy(
        alloc,
        &mut section,
        &STRINGS,
        &mut table,
        &OPTIONS,
        Scope::All,
    )
    .ok()
}

// Whether the table is right wherever it answers, which is at so many of the section's six addresses.
fn covers(alloc: Global, table: &[u8], answered: u128) -> bool {
    let whole = Coverage { answered, all: 6 };
    matches!(checked(alloc, table, Scope::Answered), Some(Covered(coverage)) if coverage == whole)
}

// Whether this is the address of the table's first mistake, by number or by path.
fn is_mistaken_at(alloc: Global, table: &[u8], address: u64) -> bool {
    match checked(alloc, table, Scope::Answered) {
        Some(
            Checked(
                Numbered(
                    No(
                        Differs {
                            position,
                            by_table,
                            ..
                        },
                    ),
                ),
            ),
        ) => { position.address == address && by_table.is_some() }
        Some(Checked(ByPath(Compared::Differs(mistake)))) => {
            mistake.position.address == address && mistake.by_table.is_some()
        }
        _ => false,
    }
}

#[test]
fn tables_right_where_they_answer(rt: HostRuntime) {
    let alloc = rt.alloc();
    assert!(rt; covers(alloc, TABLE, 6));
    assert!(rt; covers(alloc, NUMBERED, 0));
    assert!(rt; covers(alloc, LATE, 1));
    assert!(rt; covers(alloc, PATHS, 2));
}

#[test]
fn tables_wrong_where_they_answer(rt: HostRuntime) {
    let alloc = rt.alloc();
    assert!(rt; is_mistaken_at(alloc, MISTAKEN, 0x1005));
    assert!(rt; is_mistaken_at(alloc, LONG, 0x1006));
    assert!(rt; is_mistaken_at(alloc, OTHER, 0x1004));
}

#[test]
fn tables_checked_at_all_positions(rt: HostRuntime) {
    let alloc = rt.alloc();
    let same = checked(alloc, TABLE, Scope::All);
    assert!(rt; matches!(same, Some(Checked(Numbered(Yes)))));
    let late = checked(alloc, LATE, Scope::All);
    assert!(rt; matches!(late, Some(Checked(Numbered(No(Differs { .. }))))));
    let paths = checked(alloc, PATHS, Scope::All);
    assert!(rt; matches!(paths, Some(Checked(ByPath(Compared::Differs(_))))));
    let no_table = checked(alloc, b"low\n", Scope::Answered);
    assert!(rt; matches!(no_table, Some(Checked(ByPath(Compared::Fault(_))))));
}

#[test]
fn tables_of_copies(rt: HostRuntime) {
    let alloc = rt.alloc();
    let mixed = checked_of_copies(alloc, MIXED);
    assert!(rt; matches!(mixed, Some(Checked(Numbered(Yes)))));
    let paths = checked_of_copies(alloc, MIXED_PATHS);
    assert!(rt; matches!(paths, Some(Checked(ByPath(Compared::Same)))));
    let late = checked_of_copies(alloc, LATE);
    assert!(rt; matches!(late, Some(Checked(Numbered(No(Differs { .. }))))));
}
