//! Sections checked against tables, and their tables written.
use crate::samples::{Narrow, PLAIN, Reader, TABLE, failing, whole};
use crate::tables::lines::{OPTIONS, STRINGS, lines_of};
use crate::tables::worked::{at, narrow};
use lnt_compare::TableRead;
use lnt_io::Counted;
use lnt_lines::{JudgedIndex, index_section};
use lnt_spans::{Difference, Version};
use lnt_table::{No, Stop, TableNo, Verdict, WriteStop, check, differences, write_table};
use std::alloc::Global;

// What a check of two sources answers, of which each gives at most this many bytes.
fn checked(
    alloc: Global,
    section: Reader<'_>,
    table: Reader<'_>,
    limits: (u64, u64),
) -> Result<Verdict, Stop> {
    let mut section = Counted::new(section, limits.0);
    let mut table = Counted::new(table, limits.1);
    check(alloc, &mut section, &STRINGS, &mut table, &OPTIONS)
}

// Whether the section is judged, with this verdict.
fn answers(alloc: Global, section: Reader<'_>, table: Reader<'_>, verdict: Verdict) -> bool {
    checked(alloc, section, table, (1000, 1000)) == Ok(verdict)
}

// Whether it isn't judged, for this reason.
fn stops(alloc: Global, section: Reader<'_>, table: Reader<'_>, stop: Stop) -> bool {
    checked(alloc, section, table, (1000, 1000)) == Err(stop)
}

// Whether it isn't judged, since one of the sources is too long.
fn is_too_long(alloc: Global, limits: (u64, u64)) -> bool {
    checked(alloc, whole(&PLAIN), whole(TABLE), limits) == Err(Stop::TooLong)
}

#[test]
fn sections_checked(rt: HostRuntime) {
    let alloc = rt.alloc();
    assert!(rt; answers(alloc, whole(&PLAIN), whole(TABLE), Verdict::Yes));
    // A table that fails isn't read if the section isn't good.
    let mut directory = PLAIN;
    directory[52] = 5;
    let no = Verdict::No(TableNo::Section(No::DirectoryNumber(0, 1)));
    assert!(rt; answers(alloc, whole(&directory), failing(TABLE), no));
}

#[test]
fn sources_at_fault(rt: HostRuntime) {
    let alloc = rt.alloc();
    assert!(rt; stops(alloc, failing(&PLAIN[..1]), whole(TABLE), Stop::Read));
    assert!(rt; stops(alloc, whole(&PLAIN), failing(TABLE), Stop::Read));
    // What is wrong with a table isn't reported before all of it is read.
    assert!(rt; stops(alloc, whole(&PLAIN), failing(b"low\n"), Stop::Read));
    assert!(rt; is_too_long(alloc, (70, 1000)));
    assert!(rt; is_too_long(alloc, (1000, 70)));
}

// The first position at which the answers of a table and of `PLAIN` differ, if it is reported.
fn first_difference(alloc: Global, table: &[u8]) -> Option<Difference> {
    let mut section = Counted::new(whole(&PLAIN), 1000);
    let mut table = Counted::new(whole(table), 1000);
    let Ok(JudgedIndex::Good(index)) = index_section(alloc, &mut section, &STRINGS, &OPTIONS) else {
        return None;
    };
    match differences(alloc, &mut table, &index) {
        Ok(TableRead::Table(mut differences)) => differences.next_difference(),
        _ => None,
    }
}

#[test]
fn tables_compared_at_every_position(rt: HostRuntime) {
    let other = b"low,low_op,high,high_op,unit,file,line,column,is_stmt
0x1000,0,0x1004,0,0,1,3,0,1
0x1004,0,0x1006,0,0,1,5,0,1
";
    let difference = Difference {
        position: at(0x1004),
        by_table: Some(narrow(5)),
        by_section: Some(narrow(4)),
    };
    assert!(rt; first_difference(rt.alloc(), other) == Some(difference));
}

// Whether the table of `PLAIN` is written.
fn is_written(alloc: Global) -> bool {
    let mut out = Vec::new(alloc);
    let Some(lines) = lines_of(alloc, &PLAIN) else {
        return false;
    };
    write_table(alloc, &lines, Version::One, &mut out).is_ok() && out.as_slice() == TABLE
}

// Whether a writer that takes pieces of this size, and fails after some of them, stops the table of `PLAIN`.
fn is_refused(alloc: Global, piece: usize, sound: usize) -> bool {
    let mut out = Narrow::new(alloc, piece, sound);
    lines_of(alloc, &PLAIN).is_some_and(|lines| {
        write_table(alloc, &lines, Version::One, &mut out) == Err(WriteStop::Write)
    })
}

#[test]
fn tables_written(rt: HostRuntime) {
    assert!(rt; is_written(rt.alloc()));
    assert!(rt; is_refused(rt.alloc(), 1, 0));
    assert!(rt; is_refused(rt.alloc(), 1, 30));
    assert!(rt; is_refused(rt.alloc(), 10, 0));
    assert!(rt; is_refused(rt.alloc(), 10, 3));
}
