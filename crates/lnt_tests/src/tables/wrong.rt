//! Stretches at which no copy answers as a table does.
use crate::samples::{COPY, PLAIN, whole};
use crate::tables::lines::{OPTIONS, STRINGS};
use lnt_compare::{TableRead, hold_table};
use lnt_io::Counted;
use lnt_lines::{Index, JudgedIndex, Options, index_with_copies};
use lnt_table::{ByPath, Scope, WrongStretches, differences_by_path};
use std::alloc::Global;

// From 0x1000 up to 0x1004 the second copy answers so.
const AROUND: &[u8] = b"low,high,path,line
0x0ff0,0x1006,/s/a.c,5
";

// Where a stretch begins and ends.
type Range = (u64, u64);

// The two stretches of the index and a table by path, in the scope, if there are no more.
fn both_wrong(
    alloc: Global,
    index: &Index<'_>,
    table: &[u8],
    scope: Scope,
) -> Option<(Range, Range)> {
    let Ok(TableRead::Table((version, spans))) = hold_table(alloc, table) else {
        return None;
    };
    let kept = ByPath {
        index,
        version,
        differences: differences_by_path(index, &spans, version),
    };
    let mut wrong = WrongStretches::of(alloc, kept, index, scope);
    let Ok(Some(first)) = wrong.next_wrong(alloc) else {
        return None;
    };
    let Ok(Some(second)) = wrong.next_wrong(alloc) else {
        return None;
    };
    let Ok(None) = wrong.next_wrong(alloc) else {
        return None;
    };
    Some((
        (first.low.address, first.end.address),
        (second.low.address, second.end.address),
    ))
}

// The same of two copies.
fn of_copies(alloc: Global, table: &[u8], scope: Scope) -> Option<(Range, Range)> {
    let mut both = Vec::from_slice(alloc, &PLAIN).ok()?;
    both.extend_from_slice(&COPY).ok()?;
    let mut section = Counted::new(whole(&both), 1000);
    let options = Options {
        skip_copies: true,
        ..OPTIONS
    };
    match index_with_copies(alloc, &mut section, &STRINGS, &options) {
        Ok(JudgedIndex::Good(index)) => both_wrong(alloc, &index, table, scope),
        _ => None,
    }
}

#[test]
fn stretches_of_copies(rt: HostRuntime) {
    let alloc = rt.alloc();
    let both = Some(((0x0ff0, 0x1000), (0x1004, 0x1006)));
    assert!(rt; of_copies(alloc, AROUND, Scope::All) == both);
    assert!(rt; of_copies(alloc, AROUND, Scope::Answered) == both);
}
