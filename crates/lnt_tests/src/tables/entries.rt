//! The paths of a header's files, and the header that is kept.
use crate::samples::PLAIN;
use crate::tables::lines::STRINGS;
use lnt_files::{StringEnds, in_place};
use lnt_header_bytes::{KeptHeader, decode_header, view_header};
use lnt_wire::{Cursor, Order, take_frame};
use std::alloc::Global;

// The header of the plain unit, as it is kept, if its tables are usable.
fn kept(alloc: Global) -> Option<KeptHeader> {
    let frame = take_frame(&mut Cursor::new(&PLAIN, 0, Order::Little)).ok()?;
    let (header, _) = view_header(alloc, &frame, Order::Little).ok()?;
    if in_place::tables_fault(&header.view(), &StringEnds::of(STRINGS)).is_some() {
        drop(header);
        return None;
    }
    header.keep(alloc, None).ok()
}

// The path of one of the unit's two files. The outer None: there is no header, or memory ran out.
fn path(alloc: Global, file: u64) -> Option<Option<Vec<u8>>> {
    let kept = kept(alloc)?;
    let path = path_in(alloc, &kept, file);
    drop(kept);
    path
}

fn path_in(alloc: Global, kept: &KeptHeader, file: u64) -> Option<Option<Vec<u8>>> {
    let view = kept.view();
    if in_place::tables_fault(&view, &StringEnds::of(STRINGS)).is_some() {
        return None;
    }
    in_place::path_of(alloc, &view, STRINGS, file).ok()
}

// The number of files of the header whose entries are in memory again.
fn count_again(alloc: Global) -> Option<usize> {
    let kept = kept(alloc)?;
    let header = kept.view().to_header(alloc).ok();
    drop(kept);
    let header = header?;
    let count = header.files().len();
    drop(header);
    Some(count)
}

// How many files the header has that is decoded whole.
fn decoded_count(alloc: Global) -> Option<usize> {
    let frame = take_frame(&mut Cursor::new(&PLAIN, 0, Order::Little)).ok()?;
    let (header, _) = decode_header(alloc, &frame, Order::Little).ok()?;
    let count = header.files().len();
    drop(header);
    Some(count)
}

#[test]
fn paths(rt: HostRuntime) {
    let alloc = rt.alloc();
    assert!(rt;
        matches!(path(alloc, 1), Some(Some(path)) if path.as_slice() == b"/s/a.c".as_slice())
    );
    assert!(rt; matches!(path(alloc, 2), Some(None)));
    assert!(rt; matches!(count_again(alloc), Some(2)));
    assert!(rt; matches!(decoded_count(alloc), Some(2)));
}
