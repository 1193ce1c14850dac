//! Each unit as a section of its own, and many as one.
use crate::each::units::{LAYOUTS, written_in};
use crate::samples::{LINE_STRINGS, PLAIN, Pieces, WORKED, Worked};
use lnt_lines::{Judged, Lines, Options, Version, verify};
use lnt_table::{Verdict, check, write_table};
use lnt_wire::{Counted, Format, Order, Strings};
use std::alloc::{AllocError, Global};

const STRINGS: Strings<'static> = Strings {
    line: &LINE_STRINGS,
    general: &[],
};

// More than any section or table here has.
const LIMIT: u64 = 1 << 24;

fn options_in(order: Order) -> Options {
    Options {
        order,
        dead: None,
        skip_copies: false,
    }
}

// The lines of a section that is good.
fn lines_in(alloc: Global, section: &[u8], order: Order) -> Option<Lines> {
    let mut source = Counted::new(Pieces::new(alloc, section, 4096, u64::MAX), LIMIT);
    match verify(alloc, &mut source, &STRINGS, &options_in(order)) {
        Ok(Judged::Good(lines)) => Some(lines),
        _ => None,
    }
}

// The table of these lines.
fn table_of(alloc: Global, lines: &Lines, version: Version) -> Option<Vec<u8>> {
    let mut out = Vec::new(alloc);
    write_table(alloc, lines, version, &mut out).ok()?;
    Some(out)
}

// Whether the section answers as this table does.
fn is_answered(alloc: Global, section: &[u8], order: Order, table: &[u8]) -> bool {
    let mut section = Counted::new(Pieces::new(alloc, section, 4096, u64::MAX), LIMIT);
    let mut table = Counted::new(Pieces::new(alloc, table, 4096, u64::MAX), LIMIT);
    let options = options_in(order);
    check(alloc, &mut section, &STRINGS, &mut table, &options) == Ok(Verdict::Yes)
}

// Whether the section answers as its own table of this version does.
fn answers_itself(alloc: Global, section: &[u8], order: Order, version: Version) -> bool {
    let Some(lines) = lines_in(alloc, section, order) else {
        return false;
    };
    table_of(alloc, &lines, version).is_some_and(|table| is_answered(alloc, section, order, &table))
}

// Whether the path of the first file of the first unit is made.
fn has_path(alloc: Global, section: &[u8], order: Order) -> bool {
    match lines_in(alloc, section, order) {
        Some(lines) => lines.file_count(0) == 0
            || matches!(lines.path_of(alloc, 0, 0), Ok(Some(_))),
        None => false,
    }
}

// Whether the unit is judged as it is known to be, and each call answers where it is good.
fn is_judged_in(alloc: Global, worked: Worked, layout: (Format, Order)) -> bool {
    let Some(section) = written_in(alloc, worked, layout) else {
        return false;
    };
    let order = layout.1;
    if !worked.is_good {
        return lines_in(alloc, &section, order).is_none();
    }
    answers_itself(alloc, &section, order, Version::One)
        && answers_itself(alloc, &section, order, Version::Two)
        && has_path(alloc, &section, order)
}

fn is_judged_in_each(alloc: Global, worked: Worked) -> bool {
    LAYOUTS
        .iter()
        .all(|layout| is_judged_in(alloc, worked, *layout))
}

#[test]
fn each_unit_as_a_section(rt: HostRuntime) {
    let alloc = rt.alloc();
    assert!(rt;
        WORKED
            .iter()
            .all(|worked| is_judged_in_each(alloc, *worked))
    );
}

// This many units one after another, each with its code 16 bytes after that of the one before.
fn units_apart(alloc: Global, count: u64) -> Result<Vec<u8>, AllocError> {
    let mut section = Vec::new(alloc);
    let mut address: u64 = 0x1000;
    for _ in 0..count {
        section.extend_from_slice(&PLAIN[..56])?;
        section.extend_from_slice(&address.to_le_bytes())?;
        section.extend_from_slice(&PLAIN[64..])?;
        address = address.wrapping_add(16);
    }
    Ok(section)
}

// Whether a section of this many units is longer than a mebibyte, and answers as its own table does.
fn is_large_and_answers(alloc: Global, count: u64) -> bool {
    units_apart(alloc, count).is_ok_and(|section| {
        section.len() > 1 << 20 && answers_itself(alloc, &section, Order::Little, Version::One)
    })
}

#[test]
fn a_large_section(rt: HostRuntime) {
    assert!(rt; is_large_and_answers(rt.alloc(), 15_000));
}
