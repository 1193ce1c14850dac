//! Sections judged.
use crate::samples::{LISTED, OF_NOTHING, PLAIN, Reader, failing, whole};
use crate::tables::worked::{at, narrow, plain_spans, wide};
use lnt_io::{Counted, Stop};
use lnt_lines::{Judged, Lines, No, Options, verify};
use lnt_spans::{Probes, Version};
use lnt_wire::{Order, Strings};
use std::alloc::Global;

pub(crate) const STRINGS: Strings<'static> = Strings {
    line: &[],
    general: &[],
};

pub(crate) const OPTIONS: Options = Options {
    order: Order::Little,
    dead: None,
    skip_copies: false,
};

// What a section is judged to be, of a source that gives at most this many bytes.
fn judged(alloc: Global, section: Reader<'_>, limit: u64) -> Result<Judged, Stop> {
    let mut source = Counted::new(section, limit);
    verify(alloc, &mut source, &STRINGS, &OPTIONS)
}

// The lines of a section that is good.
pub(crate) fn lines_of(alloc: Global, section: &[u8]) -> Option<Lines> {
    match judged(alloc, whole(section), 1000) {
        Ok(Judged::Good(lines)) => Some(lines),
        _ => None,
    }
}

// Whether the lines, which are those of `PLAIN`, answer at its last position, and not after it.
fn are_answered(lines: &Lines) -> bool {
    let mut probes = Probes::new();
    let last = lines.lookup(at(0x1005), &mut probes);
    let mut probes = Probes::new();
    last == Some(wide(4, 0)) && lines.lookup(at(0x1006), &mut probes).is_none()
}

// Whether the lines, which are those of `PLAIN`, have its spans.
fn has_spans(lines: &Lines) -> bool {
    lines.spans() == plain_spans(wide(3, 0), wide(4, 0)).as_slice()
}

// Whether the lines, which are those of `PLAIN`, have its spans as version 1 of a table contains them.
fn has_narrow_spans(alloc: Global, lines: &Lines) -> bool {
    let spans = plain_spans(narrow(3), narrow(4));
    lines
        .canonical(alloc, Version::One)
        .is_ok_and(|joined| joined.as_slice() == spans.as_slice())
}

#[test]
fn answers(rt: HostRuntime) {
    let alloc = rt.alloc();
    let found = lines_of(alloc, &PLAIN);
    let lines = found.as_ref();
    assert!(rt; lines.is_some_and(|lines| are_answered(lines)));
    assert!(rt; lines.is_some_and(|lines| has_spans(lines)));
    assert!(rt; lines.is_some_and(|lines| has_narrow_spans(alloc, lines)));
}

// Whether this is the path of the file of the unit at 0.
fn has_path(alloc: Global, lines: &Lines, file: u64, path: Option<&[u8]>) -> bool {
    lines
        .path_of(alloc, 0, file)
        .is_ok_and(|found| found.as_deref() == path)
}

// Whether there is one unit with one file, which lists the sum of no bytes.
fn has_one_file(lines: &Lines) -> bool {
    lines.units() == [0].as_slice()
        && lines.file_count(0) == 1
        && lines.file_count(1) == 0
        && lines.listed(0, 0) == Some(OF_NOTHING)
}

#[test]
fn files_of_units(rt: HostRuntime) {
    let alloc = rt.alloc();
    let found = lines_of(alloc, &LISTED);
    let lines = found.as_ref();
    assert!(rt; lines.is_some_and(|lines| has_one_file(lines)));
    assert!(rt; lines.is_some_and(|lines| has_path(alloc, lines, 0, Some(b"/s/a.c"))));
    assert!(rt; lines.is_some_and(|lines| has_path(alloc, lines, 1, None)));
}

// Whether the section isn't judged, for this reason.
fn stops(alloc: Global, section: Reader<'_>, limit: u64, stop: Stop) -> bool {
    judged(alloc, section, limit).err() == Some(stop)
}

#[test]
fn sources_at_fault(rt: HostRuntime) {
    let alloc = rt.alloc();
    assert!(rt; stops(alloc, failing(&PLAIN), 1000, Stop::Read));
    assert!(rt; stops(alloc, failing(&PLAIN[..1]), 1000, Stop::Read));
    assert!(rt; stops(alloc, whole(&PLAIN), 70, Stop::TooLong));
}

// Whether this is wrong with a section whose source fails after it.
fn is_bad_before_a_fault(alloc: Global, section: &[u8], no: No) -> bool {
    matches!(judged(alloc, failing(section), 1000), Ok(Judged::Bad(reason)) if reason == no)
}

// What is wrong with a unit is reported before later bytes are asked for.
#[test]
fn a_unit_before_a_read_that_fails(rt: HostRuntime) {
    let mut directory = PLAIN;
    directory[52] = 5;
    assert!(rt; is_bad_before_a_fault(rt.alloc(), &directory, No::DirectoryNumber(0, 1)));
}
