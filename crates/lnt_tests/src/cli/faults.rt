//! Readers and writers that fail.
use crate::cli::streams::{Files, ran};
use crate::cli::worked::DUMP;
use crate::samples::{LISTED, PLAIN, TABLE};
use lnt_cli::{CliStop, Status};
use std::alloc::Global;
use std::test::Fail;

// Whether the command on the plain unit is stopped by this file, which fails after this many bytes, before it writes.
fn stops_reading(alloc: Global, line: &str, faulty: &str, good: usize) -> bool {
    let files = Files::failing(&PLAIN, faulty, good);
    let (ended, written) = ran(alloc, files, line, 1000);
    match &ended {
        Err(CliStop::Read(name)) => written.is_empty() && name.as_str() == faulty,
        _ => false,
    }
}

#[test]
fn failing_reads(rt: HostRuntime) {
    let alloc = rt.alloc();
    assert!(rt; stops_reading(alloc, "linetab units F", "F", 0));
    assert!(rt; stops_reading(alloc, "linetab dump F", "F", 70));
    assert!(rt; stops_reading(alloc, "linetab convert F --format 32 --order big", "F", 40));
    assert!(rt; stops_reading(alloc, "linetab lookup F 0x1000", "F", 71));
    assert!(rt; stops_reading(alloc, "linetab lookup F 0x1000 --line-str T", "T", 1));
    assert!(rt; stops_reading(alloc, "linetab check F T", "F", 1));
    assert!(rt; stops_reading(alloc, "linetab check F T", "T", 110));
    assert!(rt; stops_reading(alloc, "linetab lookup F --addresses A", "A", 6));
}

// What precedes the fault is written.
#[test]
fn a_line_before_a_read_that_fails(rt: HostRuntime) {
    let mut section = [0; 142];
    section[..71].copy_from_slice(&PLAIN);
    section[71..].copy_from_slice(&PLAIN);
    let files = Files::failing(&section, "F", 141);
    let (ended, written) = ran(rt.alloc(), files, "linetab units F", 1000);
    assert!(rt; written.as_slice() == b"0x0 32 67\n".as_slice());
    assert!(rt; matches!(ended, Err(CliStop::Read(_))));
}

// The complete lines before the fault are answered.
#[test]
fn lines_before_a_read_that_fails(rt: HostRuntime) {
    let files = Files::failing(&PLAIN, "A", 8);
    let (ended, written) = ran(rt.alloc(), files, "linetab lookup F --addresses A", 1000);
    let line = b"0x1005,0 unit 0 file 1 line 4 column 0 stmt 1 path \"/s/a.c\"\n";
    assert!(rt; written.as_slice() == line.as_slice());
    assert!(rt; matches!(ended, Err(CliStop::Read(_))));
}

// A source file that can't be read through has no sum.
#[test]
fn a_source_that_fails(rt: HostRuntime) {
    let files = Files::failing(&LISTED, "/s/a.c", 2);
    let (ended, written) = ran(rt.alloc(), files, "linetab md5 F", 1000);
    assert!(rt; written.as_slice() == b"unit 0 file 0 unreadable \"/s/a.c\"\n".as_slice());
    assert!(rt; matches!(ended, Ok(Status::No)));
}

// Whether a writer with room for this many bytes of this text stops the command, and has taken these.
fn stops_writing(alloc: Global, line: &str, text: &[u8], room: usize) -> bool {
    let (ended, written) = ran(alloc, Files::new(&PLAIN), line, room);
    text.starts_with(written.as_slice())
        && written.len() == room
        && matches!(ended, Err(CliStop::Write))
}

#[test]
fn failing_writes(rt: HostRuntime) {
    let alloc = rt.alloc();
    let units = b"0x0 32 67\n";
    assert!(rt; stops_writing(alloc, "linetab units F", units, 0));
    assert!(rt; stops_writing(alloc, "linetab units F", units, 9));
    assert!(rt; stops_writing(alloc, "linetab dump --ops --rows F", DUMP, 30));
    assert!(rt; stops_writing(alloc, "linetab dump --ops --rows F", DUMP, 200));
    let convert = "linetab convert F --format 32 --order little";
    assert!(rt; stops_writing(alloc, convert, &PLAIN, 70));
    assert!(rt; stops_writing(alloc, "linetab lookup F 0xfff", b"0xfff,0 none\n", 5));
    assert!(rt; stops_writing(alloc, "linetab table F", TABLE, 54));
    assert!(rt; stops_writing(alloc, "linetab check F T", b"yes\n", 3));
}

// Whether the stop's text is this one.
fn says(alloc: Global, stop: &CliStop, text: &str) -> bool {
    stop.to_string(alloc)
        .is_ok_and(|found| found.as_str() == text)
}

#[test]
fn a_file_that_is_too_long(rt: HostRuntime) -> Result<(), Fail> {
    let stop = CliStop::TooLong(String::from_str(rt.alloc(), "F")?);
    assert!(rt; says(rt.alloc(), &stop, "linetab: F is too long"));
    Ok(())
}
