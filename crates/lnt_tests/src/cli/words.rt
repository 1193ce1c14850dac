//! Each word of the command, with enough memory.
use crate::cli::streams::{Files, ran};
use crate::cli::worked::DUMP;
use crate::samples::{LISTED, PLAIN, TABLE, WIDE};
use lnt_cli::Status;
use std::alloc::Global;

// Whether the command writes this for a section, and ends like this.
fn prints(alloc: Global, section: &[u8], line: &str, text: &[u8], status: Status) -> bool {
    let (ended, written) = ran(alloc, Files::new(section), line, 1000);
    written.as_slice() == text && matches!(ended, Ok(ended) if ended == status)
}

// Whether it is done with the plain unit, and writes this.
fn is_done(alloc: Global, line: &str, text: &[u8]) -> bool {
    prints(alloc, &PLAIN, line, text, Status::Done)
}

#[test]
fn sections_read(rt: HostRuntime) {
    let alloc = rt.alloc();
    assert!(rt; is_done(alloc, "linetab units F", b"0x0 32 67\n"));
    assert!(rt; is_done(alloc, "linetab dump --ops --rows F", DUMP));
    assert!(rt; is_done(alloc, "linetab convert F --format 64 --order big", &WIDE));
}

#[test]
fn sections_judged(rt: HostRuntime) {
    let alloc = rt.alloc();
    assert!(rt; is_done(alloc, "linetab check F T", b"yes\n"));
    assert!(rt; is_done(alloc, "linetab table F", TABLE));
    let answer = b"0x1005,0 unit 0 file 1 line 4 column 0 stmt 1 path \"/s/a.c\"\n";
    assert!(rt; is_done(alloc, "linetab lookup F 0x1005", answer));
    assert!(rt; is_done(alloc, "linetab verify F", b"yes\n"));
    let lines =
        b"0x1005,0 unit 0 file 1 line 4 column 0 stmt 1 path \"/s/a.c\"\nbad \"x\"\n0x1000,0 unit 0 file 1 line 3 column 0 stmt 1 path \"/s/a.c\"\n";
    let lookup = "linetab lookup F --addresses A";
    assert!(rt; prints(alloc, &PLAIN, lookup, lines, Status::No));
    let files = b"unit,file,path,md5\n0,0,/s/a.c,d41d8cd98f00b204e9800998ecf8427e\n";
    assert!(rt; prints(alloc, &LISTED, "linetab files F", files, Status::Done));
    let sum = b"unit 0 file 0 differs 900150983cd24fb0d6963f7d28e17f72 \"/s/a.c\"\n";
    assert!(rt; prints(alloc, &LISTED, "linetab md5 F", sum, Status::No));
}
