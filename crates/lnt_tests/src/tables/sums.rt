//! The sums of sources.
use crate::samples::{OF_NOTHING, Reader, failing, whole};
use lnt_answers::{Agreement, md5_agrees, sum_of};
use lnt_io::{Counted, Stop};

// Of the letters `abc`, as in RFC 1321, appendix A.5.
const OF_ABC: [u8; 16] = [
    0x90, 0x01, 0x50, 0x98, 0x3c, 0xd2, 0x4f, 0xb0, 0xd6, 0x96, 0x3f, 0x7d, 0x28, 0xe1, 0x7f, 0x72,
];

// Of eighty digits, as in RFC 1321, appendix A.5.
const OF_DIGITS: [u8; 16] = [
    0x57, 0xed, 0xf4, 0xa2, 0x2b, 0xe3, 0xc9, 0x55, 0xac, 0x49, 0xda, 0x2e, 0x21, 0x07, 0xb6, 0x7a,
];

const DIGITS: &[u8] =
    b"12345678901234567890123456789012345678901234567890123456789012345678901234567890";

// The sum of a source that gives at most this many bytes.
fn sum(source: Reader<'_>, limit: u64) -> Result<[u8; 16], Stop> {
    sum_of(&mut Counted::new(source, limit))
}

// Whether the sum of the source is this one.
fn agreement(source: Reader<'_>, listed: &[u8; 16]) -> Result<Agreement, Stop> {
    md5_agrees(&mut Counted::new(source, 1000), listed)
}

#[test]
fn sums(rt: HostRuntime) {
    assert!(rt; sum(whole(b""), 1000) == Ok(OF_NOTHING));
    assert!(rt; sum(whole(DIGITS), 1000) == Ok(OF_DIGITS));
    assert!(rt; agreement(whole(b"abc"), &OF_ABC) == Ok(Agreement::Same));
    assert!(rt; agreement(whole(b"abc"), &OF_NOTHING) == Ok(Agreement::Differs(OF_ABC)));
}

#[test]
fn sources_at_fault(rt: HostRuntime) {
    assert!(rt; sum(failing(b"abc"), 1000) == Err(Stop::Read));
    assert!(rt; sum(whole(b"abc"), 2) == Err(Stop::TooLong));
    assert!(rt; agreement(failing(b"abc"), &OF_ABC) == Err(Stop::Read));
}
