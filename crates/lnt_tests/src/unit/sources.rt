use crate::samples::{FailsOnce, Pieces};
use lnt_io::{Counted, Source, Stop, read_all};
use std::alloc::{AllocError, Global};
use std::test::Fail;

const BYTES: [u8; 70] = [7; 70];

// Whether all bytes come in pieces of this size, and the source may then still give `left` bytes.
fn come_whole(alloc: Global, piece: usize, limit: u64, left: u64) -> bool {
    let reader = Pieces::new(alloc, &BYTES, piece, u64::MAX);
    let mut source = Counted::new(reader, limit);
    read_all(alloc, &mut source).is_ok_and(|all| all.as_slice() == BYTES.as_slice())
        && source.left() == left
}

#[test]
fn all_bytes_come(rt: HostRuntime) {
    let alloc = rt.alloc();
    assert!(rt; come_whole(alloc, 1, 70, 0));
    assert!(rt; come_whole(alloc, 100, 71, 1));
    assert!(rt; come_whole(alloc, 100, u64::MAX, (1 << 40) - 70));
}

// Whether reading the bytes stops for the expected reason, and the source says the same.
fn are_stopped(alloc: Global, piece: usize, sound: u64, limit: u64, want: Stop) -> bool {
    let mut source = Counted::new(Pieces::new(alloc, &BYTES, piece, sound), limit);
    let stop = read_all(alloc, &mut source).err();
    stop == Some(want)
        && source.failures() == u64::from(want == Stop::Read)
        && source.too_long() == (want == Stop::TooLong)
}

#[test]
fn sources_that_stop(rt: HostRuntime) {
    let alloc = rt.alloc();
    // Within the bytes, at their end, and at once.
    assert!(rt; are_stopped(alloc, 1, 40, 70, Stop::Read));
    assert!(rt; are_stopped(alloc, 1, 70, 70, Stop::Read));
    assert!(rt; are_stopped(alloc, 100, 0, 70, Stop::Read));
    assert!(rt; are_stopped(alloc, 1, 100, 69, Stop::TooLong));
    assert!(rt; are_stopped(alloc, 100, 100, 0, Stop::TooLong));
}

// Whether reading stops at the read after the first `sound` ones, which fails, though the next one would not; and none follows it.
fn stops_at_once(alloc: Global, sound: u64) -> bool {
    let mut reader = FailsOnce::new(&BYTES, 10, sound);
    let mut source = Counted::new(&mut reader, 70);
    let stop = read_all(alloc, &mut source).err();
    let failures = source.failures();
    stop == Some(Stop::Read) && failures == 1 && reader.reads() == sound.saturating_add(1)
}

#[test]
fn failed_reads_are_not_tried_again(rt: HostRuntime) {
    let alloc = rt.alloc();
    // At once, within the bytes, and at the byte after the limit.
    assert!(rt; stops_at_once(alloc, 0));
    assert!(rt; stops_at_once(alloc, 3));
    assert!(rt; stops_at_once(alloc, 7));
}

// Whether `count` bytes are read by reads of these sizes.
fn are_asked(alloc: Global, count: usize, want: &[usize]) -> Result<bool, AllocError> {
    let bytes = vec![in alloc; 9; count]?;
    let mut reader = Pieces::new(alloc, bytes.as_slice(), usize::MAX, u64::MAX);
    let all = read_all(alloc, &mut Counted::new(&mut reader, 1 << 30)).is_ok();
    Ok(all && reader.asked() == want)
}

#[test]
fn reads_by_blocks(rt: HostRuntime) -> Result<(), Fail> {
    // The last read, which finds the end, asks for what the fifth left of its block.
    let sizes = [65536, 65536, 65536, 65536, 65536, 27680];
    assert!(rt; are_asked(rt.alloc(), 300_000, &sizes)?);
    Ok(())
}
