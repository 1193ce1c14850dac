//! Sources of more than a mebibyte.
use crate::samples::Pieces;
use lnt_wire::{Counted, read_all};
use std::alloc::{AllocError, Global};

// This many bytes of different values.
fn bytes_of(alloc: Global, count: usize) -> Result<Vec<u8>, AllocError> {
    let mut bytes = Vec::with_capacity(alloc, count)?;
    for number in 0..count {
        bytes.push((number % 251) as u8)?;
    }
    Ok(bytes)
}

// Whether all of this many bytes are read, of a reader that gives them in pieces.
fn is_read(alloc: Global, count: usize) -> bool {
    let Ok(bytes) = bytes_of(alloc, count) else {
        return false;
    };
    let mut source = Counted::new(Pieces::new(alloc, &bytes, 4096, u64::MAX), 1 << 24);
    read_all(alloc, &mut source).is_ok_and(|read| read.as_slice() == bytes.as_slice())
}

#[test]
fn long_sources(rt: HostRuntime) {
    assert!(rt; is_read(rt.alloc(), 1_500_000));
}
