//! Files by their names, and the command over them.
use crate::samples::{Narrow, Reader, TABLE, failing, whole};
use lnt_cli::{CliStop, Opener, Status, run};
use std::alloc::{AllocError, Global};

// Files by their names: a section F, its table T, lines of addresses A, and a source file, which holds `abc`. One of them
// fails after this many bytes.
#[derive(Clone, Copy)]
pub(crate) struct Files<'a> {
    section: &'a [u8],
    faulty: &'a str,
    good: usize,
}

impl<'a> Files<'a> {
    pub(crate) fn new(section: &'a [u8]) -> Files<'a> {
        Files {
            section,
            faulty: "",
            good: 0,
        }
    }

    pub(crate) fn failing(section: &'a [u8], faulty: &'a str, good: usize) -> Files<'a> {
        Files {
            section,
            faulty,
            good,
        }
    }
}

impl<'a> Opener for Files<'a> {
    type Reader = Reader<'a>;

    fn reader_of(&mut self, name: &str) -> Option<Reader<'a>> {
        let bytes = match name {
            "F" => self.section,
            "T" => TABLE,
            "A" => b"0x1005\nx\n0x1000,0",
            "/s/a.c" => b"abc",
            _ => return None,
        };
        if name != self.faulty {
            return Some(whole(bytes));
        }
        let (bytes, _) = bytes.split_at(self.good.min(bytes.len()));
        Some(failing(bytes))
    }
}

fn words(alloc: Global, line: &str) -> Result<Vec<String>, AllocError> {
    let mut words = Vec::new(alloc);
    for word in line.split(' ') {
        words.push(String::from_str(alloc, word)?)?;
    }
    Ok(words)
}

// How the command ends over a writer with room for this many bytes, and what was written. Its notes are dropped.
pub(crate) fn ran(
    alloc: Global,
    mut files: Files<'_>,
    line: &str,
    room: usize,
) -> (Result<Status, CliStop>, Vec<u8>) {
    let mut out = Narrow::new(alloc, 1, room);
    let ended = match words(alloc, line) {
        Ok(words) => run(alloc, words, &mut files, &mut out),
        Err(error) => Err(CliStop::from(error)),
    };
    (ended, out.into_taken())
}
