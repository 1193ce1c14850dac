//! The files and the standard input of the process.
use lnt_io::Opener;
use std::alloc::Global;
use std::cell::Cell;
use std::fs::{self, File};
use std::io::{self, Read, Stdin};

/// Opens the root folder three times, before any other file. A file gets the lowest free descriptor, so if the process was
/// started without standard input, the first file among the words would be read as standard input too. A folder there can
/// neither be read nor written, so reading `-` fails, and so does printing. The descriptors are held until the result is dropped.
pub fn hold_standard_descriptors(rt: &HostRuntime) -> [Option<File>; 3] {
    let open = || fs::open(rt, "/").ok();
    [open(), open(), open()]
}

/// Why the last file that failed couldn't be opened or read. `None` if none failed.
pub type Reason = Cell<Option<io::Error>>;

// What a name refers to.
#[derive(Drop)]
enum Input {
    File(File),
    Standard(Stdin),
}

/// A file that is read. If a read fails, the reason is kept.
#[derive(Drop)]
pub struct Reader<'a> {
    input: Input,
    reason: &'a Reason,
}

impl Read for Reader<'_> {
    fn read(&mut self, buf: &mut [u8]) -> io::Result<usize> {
        let read = match &mut self.input {
            Input::File(file) => file.read(buf),
            Input::Standard(input) => input.read(buf),
        };
        read.map_err(|error| {
            let kind = error.kind();
            self.reason.set(Some(error));
            io::Error::from(kind)
        })
    }
}

/// Opens files by their names. The first `-` is standard input, and there is no second one.
#[derive(Drop)]
pub struct System<'a> {
    rt: &'a HostRuntime,
    took_standard: bool,
    reason: &'a Reason,
}

impl<'a> System<'a> {
    /// Nothing is opened yet. `reason` will keep why the last file that failed couldn't be opened or read.
    pub fn new(rt: &'a HostRuntime, reason: &'a Reason) -> System<'a> {
        System {
            rt,
            took_standard: false,
            reason,
        }
    }

    fn open(&self, name: &str) -> Option<File> {
        let opened = fs::open(self.rt, name);
        opened.map_err(|error| self.reason.set(Some(error))).ok()
    }

    fn reader(&self, input: Input) -> Reader<'a> {
        Reader {
            input,
            reason: self.reason,
        }
    }
}

impl<'a> Opener for System<'a> {
    type Reader = Reader<'a>;

    fn reader_of(&mut self, name: &str) -> Option<Reader<'a>> {
        if name != "-" {
            return Some(self.reader(Input::File(self.open(name)?)));
        }
        if self.took_standard {
            self.reason.set(None);
            return None;
        }
        self.took_standard = true;
        Some(self.reader(Input::Standard(self.rt.stdin())))
    }

    // A pipe that was read has nothing left, and opening one again might wait for ever.
    fn reader_again(&self, name: &str) -> Option<Reader<'a>> {
        if name == "-" || !self.is_regular(name) {
            return None;
        }
        Some(self.reader(Input::File(self.open(name)?)))
    }

    fn is_regular(&self, name: &str) -> bool {
        fs::metadata(self.rt, name).is_ok_and(|metadata| metadata.is_file())
    }

    fn reason(&self, alloc: Global) -> Option<String> {
        self.reason.replace(None)?.to_string(alloc).ok()
    }
}
