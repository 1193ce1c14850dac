//! `lnt_cli`: the command over an opener and a writer.
use lnt_cli::{
    Agreement, Argument, Asked, CliStop, FileStop, Files, IoStop, OpenedFile, Opener, Request,
    Shown, Status, Stop, Watcher, WordsStop, answer, md5_agrees, request_of, run, run_with_notes,
    sum_of,
};
use lnt_wire::Counted;
use std::alloc::Global;
use std::io::Write;

/// An opener of one file. An opener has to give readers, and no more.
#[derive(Drop)]
pub struct One {
    bytes: &'static [u8],
}

impl Opener for One {
    type Reader = &'static [u8];

    fn reader_of(&mut self, name: &str) -> Option<&'static [u8]> {
        if name == "F" { Some(self.bytes) } else { None }
    }
}

/// The command over any opener and any writer.
pub fn ran<O: Opener, W: Write>(
    alloc: Global,
    words: Vec<String>,
    opener: &mut O,
    out: &mut W,
) -> Result<Status, CliStop> {
    run(alloc, words, opener, out)
}

/// The same, with its notes.
pub fn ran_with_notes<O: Opener, W: Write, N: Write>(
    alloc: Global,
    words: Vec<String>,
    opener: &mut O,
    out: &mut W,
    notes: &mut N,
) -> Result<Status, CliStop> {
    run_with_notes(alloc, words, opener, out, notes)
}

/// The command over one file.
pub fn ran_over_one<W: Write>(
    alloc: Global,
    words: Vec<String>,
    out: &mut W,
) -> Result<Status, CliStop> {
    run(alloc, words, &mut One { bytes: b"abc" }, out)
}

/// Each status.
pub fn is_done(status: Status) -> bool {
    match status {
        Status::Done => true,
        Status::No => false,
    }
}

/// Each reason why a run is stopped, and its text or its file.
pub fn told_stop(stop: CliStop) -> (u8, Option<String>) {
    match stop {
        CliStop::Usage(text) => (2, Some(text)),
        CliStop::Read(name) => (34, Some(name)),
        CliStop::TooLong(name) => (35, Some(name)),
        CliStop::Write => (42, None),
        CliStop::Memory => (33, None),
    }
}

/// What words ask for.
pub fn asked<'a>(alloc: Global, words: &'a [String]) -> Result<Request<'a>, WordsStop> {
    let Asked { request, .. } = request_of(alloc, words)?;
    Ok(request)
}

/// The answer to what words ask for.
pub fn answered<F: Files, W: Write, N: Write>(
    alloc: Global,
    request: &Asked<'_>,
    files: &mut F,
    out: &mut W,
    notes: &mut N,
) -> Result<Status, FileStop> {
    answer(alloc, request, files, out, notes)
}

/// The argument that a bad word was given for.
pub fn bad_argument(stop: &WordsStop) -> Option<Argument> {
    match stop {
        WordsStop::BadWord { argument, .. } => Some(*argument),
        WordsStop::Usage(_) | WordsStop::Memory => None,
    }
}

/// A name as a stop shows it.
pub fn shown(name: &str) -> Shown<'_> {
    Shown(name)
}

/// A file that is opened by its name, and shows its bytes to nobody.
pub fn opened<'n>(
    alloc: Global,
    files: &mut One,
    name: &'n str,
) -> Result<OpenedFile<'n, &'static [u8], ()>, IoStop> {
    OpenedFile::open(alloc, files, name, ())
}

/// The same, with its bytes shown to a watcher.
pub fn watched<'n, V: Watcher + Drop>(
    alloc: Global,
    files: &mut One,
    name: &'n str,
    watcher: V,
) -> Result<OpenedFile<'n, &'static [u8], V>, IoStop> {
    OpenedFile::open(alloc, files, name, watcher)
}

/// The sum of some bytes.
pub fn sum(bytes: &[u8]) -> Result<[u8; 16], Stop> {
    sum_of(&mut Counted::new(bytes, 70))
}

/// Whether bytes have a listed sum, and which one they have if not.
pub fn other_sum(bytes: &[u8], listed: &[u8; 16]) -> Result<Option<[u8; 16]>, Stop> {
    match md5_agrees(&mut Counted::new(bytes, 70), listed)? {
        Agreement::Same => Ok(None),
        Agreement::Differs(sum) => Ok(Some(sum)),
    }
}
