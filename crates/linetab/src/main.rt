//! The program `linetab`: the words, the files and the streams of the process, and its exit status.
#![tactic(auto)]

mod exit;
mod output;
mod system;

use exit::exit_code;
use lnt_cli::{CliStop, Status, run_with_notes};
use output::Output;
use std::alloc::{AllocError, Global};
use std::cell::Cell;
use std::env;
use std::io::{self, BufWriter, ErrorKind, Write};
use std::process::ExitCode;
use system::{System, hold_standard_descriptors};

fn main(rt: HostRuntime) -> ExitCode {
    let _held = hold_standard_descriptors(&rt);
    let mut notes = Vec::new(rt.alloc());
    let is_unread = Cell::new(false);
    let ended = run_words(&rt, &is_unread, &mut notes);
    // Whoever closed the pipe wants nothing more from it.
    if !(is_unread.get() && matches!(&ended, Err(CliStop::Write))) {
        report(&rt, &ended, &notes);
    }
    exit_code(&ended)
}

// Prints why the run stopped, if it did, and its notes.
fn report(rt: &HostRuntime, ended: &Result<Status, CliStop>, notes: &[u8]) {
    if let Err(stop) = ended {
        let _ = match stop {
            // A usage text already ends in a line feed.
            CliStop::Usage(text) => rt.eprint(text),
            _ => rt.eprintln(stop),
        };
    }
    let _ = rt.stderr().write_all(whole_lines(notes));
}

// Runs the command of the process's words, and gathers its notes. What was written before a stop is flushed too. If the
// output is a pipe that nobody reads any more, `is_unread` says so.
fn run_words(
    rt: &HostRuntime,
    is_unread: &Cell<bool>,
    notes: &mut Vec<u8>,
) -> Result<Status, CliStop> {
    let alloc = rt.alloc();
    let words = words_of(rt, alloc)?;
    let output = Output {
        writer: io::writer(rt),
        is_unread,
    };
    let Ok(mut out) = BufWriter::new(alloc, output) else {
        return Err(CliStop::from(AllocError));
    };
    let reason = Cell::new(None);
    let ended = run_with_notes(alloc, words, &mut System::new(rt, &reason), &mut out, notes);
    let flushed = out.flush();
    if ended.is_ok() && flushed.is_err() {
        return Err(CliStop::Write);
    }
    ended
}

// The complete lines: lack of memory may have cut the last one.
fn whole_lines(notes: &[u8]) -> &[u8] {
    let mut end = notes.len();
    while end > 0 && notes[end - 1] != b'\n' {
        end -= 1;
    }
    &notes[..end]
}

// The words of the process, which must be UTF-8.
fn words_of(rt: &HostRuntime, alloc: Global) -> Result<Vec<String>, CliStop> {
    match env::args(rt) {
        Ok(words) => Ok(words.collect(alloc)?),
        Err(error) if error.kind() == ErrorKind::OutOfMemory => Err(CliStop::from(AllocError)),
        Err(_) => {
            let text = "error: a word isn't UTF-8\n\nFor more information, try '--help'.\n";
            Err(CliStop::Usage(String::from_str(alloc, text)?))
        }
    }
}
