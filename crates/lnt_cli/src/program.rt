//! One run of the command.
ghost use Rattle.std.specs.Prelude.{◌≡◌, map, string_bytes, IfErr, IfOk, IsTrue, OnErr};
ghost use Rattle.lnt_io.specs.Files.{RefusesOnly};
ghost use Rattle.lnt_notes.specs.Notes.{WritesNotes};
ghost use Rattle.lnt_cli.specs.Answered.{IsAnswered};
ghost use Rattle.lnt_cli.specs.Runs.{AnswersWords, IsStopOf, NameUnreadable};
ghost use Rattle.lnt_cli.specs.Stops.{IsFileIn, IsNamedUnreadable, IsStopped, NamesOneOf, TellsFile};

use crate::notes::{Answered, note_word, print_notes};
use crate::question::{answer_file, answer_question};
use crate::reading::{Printing, answer_printing, upgrade_section};
use crate::stop::{CliStop, FileStop};
use lnt_io::{Files, Status, write_whole};
use lnt_notes::Seen;
use lnt_words::{Asked, Request, request_of};
use std::alloc::Global;
use std::cell::Cell;
use std::io::{self, Write};

/// Runs the command that the words give, and writes its answer to `out`, as [`run_with_notes`]. Its notes are dropped.
pub fn run<O: Files, W: Write>(
    alloc: Global,
    words: Vec<String>,
    opener: &mut O,
    out: &mut W,
) -> Result<Status, CliStop>
    ensures answer { IfOk result (AnswersWords (O.finds opener.old) (map string_bytes words.items)
        (W.contents out.old) (W.contents out.new)) }
    ensures stop { IfErr result (IsStopOf (O.finds opener.old) (map string_bytes words.items)
        (W.contents out.old) (W.contents out.new)) }
    ensures refused { RefusesOnly (NameUnreadable (O.finds opener.old) (map string_bytes words.items) result)
        (O.refused opener.old) (O.refused opener.new) }
{
    run_with_notes(alloc, words, opener, out, &mut io::sink())
}

/// Runs the command that the words give, and writes its answer to `out`. The first word is the program's own name.
///
/// The words ask for a request, by `lnt_words::request_of`, and it is answered as by [`answer`] (`AnswersWords`). `out` isn't
/// flushed, except after each answered block of lines of a file of addresses.
///
/// A run stops with `Usage` only if the words ask for nothing (`AskForNothing`), before a file is opened and with nothing
/// written; with `Read` or `TooLong` for a file that the words name (`NameFile`), with `Read` only for one that can't be opened or
/// of which a read failed, and with `TooLong` only for one that has more than 2^40 bytes (`TellsFile`); with `Write` if `out` failed,
/// after a prefix of the text; and with `Memory` (`IsStopOf`). What [`answer`] states was written if it stops. If the opener refuses a
/// file, it stops with `Read` and that file's name, and for no other reason (`NameUnreadable`), except once it judges listed sums.
///
/// Advice for a person is written to `notes`, to be shown after the answer: a line for each note, which begins with `linetab: note: `
/// and has no other line feed, and nothing else (`WritesNotes`). It is nothing if the words ask for no notes. A run doesn't stop if
/// `notes` fails; then the last line may be cut.
pub fn run_with_notes<O: Files, W: Write, N: Write>(
    alloc: Global,
    words: Vec<String>,
    opener: &mut O,
    out: &mut W,
    notes: &mut N,
) -> Result<Status, CliStop>
    ensures answer { IfOk result (AnswersWords (O.finds opener.old) (map string_bytes words.items)
        (W.contents out.old) (W.contents out.new)) }
    ensures stop { IfErr result (IsStopOf (O.finds opener.old) (map string_bytes words.items)
        (W.contents out.old) (W.contents out.new)) }
    ensures refused { RefusesOnly (NameUnreadable (O.finds opener.old) (map string_bytes words.items) result)
        (O.refused opener.old) (O.refused opener.new) }
    ensures notes { WritesNotes (N.contents notes.old) (N.contents notes.new) }
{
    let asked = match request_of(alloc, words.as_slice()) {
        Ok(asked) => asked,
        Err(stop) => {
            note_word(alloc, &stop, notes);
            return Err(CliStop::from(stop));
        }
    };
    answer(alloc, &asked, opener, out, notes).map_err(CliStop::from)
}

/// Answers a request: writes the answer to `out`, and its notes to `notes` (`WritesNotes`), unless none are asked for.
///
/// For a check of a table, one line is written, and nothing else: `yes`, if all that `check_within` of `lnt_table` states for a
/// yes is true of the bytes that the opener gives for the files; or the first thing that is wrong, which is true of these
/// bytes (`IsChecked`). If only the positions count at which the table answers, a second line after the `yes` says how much of
/// the section it answers. It returns `Done` exactly if the first line is `yes`, and otherwise `No`. For all places at which a
/// table answers otherwise, a line is written for each of them, or `yes` if there is none (`AnswersFile`).
///
/// For a question about a section that isn't good, the line of a true reason is written, and it returns `No`; for one about a
/// good section, what the section's rows and headers say (`AnswersQuestion`). For a conversion, the converted section is written,
/// or the line that says why there is none; for a list of units, the lines of the section's frames and of its first fault; for a
/// dump, those of its units and of its first fault (`AnswersRead`); for a symbol file, its address table, or the line of its
/// first fault (`AnswersSymbols`). For the lines of a file, a line is written for each of them (`AnswersFile`).
///
/// If it stops, a prefix of an answer has been written, and nothing else (`IsStopped`). It stops with `Read` or `TooLong` for a
/// file that the request names (`IsFileIn`), with `Read` only if it can't be opened or a read of it failed, and with `TooLong` only
/// if it has more than 2^40 bytes (`TellsFile`); with `Write` if `out` failed; and with `Memory`. If the opener refuses a file, it
/// stops with `Read` and that file's name (`IsNamedUnreadable`). Listed sums are the exception: once the section is open, a listed
/// file that is refused is part of the answer.
pub fn answer<O: Files, W: Write, N: Write>(
    alloc: Global,
    asked: &Asked<'_>,
    opener: &mut O,
    out: &mut W,
    notes: &mut N,
) -> Result<Status, FileStop>
    ensures named { IfErr result (NamesOneOf (IsFileIn asked.now.request)) }
    ensures answer { IfOk result (λ status.
        IsAnswered (O.finds opener.old) asked.now.request (W.contents out.old) (W.contents out.new) status) }
    ensures stopped { OnErr result (IsStopped (O.finds opener.old) asked.now.request (W.contents out.old) (W.contents out.new)) }
    ensures refused { RefusesOnly (IsNamedUnreadable (O.finds opener.old) asked.now.request result)
        (O.refused opener.old) (O.refused opener.new) }
    ensures cause { IfErr result (TellsFile (O.finds opener.old)) }
    ensures notes { WritesNotes (N.contents notes.old) (N.contents notes.new) }
    ensures quiet { IsTrue asked.now.quiet → notes.new ≡ notes.old }
{
    let seen = Cell::new(Seen::nothing());
    let ended = answer_request(alloc, &asked.request, opener, &seen, out);
    if !asked.quiet {
        print_notes(alloc, &asked.request, &ended, &seen.get(), opener, notes);
    }
    ended.map(|answered| answered.status)
}

// Answers a request. `seen` keeps what notes need of the section's bytes.
fn answer_request<'r, O: Files, W: Write>(
    alloc: Global,
    request: &'r Request<'_>,
    opener: &mut O,
    seen: &Cell<Seen>,
    out: &mut W,
) -> Result<Answered<'r>, FileStop>
    ensures named { IfErr result (NamesOneOf (IsFileIn request.now)) }
    ensures answer { IfOk result (λ answered.
        IsAnswered (O.finds opener.old) request.now (W.contents out.old) (W.contents out.new) answered.status) }
    ensures stopped { OnErr result (IsStopped (O.finds opener.old) request.now (W.contents out.old) (W.contents out.new)) }
    ensures refused { RefusesOnly (IsNamedUnreadable (O.finds opener.old) request.now result)
        (O.refused opener.old) (O.refused opener.new) }
    ensures cause { IfErr result (TellsFile (O.finds opener.old)) }
{
    match request {
        Request::Help(text) => {
            write_whole(out, text.as_bytes())?;
            Ok(Answered::plain(Status::Done))
        }
        Request::Read {
            section,
            order,
            reading,
        } => {
            let printing = Printing::Section(*order, *reading);
            answer_printing(alloc, section, printing, opener, seen, out)
        }
        Request::Upgrade(from) => upgrade_section(alloc, from, opener, seen, out),
        Request::Symbols { file, base } => {
            answer_printing(alloc, file, Printing::Symbols(*base), opener, seen, out)
        }
        Request::Judge { from, question } => {
            answer_question(alloc, from, question, opener, seen, out)
        }
        Request::JudgeWith {
            from,
            file,
            question,
        } => answer_file(alloc, from, file, *question, opener, seen, out),
    }
}
