//! What is answered to a request, the status and what notes depend on; and its notes.
ghost use Rattle.std.specs.Prelude.{◌≡◌};
ghost use Rattle.lnt_answers.specs.PrintedStretches.{outcome_status};
ghost use Rattle.lnt_answers.specs.Verdicts.{checked_status};
ghost use Rattle.lnt_notes.specs.Notes.{TellsNotes, WritesNotes};

use crate::check::TableCheck;
use crate::stop::FileStop;
use lnt_answers::{Stretches, status_of};
use lnt_compare::Compared;
use lnt_io::{Files, IoStop, Status};
use lnt_lines::No;
use lnt_notes::{
    Columns, Given, Hints, Seen, note_agreed, note_bad, note_base, note_difference, note_good,
    note_no_symbols, note_refused, note_table, print_line_of, print_note,
};
use lnt_records::TableFault;
use lnt_spans::Position;
use lnt_table::{CheckedWithin, OfKind, Scope, TableNo, Verdict};
use lnt_text::Note;
use lnt_words::{Judging, Request, Upgrading, WordsStop};
use std::alloc::Global;
use std::io::Write;

// What the notes to an answer depend on, besides its request and its status.
#[derive(Clone, Copy)]
pub(crate) enum Occasion<'t> {
    // The section wasn't judged.
    Plain,
    // The section is good, and these are its hints.
    Good(Hints),
    // The section isn't good, for this reason.
    Bad(No),
    // The table in the file with this name was compared with the section.
    Compared(&'t str),
    // The answers of the table and of the sequence that is kept differ at this position, which is the first.
    Differs(Position),
    // The table answers a part, and was compared there.
    Part,
    // The table in the file with this name has this fault, by these columns.
    Faulty(&'t str, TableFault, Columns),
}

// The status of an answer, and what its notes depend on.
#[derive(Clone, Copy)]
pub(crate) struct Answered<'t> {
    pub(crate) status: Status,
    pub(crate) occasion: Occasion<'t>,
}

impl<'t> Answered<'t> {
    // What ends with this status, if no section was judged.
    pub(crate) fn plain(status: Status) -> Answered<'t>
        ensures { result.status ≡ status }
    {
        Answered {
            status,
            occasion: Occasion::Plain,
        }
    }

    // What ends with `No`.
    pub(crate) fn no(occasion: Occasion<'t>) -> Answered<'t>
        ensures { result.status ≡ Status.No }
    {
        Answered {
            status: Status::No,
            occasion,
        }
    }

    // What is answered to the check of the table in the file with this name.
    pub(crate) fn of_check(
        checked: &CheckedWithin,
        asked: TableCheck,
        table: &'t str,
    ) -> Answered<'t>
        ensures { result.status ≡ checked_status asked.at_least checked.now }
    {
        Answered {
            status: status_of(checked, asked.at_least),
            occasion: occasion_of(checked, asked, table),
        }
    }

    // What is answered if this was printed about a good section and the table in the file with this name, compared at the positions
    // of this scope.
    pub(crate) fn of_stretches(told: &Stretches, table: &'t str, scope: Scope) -> Answered<'t>
        ensures { result.status ≡ outcome_status told.now }
    {
        match told {
            Stretches::Faulty(fault) => {
                Answered::no(Occasion::Faulty(table, *fault, Columns::Numbered))
            }
            Stretches::FaultyByPath(fault) => {
                Answered::no(Occasion::Faulty(table, *fault, Columns::ByPath))
            }
            Stretches::Printed(status) | Stretches::PrintedByPath(status) => Answered {
                status: *status,
                occasion: match scope {
                    Scope::All => Occasion::Compared(table),
                    Scope::Answered => Occasion::Part,
                },
            },
        }
    }
}

// What notes depend on if this is answered to the check of the table in the file with this name.
fn occasion_of<'t>(checked: &CheckedWithin, asked: TableCheck, table: &'t str) -> Occasion<'t> {
    let checked = match checked {
        CheckedWithin::Covered(coverage) if coverage.all > 0 => return Occasion::Part,
        CheckedWithin::Covered(_) => return Occasion::Compared(table),
        CheckedWithin::Checked(checked) => checked,
    };
    match checked {
        OfKind::Numbered(Verdict::No(TableNo::Section(no))) => Occasion::Bad(*no),
        OfKind::Numbered(Verdict::No(TableNo::Differs { position, .. })) => {
            differs_at(*position, asked, table)
        }
        OfKind::Numbered(Verdict::No(no)) => match no.fault() {
            Some(fault) => Occasion::Faulty(table, fault, Columns::Numbered),
            None => Occasion::Compared(table),
        },
        OfKind::ByPath(Compared::Fault(fault)) => Occasion::Faulty(table, *fault, Columns::ByPath),
        OfKind::ByPath(Compared::Differs(difference)) => {
            differs_at(difference.position, asked, table)
        }
        OfKind::Numbered(Verdict::Yes) | OfKind::ByPath(Compared::Same) => Occasion::Compared(
            table,
        ),
    }
}

// What notes depend on if the answers differ at this position first. If any copy counts, none of them is right there.
fn differs_at<'t>(position: Position, asked: TableCheck, table: &'t str) -> Occasion<'t> {
    if asked.any_copy {
        Occasion::Compared(table)
    } else {
        Occasion::Differs(position)
    }
}

// What the words give to judge the section, for the notes.
fn given_of<'a>(from: &Judging<'a>) -> Given<'a> {
    Given {
        section: from.section,
        order: from.order,
        dead: from.dead,
        skip_copies: from.skip_copies,
        has_line_strings: from.line_strings.is_some(),
        has_strings: from.strings.is_some(),
    }
}

// Writes the notes to a request that ended so: to its answer, or why the system couldn't open or read the file that stopped
// it. A failure to write one doesn't stop a run.
pub(crate) fn print_notes<O: Files, N: Write>(
    alloc: Global,
    request: &Request<'_>,
    ended: &Result<Answered<'_>, FileStop>,
    seen: &Seen,
    opener: &O,
    notes: &mut N,
)
    ensures { WritesNotes (N.contents notes.old) (N.contents notes.new) }
{
    match ended {
        Ok(answered) => note_ended(alloc, request, answered, seen, opener, notes),
        Err(FileStop::Read(_)) => {
            if let Some(reason) = opener.reason(alloc) {
                let _ = print_line_of(alloc, &reason, notes);
            }
        }
        Err(_) => {}
    }
}

// Writes the notes to a request with this answer.
fn note_ended<O: Files, N: Write>(
    alloc: Global,
    request: &Request<'_>,
    answered: &Answered<'_>,
    seen: &Seen,
    opener: &O,
    notes: &mut N,
)
    ensures { WritesNotes (N.contents notes.old) (N.contents notes.new) }
{
    match (request, answered.occasion) {
        (Request::JudgeWith { from, .. }, Occasion::Differs(position)) => {
            let _ = note_difference(alloc, position, &given_of(from), opener, notes);
        }
        (Request::Symbols { base: 1.., .. }, _) if answered.status == Status::Done => {
            let _ = note_base(alloc, seen, notes);
        }
        _ => {
            let _ = note_answer(alloc, request, answered, seen, opener, notes);
        }
    }
}

// Writes the notes to an answer that has only such notes as `lnt_text` has texts of.
fn note_answer<O: Files, N: Write>(
    alloc: Global,
    request: &Request<'_>,
    answered: &Answered<'_>,
    seen: &Seen,
    opener: &O,
    notes: &mut N,
) -> Result<(), IoStop>
    ensures { TellsNotes result (N.contents notes.old) (N.contents notes.new) }
{
    let is_no = answered.status == Status::No;
    match request {
        Request::Help(_) => Ok(()),
        Request::Read { order, .. } | Request::Upgrade(Upgrading { order, .. }) => {
            if is_no {
                return note_refused(alloc, seen, *order, notes);
            }
            Ok(())
        }
        Request::Symbols { .. } => {
            if is_no {
                return note_no_symbols(alloc, seen, notes);
            }
            Ok(())
        }
        Request::Judge { from, .. } | Request::JudgeWith { from, .. } => {
            note_judged(alloc, from, answered, seen, opener, notes)
        }
    }
}

// Writes the notes to an answer about a section that was judged.
fn note_judged<O: Files, N: Write>(
    alloc: Global,
    from: &Judging<'_>,
    answered: &Answered<'_>,
    seen: &Seen,
    opener: &O,
    notes: &mut N,
) -> Result<(), IoStop>
    ensures { TellsNotes result (N.contents notes.old) (N.contents notes.new) }
{
    let given = given_of(from);
    match answered.occasion {
        Occasion::Good(hints) => note_good(alloc, &hints, &given, opener, notes),
        Occasion::Bad(no) => note_bad(alloc, &no, seen, &given, opener, notes),
        Occasion::Compared(table) if answered.status == Status::Done => {
            note_agreed(alloc, &given, Some(table), opener, notes)
        }
        Occasion::Part if answered.status == Status::Done => {
            note_agreed(alloc, &given, None, opener, notes)
        }
        Occasion::Compared(_) | Occasion::Differs(_) | Occasion::Part | Occasion::Plain => Ok(()),
        Occasion::Faulty(table, fault, columns) => {
            note_table(alloc, fault, columns, table, opener, notes)
        }
    }
}

// Writes a note that says what a bad word has to be, unless notes are left out.
pub(crate) fn note_word<N: Write>(alloc: Global, stop: &WordsStop, notes: &mut N)
    ensures { WritesNotes (N.contents notes.old) (N.contents notes.new) }
{
    if let WordsStop::BadWord {
        argument,
        quiet: false,
        ..
    } = stop
    {
        let _ = print_note(alloc, Note::Word(*argument), notes);
    }
}
