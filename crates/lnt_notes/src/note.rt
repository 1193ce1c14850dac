//! Prints the notes to an answer.
ghost use Rattle.std.specs.Prelude.{◌≡◌, ◌↔◌, IfOk, IfSome, IsTrue, OnErr, OnOk, Option, [], false, string_bytes};
ghost use Rattle.std.specs.Io.KnownBytes.{Appends};
ghost use Rattle.lnt_sequences.specs.RowSpans.{spans_of};
ghost use Rattle.lnt_sequences.specs.Sequences.{kept_sequences};
ghost use Rattle.lnt_text.specs.Notes.{note_line};
ghost use Rattle.lnt_lines.specs.Indexed.{OfUnits};
ghost use Rattle.lnt_io.specs.Prefixes.{AppendsPrefix};
ghost use Rattle.lnt_notes.specs.Notes.{IsOneLine, TellsNotes, WritesNotes, line_of};

use crate::ends::{end_alike, held_by_several};
use crate::look::{file_look, is_gsym, look_of};
use crate::markers::{GREATEST, may_be_marker};
use crate::records::{Columns, column_at, line_after};
use crate::survey::{Survey, survey_of};
use crate::texts::strings_of;
use crate::units::address_bytes;
use crate::watched::Seen;
use lnt_header::EntryTable;
use lnt_io::{Counted, Files, IoStop, Source, source_of, write_whole};
use lnt_lines::{Index, No};
use lnt_records::TableFault;
use lnt_sequences::SeqId;
use lnt_spans::{Position, Probes, SpanSource};
use lnt_text::{Look, Note, RecordRule, StringSection};
use lnt_wire::{Order, Reason};
use std::alloc::{AllocError, Global};
use std::fmt;
use std::io::{BufReader, Write};

// What the note says of a base that is given for a GSYM file.
const OWN_BASE: &str = "a GSYM file has a base of its own, so --base is passed over";

// What the note says of a position that copies hold.
const ANY_COPY: &str =
    "several sequences hold this position, as where a linker folded functions or kept one of several copies; --any-copy takes the answer of each as right";

/// The file and options that were given to judge a section.
#[derive(Clone, Copy)]
pub struct Given<'a> {
    /// The file of the section.
    pub section: &'a str,
    /// The byte order of its numbers.
    pub order: Order,
    /// The address at which sequences of dead code begin, if one is given.
    pub dead: Option<u64>,
    /// Whether copies are skipped.
    pub skip_copies: bool,
    /// Whether `.debug_line_str` is given.
    pub has_line_strings: bool,
    /// Whether `.debug_str` is given.
    pub has_strings: bool,
}

/// What may be worth a note about a good section.
#[derive(Clone, Copy)]
pub struct Hints {
    /// No sequence holds a position.
    pub holds_nothing: bool,
    /// An address that a sequence holds and at which linkers leave discarded code. A sequence may begin there.
    pub marker: Option<u64>,
    /// No sum is listed, and sums were asked for.
    pub lists_no_sum: bool,
}

/// The hints of a good section with this index, if sums weren't asked for.
pub fn hints_of(index: &Index<'_>) -> Hints
    ensures nothing { OfUnits index.now (λ selection. IsTrue result.holds_nothing ↔ spans_of (kept_sequences selection) ≡ []) }
    ensures sums { result.lists_no_sum ≡ false }
{
    let first = index.spans().next_span();
    let marker = match &first {
        Some(span) if span.low.address == 0 => Some(0),
        _ => held_marker(index),
    };
    Hints {
        holds_nothing: first.is_none(),
        marker,
        lists_no_sum: false,
    }
}

// The first of `GREATEST` that some sequence holds while none holds the address before it, so that one may begin there.
fn held_marker(index: &Index<'_>) -> Option<u64> {
    for address in GREATEST {
        if holds(index, address) && !holds(index, address - 1) {
            return Some(address);
        }
    }
    None
}

fn holds(index: &Index<'_>, address: u64) -> bool {
    let position = Position { address, op: 0 };
    index.lookup(position, &mut Probes::new()).is_some()
}

/// Prints the line of a note. It fails only if the writer does, or if memory runs out; then a prefix of this line may be written.
pub fn print_note<N: Write>(alloc: Global, note: Note, notes: &mut N) -> Result<(), IoStop>
    ensures line { OnOk result (Appends (N.contents notes.old) (N.contents notes.new) (note_line note)) }
    ensures notes { TellsNotes result (N.contents notes.old) (N.contents notes.new) }
{
    print_text(alloc, &note, notes)
}

/// Prints the line of a note with the first line of this text. It fails as [`print_note`].
pub fn print_line_of<N: Write>(alloc: Global, text: &str, notes: &mut N) -> Result<(), IoStop>
    ensures { WritesNotes (N.contents notes.old) (N.contents notes.new) }
{
    print_text(alloc, &first_line(text), notes)
}

// The text up to its first line feed, if it has one.
fn first_line(text: &str) -> &str
    ensures { IsOneLine result.now }
{
    match text.split_once('\n') {
        Some((line, _)) => line,
        None => text,
    }
}

// Prints the line of a note with this text.
fn print_text<T: fmt::Display, N: Write>(
    alloc: Global,
    text: &T,
    notes: &mut N,
) -> Result<(), IoStop>
    ensures line { IfSome (T.output text.now)
        (λ text. OnOk result (Appends (N.contents notes.old) (N.contents notes.new) (line_of text))) }
    ensures prefix { IfSome (T.output text.now)
        (λ text. OnErr result (AppendsPrefix (N.contents notes.old) (N.contents notes.new) (line_of text))) }
{
    let line = line_with(alloc, text)?;
    write_whole(notes, line.as_bytes())?;
    Ok(())
}

// The line of a note with this text.
fn line_with<T: fmt::Display>(alloc: Global, text: &T) -> Result<String, AllocError>
    ensures { IfSome (T.output text.now) (λ text. IfOk result (λ line. string_bytes line ≡ line_of text)) }
{
    format!(in alloc; "linetab: note: {text}\n")
}

// Prints the note if there is one.
fn print_any<N: Write>(alloc: Global, note: Option<Note>, notes: &mut N) -> Result<(), IoStop>
    ensures { TellsNotes result (N.contents notes.old) (N.contents notes.new) }
{
    match note {
        Some(note) => print_note(alloc, note, notes),
        None => Ok(()),
    }
}

/// Prints the note to a rejected section, which was read in this byte order and whose lines weren't judged: what the file
/// looks like instead, if it looks like something else. It fails as [`print_note`].
pub fn note_refused<N: Write>(
    alloc: Global,
    seen: &Seen,
    order: Order,
    notes: &mut N,
) -> Result<(), IoStop>
    ensures { TellsNotes result (N.contents notes.old) (N.contents notes.new) }
{
    print_any(alloc, look_of(seen, order).map(Note::NotRaw), notes)
}

/// Prints the note to a file with a fault that was read as a symbol file: what it looks like, if it looks like another kind of file.
/// It fails as [`print_note`].
pub fn note_no_symbols<N: Write>(alloc: Global, seen: &Seen, notes: &mut N) -> Result<(), IoStop>
    ensures { TellsNotes result (N.contents notes.old) (N.contents notes.new) }
{
    let other = file_look(seen.head()).filter(|look| !matches!(look, Look::Symbols));
    print_any(alloc, other.map(Note::NotRaw), notes)
}

/// Prints the note to the table of a symbol file for which a base was given, if the file has one of its own. It fails as [`print_note`].
pub fn note_base<N: Write>(alloc: Global, seen: &Seen, notes: &mut N) -> Result<(), IoStop>
    ensures { WritesNotes (N.contents notes.old) (N.contents notes.new) }
{
    if is_gsym(seen.head()) {
        return print_line_of(alloc, OWN_BASE, notes);
    }
    Ok(())
}

/// Prints the notes to the reason why a section isn't good. It fails as [`print_note`], maybe after other notes.
#[tactic(auto, using(crate::proofs::NoteLemmas::told_after))]
pub fn note_bad<O: Files, N: Write>(
    alloc: Global,
    no: &No,
    seen: &Seen,
    given: &Given<'_>,
    opener: &O,
    notes: &mut N,
) -> Result<(), IoStop>
    ensures { TellsNotes result (N.contents notes.old) (N.contents notes.new) }
{
    match *no {
        No::Malformed(fault) => match fault.reason {
            Reason::VersionNotFive(2..=4) => print_note(alloc, Note::Older, notes),
            Reason::ExtendedLength => note_length(alloc, fault.place, seen, given, opener, notes),
            _ => note_refused(alloc, seen, given.order, notes),
        },
        No::StringOutside(unit, which, _) => {
            note_strings(alloc, unit, which, given, opener, notes)
        }
        No::FileNumber(..) | No::Falls(..) => note_dead(alloc, None, true, given, opener, notes),
        No::Overlap {
            first,
            second,
            position,
        } => {
            let address = Some(position.address).filter(|address| may_be_marker(*address));
            note_dead(alloc, address, true, given, opener, notes)?;
            note_copies(alloc, first, second, given, opener, notes)
        }
        _ => Ok(()),
    }
}

// Prints the note to an extended operation whose length, at this place, is wrong: how many bytes its address has if it sets one, and
// else what the file looks like.
fn note_length<O: Files, N: Write>(
    alloc: Global,
    place: u64,
    seen: &Seen,
    given: &Given<'_>,
    opener: &O,
    notes: &mut N,
) -> Result<(), IoStop>
    ensures { TellsNotes result (N.contents notes.old) (N.contents notes.new) }
{
    let count = match section_again(alloc, given, opener) {
        Some(mut source) => address_bytes(alloc, &mut source, given.order, place),
        None => None,
    };
    match count {
        Some(count) => print_note(alloc, Note::AddressBytes(count), notes),
        None => note_refused(alloc, seen, given.order, notes),
    }
}

/// Prints the notes to a good section. It fails as [`print_note`], maybe after other notes.
#[tactic(auto, using(crate::proofs::NoteLemmas::told_after))]
pub fn note_good<O: Files, N: Write>(
    alloc: Global,
    hints: &Hints,
    given: &Given<'_>,
    opener: &O,
    notes: &mut N,
) -> Result<(), IoStop>
    ensures { TellsNotes result (N.contents notes.old) (N.contents notes.new) }
{
    note_lacks(alloc, hints, notes)?;
    let marker = hints.marker;
    if marker.is_none() && given.dead.is_none() {
        return Ok(());
    }
    note_dead(alloc, marker, marker.is_some(), given, opener, notes)
}

// Prints the notes that the section holds no position, and that it lists no sum.
#[tactic(auto, using(crate::proofs::NoteLemmas::told_after))]
fn note_lacks<N: Write>(alloc: Global, hints: &Hints, notes: &mut N) -> Result<(), IoStop>
    ensures { TellsNotes result (N.contents notes.old) (N.contents notes.new) }
{
    let nothing = hints.holds_nothing.then_some(Note::HoldsNothing);
    print_any(alloc, nothing, notes)?;
    print_any(alloc, hints.lists_no_sum.then_some(Note::NoSums), notes)
}

// Prints the option that gives the string section with the paths of this table of a unit, if it wasn't given.
fn note_strings<O: Files, N: Write>(
    alloc: Global,
    unit: u64,
    which: EntryTable,
    given: &Given<'_>,
    opener: &O,
    notes: &mut N,
) -> Result<(), IoStop>
    ensures { TellsNotes result (N.contents notes.old) (N.contents notes.new) }
{
    let found = match section_again(alloc, given, opener) {
        Some(mut source) => strings_of(alloc, &mut source, given.order, unit, which),
        None => None,
    };
    let Some(section) = found else {
        return Ok(());
    };
    let is_given = match section {
        StringSection::Line => given.has_line_strings,
        StringSection::General => given.has_strings,
    };
    print_any(
        alloc,
        (!is_given).then_some(Note::NoStrings(section)),
        notes,
    )
}

// Prints the notes that sequences begin where linkers leave discarded code, and that none begins at the address given for such
// code. If the section can't be read again, the only note is one about `known`, if there is such an address, with no count of
// sequences. Unless `all` is asked for, the section is read only up to the unit in which a sequence begins at the given
// address.
#[tactic(auto, using(crate::proofs::NoteLemmas::told_after))]
fn note_dead<O: Files, N: Write>(
    alloc: Global,
    known: Option<u64>,
    all: bool,
    given: &Given<'_>,
    opener: &O,
    notes: &mut N,
) -> Result<(), IoStop>
    ensures { TellsNotes result (N.contents notes.old) (N.contents notes.new) }
{
    let found = match section_again(alloc, given, opener) {
        Some(mut source) => survey_of(alloc, &mut source, given.order, given.dead, all),
        None => None,
    };
    let Some(survey) = found else {
        return print_any(
            alloc,
            known.map(|address| Note::MaybeDead(None, address)),
            notes,
        );
    };
    let count = Some(survey.count);
    let marker = survey.marker.map(|address| Note::MaybeDead(count, address));
    print_any(alloc, marker, notes)?;
    let absent = given.dead.filter(|_| !survey.begins_dead);
    print_any(alloc, absent.map(Note::NoneDead), notes)
}

// Prints that copies can be skipped, if the two sequences that overlap begin and end at the same positions and copies
// aren't skipped yet.
fn note_copies<O: Files, N: Write>(
    alloc: Global,
    first: SeqId,
    second: SeqId,
    given: &Given<'_>,
    opener: &O,
    notes: &mut N,
) -> Result<(), IoStop>
    ensures { TellsNotes result (N.contents notes.old) (N.contents notes.new) }
{
    if given.skip_copies {
        return Ok(());
    }
    let alike = match section_again(alloc, given, opener) {
        Some(mut source) => end_alike(alloc, &mut source, given.order, first, second),
        None => None,
    };
    print_any(
        alloc,
        alike.filter(|alike| *alike).map(|_| Note::Copies),
        notes,
    )
}

/// Prints the note to a position at which a table and the section differ, if copies are skipped there: which option takes their answers
/// too. It fails as [`print_note`].
pub fn note_difference<O: Files, N: Write>(
    alloc: Global,
    position: Position,
    given: &Given<'_>,
    opener: &O,
    notes: &mut N,
) -> Result<(), IoStop>
    ensures { WritesNotes (N.contents notes.old) (N.contents notes.new) }
{
    if !given.skip_copies {
        return Ok(());
    }
    let held = match section_again(alloc, given, opener) {
        Some(mut source) => {
            held_by_several(alloc, &mut source, given.order, given.dead, position)
        }
        None => None,
    };
    match held {
        Some(true) => print_line_of(alloc, ANY_COPY, notes),
        Some(false) | None => Ok(()),
    }
}

// The section, to be read another time. `None` if that can't be done.
fn section_again<O: Files>(
    alloc: Global,
    given: &Given<'_>,
    opener: &O,
) -> Option<Counted<BufReader<O::Reader>>>
    ensures { IfSome result (λ source. ⟦<Counted<BufReader<O::Reader>> as Source>⟧.failures source ≡ 0) }
{
    source_of(alloc, opener.reader_again(given.section)?).ok()
}

/// Prints the notes to a table that answers as a good section does. It is in the file of this name, if it was compared at all
/// positions: then a table that answers nothing shows that the section holds no position. It fails as [`print_note`], maybe after
/// other notes.
#[tactic(auto, using(crate::proofs::NoteLemmas::told_after))]
pub fn note_agreed<O: Files, N: Write>(
    alloc: Global,
    given: &Given<'_>,
    table: Option<&str>,
    opener: &O,
    notes: &mut N,
) -> Result<(), IoStop>
    ensures { TellsNotes result (N.contents notes.old) (N.contents notes.new) }
{
    let reader = match table {
        Some(table) => opener.reader_again(table),
        None => None,
    };
    let holds_nothing = reader.is_some_and(|reader| {
        // A table of its header alone answers nothing.
        matches!(line_after(alloc, reader, 2), Ok(None))
    });
    print_any(alloc, holds_nothing.then_some(Note::HoldsNothing), notes)?;
    if given.dead.is_none() {
        return Ok(());
    }
    note_dead(alloc, None, false, given, opener, notes)
}

/// Prints the note to a fault of the table in the file of this name, which was read as one with these columns. For a fault of
/// the header the columns don't count: the header isn't that of any version. It fails as [`print_note`].
pub fn note_table<O: Files, N: Write>(
    alloc: Global,
    fault: TableFault,
    columns: Columns,
    table: &str,
    opener: &O,
    notes: &mut N,
) -> Result<(), IoStop>
    ensures { TellsNotes result (N.contents notes.old) (N.contents notes.new) }
{
    let (record, rule) = match fault {
        TableFault::Header => return print_note(alloc, Note::TableHeader, notes),
        TableFault::Fields(record) => (record, RecordRule::Fields),
        TableFault::Number(record, column) => {
            let Some(column) = column_at(columns, column) else {
                return Ok(());
            };
            (record, RecordRule::Kind(column))
        }
        TableFault::Order(record) => (record, RecordRule::Order),
    };
    let line = line_again(alloc, record, table, opener);
    print_note(alloc, Note::TableRecord(line, rule), notes)
}

fn line_again<O: Files>(alloc: Global, record: u64, table: &str, opener: &O) -> Option<u64> {
    line_after(alloc, opener.reader_again(table)?, record).ok()?
}
