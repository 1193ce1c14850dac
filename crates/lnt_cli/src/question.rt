//! Questions about a section that is judged, alone or with another file.
ghost use Rattle.std.specs.Prelude.{◌≡◌, ◌-◌, ◌^◌, ◌<◌, ◌⊎◌, false, IfErr, IfOk, IsErrAnd, OnErr};
ghost use Rattle.std.specs.Io.KnownBytes.{Keeps};
ghost use Rattle.lnt_io.specs.Files.{FindsNoMore, RefusesOnly};
ghost use Rattle.lnt_io.specs.IoStops.{IsPrinting};
ghost use Rattle.lnt_words.specs.declared.request.Question.TheVariants.{Md5};
ghost use Rattle.lnt_answers.specs.Lines.{HasBegunLine, IsIndexGiven, IsReasonPrinted};
ghost use Rattle.lnt_cli.specs.Answered.{AnswersFile, AnswersQuestion, AnswersWith, IsJudgedSo, IsTrueOf, options_by, options_in};
ghost use Rattle.lnt_cli.specs.Questions.{AnswersGood, AnswersGoodFile, AnswersJudged, BeginsGood, BeginsGoodFile, BeginsJudged};
ghost use Rattle.lnt_cli.specs.Questions.{asks_copies};
ghost use Rattle.lnt_cli.specs.Stops.{AnswersUnreadable, BeginsFile, BeginsQuestion, BeginsWith, IsCausedBy, IsCausedByEither};
ghost use Rattle.lnt_cli.specs.Stops.{IsFileOf, IsFileOfBoth, IsUnreadable, NamesOneOf, StopsIfRefused, TellsFile};

use crate::check::{TableCheck, check_table};
use crate::inputs::{Opened, Texts, of_file, open_judged, open_other};
use crate::notes::{Answered, Occasion};
use crate::stop::FileStop;
use lnt_answers::{
    Report, judge_or_refuse, lists_sums, print_addresses, print_files, print_lookups,
    print_path_table, print_stretches, print_sums, print_table,
};
use lnt_io::{Files, IoStop, Source, Status, print_line};
use lnt_lines::{Index, JudgedIndex, Options};
use lnt_notes::{Hints, Seen, hints_of};
use lnt_records::PathVersion;
use lnt_table::{Scope, Verdict};
use lnt_words::{FileQuestion, Judging, Question};
use std::alloc::Global;
use std::cell::Cell;
use std::io::Write;

// Answers a question about a good section, or prints the line that says why the section isn't good. `seen` keeps what notes need
// of the section's bytes.
pub(crate) fn answer_question<'t, O: Files, W: Write>(
    alloc: Global,
    from: &Judging<'_>,
    question: &Question,
    opener: &mut O,
    seen: &Cell<Seen>,
    out: &mut W,
) -> Result<Answered<'t>, FileStop>
    ensures named { IfErr result (NamesOneOf (IsFileOf from.now)) }
    ensures answer { IfOk result (λ answered. AnswersQuestion (O.finds opener.old) from.now question.now
        (W.contents out.old) (W.contents out.new) answered.status) }
    ensures stopped { OnErr result (Keeps (W.contents out.old) (W.contents out.new)
        ⊎ BeginsQuestion (O.finds opener.old) from.now question.now (W.contents out.old) (W.contents out.new)) }
    ensures refused { RefusesOnly (λ name. IsErrAnd result (λ stop. IsUnreadable stop name)
        ⊎ AnswersUnreadable (O.finds opener.old) from.now question.now) (O.refused opener.old) (O.refused opener.new) }
    ensures cause { IfErr result (TellsFile (O.finds opener.old)) }
{
    let mut files = open_judged(alloc, opener, from, seen)?;
    let answered = answer_opened(alloc, from, question, &mut files, opener, out);
    files.section.tell_unread(opener);
    answered
}

// Answers a question about a section whose files are open.
fn answer_opened<'t, S: Source, O: Files, W: Write>(
    alloc: Global,
    from: &Judging<'_>,
    question: &Question,
    files: &mut Opened<S>,
    opener: &mut O,
    out: &mut W,
) -> Result<Answered<'t>, FileStop>
    requires { S.failures files.old.section < 2 ^ 64 - 1 }
    ensures named { IfErr result (NamesOneOf (IsFileOf from.now)) }
    ensures answer { IfOk result (λ answered. IsJudgedSo false from.now
        (AnswersJudged (AnswersGood (O.finds opener.old) question.now) (W.contents out.old) (W.contents out.new) answered.status)
        files.old.texts.line.items files.old.texts.general.items (S.remaining files.old.section)) }
    ensures stopped { OnErr result (Keeps (W.contents out.old) (W.contents out.new)
        ⊎ IsJudgedSo false from.now (BeginsJudged (BeginsGood (O.finds opener.old) question.now) (W.contents out.old) (W.contents out.new))
        files.old.texts.line.items files.old.texts.general.items (S.remaining files.old.section)) }
    ensures later { FindsNoMore (O.finds opener.old) (O.finds opener.new) }
    ensures refused { RefusesOnly (λ _. question.now ≡ Md5) (O.refused opener.old) (O.refused opener.new) }
    ensures cause { IfErr result (IsCausedBy ⟦<S as Source>⟧ files.old.section files.new.section from.now.section.now) }
{
    let name = String::from_str(alloc, from.section)?;
    match judge(alloc, &mut files.section, &files.texts, from, false, out)? {
        JudgedIndex::Good(index) => {
            let printed = print_answer(alloc, &index, question, opener, out);
            let status = of_file(name, printed)?;
            let occasion = Occasion::Good(Hints {
                lists_no_sum: matches!(question, Question::Md5) && !lists_sums(&index),
                ..hints_of(&index)
            });
            Ok(Answered { status, occasion })
        }
        JudgedIndex::Bad(no) => Ok(Answered::no(Occasion::Bad(no))),
    }
}

// Answers a question about a section and the file with this name. Both are opened before the section is read. `seen` keeps what notes
// need of the section's bytes.
pub(crate) fn answer_file<'f, O: Files, W: Write>(
    alloc: Global,
    from: &Judging<'_>,
    file: &'f str,
    question: FileQuestion,
    opener: &mut O,
    seen: &Cell<Seen>,
    out: &mut W,
) -> Result<Answered<'f>, FileStop>
    ensures named { IfErr result (NamesOneOf (IsFileOfBoth from.now file.now)) }
    ensures answer { IfOk result (λ answered. AnswersFile (O.finds opener.old) from.now file.now question
        (W.contents out.old) (W.contents out.new) answered.status) }
    ensures stopped { OnErr result (Keeps (W.contents out.old) (W.contents out.new)
        ⊎ BeginsFile (O.finds opener.old) from.now file.now question (W.contents out.old) (W.contents out.new)) }
    ensures refused { StopsIfRefused result (O.refused opener.old) (O.refused opener.new) }
    ensures cause { IfErr result (TellsFile (O.finds opener.old)) }
{
    let mut files = open_judged(alloc, opener, from, seen)?;
    let mut other = open_other(alloc, opener, file)?;
    let answered = answer_with(alloc, from, file, question, &mut files, &mut other, out);
    files.section.tell_unread(opener);
    other.tell_unread(opener);
    answered
}

// Answers a question about a section and the file with this name, which are open.
fn answer_with<'f, S: Source, F: Source, W: Write>(
    alloc: Global,
    from: &Judging<'_>,
    file: &'f str,
    question: FileQuestion,
    files: &mut Opened<S>,
    other: &mut F,
    out: &mut W,
) -> Result<Answered<'f>, FileStop>
    requires section { S.failures files.old.section ≡ 0 }
    requires file { F.failures other.old ≡ 0 }
    ensures named { IfErr result (NamesOneOf (IsFileOfBoth from.now file.now)) }
    ensures answer { IfOk result (λ answered. AnswersWith from.now question (W.contents out.old) (W.contents out.new) answered.status
        (F.remaining other.old) files.old.texts.line.items files.old.texts.general.items (S.remaining files.old.section)) }
    ensures stopped { OnErr result (Keeps (W.contents out.old) (W.contents out.new)
        ⊎ BeginsWith from.now question (W.contents out.old) (W.contents out.new)
        (F.remaining other.old) files.old.texts.line.items files.old.texts.general.items (S.remaining files.old.section)) }
    ensures cause { IfErr result (IsCausedByEither ⟦<S as Source>⟧ files.old.section files.new.section from.now.section.now
        ⟦<F as Source>⟧ other.old other.new file.now) }
{
    match question {
        FileQuestion::Check {
            all: false,
            partial,
            at_least,
            any_copy,
            ..
        } => {
            let scope = Scope::of(partial);
            let asked = TableCheck {
                any_copy,
                scope,
                at_least,
            };
            check_table(alloc, from, file, asked, files, other, out)
        }
        FileQuestion::Check { all: true, .. } => {
            answer_both(alloc, from, file, question, files, other, out)
        }
        FileQuestion::Lines(_) => answer_both(alloc, from, file, question, files, other, out),
    }
}

// Answers a question about a good section and the file with this name, or prints the line that says why the section isn't good. The
// files are open.
fn answer_both<'f, S: Source, F: Source, W: Write>(
    alloc: Global,
    from: &Judging<'_>,
    file: &'f str,
    question: FileQuestion,
    files: &mut Opened<S>,
    other: &mut F,
    out: &mut W,
) -> Result<Answered<'f>, FileStop>
    requires section { S.failures files.old.section < 2 ^ 64 - 1 }
    requires file { F.failures other.old < 2 ^ 64 - 1 }
    ensures named { IfErr result (NamesOneOf (IsFileOfBoth from.now file.now)) }
    ensures answer { IfOk result (λ answered. IsJudgedSo (asks_copies question) from.now
        (AnswersJudged (AnswersGoodFile question (F.remaining other.old)) (W.contents out.old) (W.contents out.new) answered.status)
        files.old.texts.line.items files.old.texts.general.items (S.remaining files.old.section)) }
    ensures stopped { OnErr result (Keeps (W.contents out.old) (W.contents out.new)
        ⊎ IsJudgedSo (asks_copies question) from.now
        (BeginsJudged (BeginsGoodFile question (F.remaining other.old)) (W.contents out.old) (W.contents out.new))
        files.old.texts.line.items files.old.texts.general.items (S.remaining files.old.section)) }
    ensures cause { IfErr result (IsCausedByEither ⟦<S as Source>⟧ files.old.section files.new.section from.now.section.now
        ⟦<F as Source>⟧ other.old other.new file.now) }
{
    let any_copy = counts_copies(question);
    match judge(alloc, &mut files.section, &files.texts, from, any_copy, out)? {
        JudgedIndex::Good(index) => { answer_good_file(alloc, &index, file, question, other, out) }
        JudgedIndex::Bad(no) => Ok(Answered::no(Occasion::Bad(no))),
    }
}

// Answers a question about a good section and the file with this name, whose bytes these are.
fn answer_good_file<'f, F: Source, W: Write>(
    alloc: Global,
    index: &Index<'_>,
    file: &'f str,
    question: FileQuestion,
    bytes: &mut F,
    out: &mut W,
) -> Result<Answered<'f>, FileStop>
    requires { F.failures bytes.old < 2 ^ 64 - 1 }
    ensures named { IfErr result (NamesOneOf (λ name. file.now ≡ name)) }
    ensures answer { IfOk result (λ answered. AnswersGoodFile question (F.remaining bytes.old)
        index.now (W.contents out.old) (W.contents out.new) answered.status) }
    ensures stopped { OnErr result (Keeps (W.contents out.old) (W.contents out.new)
        ⊎ BeginsGoodFile question (F.remaining bytes.old) index.now (W.contents out.old) (W.contents out.new)) }
    ensures cause { IfErr result (IsCausedBy ⟦<F as Source>⟧ bytes.old bytes.new file.now) }
{
    let name = String::from_str(alloc, file)?;
    match question {
        FileQuestion::Lines(op) => {
            let printed = print_addresses(alloc, index, bytes, op, out);
            let status = of_file(name, printed)?;
            let occasion = Occasion::Good(hints_of(index));
            Ok(Answered { status, occasion })
        }
        FileQuestion::Check {
            ends,
            partial,
            at_least,
            any_copy,
            ..
        } => {
            let report = Report {
                scope: Scope::of(partial),
                ends,
                any_copy,
                at_least,
            };
            let printed = print_stretches(alloc, bytes, index, report, out);
            let told = of_file(name, printed)?;
            Ok(Answered::of_stretches(&told, file, report.scope))
        }
    }
}

// Whether the question is one of a table, and any copy counts.
fn counts_copies(question: FileQuestion) -> bool
    ensures { result ≡ asks_copies question }
{
    match question {
        FileQuestion::Check { any_copy, .. } => any_copy,
        FileQuestion::Lines(_) => false,
    }
}

// The options with which the section is read and judged. If any copy counts, copies are skipped.
pub(crate) fn options_of(from: &Judging<'_>, any_copy: bool) -> Options
    ensures { result ≡ options_by any_copy (options_in from.now) }
{
    Options {
        order: from.order,
        dead: from.dead,
        skip_copies: any_copy || from.skip_copies,
    }
}

// Judges the section, and if it isn't good, prints the line that says why. If any copy counts, copies are skipped, and the index of a
// good one has the extents of all.
fn judge<'t, R: Source, W: Write>(
    alloc: Global,
    section: &mut R,
    texts: &'t Texts,
    from: &Judging<'_>,
    any_copy: bool,
    out: &mut W,
) -> Result<JudgedIndex<'t>, FileStop>
    requires { R.failures section.old < 2 ^ 64 - 1 }
    ensures named { IfErr result (NamesOneOf (λ name. from.now.section.now ≡ name)) }
    ensures judged { IfOk result (IsTrueOf any_copy from.now texts.now.line.items texts.now.general.items (R.remaining section.old)) }
    ensures printed { IfOk result (λ judged. IsReasonPrinted judged (W.contents out.old) (W.contents out.new)) }
    ensures silent { IfOk result (λ judged. IsIndexGiven judged → out.new ≡ out.old) }
    ensures stopped { OnErr result (Keeps (W.contents out.old) (W.contents out.new)
        ⊎ HasBegunLine (IsTrueOf any_copy from.now texts.now.line.items texts.now.general.items (R.remaining section.old))
        (W.contents out.old) (W.contents out.new)) }
    ensures cause { IfErr result (IsCausedBy ⟦<R as Source>⟧ section.old section.new from.now.section.now) }
{
    let name = String::from_str(alloc, from.section)?;
    let strings = texts.strings();
    let options = options_of(from, any_copy);
    let judged = judge_or_refuse(alloc, section, &strings, &options, any_copy, out);
    of_file(name, judged)
}

// Prints the answer of a good section. It is never inlined: some answers have large blocks on the stack, which is short, and
// the frames of other subcommands are not to hold these too.
#[inline(never)]
fn print_answer<O: Files, W: Write>(
    alloc: Global,
    index: &Index<'_>,
    question: &Question,
    opener: &mut O,
    out: &mut W,
) -> Result<Status, IoStop>
    ensures answer { IfOk result (λ status.
        AnswersGood (O.finds opener.old) question.now index.now (W.contents out.old) (W.contents out.new) status) }
    ensures stopped { OnErr result (BeginsGood (O.finds opener.old) question.now index.now (W.contents out.old) (W.contents out.new)) }
    ensures later { FindsNoMore (O.finds opener.old) (O.finds opener.new) }
    ensures refused { RefusesOnly (λ _. question.now ≡ Md5) (O.refused opener.old) (O.refused opener.new) }
    ensures err { IfErr result IsPrinting }
{
    match question {
        Question::Verify => {
            print_line(alloc, &Verdict::Yes, out)?;
            Ok(Status::Done)
        }
        Question::Lookup(positions) => print_lookups(alloc, index, positions, out),
        Question::Files => print_files(alloc, index, out),
        Question::Table(version) => print_table(alloc, index, *version, out),
        Question::TableByPath { columns: true } => {
            print_path_table(alloc, index, PathVersion::Three, out)
        }
        Question::TableByPath { columns: false } => {
            print_path_table(alloc, index, PathVersion::Four, out)
        }
        Question::Md5 => print_sums(alloc, index, opener, out),
    }
}
