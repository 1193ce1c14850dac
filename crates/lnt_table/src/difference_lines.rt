//! The lines that are printed where a table differs from a section, and where no table by path can be written.
ghost use Rattle.std.specs.Prelude.{Some, option_map};
ghost use Rattle.lnt_compare.specs.PathStretches.{stretch_of, told_path_answer};
ghost use Rattle.lnt_table.specs.FaultTexts.{answer_text, column_text, end_text, more_text, operation_text, path_answer_text};
ghost use Rattle.lnt_table.specs.FaultTexts.{path_stretch_text, stretch_text};

use lnt_compare::{AnswerByPath, DifferenceByPath};
use lnt_spans::{Answer, Difference, More, Position};
use lnt_text::{PositionText, Quoted};
use std::fmt;

/// The line of a position at which the answers of a table and of a section differ (number 40), with both answers, without
/// its line feed. If a position is given, it tells that too: the first one after the stretch.
#[derive(Clone, Copy)]
pub struct DifferenceLine(pub Difference, pub Option<Position>);

impl fmt::Display for DifferenceLine {
    ghost output = { λ line. Some (stretch_text line.0 line.1) };

    fn fmt<W: fmt::Write>(&self, f: &mut fmt::Formatter<W>) -> fmt::Result {
        let at = PositionText(self.0.position);
        let end = EndText(self.1);
        let table = AnswerText(self.0.by_table);
        let section = AnswerText(self.0.by_section);
        write!(
            f,
            "no 40 differs at {at}{end} table {table} section {section}"
        )
    }
}

// An answer, as the fields of a table's record after its positions, or `none`.
#[derive(Clone, Copy)]
struct AnswerText(Option<Answer>);

impl fmt::Display for AnswerText {
    ghost output = { λ text. Some (answer_text text.0) };

    fn fmt<W: fmt::Write>(&self, f: &mut fmt::Formatter<W>) -> fmt::Result {
        let Some(answer) = self.0 else {
            return f.write_str("none");
        };
        let (unit, file, line, column) = (answer.unit, answer.file, answer.line, answer.column);
        let stmt = u8::from(answer.is_stmt);
        let more = MoreText(answer.more);
        write!(f, "{unit},{file},{line},{column},{stmt}{more}")
    }
}

// The two fields that version 2 of the address table has in addition to those of version 1, each after a comma; nothing if the
// answer doesn't have them.
#[derive(Clone, Copy)]
struct MoreText(Option<More>);

impl fmt::Display for MoreText {
    ghost output = { λ text. Some (more_text text.0) };

    fn fmt<W: fmt::Write>(&self, f: &mut fmt::Formatter<W>) -> fmt::Result {
        match self.0 {
            Some(more) => write!(f, ",{},{}", more.isa, more.discriminator),
            None => Ok(()),
        }
    }
}

/// The line of a position at which a table by path and a section answer differently, with both answers, without its line feed. If a
/// position is given, it tells that too: the first one after the stretch.
#[derive(Clone, Copy)]
pub struct PathDifferenceLine<'a>(pub &'a DifferenceByPath, pub Option<Position>);

impl fmt::Display for PathDifferenceLine<'_> {
    ghost output = { λ line. Some (path_stretch_text (stretch_of line.0.now) line.1) };

    fn fmt<W: fmt::Write>(&self, f: &mut fmt::Formatter<W>) -> fmt::Result {
        let at = PositionText(self.0.position);
        let end = EndText(self.1);
        let table = PathAnswerText(&self.0.by_table);
        let section = PathAnswerText(&self.0.by_section);
        write!(
            f,
            "no 40 differs at {at}{end} table {table} section {section}"
        )
    }
}

// An answer by path, as the fields of a table's record after the positions, with the path always in quotes; or `none`.
#[derive(Clone, Copy)]
struct PathAnswerText<'a>(&'a Option<AnswerByPath>);

impl fmt::Display for PathAnswerText<'_> {
    ghost output = { λ text. Some (path_answer_text (option_map told_path_answer text.0.now)) };

    fn fmt<W: fmt::Write>(&self, f: &mut fmt::Formatter<W>) -> fmt::Result {
        let Some(answer) = self.0 else {
            return f.write_str("none");
        };
        let path = Quoted(&answer.path);
        let line = answer.line;
        let column = ColumnText(answer.column);
        write!(f, "{path},{line}{column}")
    }
}

// A comma and the column of an answer if the version has columns; otherwise nothing.
#[derive(Clone, Copy)]
struct ColumnText(Option<u64>);

impl fmt::Display for ColumnText {
    ghost output = { λ text. Some (column_text text.0) };

    fn fmt<W: fmt::Write>(&self, f: &mut fmt::Formatter<W>) -> fmt::Result {
        match self.0 {
            Some(column) => write!(f, ",{column}"),
            None => Ok(()),
        }
    }
}

// The end of a stretch, after a word, if it is told; otherwise nothing.
#[derive(Clone, Copy)]
struct EndText(Option<Position>);

impl fmt::Display for EndText {
    ghost output = { λ text. Some (end_text text.0) };

    fn fmt<W: fmt::Write>(&self, f: &mut fmt::Formatter<W>) -> fmt::Result {
        match self.0 {
            Some(end) => write!(f, " up to {}", PositionText(end)),
            None => Ok(()),
        }
    }
}

/// The line with number 43, without its line feed: a span begins or ends at this position, whose operation index isn't 0, so that
/// no table by path can express it.
#[derive(Clone, Copy)]
pub struct OperationLine(pub Position);

impl fmt::Display for OperationLine {
    ghost output = { λ line. Some (operation_text line.0) };

    fn fmt<W: fmt::Write>(&self, f: &mut fmt::Formatter<W>) -> fmt::Result {
        let at = PositionText(self.0);
        write!(f, "no 43 operation index at {at}")
    }
}
