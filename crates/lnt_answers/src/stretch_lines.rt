//! The lines of stretches in a scope.
ghost use Rattle.std.specs.Prelude.{◌≡◌, [], true, false, cond, Some, None, IfErr, OnErr, OnOk};
ghost use Rattle.std.specs.Io.KnownBytes.{Appends};
ghost use Rattle.lnt_answers.specs.Stepping.{counts_in};
ghost use Rattle.lnt_io.specs.Prefixes.{AppendsPrefix};
ghost use Rattle.lnt_io.specs.IoStops.{IsPrinting};

use crate::display::put_text;
use lnt_io::{IoStop, write_whole};
use lnt_spans::{Difference, Position};
use lnt_table::{Coverage, DifferenceByPath, DifferenceLine, PathDifferenceLine, Scope};
use std::alloc::{AllocError, Global};
use std::io::Write;

// A difference with which a stretch begins, as it is printed: `shown` is its line, and `answered` tells whether the table answers there.
pub(crate) trait ShownStretch {
    ghost use Rattle.std.specs.Prelude.{◌≡◌, ◌++◌, ℕ, Bool, List, Option, OnOk};
    ghost use Rattle.lnt_spans.specs.declared.position.Position.{Position as SpecPosition};

    ghost shown: { Self → Option SpecPosition → List ℕ };

    ghost answered: { Self → Bool };

    // Whether the table answers there.
    fn is_answered(&self) -> bool
        ensures { result ≡ answered self.now };

    // Appends its line, with the end of its stretch, if that is told.
    fn put_line(&self, end: Option<Position>, text: &mut Vec<u8>) -> Result<(), AllocError>
        ensures { OnOk result (text.new.items ≡ text.old.items ++ shown self.now end) };
}

impl ShownStretch for Difference {
    ghost use Rattle.std.specs.Prelude.{is_some};
    ghost use Rattle.lnt_spans.specs.Differences.{stretch_of};
    ghost use Rattle.lnt_answers.specs.PrintedStretches.{stretch_line, told_with};

    ghost shown = { λ difference end. stretch_line (told_with (stretch_of difference) end) };

    ghost answered = { λ difference. is_some difference.by_table };

    fn is_answered(&self) -> bool {
        self.by_table.is_some()
    }

    fn put_line(&self, end: Option<Position>, text: &mut Vec<u8>) -> Result<(), AllocError> {
        let line = DifferenceLine(*self, end);
        put_text(&format_args!("{line}\n"), text)
    }
}

impl ShownStretch for DifferenceByPath {
    ghost use Rattle.std.specs.Prelude.{is_some};
    ghost use Rattle.lnt_compare.specs.PathStretches.{stretch_of};
    ghost use Rattle.lnt_answers.specs.PrintedStretches.{path_stretch_line, told_with};

    ghost shown = { λ difference end. path_stretch_line (told_with (stretch_of difference) end) };

    ghost answered = { λ difference. is_some (stretch_of difference).by_table };

    fn is_answered(&self) -> bool {
        self.by_table.is_some()
    }

    fn put_line(&self, end: Option<Position>, text: &mut Vec<u8>) -> Result<(), AllocError> {
        let line = PathDifferenceLine(self, end);
        put_text(&format_args!("{line}\n"), text)
    }
}

// Prints the lines of those stretches that are in a scope.
#[derive(Drop)]
pub(crate) struct StretchLines {
    scope: Scope,
    // the line at hand is made here first
    room: Vec<u8>,
    // whether no line was printed
    is_right: bool,
}

impl StretchLines {
    // No line was printed yet.
    pub(crate) fn new(alloc: Global, scope: Scope) -> StretchLines
        ensures scope { result.scope ≡ scope }
        ensures right { result.is_right ≡ true }
    {
        StretchLines {
            scope,
            room: Vec::new(alloc),
            is_right: true,
        }
    }

    // Prints the line of a stretch, if it is in the scope. If it stops, a prefix has been written.
    pub(crate) fn print<D: ShownStretch, W: Write>(
        &mut self,
        difference: &D,
        end: Option<Position>,
        out: &mut W,
    ) -> Result<(), IoStop>
        ensures err { IfErr result IsPrinting }
        ensures line { OnOk result (Appends (W.contents out.old) (W.contents out.new)
            (cond (counts_in self.old.scope (D.answered difference.now)) (D.shown difference.now end) [])) }
        ensures prefix { OnErr result (AppendsPrefix (W.contents out.old) (W.contents out.new)
            (cond (counts_in self.old.scope (D.answered difference.now)) (D.shown difference.now end) [])) }
        ensures scope { self.new.scope ≡ self.old.scope }
        ensures right { OnOk result (self.new.is_right
            ≡ cond (counts_in self.old.scope (D.answered difference.now)) false self.old.is_right) }
    {
        if !is_in(self.scope, difference.is_answered()) {
            return Ok(());
        }
        self.room.clear();
        difference.put_line(end, &mut self.room)?;
        write_whole(out, self.room.as_slice())?;
        self.is_right = false;
        Ok(())
    }

    // How much the table answers, if no line was printed.
    pub(crate) fn if_right(&self, coverage: Coverage) -> Option<Coverage>
        ensures { result ≡ cond self.now.is_right (Some coverage) None }
    {
        if self.is_right { Some(coverage) } else { None }
    }
}

// Whether a stretch is in the scope.
fn is_in(scope: Scope, is_answered: bool) -> bool
    ensures { result ≡ counts_in scope is_answered }
{
    match scope {
        Scope::All => true,
        Scope::Answered => is_answered,
    }
}
