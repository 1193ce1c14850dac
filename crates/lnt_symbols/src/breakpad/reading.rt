//! What the records of a file come to, taken one by one: names, and the pieces of kept line records in their kept functions.
ghost use Rattle.std.specs.Prelude.{◌≡◌, ◌++◌, ◌∷◌, [], ℕ, List, OnOk};
ghost use Rattle.lnt_symbols.specs.BreakpadLines.{RecordSaid, function_said, line_said};
ghost use Rattle.lnt_symbols.specs.Stepping.{said_of};

use crate::breakpad::kept::KeptRanges;
use crate::breakpad::names::Names;
use crate::breakpad::pieces::add_line;
use crate::breakpad::record::{LineRecord, Range, Record};
use crate::pieces::Pieces;
use std::alloc::{AllocError, Global};

/// What the records up to one come to.
#[derive(Drop)]
pub(crate) struct Reading {
    /// The names of files.
    pub(crate) names: Names,
    /// The kept functions.
    pub(crate) functions: KeptRanges,
    /// The function that goes on, if it's kept.
    pub(crate) function: Option<Range>,
    /// Its kept line records.
    pub(crate) lines: KeptRanges,
    /// The pieces, in the order of the file. No two have an address in common.
    pub(crate) pieces: Pieces,
}

impl Reading {
    ghost use Rattle.lnt_symbols.specs.Stepping.{HasTaken};

    /// No record yet. It takes no memory.
    #[tactic(auto, using(crate::proofs::ReadingLemmas::taken_none))]
    pub(crate) fn new(alloc: Global) -> Reading
        ensures { (base : ℕ) → HasTaken base [] result }
    {
        Reading {
            names: Names::new(alloc),
            functions: KeptRanges::new(alloc),
            function: None,
            lines: KeptRanges::new(alloc),
            pieces: Pieces::new(alloc),
        }
    }

    /// Takes the next record of a file whose address 0 is loaded at `base`.
    #[inline(always)]
    pub(crate) fn take(
        &mut self,
        alloc: Global,
        said: Record<'_>,
        base: u64,
    ) -> Result<(), AllocError>
        ensures { (done : List RecordSaid) → HasTaken base done self.old
            → OnOk result (HasTaken base (done ++ said_of said.entry ∷ []) self.new) }
    {
        match said {
            Record::Line(line) => self.take_line(alloc, line, base),
            Record::Function(range) => self.take_function(alloc, range),
            Record::File(number, name) => self.names.put_first(number, name),
            Record::Public => {
                self.function = None;
                Ok(())
            }
            Record::Nothing => Ok(()),
        }
    }

    // Takes a line record.
    #[inline(always)]
    fn take_line(&mut self, alloc: Global, line: LineRecord, base: u64) -> Result<(), AllocError>
        ensures names { self.new.names ≡ self.old.names }
        ensures taken { (done : List RecordSaid) → HasTaken base done self.old
            → OnOk result (HasTaken base (done ++ line_said line ∷ []) self.new) }
    {
        let Some(function) = self.function else {
            return Ok(());
        };
        if !self.lines.keep(alloc, line.range)? {
            return Ok(());
        }
        add_line(alloc, &mut self.pieces, function, line, base)
    }

    // Takes a function.
    fn take_function(&mut self, alloc: Global, range: Range) -> Result<(), AllocError>
        ensures names { self.new.names ≡ self.old.names }
        ensures taken { (base : ℕ) (done : List RecordSaid) → HasTaken base done self.old
            → OnOk result (HasTaken base (done ++ function_said range ∷ []) self.new) }
    {
        self.lines.clear();
        self.function = None;
        if self.functions.keep(alloc, range)? {
            self.function = Some(range);
        }
        Ok(())
    }
}
