//! What a watch remembers of the rows of a unit.
ghost use Rattle.std.specs.Prelude.{◌≡◌, ℕ, ◌∷◌, ◌++◌, [], List, Option, MatchOption, IfOk, if◌then◌else◌};
ghost use Rattle.lnt_machine.specs.declared.row.Row.{Row};
ghost use Rattle.lnt_sequences.specs.Evidence.{IsFirstFall, IsFirstMissingFile};
ghost use Rattle.lnt_sequences.specs.Rules.{AreOrdered, HaveFiles};
ghost use Rattle.lnt_sequences.specs.Sequences.{Placed, live_of, placed_rows};
ghost use Rattle.lnt_sequences.specs.Watching as spec;
ghost use Rattle.lnt_sequences.specs.Watching.{CollectsRows, HasSeen, HasSeenAll};

use crate::collected::{Collected, position_of};
use crate::sequence::SeqId;
use lnt_machine::Row;
use lnt_spans::Position;
use std::alloc::AllocError;

/// A row that names a source file that isn't among the unit's files.
#[derive(Clone, Copy, Debug, PartialEq, Eq)]
pub struct MissingFile {
    /// The row's index among all rows of the unit, including end rows, counted from 0.
    pub row: u64,
    /// The file that it names.
    pub file: u64,
}

// The sequence that hasn't ended.
#[derive(Clone, Copy, Debug)]
struct Current {
    live: bool,
    // the position of its first row
    low: Position,
    // that of its last row so far
    last: Position,
}

/// What is remembered of the rows of one unit. No row is kept.
///
/// Contracts say which rows it has seen, in which order (`HasSeen`).
#[derive(Debug, Drop)]
pub struct Watch {
    dead: Option<u64>,
    unit: u64,
    files: u64,
    // how many rows it has seen
    rows: u64,
    // how many sequences have ended
    ended: u64,
    current: Option<Current>,
    falls: Option<u64>,
    missing_file: Option<MissingFile>,
}

impl Watch {
    /// A watch that has seen no row. `dead` is the address at which sequences of dead code begin, if the caller knows one;
    /// `unit` is the unit's offset in the section, and `files` the number of source files that its header lists. Allocates
    /// nothing.
    pub fn new(dead: Option<u64>, unit: u64, files: u64) -> Watch
        ensures { HasSeen dead unit files result [] }
    {
        Watch {
            dead,
            unit,
            files,
            rows: 0,
            ended: 0,
            current: None,
            falls: None,
            missing_file: None,
        }
    }

    /// Sees the unit's next row. If it is the end row of a live sequence, it adds the positions that the sequence holds to
    /// what is collected of the section.
    ///
    /// Fails only if memory runs out. Then the watch and what is collected are unspecified.
    #[inline(always)]
    pub fn see(&mut self, row: &Row, collected: &mut Collected) -> Result<(), AllocError>
        ensures seen { IfOk result (λ _. (dead : Option ℕ) (unit files : ℕ) (rows : List Row) → HasSeen dead unit files self.old rows
            → HasSeen dead unit files self.new (rows ++ row.now ∷ [])) }
        ensures collects { IfOk result (λ _. (dead : Option ℕ) (unit files : ℕ) (rows : List Row) (sequences : List Placed)
            → HasSeen dead unit files self.old rows → CollectsRows dead unit collected.old sequences rows
            → CollectsRows dead unit collected.new sequences (rows ++ row.now ∷ [])) }
    {
        let current = grown(self.dead, self.current, row);
        self.collect(row, current.live, collected)?;
        self.note(row, current.live);
        self.go_on(row, current);
        Ok(())
    }

    /// The first row that names a missing source file, among all rows of the unit's live sequences except end rows (DWARF
    /// 5, section 6.2.4). `None` if each of them names one of the unit's files.
    ///
    /// This holds if the watch has seen all rows of the unit, and its program runs.
    #[tactic(auto, using(crate::proofs::EvidenceLemmas::files_judged))]
    pub fn missing_file(&self) -> Option<MissingFile>
        ensures { (dead : Option ℕ) (unit files : ℕ) (rows : List Row) → HasSeenAll dead unit files self.now rows
            → MatchOption result (HaveFiles files (live_of dead (placed_rows unit rows)))
            (IsFirstMissingFile dead files (placed_rows unit rows)) }
    {
        self.missing_file
    }

    /// The index, among all rows of the unit, of the first row whose position is below that of the row before it, in the
    /// same live sequence (DWARF 5, section 6.2.5). `None` if positions never fall in a live sequence.
    ///
    /// This holds if the watch has seen all rows of the unit, and its program runs.
    #[tactic(auto, using(crate::proofs::EvidenceLemmas::falls_judged))]
    pub fn falls(&self) -> Option<u64>
        ensures { (dead : Option ℕ) (unit files : ℕ) (rows : List Row) → HasSeenAll dead unit files self.now rows
            → MatchOption result (AreOrdered (live_of dead (placed_rows unit rows))) (IsFirstFall dead (placed_rows unit rows)) }
    {
        self.falls
    }

    // If the next row ends a live sequence, adds the extent of that sequence.
    #[inline(always)]
    fn collect(&self, row: &Row, live: bool, collected: &mut Collected) -> Result<(), AllocError>
        ensures { IfOk result (λ _. collected.new.extents.items ≡ collected.old.extents.items
            ++ (if live then (spec.extent_from self.now.unit self.now.ended self.now.current row.now) else [])) }
    {
        let Some(current) = &self.current else {
            return Ok(());
        };
        if !live || !row.end_sequence {
            return Ok(());
        }
        let id = SeqId {
            unit: self.unit,
            index: self.ended,
        };
        collected.push_extent(id, current.low, position_of(row))
    }

    // Remembers the next row if its sequence is live, and it is the first that falls, or the first whose file is missing.
    #[inline(always)]
    fn note(&mut self, row: &Row, live: bool)
        ensures { self.new ≡ spec.noted self.old row.now live }
    {
        if live && falls_after(&self.current, row) {
            self.falls = self.falls.or(Some(self.rows));
        }
        if live && names_no_file(self.files, row) {
            let missing = MissingFile {
                row: self.rows,
                file: row.file,
            };
            self.missing_file = self.missing_file.or(Some(missing));
        }
    }

    // Counts the row. Its sequence, with the row, continues unless it is an end row.
    #[inline(always)]
    fn go_on(&mut self, row: &Row, current: Current)
        ensures { self.new ≡ spec.gone_on self.old row.now current }
    {
        self.rows = self.rows.saturating_add(1);
        if row.end_sequence {
            self.ended = self.ended.saturating_add(1);
            self.current = None;
        } else {
            self.current = Some(current);
        }
    }
}

// The sequence that hasn't ended, with one more row. Its first row decides whether it is live.
#[inline(always)]
fn grown(dead: Option<u64>, current: Option<Current>, row: &Row) -> Current
    ensures { result ≡ spec.grown dead current row.now }
{
    match current {
        Some(current) => Current {
            last: position_of(row),
            ..current
        },
        None => Current {
            live: dead != Some(row.address),
            low: position_of(row),
            last: position_of(row),
        },
    }
}

// Whether a row's position is below that of the row before it in its sequence.
#[inline(always)]
fn falls_after(current: &Option<Current>, row: &Row) -> bool
    ensures { result ≡ spec.falls_after current.now row.now }
{
    matches!(current, Some(current) if position_of(row) < current.last)
}

// Whether a row names a file that isn't among the first `files`. An end row names none.
#[inline(always)]
fn names_no_file(files: u64, row: &Row) -> bool
    ensures { result ≡ spec.names_no_file files row.now }
{
    !row.end_sequence && files <= row.file
}
