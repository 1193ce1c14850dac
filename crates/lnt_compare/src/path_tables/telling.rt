//! What tables by path contain of an answer.
ghost use Rattle.std.specs.Prelude.{◌≡◌, ◌≢◌, ℕ, List, IfOk, MatchBool, option_map};
ghost use Rattle.lnt_spans.specs.AnyStretches.{stretch_at};
ghost use Rattle.lnt_compare.specs.Passing.{IsRemembered};
ghost use Rattle.lnt_records.specs.PathSpans.{path_answer, told_column};
ghost use Rattle.lnt_compare.specs.PathStretches.{stretch_of, told_path_answer};
ghost use Rattle.lnt_records.specs.PathTables.{said_answer};

use crate::path_tables::answer::{AnswerByPath, DifferenceByPath};
use crate::path_tables::known::has_told_path;
use lnt_records::{FileTexts, HeldPath, PathFields, PathVersion, Paths, ToldFiles};
use lnt_spans::{Answer, Position, Telling};
use std::alloc::{AllocError, Global};
use std::marker::PhantomData;

// The number of paths kept at most.
const SLOTS: u64 = 4096;

// The number of bytes of the longest path that is kept, so that all of them together take 2 MiB at most.
const LONGEST: usize = 512;

/// What is remembered of the paths of files.
#[derive(Drop)]
pub struct PathMemory {
    known: FileTexts,
    /// The paths as they stand in lines.
    pub fields: PathFields,
}

impl PathMemory {
    /// Nothing is remembered yet. Fails only if memory runs out.
    pub fn new(alloc: Global) -> Result<PathMemory, AllocError>
        ensures { IfOk result (λ memory. (path : ℕ → ℕ → List ℕ) → IsRemembered path memory) }
    {
        let known = FileTexts::new(alloc, SLOTS, LONGEST)?;
        let fields = PathFields::new(alloc)?;
        Ok(PathMemory { known, fields })
    }
}

/// What a table by path of this version contains, if these are the paths of files.
#[derive(Drop)]
pub struct PathTelling<'p, 'r, P> {
    /// Where paths are kept.
    pub alloc: Global,
    /// The paths of files.
    pub paths: &'p P,
    /// The version of the table.
    pub version: PathVersion,
    /// How long the paths of its records are borrowed.
    pub held: PhantomData<&'r [u8]>,
}

impl<'p, 'r, P: Paths> Telling for PathTelling<'p, 'r, P> {
    ghost use Rattle.std.specs.Prelude.{◌≡◌};
    ghost use Rattle.lnt_records.specs.KeptPaths.{AreTold};
    ghost use Rattle.lnt_compare.specs.Passing.{IsRemembered};
    ghost use Rattle.lnt_records.specs.PathSpans.{PathAnswer, path_answer};
    ghost use Rattle.lnt_compare.specs.PathStretches.{stretch_of};
    ghost use Rattle.lnt_records.specs.PathTables.{said_answer};

    type Held = HeldPath<'r>;

    type Memory = PathMemory;

    type Recalled = ToldFiles;

    type Difference = DifferenceByPath;

    type Refusal = AllocError;

    ghost Told = { PathAnswer };

    ghost tell = { λ s. path_answer s.version (P.bytes_of s.paths.now) };

    ghost said = { said_answer };

    ghost is_sound = { λ s memory. IsRemembered (P.bytes_of s.paths.now) memory };

    ghost recalls = { λ s recalled held. AreTold (P.bytes_of s.paths.now) held.path.now recalled.slots };

    ghost value_of = { stretch_of };

    fn alike(
        &self,
        memory: &mut PathMemory,
        one: &Answer,
        other: &Answer,
    ) -> Result<bool, AllocError> {
        if !same_place(self.version, one, other) {
            return Ok(false);
        }
        memory.fields.same_path(self.alloc, self.paths, one, other)
    }

    #[inline(always)]
    fn nothing(&self) -> ToldFiles {
        ToldFiles::none()
    }

    #[inline(always)]
    fn is_said(
        &self,
        memory: &mut PathMemory,
        recalled: &mut ToldFiles,
        answer: &Answer,
        held: HeldPath<'r>,
    ) -> Result<bool, AllocError> {
        if answer.line != held.line || column_in(self.version, answer.column) != held.column {
            return Ok(false);
        }
        has_told_path(
            self.alloc,
            self.paths,
            &mut memory.known,
            &mut memory.fields,
            recalled,
            answer,
            held.path,
        )
    }

    fn same_said(&self, one: HeldPath<'r>, other: HeldPath<'r>) -> bool {
        one.line == other.line && one.column == other.column && one.path == other.path
    }

    fn difference(
        &self,
        position: Position,
        by_table: Option<HeldPath<'r>>,
        by_section: Option<Answer>,
    ) -> Result<DifferenceByPath, AllocError>
        ensures { IfOk result (λ difference. stretch_of difference ≡ stretch_at position
            (option_map (path_answer self.now.version (P.bytes_of self.now.paths.now)) by_section)
            (option_map said_answer by_table.entry)) }
    {
        let by_table = match by_table {
            Some(held) => Some(said_of(self.alloc, held)?),
            None => None,
        };
        let by_section = match by_section {
            Some(answer) => Some(told_of(self.alloc, self.paths, self.version, &answer)?),
            None => None,
        };
        Ok(DifferenceByPath {
            position,
            by_table,
            by_section,
        })
    }
}

// The answer of a record, with an owned path.
pub(crate) fn said_of(alloc: Global, held: HeldPath<'_>) -> Result<AnswerByPath, AllocError>
    ensures { IfOk result (λ told. told_path_answer told ≡ said_answer held.entry) }
{
    let path = Vec::from_slice(alloc, held.path)?;
    Ok(AnswerByPath {
        path,
        line: held.line,
        column: held.column,
    })
}

// An answer of a section, with its path.
pub(crate) fn told_of<P: Paths>(
    alloc: Global,
    paths: &P,
    version: PathVersion,
    answer: &Answer,
) -> Result<AnswerByPath, AllocError>
    ensures { IfOk result (λ told. told_path_answer told ≡ path_answer version (P.bytes_of paths.now) answer.now) }
{
    let path = paths.path_of(alloc, answer.unit, answer.file)?;
    Ok(AnswerByPath {
        path,
        line: answer.line,
        column: column_in(version, answer.column),
    })
}

// Whether two answers have the same line, and the same column if the version has columns.
fn same_place(version: PathVersion, one: &Answer, other: &Answer) -> bool
    ensures { MatchBool result ((one.now.line ≡ other.now.line)
        × (told_column version one.now.column ≡ told_column version other.now.column))
        (one.now.line ≡ other.now.line → told_column version one.now.column ≢ told_column version other.now.column) }
{
    one.line == other.line && column_in(version, one.column) == column_in(version, other.column)
}

// The column, if the version has columns.
pub(crate) fn column_in(version: PathVersion, column: u64) -> Option<u64>
    ensures { result ≡ told_column version column }
{
    match version {
        PathVersion::Three => Some(column),
        PathVersion::Four => None,
    }
}
