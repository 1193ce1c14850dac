//! The state of judging a section, unit by unit.
ghost use Rattle.std.specs.Prelude.{◌≡◌, ◌≤◌, ℕ, List, [], ◌∷◌, ◌++◌, true, length, drop, Option, IfOk, OnOk, IfErr};
ghost use Rattle.lnt_header.specs.declared.unit_parts.UnitParts.{UnitParts};
ghost use Rattle.lnt_sequences.specs.Copies.{AreExtentsOf};
ghost use Rattle.lnt_sequences.specs.Extents.{IsFirstOverlap};
ghost use Rattle.lnt_sequences.specs.Rules.{AreApart};
ghost use Rattle.lnt_sequences.specs.Sequences.{Placed, kept_of};
ghost use Rattle.lnt_sequences.specs.Watching.{Collects};
ghost use Rattle.lnt_lines.specs.Stepping.{HasAdded, IsDraftOf, IsWholeDraft};
ghost use Rattle.lnt_lines.specs.Indexed.{IsIndexOf};
ghost use Rattle.lnt_lines.specs.Judging.{IsUnitRefusal};

use crate::index::Index;
use crate::judge::judge_unit;
use crate::refusal::Refusal;
use lnt_files::StringEnds;
use lnt_machine::Program;
use lnt_sequences::{Collected, Extent, Overlap};
use lnt_unit::UnitBuffer;
use lnt_wire::Strings;
use std::alloc::{AllocError, Global};

/// The results for the units judged so far, all of which are valid.
#[derive(Drop)]
pub(crate) struct Draft {
    collected: Collected,
    // their offsets, and the program of each
    units: Vec<u64>,
    programs: Vec<Program>,
}

impl Draft {
    /// A draft without units. Allocates nothing.
    pub(crate) fn new(alloc: Global) -> Draft
        ensures collected { Collects result.collected [] }
        ensures units { result.units.items ≡ [] }
        ensures programs { result.programs.items ≡ [] }
    {
        Draft {
            collected: Collected::new(alloc),
            units: Vec::new(alloc),
            programs: Vec::new(alloc),
        }
    }

    /// Judges the next unit, and adds it if it is valid: then it returns a buffer for the bytes of another unit. Otherwise
    /// it fails as `judge_unit` does, and the draft is unspecified.
    pub(crate) fn add_unit(
        &mut self,
        alloc: Global,
        buffer: UnitBuffer,
        ends: &StringEnds<'_>,
        dead: Option<u64>,
    ) -> Result<Vec<u8>, Refusal>
        ensures ok { OnOk result (HasAdded ends.now.line ends.now.general dead buffer self.old self.new) }
        ensures err { IfErr result (IsUnitRefusal ends.now.line ends.now.general dead buffer) }
    {
        let other = match self.programs.last() {
            Some(program) => Some(program.kept_header()),
            None => None,
        };
        let offset = buffer.offset();
        let unit = judge_unit(alloc, &buffer, ends, dead, &mut self.collected, other)?;
        let taken = take_program(alloc, buffer.into_bytes(), unit.start)?;
        let program = Program::of(unit.header, taken.bytes, taken.start, unit.places);
        self.keep(offset, program)?;
        Ok(taken.room)
    }

    // Adds the offset of a unit and its program.
    fn keep(&mut self, offset: u64, program: Program) -> Result<(), AllocError>
        ensures collected { self.new.collected ≡ self.old.collected }
        ensures units { OnOk result (self.new.units.items ≡ self.old.units.items ++ offset ∷ []) }
        ensures programs { OnOk result (self.new.programs.items ≡ self.old.programs.items ++ program ∷ []) }
    {
        self.units.push(offset)?;
        self.programs.push(program)?;
        Ok(())
    }

    /// The extents of all live sequences that hold positions, if they are asked for; else none. Fails only if memory runs out.
    pub(crate) fn live(&self, alloc: Global, with_copies: bool) -> Result<Vec<Extent>, AllocError>
        ensures { IfOk result (λ live. with_copies ≡ true → (sequences : List Placed) → Collects self.now.collected sequences
            → AreExtentsOf sequences live.items) }
    {
        if !with_copies {
            return Ok(Vec::new(alloc));
        }
        self.collected.all_entries(alloc)
    }

    /// The index of the section, once its last unit was added; or the first overlap of two live sequences, apart from
    /// copies if these are skipped. `live` has the extents of the live ones, or none. The strings are those with which the units
    /// were judged.
    pub(crate) fn index<'a>(
        self,
        strings: &Strings<'a>,
        live: Vec<Extent>,
        skip_copies: bool,
    ) -> Result<Index<'a>, Overlap>
        requires { IsWholeDraft strings.now.line.now strings.now.general.now self }
        ensures index { IfOk result (λ index. (dead : Option ℕ) (units : List (ℕ × UnitParts))
            → IsDraftOf strings.now.line.now strings.now.general.now dead units self
            → IsIndexOf (record { dead = dead; skip = skip_copies; units = units }) index) }
        ensures line { IfOk result (λ index. index.line ≡ strings.now.line.now) }
        ensures general { IfOk result (λ index. index.general ≡ strings.now.general.now) }
        ensures live { IfOk result (λ index. index.live ≡ live.items) }
        ensures apart { OnOk result ((sequences : List Placed) → Collects self.collected sequences
            → AreApart (kept_of skip_copies sequences)) }
        ensures overlap { IfErr result (λ overlap. (sequences : List Placed) → Collects self.collected sequences
            → IsFirstOverlap (kept_of skip_copies sequences) overlap) }
    {
        let Draft {
            collected,
            units,
            programs,
        } = self;
        let entries = collected.entries(skip_copies)?;
        Ok(Index::of(strings, entries, live, units, programs))
    }
}

// A program of at least this many bytes is kept in its buffer instead of being copied.
const LARGE: usize = 1 << 16;

// A program, which is `bytes` from index `start` on, and `room`, a buffer for the bytes of another unit.
#[derive(Drop)]
struct Taken {
    bytes: Vec<u8>,
    start: usize,
    room: Vec<u8>,
}

// The program that is these bytes from index `start` on. A small one is copied, so that the buffer can be used for another
// unit.
fn take_program(alloc: Global, bytes: Vec<u8>, start: usize) -> Result<Taken, AllocError>
    requires { start ≤ length bytes.items }
    ensures program { IfOk result (λ taken. drop taken.start taken.bytes.items ≡ drop start bytes.items) }
    ensures within { IfOk result (λ taken. taken.start ≤ length taken.bytes.items) }
{
    if bytes.len() - start >= LARGE {
        return Ok(Taken {
            bytes,
            start,
            room: Vec::new(alloc),
        });
    }
    let (_, program) = bytes.split_at(start);
    let program = Vec::from_slice(alloc, program)?;
    Ok(Taken {
        bytes: program,
        start: 0,
        room: bytes,
    })
}
