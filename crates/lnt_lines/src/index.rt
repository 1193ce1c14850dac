//! What a good section answers, with its rows decoded again when they are needed.
ghost use Rattle.std.specs.Prelude.{◌≡◌, ◌↔◌, ◌+◌, ◌-◌, ◌^◌, ◌<◌, ◌≤◌, ℕ, List, length, Option, None, IfNone, IfOk, IfSome, IsSome};
ghost use Rattle.std.specs.Prelude.{IsSomeAnd, IsTrue, IsPermutation, option_map};
ghost use Rattle.std.specs.List.{All, AllByRecursion, AllZip, Contains};
ghost use Rattle.lnt_header.specs.Joins.{AreRising};
ghost use Rattle.lnt_machine.specs.declared.row.Row.{Row};
ghost use Rattle.lnt_machine.specs.Walking.{WillGive};
ghost use Rattle.lnt_files.specs.Files.{AreFilesOf};
ghost use Rattle.lnt_files.specs.Tables.{AreUsableTables};
ghost use Rattle.lnt_sequences.specs.RowSpans.{spans_of, rows_left};
ghost use Rattle.lnt_sequences.specs.Sequences.{kept_sequences, line_answer, live_sequences, Placed};
ghost use Rattle.lnt_spans.specs.declared.span.Span.{Span};
ghost use Rattle.lnt_lines.specs.Cursors.{GivesAllOf, GivesSequence, room_of};
ghost use Rattle.lnt_lines.specs.Indexed.{Answers, HasOneOperation, IsIndex, IsSequenceIn, file_count_in, file_path_in, file_sum_in};
ghost use Rattle.lnt_lines.specs.Indexed.{header_in, OfUnits};
ghost use Rattle.lnt_spans.specs.Spans.{IsOfInstructions};

use crate::lines::place_of;
use crate::spans::Spans;
use lnt_files::Files;
use lnt_files::in_place::{file_count, listed, path_of, same_texts, texts_number};
use lnt_header::Header;
use lnt_header_bytes::HeaderView;
use lnt_machine::{Program, SequenceRows};
use lnt_sequences::laws::holder_answers;
use lnt_sequences::{Extent, SeqId, answer_at, holder};
use lnt_spans::{Answer, Position, Probes};
use lnt_wire::Strings;
use std::alloc::{AllocError, Global};
use std::marker::Model;

/// The sequences of a good section, in order, and the programs of its units, with the strings of its files. It keeps no
/// row, no span and no path.
///
/// A unit is named by its offset in the section, and its files count from 0. Contracts say which units it indexes
/// (`IsIndexOf`).
#[derive(Drop)]
pub struct Index<'a> {
    strings: Strings<'a>,
    entries: Vec<Extent>,
    // those of all live sequences, copies too, by first position, if they were asked for; else none
    live: Vec<Extent>,
    units: Vec<u64>,
    programs: Vec<Program>,
}

// The sequence that holds a position.
#[derive(Clone, Copy)]
pub(crate) struct Held {
    // the index of its entry
    pub place: usize,
    pub id: SeqId,
}

impl<'a> Model for Index<'a> {
    ghost use Rattle.lnt_lines.specs.Indexed.{Indexed, IsIndex};

    ghost Value = { Indexed };

    ghost view = { λ i. record {
      line = i.strings.line.now;
      general = i.strings.general.now;
      entries = i.entries.items;
      live = i.live.items;
      units = i.units.items;
      programs = i.programs.items;
    } };

    ghost invariant = { λ i. IsIndex (record {
      line = i.strings.line.now;
      general = i.strings.general.now;
      entries = i.entries.items;
      live = i.live.items;
      units = i.units.items;
      programs = i.programs.items;
    }) };
}

impl<'a> Index<'a> {
    // The index of entries in order, and of units with their programs, whose strings are these.
    pub(crate) fn of(
        strings: &Strings<'a>,
        entries: Vec<Extent>,
        live: Vec<Extent>,
        units: Vec<u64>,
        programs: Vec<Program>,
    ) -> Index<'a>
        requires { IsIndex (record {
          line = strings.now.line.now;
          general = strings.now.general.now;
          entries = entries.items;
          live = live.items;
          units = units.items;
          programs = programs.items;
        }) }
        ensures { result ≡ record {
          line = strings.now.line.now;
          general = strings.now.general.now;
          entries = entries.items;
          live = live.items;
          units = units.items;
          programs = programs.items;
        } }
    {
        Index {
            strings: *strings,
            entries,
            live,
            units,
            programs,
        }
    }

    /// The answer at the position: that of the last row at or below it in the kept sequence that holds it. `None` if no kept sequence
    /// holds it. The file that an answer names has a path. Only the rows of that sequence up to the position are decoded. Allocates
    /// nothing.
    ///
    /// The position is compared with at most as many sequences as the number of nonempty ones has binary digits, and the
    /// number of comparisons is added to `probes`. The caller ensures that `probes` is at most 2^63.
    pub fn lookup(&self, position: Position, probes: &mut Probes) -> Option<Answer>
        requires { probes.old ≤ 2 ^ 63 }
        ensures answer { OfUnits self.now (λ selection. result ≡ line_answer selection position) }
        ensures named { IfSome result (λ answer. IsSome (file_path_in self.now answer.unit answer.file)) }
        ensures rises { probes.old ≤ probes.new }
        ensures counted { (digits : ℕ) → length self.now.entries < 2 ^ digits → probes.new ≤ probes.old + digits }
    {
        let held = self.held(position, probes)?;
        let Some(rows) = self.rows(held.id) else {
            unreachable!()
        };
        answer_at(held.id.unit, rows, position)
    }

    // The kept sequence that holds the position, or `None` if none does. Comparisons are counted as in `lookup`.
    pub(crate) fn held(&self, position: Position, probes: &mut Probes) -> Option<Held>
        requires { probes.old ≤ 2 ^ 63 }
        ensures is_index { IsIndex self.now }
        ensures none { IfNone result (OfUnits self.now (λ selection. None ≡ line_answer selection position)) }
        ensures answers { IfSome result (λ held. OfUnits self.now (λ selection. Answers selection self.now position held.id)) }
        ensures rises { probes.old ≤ probes.new }
        ensures counted { (digits : ℕ) → length self.now.entries < 2 ^ digits → probes.new ≤ probes.old + digits }
    {
        holder_answers();
        let place = holder(&self.entries, position, probes)?;
        let id = self.entries[place].id;
        Some(Held { place, id })
    }

    // The rows of the sequence with an id.
    pub(crate) fn rows(&self, id: SeqId) -> Option<SequenceRows<'_>>
        ensures { (rows : List Row) → IsSequenceIn self.now.units self.now.programs id rows → IsSomeAnd result (WillGive rows) }
    {
        rows_of(&self.units, &self.programs, id)
    }

    // The number of sequences that hold a position.
    pub(crate) fn entry_count(&self) -> usize
        ensures { result ≡ length self.now.entries }
    {
        self.entries.len()
    }

    /// All spans: one for each two consecutive rows of a kept sequence at different positions. They are in order, none is
    /// empty, and each answer includes the instruction set and the discriminator. Each of their numbers has at most 64
    /// bits, so that it can be written in a table. A sequence is decoded when its spans come next, and there are at least
    /// as many spans as nonempty sequences. Allocates nothing.
    pub fn spans(&self) -> Spans<'_>
        ensures is_index { IsIndex self.now }
        ensures gives { OfUnits self.now (λ selection. GivesAllOf selection (length self.now.entries) result) }
    {
        lnt_sequences::laws::entries_in_turn();
        offsets_fit(&self.units);
        Spans::of(&self.units, &self.programs, &self.entries)
    }

    /// The extents of all live sequences that hold positions, copies too, by first position and then by place in the section, if
    /// `index_with_copies` made the index. Otherwise there are none.
    pub fn live(&self) -> &[Extent]
        ensures { result.now ≡ self.now.live }
    {
        self.live.as_slice()
    }

    /// The spans of the live sequence with this id, as `spans` gives those of the kept ones. Allocates nothing.
    pub fn spans_of(&self, id: SeqId) -> Spans<'_>
        ensures { OfUnits self.now (λ selection. (placed : Placed) → Contains (live_sequences selection.dead selection.units) placed
            → placed.id ≡ id → GivesSequence placed result) }
    {
        lnt_sequences::laws::sequence_spans();
        lnt_sequences::laws::spans_in_turn();
        Spans::of_one(&self.units, &self.programs, id)
    }

    /// Whether no instruction of the units has more than one operation, as `maximum_operations_per_instruction` says in the
    /// header of each (DWARF 5, section 6.2.4). Then each span begins and ends at operation index 0. The rows aren't walked.
    pub fn has_single_operations(&self) -> bool
        ensures single { IsTrue result ↔ All HasOneOperation self.now.programs }
        ensures spans { IsTrue result → OfUnits self.now (λ selection. (spans : List Span)
            → IsPermutation (spans_of (kept_sequences selection)) spans → AllByRecursion IsOfInstructions spans) }
    {
        are_single(&self.programs)
    }

    /// The offsets of the units, in order.
    pub fn units(&self) -> &[u64]
        ensures { result.now ≡ self.now.units }
    {
        self.units.as_slice()
    }

    /// The number of files of the unit at this offset, or 0 if there is no such unit. Allocates nothing.
    pub fn file_count(&self, unit: u64) -> u64
        ensures { result ≡ file_count_in self.now unit }
    {
        match self.header_of(unit) {
            Some(header) => file_count(&header),
            None => 0,
        }
    }

    /// The MD5 sum that the unit at this offset lists for the file. `None` if it lists none, or if there is no such file or
    /// unit. Allocates nothing.
    pub fn listed(&self, unit: u64, file: u64) -> Option<[u8; 16]>
        ensures { result ≡ file_sum_in self.now unit file }
    {
        listed(&self.header_of(unit)?, file)
    }

    /// The full path of the file of the unit at this offset, built from its texts. `None` if and only if there is no such
    /// file or unit, so never for a file below `file_count`. Fails only if memory runs out.
    #[tactic(auto, using(crate::proofs::NamedLemmas::counted_named))]
    pub fn path_of(
        &self,
        alloc: Global,
        unit: u64,
        file: u64,
    ) -> Result<Option<Vec<u8>>, AllocError>
        ensures path { IfOk result (λ path. option_map (λ path. path.items) path ≡ file_path_in self.now unit file) }
        ensures there { file < file_count_in self.now unit → IsSome (file_path_in self.now unit file) }
    {
        let Some(header) = self.header_of(unit) else {
            return Ok(None);
        };
        path_of(alloc, &header, self.strings, file)
    }

    /// Whether the paths of two files are made of the same texts, as `same_texts` says. `true`: the paths are the same. `false`: they may
    /// be, or there is no such file or unit. Allocates nothing.
    pub fn same_texts(&self, unit: u64, file: u64, other_unit: u64, other_file: u64) -> bool
        ensures { IsTrue result → file_path_in self.now unit file ≡ file_path_in self.now other_unit other_file }
    {
        let Some(one) = self.header_of(unit) else {
            return false;
        };
        let Some(other) = self.header_of(other_unit) else {
            return false;
        };
        same_texts(&one, file, &other, other_file, unit == other_unit)
    }

    /// A number that is the same for most files whose paths are made of the same texts, and differs for most others, as `texts_number`
    /// in `lnt_files` gives it.
    pub fn texts_number(&self, unit: u64, file: u64) -> u64 {
        match self.header_of(unit) {
            Some(header) => texts_number(&header, unit, file),
            None => 0,
        }
    }

    /// The header of the unit at this offset, with its directories and files in memory, for a caller that needs many of
    /// them. `None` if and only if there is no such unit. Fails only if memory runs out.
    pub fn header(&self, alloc: Global, unit: u64) -> Result<Option<Header>, AllocError>
        ensures header { IfOk result (λ header. header ≡ header_in self.now unit) }
        ensures usable { IfOk result (λ found. IfSome found (λ header. AreUsableTables self.now.line self.now.general header)) }
    {
        let Some(header) = self.header_of(unit) else {
            return Ok(None);
        };
        Ok(Some(header.to_header(alloc)?))
    }

    /// The string sections with the texts of files.
    pub fn strings(&self) -> Strings<'a>
        ensures line { result.line.now ≡ self.now.line }
        ensures general { result.general.now ≡ self.now.general }
    {
        self.strings
    }

    // The files of each unit, with their full paths.
    pub(crate) fn files(&self, alloc: Global) -> Result<Vec<Files>, AllocError>
        ensures { IfOk result (λ all. AllZip (λ kept files. AreFilesOf self.now.line self.now.general kept.header files) self.now.programs
            all.items) }
    {
        files_of(alloc, &self.programs, &self.strings)
    }

    // The header of the unit at an offset. Its tables are usable.
    fn header_of(&self, unit: u64) -> Option<HeaderView<'_>>
        ensures header { result ≡ header_in self.now unit }
        ensures usable { IfSome result (λ header. AreUsableTables self.now.line self.now.general header) }
    {
        let place = place_of(&self.units, unit)?;
        let program = self.programs.get(place)?;
        Some(program.header())
    }
}

// The offsets of units have at most 64 bits, as their type says. Does nothing at run time.
fn offsets_fit(units: &[u64])
    ensures { AllByRecursion (λ offset. offset < 2 ^ 64) units.now }
{}

// Whether no instruction of the programs has more than one operation.
fn are_single(programs: &[Program]) -> bool
    ensures { IsTrue result ↔ All HasOneOperation programs.now }
{
    for program in programs {
        if program.kept_header().numbers().max_ops() != 1 {
            return false;
        }
    }
    true
}

// The files of the headers of programs.
fn files_of(
    alloc: Global,
    programs: &[Program],
    strings: &Strings<'_>,
) -> Result<Vec<Files>, AllocError>
    requires { All (λ kept. AreUsableTables strings.now.line.now strings.now.general.now kept.header) programs.now }
    ensures { IfOk result (λ all. AllZip (λ kept files. AreFilesOf strings.now.line.now strings.now.general.now kept.header files)
        programs.now all.items) }
{
    let mut all = Vec::new(alloc);
    for program in programs {
        all.push(Files::of(alloc, &program.header(), *strings)?)?;
    }
    Ok(all)
}

// The rows of the sequence with an id.
#[inline(always)]
pub(crate) fn rows_of<'p>(
    units: &[u64],
    programs: &'p [Program],
    id: SeqId,
) -> Option<SequenceRows<'p>>
    requires { AreRising units.now }
    ensures left { IfSome result (λ walk. rows_left walk < room_of programs.now) }
    ensures rows { (rows : List Row) → IsSequenceIn units.now programs.now id rows → IsSomeAnd result (WillGive rows) }
{
    let place = place_of(units, id.unit)?;
    let program = programs.get(place)?;
    program.sequence(id.index as usize)
}
