//! Lookups in an index, one after another.
ghost use Rattle.std.specs.Prelude.{◌≡◌, ◌+◌, ◌^◌, ◌<◌, ◌≤◌, ℕ, length, Option, IfOk, IfSome, IsSome, slice_index_or};
ghost use Rattle.lnt_sequences.specs.Sequences.{line_answer};
ghost use Rattle.lnt_lines.specs.declared.lookups.Cached.{Cached};
ghost use Rattle.lnt_lines.specs.Indexed.{AreKnownOf, IsCachedOf, AnswersAt, Indexed, file_path_in, OfUnits};

use crate::index::{Held, Index};
use lnt_sequences::{RowCache, SeqId, answer_at};
use lnt_spans::{Answer, Position, Probes};
use std::alloc::{AllocError, Global};
use std::marker::Model;

// The number of rows that are kept in brief at most: 4 MB.
const ROOM: usize = 1 << 18;

// The place of a sequence whose rows are kept from the next lookup on.
const ONCE: u32 = u32::MAX;

/// From which lookup in a sequence on its rows are kept. Only the time and the memory of lookups depend on it.
#[derive(Clone, Copy)]
pub enum KeepsFrom {
    /// The first, which then decodes all rows of the sequence: for many lookups.
    First,
    /// The second. The first decodes the rows up to its position.
    Second,
}

/// Lookups in an index. They keep the rows of a sequence in brief, so that a later lookup there decodes none; beyond a limit they
/// keep marks, so that it walks over no more than the rows between two of them.
///
/// Contracts see the index, but not what is kept.
#[derive(Drop)]
pub struct Lookups<'i, 'a> {
    index: &'i Index<'a>,
    known: Known<'i>,
}

impl<'i, 'a> Model for Lookups<'i, 'a> {
    ghost use Rattle.lnt_lines.specs.Indexed.{AreKnownOf, Indexed};

    ghost Value = { Indexed };

    ghost view = { λ l. l.index.now };

    ghost invariant = { λ l. AreKnownOf l.index.now l.known };
}

impl<'i, 'a> Lookups<'i, 'a> {
    /// Lookups in this index. Fails only if memory runs out. It allocates four bytes for each nonempty sequence.
    pub fn new(
        alloc: Global,
        index: &'i Index<'a>,
        keeps: KeepsFrom,
    ) -> Result<Lookups<'i, 'a>, AllocError>
        ensures { IfOk result (λ lookups. lookups ≡ index.entry.now) }
    {
        let known = Known::new(alloc, index.entry_count(), keeps)?;
        Ok(Lookups { index, known })
    }

    /// The index.
    pub fn index(&self) -> &'i Index<'a>
        ensures { result.now ≡ self.now }
    {
        self.index
    }

    /// The answer at the position, the same as that of [`Index::lookup`], with as many comparisons of the position with
    /// sequences. Fails only if memory runs out.
    pub fn lookup(
        &mut self,
        alloc: Global,
        position: Position,
        probes: &mut Probes,
    ) -> Result<Option<Answer>, AllocError>
        requires { probes.old ≤ 2 ^ 63 }
        ensures same { self.new ≡ self.old }
        ensures answer { IfOk result (λ answer. OfUnits self.old (λ selection. answer ≡ line_answer selection position)) }
        ensures named { IfOk result (λ found. IfSome found (λ answer. IsSome (file_path_in self.old answer.unit answer.file))) }
        ensures rises { probes.old ≤ probes.new }
        ensures counted { (digits : ℕ) → length self.old.entries < 2 ^ digits → probes.new ≤ probes.old + digits }
    {
        match self.index.held(position, probes) {
            Some(held) => self.known.answer_at(alloc, self.index, held, position),
            None => Ok(None),
        }
    }
}

// What is kept of a sequence.
#[derive(Drop)]
struct Cached<'i> {
    id: SeqId,
    cache: RowCache<'i>,
}

// The sequences of which something is kept.
#[derive(Drop)]
struct Known<'i> {
    sequences: Vec<Cached<'i>>,
    // For each entry of the index, one more than the index of its sequence in `sequences`; if nothing is kept, `ONCE` if the next
    // lookup keeps its rows, and 0 if only the one after it does. Only the time of a lookup depends on it.
    places: Vec<u32>,
    // The number of rows that may yet be kept. Only the time and the memory of a lookup depend on it.
    room: usize,
}

impl<'i> Known<'i> {
    // Nothing of this many entries.
    fn new(alloc: Global, count: usize, keeps: KeepsFrom) -> Result<Known<'i>, AllocError>
        ensures { IfOk result (λ known. (index : Indexed) → AreKnownOf index known) }
    {
        let place = match keeps {
            KeepsFrom::First => ONCE,
            KeepsFrom::Second => 0,
        };
        Ok(Known {
            sequences: Vec::new(alloc),
            places: vec![in alloc; place; count]?,
            room: ROOM,
        })
    }

    // What the sequence answers at the position.
    #[inline(always)]
    fn answer_at(
        &mut self,
        alloc: Global,
        index: &'i Index<'_>,
        held: Held,
        position: Position,
    ) -> Result<Option<Answer>, AllocError>
        ensures known { AreKnownOf index.entry.now self.old → AreKnownOf index.entry.now self.new }
        ensures answer { IfOk result (AnswersAt index.entry.now self.old held.id position) }
    {
        match self.said_at(held, position) {
            Some(answer) => Ok(answer),
            None => self.decoded_at(alloc, index, held, position),
        }
    }

    // The same, where rows that are kept in brief say it.
    #[inline(always)]
    fn said_at(&self, held: Held, position: Position) -> Option<Option<Answer>>
        ensures { IfSome result (λ answer. (index : Indexed) → AnswersAt index self.now held.id position answer) }
    {
        let known = place_in(&self.sequences, &self.places, held.place, held.id)?;
        self.sequences[known].cache.said_at(held.id.unit, position)
    }

    // The same, where rows are decoded.
    #[inline(never)]
    fn decoded_at(
        &mut self,
        alloc: Global,
        index: &'i Index<'_>,
        held: Held,
        position: Position,
    ) -> Result<Option<Answer>, AllocError>
        ensures known { AreKnownOf index.entry.now self.old → AreKnownOf index.entry.now self.new }
        ensures answer { IfOk result (AnswersAt index.entry.now self.old held.id position) }
    {
        let Held { place, id } = held;
        let Some(rows) = index.rows(id) else {
            return Ok(None);
        };
        if let Some(known) = place_in(&self.sequences, &self.places, place, id) {
            return self.sequences[known]
                .cache
                .answer_at(id.unit, rows, position);
        }
        if is_first(&mut self.places, place) {
            return Ok(answer_at(id.unit, rows, position));
        }
        let mut cache = RowCache::new(alloc, rows.fork(), &mut self.room)?;
        let answer = cache.answer_at(id.unit, rows, position)?;
        if !cache.is_empty() {
            self.keep(place, Cached { id, cache })?;
        }
        Ok(answer)
    }

    // Keeps this of the sequence of an entry.
    fn keep(&mut self, place: usize, cached: Cached<'i>) -> Result<(), AllocError>
        ensures { (index : Indexed) → IsCachedOf index cached.entry → AreKnownOf index self.old → AreKnownOf index self.new }
    {
        self.sequences.push(cached)?;
        if let Some(known) = self.places.get_mut(place) {
            *known = u32::try_from(self.sequences.len()).unwrap_or(0);
        }
        Ok(())
    }
}

// Whether the sequence of an entry wasn't looked up before. Then it is looked up once.
fn is_first(places: &mut [u32], place: usize) -> bool {
    match places.get_mut(place) {
        Some(known) if *known == 0 => {
            *known = ONCE;
            true
        }
        _ => false,
    }
}

// The index, among the sequences of which something is kept, of the sequence with this id, which is that of the entry at a place.
fn place_in(sequences: &[Cached<'_>], places: &[u32], place: usize, id: SeqId) -> Option<usize>
    ensures { IfSome result (λ known. (known < length sequences.now) × ((d : Cached) → (slice_index_or sequences.now known d).id ≡ id)) }
{
    let after = *places.get(place)?;
    let known = (after as usize).checked_sub(1)?;
    let other = sequences.get(known)?.id;
    if other.unit == id.unit && other.index == id.index {
        Some(known)
    } else {
        None
    }
}
