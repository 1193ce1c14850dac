//! All spans of an index, one after another.
ghost use Rattle.std.specs.Prelude.{◌≡◌, ◌<◌, List, [], None, IfSome, true, MatchBool};
ghost use Rattle.lnt_header.specs.Joins.{AreRising};
ghost use Rattle.lnt_spans.specs.declared.span.Span as spec;
ghost use Rattle.lnt_machine.specs.declared.row.Row as spec_row;
ghost use Rattle.lnt_sequences.specs.RowSpans.{row_spans};
ghost use Rattle.lnt_lines.specs.Indexed.{IsSequenceIn};
ghost use Rattle.lnt_lines.specs.Cursors.{AreToCome, ComeLater, most_left, room_for, room_of};
ghost use Rattle.lnt_lines.specs.Stepping.{GivesHere};

use crate::index::rows_of;
use lnt_machine::{Program, Row, SequenceRows};
use lnt_sequences::{Extent, SeqId, next_span};
use lnt_spans::{Span, SpanSource};
use std::marker::Model;

/// The spans of an index, in order. It holds one sequence at a time, which it decodes when its spans come next.
///
/// Contracts see its position (`Cursor`), and say which spans remain (`AreToCome`).
#[derive(Drop)]
pub struct Spans<'a> {
    units: &'a [u64],
    programs: &'a [Program],
    // those of the sequences that haven't begun
    entries: &'a [Extent],
    // the unit of the current sequence, its remaining rows, and the last row so far
    unit: u64,
    rows: Option<SequenceRows<'a>>,
    last: Option<Row>,
}

impl<'a> Model for Spans<'a> {
    ghost use Rattle.lnt_header.specs.Joins.{AreRising};
    ghost use Rattle.lnt_lines.specs.Cursors.{Cursor};

    ghost Value = { Cursor };

    ghost view = { λ s. record {
      units = s.units.now;
      programs = s.programs.now;
      entries = s.entries.now;
      unit = s.unit;
      rows = s.rows;
      last = s.last;
    } };

    ghost invariant = { λ s. AreRising s.units.now };
}

impl<'a> Spans<'a> {
    // The spans of the sequences that these entries are of, in this order.
    pub(crate) fn of(units: &'a [u64], programs: &'a [Program], entries: &'a [Extent]) -> Spans<'a>
        requires { AreRising units.now }
        ensures { result ≡ record {
          units = units.entry.now;
          programs = programs.entry.now;
          entries = entries.entry.now;
          unit = 0;
          rows = None;
          last = None;
        } }
    {
        Spans {
            units,
            programs,
            entries,
            unit: 0,
            rows: None,
            last: None,
        }
    }

    // The spans of the sequence with this id alone.
    pub(crate) fn of_one(units: &'a [u64], programs: &'a [Program], id: SeqId) -> Spans<'a>
        requires { AreRising units.now }
        ensures { (rows : List spec_row.Row) → IsSequenceIn units.entry.now programs.entry.now id rows
            → AreToCome result (row_spans id.unit rows) }
    {
        Spans {
            units,
            programs,
            entries: &[],
            unit: id.unit,
            rows: rows_of(units, programs, id),
            last: None,
        }
    }

    // The next span of the current sequence.
    #[inline(always)]
    fn next_here(&mut self) -> Option<Span>
        ensures same { (self.new.units ≡ self.old.units) × (self.new.programs ≡ self.old.programs) × (self.new.entries ≡ self.old.entries) }
        ensures fewer { IfSome result (λ _. most_left self.new < most_left self.old) }
        ensures gives { (spans : List spec.Span) → AreToCome self.old spans → GivesHere self.new spans result }
    {
        let Some(rows) = &mut self.rows else {
            return None;
        };
        next_span(self.unit, rows, &mut self.last)
    }

    // Begins the next sequence, if there is one. Inlined, so that the state of a walk can stay in registers.
    #[inline(always)]
    fn begin(&mut self) -> bool
        ensures same { (self.new.units ≡ self.old.units) × (self.new.programs ≡ self.old.programs) }
        ensures fewer { result ≡ true → most_left self.new < room_for (room_of self.old.programs) self.old.entries }
        ensures begins { (spans : List spec.Span) → ComeLater spans self.old → MatchBool result (AreToCome self.new spans) (spans ≡ []) }
    {
        let Some((entry, entries)) = self.entries.split_first() else {
            return false;
        };
        self.entries = entries;
        self.unit = entry.id.unit;
        self.rows = rows_of(self.units, self.programs, entry.id);
        self.last = None;
        true
    }
}

impl<'a> SpanSource for Spans<'a> {
    ghost to_come = { AreToCome };

    ghost left = { most_left };

    #[inline(always)]
    fn next_span(&mut self) -> Option<Span> {
        // One call in one place, so that the walk is inlined where its spans are used.
        loop {
            if let Some(span) = self.next_here() {
                return Some(span);
            }
            if !self.begin() {
                return None;
            }
        }
    }
}
