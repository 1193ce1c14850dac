//! Asks the live sequences that hold a position for an answer of a table.
ghost use Rattle.std.specs.Prelude.{◌≡◌, ◌+◌, ◌≤◌, ◌⊎◌, ◌<◌, length, get_or, IfOk, IfSome, Some};
ghost use Rattle.lnt_spans.specs.declared.position.Position as spec_position;
ghost use Rattle.lnt_spans.specs.Positions.{IsAtMost, IsBelow};
ghost use Rattle.lnt_sequences.specs.declared.extent.Extent as spec_extent;
ghost use Rattle.lnt_sequences.specs.Copies.{IsAnyAnswer};
ghost use Rattle.lnt_sequences.specs.Sequences.{Selection};
ghost use Rattle.lnt_lines.specs.Indexed.{IsIndexOf};
ghost use Rattle.lnt_table.specs.Asked.{AreAllReady, AreCopies, AreReady, AreSequencesFrom};
ghost use Rattle.lnt_table.specs.Asked.{AreWhole, FindsTurn, IsWholeSource, IsTurn, OfLive};
ghost use Rattle.lnt_table.specs.Groups.{BeginFrom, BeginInTurn, NextIsAfter};

use crate::group::Group;
use crate::said::{SequenceSpans, TableAnswer, first_turn};
use lnt_lines::{Index, Spans};
use lnt_spans::Position;
use std::alloc::{AllocError, Global};

/// The live sequences of an index, copies too, as positions rise.
///
/// It holds a cursor for each of those that hold the position at hand. While positions rise each sequence is decoded once.
#[derive(Drop)]
pub struct Copies<'i, 'a> {
    index: &'i Index<'a>,
    group: Group<'i>,
    // the place in the group's extents of the first sequence of which a cursor is held
    held: usize,
    // the spans that are left of it and of those after it
    sequences: Vec<SequenceSpans<Spans<'i>>>,
}

impl<'i, 'a> Copies<'i, 'a> {
    // Those of an index that has the extents of all live sequences; of another index there are none.
    pub(crate) fn of(alloc: Global, index: &'i Index<'a>) -> Copies<'i, 'a>
        ensures copies { AreCopies result }
        ensures index { result.index.now ≡ index.entry.now }
        ensures ready { (selection : Selection) (whole : spec_position.Position) → AreWhole selection result whole }
    {
        Copies {
            index,
            group: Group::of(index.live()),
            held: 0,
            sequences: Vec::new(alloc),
        }
    }

    // Goes on to another answer, to be asked for from `low` on, where the cursors are ready for any answer from `whole` on. If that is
    // above `low`, they are begun anew.
    pub(crate) fn pass_to(&mut self, alloc: Global, whole: Position, low: Position)
        requires { AreCopies self.old }
        ensures copies { AreCopies self.new }
        ensures index { self.new.index ≡ self.old.index }
        ensures ready { (selection : Selection) → AreWhole selection self.old whole → AreWhole selection self.new low }
    {
        if low < whole {
            self.held = 0;
            self.sequences = Vec::new(alloc);
        }
    }

    // The least position from `low` up to `high` at which one of the live sequences that hold it says this, if that is looked for; and else
    // the least at which none of them does. The cursors are ready for the same answer from there on, or for any answer from `high` on.
    pub(crate) fn first_turn<A: TableAnswer>(
        &mut self,
        alloc: Global,
        answer: &A,
        is_said: bool,
        low: Position,
        high: Position,
    ) -> Result<Option<Position>, AllocError>
        requires copies { AreCopies self.old }
        requires some { IsBelow low high }
        ensures copies { AreCopies self.new }
        ensures index { self.new.index ≡ self.old.index }
        ensures range { IfOk result (λ found. IfSome found (λ at. IsAtMost low at × IsBelow at high)) }
        ensures found { IfOk result (λ found. OfLive self.old.index.now (λ selection.
            FindsTurn is_said (IsAnyAnswer (A.tell answer.now) selection) (AreReady (A.tell answer.now) selection self.old)
            (AreReady (A.tell answer.now) selection self.new) (Some (A.said answer.now)) low high found)) }
    {
        self.go_to(alloc, low)?;
        let mut at = low;
        loop {
            let end = self.group.end(high);
            let to = self.turn_in_group(answer, is_said, at, end)?;
            if to < end {
                return Ok(Some(to));
            }
            if end >= high {
                return Ok(None);
            }
            self.go_to(alloc, end)?;
            at = end;
        }
    }

    // The same for positions of the group.
    fn turn_in_group<A: TableAnswer>(
        &mut self,
        answer: &A,
        is_said: bool,
        at: Position,
        end: Position,
    ) -> Result<Position, AllocError>
        requires copies { AreCopies self.old }
        requires held { AreAllReady self.old }
        requires at { self.old.group.at ≡ at }
        requires some { IsBelow at end }
        requires end { BeginInTurn self.old.group.extents.now → BeginFrom self.old.group.extents.now self.old.group.begun end }
        ensures copies { AreCopies self.new }
        ensures index { self.new.index ≡ self.old.index }
        ensures group { self.new.group ≡ self.old.group }
        ensures past { IfOk result (λ to. IsAtMost at to) }
        ensures upto { IfOk result (λ to. IsAtMost to end) }
        ensures turn { IfOk result (λ to. OfLive self.old.index.now (λ selection. (whole : spec_position.Position) → IsAtMost end whole
            → AreReady (A.tell answer.now) selection self.old (Some (A.said answer.now)) at whole
            → IsTurn is_said (IsAnyAnswer (A.tell answer.now) selection) (Some (A.said answer.now)) at end to
            × AreReady (A.tell answer.now) selection self.new (Some (A.said answer.now)) to whole)) }
    {
        lnt_sequences::laws::extents_of_sequences();
        let to = first_turn(&mut self.sequences, answer, is_said, at, end)?;
        Ok(to)
    }

    // Goes on to a position. If other sequences may hold it than those of which cursors are held, it begins new ones.
    fn go_to(&mut self, alloc: Global, at: Position) -> Result<(), AllocError>
        requires { AreCopies self.old }
        ensures copies { AreCopies self.new }
        ensures index { self.new.index ≡ self.old.index }
        ensures extents { self.new.group.extents ≡ self.old.group.extents }
        ensures at { self.new.group.at ≡ at }
        ensures reached { IsAtMost self.old.group.at at → self.old.group.begun ≤ self.new.group.begun
            × (self.old.group.begun < length self.old.group.extents.now
            → ((d : spec_extent.Extent) → IsAtMost (get_or self.old.group.extents.now self.old.group.begun d).low at)
            → self.old.group.begun < self.new.group.begun) }
        ensures ahead { NextIsAfter self.new.group.extents.now self.new.group.begun at }
        ensures held { IfOk result (λ _. AreAllReady self.new) }
        ensures ready { IfOk result (λ _. ((self.new.held ≡ self.old.held) × (self.new.sequences ≡ self.old.sequences))
            ⊎ ((selection : Selection) → IsIndexOf selection self.new.index.now
            → AreSequencesFrom IsWholeSource selection self.new.group.extents.now self.new.held self.new.sequences.items)) }
    {
        self.group.go_to(at);
        let group = self.group;
        if self.held <= group.first && group.begun - self.held == self.sequences.len() {
            return Ok(());
        }
        let sequences = self.begin(alloc)?;
        self.sequences = sequences;
        self.held = self.group.first;
        Ok(())
    }

    // The spans of the sequences of the group.
    fn begin(&self, alloc: Global) -> Result<Vec<SequenceSpans<Spans<'i>>>, AllocError>
        requires { AreCopies self.now }
        ensures count { IfOk result (λ sequences. self.now.group.first + length sequences.items ≡ self.now.group.begun) }
        ensures each { IfOk result (λ sequences. (selection : Selection) → IsIndexOf selection self.now.index.now
            → AreSequencesFrom IsWholeSource selection self.now.group.extents.now self.now.group.first sequences.items) }
    {
        let mut sequences = Vec::new(alloc);
        for place in self.group.first..self.group.begun {
            let id = self.group.extents[place].id;
            sequences.push(SequenceSpans::of(self.index.spans_of(id)))?;
        }
        Ok(sequences)
    }
}
