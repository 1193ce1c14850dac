//! Gives the stretches of positions at which none of the live sequences answers as a table does.
ghost use Rattle.std.specs.Prelude.{◌≡◌, ◌≢◌, ◌<◌, ◌≤◌, ◌-◌, ◌^◌, List, [], ◌∷◌, ◌++◌, map, None, Option, IfOk, IfSome, IsTrue};
ghost use Rattle.std.specs.Prelude.{MatchBool, MatchOption, option_map};
ghost use Rattle.lnt_spans.specs.declared.position.Position as spec_position;
ghost use Rattle.lnt_spans.specs.AnyStretches.{AreAnswers};
ghost use Rattle.lnt_spans.specs.Partial.{AreCounts};
ghost use Rattle.lnt_spans.specs.Positions.{IsAtMost, IsBelow};
ghost use Rattle.lnt_sequences.specs.Copies.{AreExtentsOf, IsAnyAnswer};
ghost use Rattle.lnt_sequences.specs.Sequences.{line_answer, live_sequences, Selection};
ghost use Rattle.lnt_lines.specs.Indexed.{IsIndexOf};
ghost use Rattle.lnt_table.specs.AnyCopy.{AreAllWrong, AreFirstWrong, EndsWrong, IsRightIn};
ghost use Rattle.lnt_table.specs.Asked.{AreCopies, AreReady, FindsPiece, OfLive, piece_end, unanswered_in};
ghost use Rattle.lnt_table.specs.WrongStretches.{CanGoOn, HasFoundWrong, rank, wrong_left};

use crate::copies::Copies;
use crate::kept::{EndedDifference, KeptStretches};
use lnt_lines::Index;
use lnt_spans::{Coverage, Position, Scope};
use std::alloc::{AllocError, Global};

/// Gives the stretches of positions in a scope at which a table isn't right, if the answer of any live sequence that holds a position is:
/// the longest runs of such positions with the same two answers, that of the table and that of the kept sequence.
///
/// No list of them is held. At each stretch at which the kept sequences answer otherwise it holds a cursor for each sequence that holds it.
/// Each of these is decoded once, however many stretches it holds.
#[derive(Drop)]
pub struct WrongStretches<'i, 'a, K, D> {
    kept: K,
    copies: Copies<'i, 'a>,
    scope: Scope,
    // the stretch of `kept` that was given last
    hand: Option<D>,
    // the positions of it that weren't judged yet: from here
    from: Position,
    // up to here
    end: Position,
}

// A range of positions: its first one, and the first after it.
#[derive(Clone, Copy)]
pub(crate) struct Piece {
    low: Position,
    high: Position,
}

impl<'i, 'a, D: Drop, K: KeptStretches<D>> WrongStretches<'i, 'a, K, D> {
    /// None of those was given of an index that has the extents of all live sequences (`index_with_copies`).
    pub fn of(
        alloc: Global,
        kept: K,
        index: &'i Index<'a>,
        scope: Scope,
    ) -> WrongStretches<'i, 'a, K, D>
        ensures kept { result.kept ≡ kept }
        ensures scope { result.scope ≡ scope }
        ensures going { ((by_section : spec_position.Position → Option K.Told) × (by_table : spec_position.Position → Option K.Told)
            × K.has_given kept by_section by_table []) → CanGoOn K.has_given result }
        ensures begun { (selection : Selection) (by_section by_table : spec_position.Position → Option K.Told)
            → IsIndexOf selection index.entry.now → AreExtentsOf (live_sequences selection.dead selection.units) index.entry.now.live
            → ((p : spec_position.Position) → by_section p ≡ option_map (K.tell kept) (line_answer selection p))
            → K.has_given kept by_section by_table []
            → HasFoundWrong K.tell K.value_of K.has_given result selection by_section by_table [] }
    {
        WrongStretches {
            kept,
            copies: Copies::of(alloc, index),
            scope,
            hand: None,
            from: Position { address: 0, op: 0 },
            end: Position { address: 0, op: 0 },
        }
    }

    /// Gives the next stretch, and its end; `None` once all were given. The one error is that memory ran out: then nothing is known of
    /// the state.
    pub fn next_wrong(&mut self, alloc: Global) -> Result<Option<EndedDifference<D>>, AllocError>
        requires { CanGoOn K.has_given self.old }
        ensures scope { self.new.scope ≡ self.old.scope }
        ensures tell { K.tell self.new.kept ≡ K.tell self.old.kept }
        ensures going { IfOk result (λ found. IfSome found (λ _. CanGoOn K.has_given self.new)) }
        ensures fewer { IfOk result (λ found. IfSome found (λ _. wrong_left K.left self.new < wrong_left K.left self.old)) }
        ensures found { IfOk result (λ found. (selection : Selection) (by_section by_table : spec_position.Position → Option K.Told)
            (given : List D) → HasFoundWrong K.tell K.value_of K.has_given self.old selection by_section by_table given
            → MatchOption found
            (AreAllWrong self.old.scope (IsAnyAnswer (K.tell self.old.kept) selection) by_section by_table (map K.value_of given)
            × AreCounts by_table by_section (K.covers self.new.kept).answered (K.covers self.new.kept).all)
            (λ ended. HasFoundWrong K.tell K.value_of K.has_given self.new selection by_section by_table (given ++ ended.difference ∷ [])
            × EndsWrong self.old.scope (IsAnyAnswer (K.tell self.old.kept) selection) by_section by_table (K.value_of ended.difference)
            ended.end)) }
    {
        loop {
            if let Some(ended) = self.next_of_rest(alloc)? {
                return Ok(Some(ended));
            }
            if !self.go_on(alloc)? {
                return Ok(None);
            }
        }
    }

    /// How much of the section the table answers, once all stretches were given.
    pub fn coverage(&self) -> Coverage
        ensures { result ≡ K.covers self.now.kept }
    {
        self.kept.coverage()
    }

    // Gives the next stretch that lies in what is left of the stretch at hand. If there is none, nothing is left of it.
    fn next_of_rest(&mut self, alloc: Global) -> Result<Option<EndedDifference<D>>, AllocError>
        requires { CanGoOn K.has_given self.old }
        ensures scope { self.new.scope ≡ self.old.scope }
        ensures kept { self.new.kept ≡ self.old.kept }
        ensures going { IfOk result (λ _. CanGoOn K.has_given self.new) }
        ensures passed { IfOk result (λ found. found ≡ None → IsAtMost self.new.end self.new.from) }
        ensures fewer { IfOk result (λ found. MatchOption found (wrong_left K.left self.new ≤ wrong_left K.left self.old)
            (λ _. wrong_left K.left self.new < wrong_left K.left self.old)) }
        ensures found { IfOk result (λ found. (selection : Selection) (by_section by_table : spec_position.Position → Option K.Told)
            (given : List D) → HasFoundWrong K.tell K.value_of K.has_given self.old selection by_section by_table given
            → MatchOption found (HasFoundWrong K.tell K.value_of K.has_given self.new selection by_section by_table given)
            (λ ended. HasFoundWrong K.tell K.value_of K.has_given self.new selection by_section by_table (given ++ ended.difference ∷ [])
            × EndsWrong self.old.scope (IsAnyAnswer (K.tell self.old.kept) selection) by_section by_table (K.value_of ended.difference)
            ended.end)) }
    {
        if self.from >= self.end {
            return Ok(None);
        }
        let Some(difference) = &self.hand else {
            self.from = self.end;
            return Ok(None);
        };
        let found = wrong_in(
            alloc,
            &self.kept,
            &mut self.copies,
            self.scope,
            difference,
            self.from,
            self.end,
        )?;
        let Some(piece) = found else {
            self.from = self.end;
            return Ok(None);
        };
        let difference = self.kept.moved(alloc, difference, piece.low)?;
        nearer(self.from, piece.high, self.end);
        self.from = piece.high;
        Ok(Some(EndedDifference {
            difference,
            low: piece.low,
            end: piece.high,
        }))
    }

    // Goes on to the next stretch at which the kept sequences answer otherwise than the table, if there is one.
    fn go_on(&mut self, alloc: Global) -> Result<bool, AllocError>
        requires going { CanGoOn K.has_given self.old }
        requires passed { IsAtMost self.old.end self.old.from }
        ensures scope { self.new.scope ≡ self.old.scope }
        ensures tell { K.tell self.new.kept ≡ K.tell self.old.kept }
        ensures going { IfOk result (λ more. IsTrue more → CanGoOn K.has_given self.new) }
        ensures fewer { IfOk result (λ more. IsTrue more → wrong_left K.left self.new < wrong_left K.left self.old) }
        ensures found { IfOk result (λ more. (selection : Selection) (by_section by_table : spec_position.Position → Option K.Told)
            (given : List D) → HasFoundWrong K.tell K.value_of K.has_given self.old selection by_section by_table given
            → MatchBool more (HasFoundWrong K.tell K.value_of K.has_given self.new selection by_section by_table given)
            (AreAllWrong self.old.scope (IsAnyAnswer (K.tell self.old.kept) selection) by_section by_table (map K.value_of given)
            × AreCounts by_table by_section (K.covers self.new.kept).answered (K.covers self.new.kept).all)) }
    {
        let Some(ended) = self.kept.next_kept(alloc)? else {
            return Ok(false);
        };
        apart(ended.low, ended.end);
        self.copies.pass_to(alloc, self.end, ended.low);
        self.hand = Some(ended.difference);
        self.from = ended.low;
        self.end = ended.end;
        Ok(true)
    }
}

// The first positions of a stretch, from one up to its end, at which the table isn't right in the scope.
fn wrong_in<D, K: KeptStretches<D>>(
    alloc: Global,
    kept: &K,
    copies: &mut Copies<'_, '_>,
    scope: Scope,
    difference: &D,
    from: Position,
    end: Position,
) -> Result<Option<Piece>, AllocError>
    requires copies { AreCopies copies.old }
    requires some { IsBelow from end }
    ensures copies { AreCopies copies.new }
    ensures index { copies.new.index ≡ copies.old.index }
    ensures range { IfOk result (λ found. IfSome found (λ piece. IsBelow from piece.high × IsAtMost piece.high end)) }
    ensures found { IfOk result (λ found. OfLive copies.old.index.now (λ selection.
        (by_section by_table : spec_position.Position → Option K.Told)
        → ((p : spec_position.Position) → by_section p ≡ option_map (K.tell kept.now) (line_answer selection p))
        → ((p : spec_position.Position) → IsAtMost from p → IsBelow p end
        → AreAnswers by_section by_table (K.value_of difference.now).by_section (K.value_of difference.now).by_table p)
        → (K.value_of difference.now).by_table ≢ (K.value_of difference.now).by_section
        → AreReady (K.tell kept.now) selection copies.old (K.value_of difference.now).by_table from end
        → FindsPiece (IsRightIn scope (IsAnyAnswer (K.tell kept.now) selection) by_table) from end found
        × AreReady (K.tell kept.now) selection copies.new (K.value_of difference.now).by_table (piece_end end found) end)) }
{
    if !kept.is_answered(difference) {
        return Ok(unanswered(scope, from, end));
    }
    let Some(low) = kept.first_turn(alloc, copies, difference, false, from, end)? else {
        return Ok(None);
    };
    let found = kept.first_turn(alloc, copies, difference, true, low, end)?;
    let high = end_of(low, found, end);
    Ok(Some(Piece { low, high }))
}

// Where the positions that begin at `low` end: at the next one at which the answer is said, which lies above, or at the stretch's end.
fn end_of(low: Position, found: Option<Position>, end: Position) -> Position
    requires some { IsBelow low end }
    requires within { IfSome found (λ high. IsAtMost high end) }
    ensures past { IsBelow low result }
    ensures upto { IsAtMost result end }
    ensures found { MatchOption found (result ≡ end) (λ high. IsBelow low high → result ≡ high) }
{
    if let Some(high) = found {
        if low < high {
            return high;
        }
    }
    end
}

// A later position is nearer to an end.
fn nearer(from: Position, to: Position, end: Position)
    requires later { IsBelow from to }
    requires upto { IsAtMost to end }
    ensures { rank end - rank to < rank end - rank from }
{}

// How far two positions may be apart.
fn apart(from: Position, end: Position)
    ensures { rank end - rank from < 2 ^ 128 }
{}

// The rest of a stretch at which the table doesn't answer, if it counts.
fn unanswered(scope: Scope, low: Position, high: Position) -> Option<Piece>
    ensures { result ≡ unanswered_in scope low high }
{
    match scope {
        Scope::All => Some(Piece { low, high }),
        Scope::Answered => None,
    }
}
