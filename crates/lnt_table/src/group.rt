//! Which extents may hold positions, as positions rise.
ghost use Rattle.std.specs.Prelude.{◌≡◌, ℕ, ◌<◌, ◌≤◌, length, get_or};
ghost use Rattle.lnt_spans.specs.declared.position.Position as spec_position;
ghost use Rattle.lnt_spans.specs.Positions.{IsAtMost, IsBelow};
ghost use Rattle.lnt_sequences.specs.declared.extent.Extent as spec_extent;
ghost use Rattle.lnt_table.specs.Groups.{BeginFrom, BeginInTurn, HaveEnded, IsGroup, NextIsAfter};

use lnt_sequences::Extent;
use lnt_spans::Position;

// Of extents by first position, those that may hold a position, and those after it up to the next one that begins.
#[derive(Clone, Copy)]
pub(crate) struct Group<'l> {
    pub(crate) extents: &'l [Extent],
    // the place of the first of them; those before it end at or below `at`
    pub(crate) first: usize,
    // the place after the last of them
    pub(crate) begun: usize,
    // the position that was reached
    pub(crate) at: Position,
}

impl<'l> Group<'l> {
    // None of the extents was reached.
    pub(crate) fn of(extents: &'l [Extent]) -> Group<'l>
        ensures extents { result.extents ≡ extents.entry }
        ensures group { IsGroup result.extents.now result.first result.begun result.at }
    {
        Group {
            extents,
            first: 0,
            begun: 0,
            at: Position { address: 0, op: 0 },
        }
    }

    // Goes on to a position. In rising order each extent is passed once; below the last position all of them are asked for again.
    pub(crate) fn go_to(&mut self, at: Position)
        requires { IsGroup self.old.extents.now self.old.first self.old.begun self.old.at }
        ensures extents { self.new.extents ≡ self.old.extents }
        ensures group { IsGroup self.new.extents.now self.new.first self.new.begun self.new.at }
        ensures at { self.new.at ≡ at }
        ensures reached { IsAtMost self.old.at at → self.old.begun ≤ self.new.begun × (self.old.begun < length self.old.extents.now
            → ((d : spec_extent.Extent) → IsAtMost (get_or self.old.extents.now self.old.begun d).low at)
            → self.old.begun < self.new.begun) }
        ensures ahead { NextIsAfter self.new.extents.now self.new.begun at }
    {
        if at < self.at {
            self.first = 0;
            self.begun = 0;
        }
        self.at = at;
        self.begun = begun_at(self.extents, self.begun, at);
        self.first = ended_at(self.extents, self.first, self.begun, at);
    }

    // Up to where no other extent begins: `high`, or the first position of the next one.
    pub(crate) fn end(&self, high: Position) -> Position
        ensures upto { IsAtMost result high }
        ensures later { BeginInTurn self.now.extents.now → BeginFrom self.now.extents.now self.now.begun result }
        ensures next { IsBelow result high → self.now.begun < length self.now.extents.now
            × ((d : spec_extent.Extent) → (get_or self.now.extents.now self.now.begun d).low ≡ result) }
        ensures after { (at : spec_position.Position) → IsBelow at high → NextIsAfter self.now.extents.now self.now.begun at
            → IsBelow at result }
    {
        if self.begun < self.extents.len() {
            let low = self.extents[self.begun].low;
            if low < high {
                return low;
            }
        }
        high
    }
}

// The place after the last extent that begins at or below a position, from a place on.
fn begun_at(extents: &[Extent], from: usize, at: Position) -> usize
    requires { from ≤ length extents.now }
    ensures past { from ≤ result }
    ensures within { result ≤ length extents.now }
    ensures ahead { NextIsAfter extents.now result at }
    ensures reached { from < length extents.now → ((d : spec_extent.Extent) → IsAtMost (get_or extents.now from d).low at)
        → from < result }
{
    for place in from..extents.len() {
        if at < extents[place].low {
            return place;
        }
    }
    extents.len()
}

// The place of the first extent that ends above a position, from a place on, or `to`.
fn ended_at(extents: &[Extent], from: usize, to: usize, at: Position) -> usize
    requires ordered { from ≤ to }
    requires within { to ≤ length extents.now }
    ensures upto { result ≤ to }
    ensures ended { HaveEnded extents.now from at → HaveEnded extents.now result at }
{
    for place in from..to {
        if at < extents[place].high {
            return place;
        }
    }
    to
}
