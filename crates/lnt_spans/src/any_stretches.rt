//! Lists all stretches of positions at which a section and a table answer differently, one after another.
ghost use Rattle.std.specs.Prelude.{◌≡◌, ◌≢◌, ◌⊎◌, ◌+◌, ◌^◌, ◌<◌, ◌≤◌, List, ◌∷◌, ◌++◌, [], None, Option, Some, MatchOption, IfOk, IfSome};
ghost use Rattle.std.specs.Prelude.{OnOk, IsTrue, MatchBool, option_map};
ghost use Rattle.lnt_spans.specs.declared.position.Position as spec_position;
ghost use Rattle.lnt_spans.specs.AnyStretches.{AreAllStretches, EndsAt, Stretch};
ghost use Rattle.lnt_spans.specs.Partial.{addresses_answered, where_missed};
ghost use Rattle.lnt_spans.specs.Positions.{IsBelow};
ghost use Rattle.lnt_spans.specs.Runs.{IsBefore, IsUpTo};
ghost use Rattle.lnt_spans.specs.Stepping.{HasFewerOrEnds, HasGivenIn, IsInRun, IsKnown, StaysUntil, StretchStep, answered_between};
ghost use Rattle.lnt_spans.specs.Stepping.{missed_between};
ghost use Rattle.lnt_spans.specs.Stretching.{HasBegun, HasGiven, IsGoing, stretches_to_give};

use crate::ahead::Ahead;
use crate::answer::Answer;
use crate::counts::add_between;
use crate::position::Position;
use crate::runs::{Run, Runs};
use crate::source::SpanSource;
use crate::telling::Telling;

/// Gives the stretches: the longest ranges of positions at which a section and a table answer differently and both answers
/// stay the same. The spans of both sides come as they are needed.
///
/// Contracts see which stretches were given (`HasGiven`), and an upper bound on the number left (`stretches_to_give`). No list
/// of them is held: only the next span of each side, and the last two answers.
#[derive(Drop)]
pub struct Stretches<S, N, A> {
    section: Ahead<S>,
    table: N,
    // every stretch that begins below `at` was given
    at: Position,
    // both answers right below `at`
    before: Both<A>,
    // the addresses below `at` at which the section answers
    all: u128,
    // those of them at which the table doesn't
    missed: u128,
}

// The answers of a section and a table.
#[derive(Clone, Copy)]
struct Both<A> {
    section: Option<Answer>,
    table: Option<A>,
}

// Both answers at a position, which stay the same up to the first end of either.
#[derive(Clone, Copy)]
struct Step<A> {
    at: Position,
    both: Both<A>,
    // whether no stretch begins there
    is_known: bool,
}

impl<S: SpanSource, N, A> Stretches<S, N, A> {
    /// Starts at `at`, with no stretch given yet. Below `at` both sides answer at this many addresses, and alike.
    pub fn past(section: S, table: N, at: Position, answered: u128) -> Stretches<S, N, A>
        ensures { HasBegun S.to_come section table at answered result }
    {
        Stretches {
            section: Ahead::of(section),
            table,
            at,
            before: Both {
                section: None,
                table: None,
            },
            all: answered,
            missed: 0,
        }
    }

    /// The number of addresses, among those that were compared, at which the section answers.
    pub fn all(&self) -> u128
        ensures { result ≡ self.now.all }
    {
        self.all
    }

    /// The number of addresses, among those that were compared, at which the section answers and the table doesn't.
    pub fn missed(&self) -> u128
        ensures { result ≡ self.now.missed }
    {
        self.missed
    }
}

/// Gives the next stretch: its first position and the two answers. `None` once all were given; those are then exactly the
/// stretches, in ascending order, and all addresses were compared. `stretch_end` passes the rest of the stretch. After an error
/// nothing is known of the state.
pub fn next_stretch<S: SpanSource, N: Runs<T::Held>, T: Telling>(
    stretches: &mut Stretches<S, N, T::Held>,
    telling: &T,
    memory: &mut T::Memory,
) -> Result<Option<T::Difference>, T::Refusal>
    requires sound { T.is_sound telling.now memory.old }
    requires given { (by_section : spec_position.Position → Option T.Told) × (by_table : spec_position.Position → Option T.Told)
        × (given : List (Stretch T.Told))
        × HasGiven S.to_come N.is_at N.value_of (T.tell telling.now) T.said stretches.old by_section by_table given }
    ensures sound { OnOk result (T.is_sound telling.now memory.new) }
    ensures given { IfOk result (λ found. (by_section by_table : spec_position.Position → Option T.Told) (given : List (Stretch T.Told))
        → HasGiven S.to_come N.is_at N.value_of (T.tell telling.now) T.said stretches.old by_section by_table given
        → MatchOption found (AreAllStretches by_section by_table given
        × (stretches.new.missed ≡ addresses_answered (where_missed by_table by_section))
        × (stretches.new.all ≡ addresses_answered by_section))
        (λ difference. HasGiven S.to_come N.is_at N.value_of (T.tell telling.now) T.said stretches.new by_section by_table
        (given ++ T.value_of difference ∷ []))) }
    ensures going { IfOk result (λ found. (by_section by_table : spec_position.Position → Option T.Told) (given : List (Stretch T.Told))
        → HasGiven S.to_come N.is_at N.value_of (T.tell telling.now) T.said stretches.old by_section by_table given
        → IfSome found (λ difference. IsGoing (T.tell telling.now) T.said stretches.new by_section by_table (T.value_of difference))) }
    ensures fewer { IfOk result (λ found. IfSome found (λ _.
        stretches_to_give S.left N.runs stretches.new < stretches_to_give S.left N.runs stretches.old)) }
{
    while let Some(step) = pass_run(stretches, telling, memory)? {
        if !step.is_known {
            let difference = telling.difference(step.at, step.both.table, step.both.section)?;
            return Ok(Some(difference));
        }
    }
    Ok(None)
}

/// Passes the rest of the stretch that was given last, and gives its end: the first position after it. After an error nothing is
/// known of the state.
pub fn stretch_end<S: SpanSource, N: Runs<T::Held>, T: Telling>(
    stretches: &mut Stretches<S, N, T::Held>,
    telling: &T,
    memory: &mut T::Memory,
) -> Result<Position, T::Refusal>
    requires sound { T.is_sound telling.now memory.old }
    requires given { (by_section : spec_position.Position → Option T.Told) × (by_table : spec_position.Position → Option T.Told)
        × (given : List (Stretch T.Told))
        × HasGiven S.to_come N.is_at N.value_of (T.tell telling.now) T.said stretches.old by_section by_table given }
    ensures sound { OnOk result (T.is_sound telling.now memory.new) }
    ensures given { OnOk result ((by_section by_table : spec_position.Position → Option T.Told) (given : List (Stretch T.Told))
        → HasGiven S.to_come N.is_at N.value_of (T.tell telling.now) T.said stretches.old by_section by_table given
        → HasGiven S.to_come N.is_at N.value_of (T.tell telling.now) T.said stretches.new by_section by_table given) }
    ensures end { IfOk result (λ end. (by_section by_table : spec_position.Position → Option T.Told) (given : List (Stretch T.Told))
        (last : Stretch T.Told)
        → HasGiven S.to_come N.is_at N.value_of (T.tell telling.now) T.said stretches.old by_section by_table given
        → IsGoing (T.tell telling.now) T.said stretches.old by_section by_table last → EndsAt by_section by_table last end) }
    ensures fewer { OnOk result (stretches_to_give S.left N.runs stretches.new ≤ stretches_to_give S.left N.runs stretches.old) }
{
    let mut until = stretches.at;
    while goes_on(stretches, telling, memory, &mut until)? {}
    Ok(stretches.at)
}

// Steps to the next position at which an answer may end, if both are the same as before. Below `until` the table's answer is known to
// be as before, and isn't compared.
fn goes_on<S: SpanSource, N: Runs<T::Held>, T: Telling>(
    stretches: &mut Stretches<S, N, T::Held>,
    telling: &T,
    memory: &mut T::Memory,
    until: &mut Position,
) -> Result<bool, T::Refusal>
    requires sound { T.is_sound telling.now memory.old }
    requires given { (by_section : spec_position.Position → Option T.Told) × (by_table : spec_position.Position → Option T.Told)
        × (given : List (Stretch T.Told))
        × HasGiven S.to_come N.is_at N.value_of (T.tell telling.now) T.said stretches.old by_section by_table given
        × StaysUntil by_table stretches.old.at until.old (option_map T.said stretches.old.before.table) }
    ensures until { OnOk result ((by_section by_table : spec_position.Position → Option T.Told) (given : List (Stretch T.Told))
        → HasGiven S.to_come N.is_at N.value_of (T.tell telling.now) T.said stretches.old by_section by_table given
        → StaysUntil by_table stretches.old.at until.old (option_map T.said stretches.old.before.table)
        → StaysUntil by_table stretches.new.at until.new (option_map T.said stretches.new.before.table)) }
    ensures sound { OnOk result (T.is_sound telling.now memory.new) }
    ensures given { OnOk result ((by_section by_table : spec_position.Position → Option T.Told) (given : List (Stretch T.Told))
        → HasGiven S.to_come N.is_at N.value_of (T.tell telling.now) T.said stretches.old by_section by_table given
        → HasGiven S.to_come N.is_at N.value_of (T.tell telling.now) T.said stretches.new by_section by_table given) }
    ensures on { IfOk result (λ on. (by_section by_table : spec_position.Position → Option T.Told) (given : List (Stretch T.Told))
        (last : Stretch T.Told)
        → HasGiven S.to_come N.is_at N.value_of (T.tell telling.now) T.said stretches.old by_section by_table given
        → IsGoing (T.tell telling.now) T.said stretches.old by_section by_table last
        → MatchBool on (IsGoing (T.tell telling.now) T.said stretches.new by_section by_table last)
        (EndsAt by_section by_table last stretches.new.at)) }
    ensures fewer { IfOk result (λ on. MatchBool on
        (stretches_to_give S.left N.runs stretches.new < stretches_to_give S.left N.runs stretches.old)
        (stretches.new ≡ stretches.old)) }
{
    let at = stretches.at;
    let section = stretches.section.run_at(at);
    let table = stretches.table.run_at(at);
    let Some(end) = earlier_end(section.end, table.end) else {
        return Ok(false);
    };
    let both = Both {
        section: section.answer,
        table: table.answer,
    };
    let is_same = is_below(at, *until);
    if !are_as_before(telling, memory, both, stretches.before, is_same)? {
        return Ok(false);
    }
    *until = end_or(table.end, end);
    stretches.table.pass_to(end);
    stretches.section.pass_to(end);
    stretches.at = end;
    stretches.before = both;
    count_answered(&mut stretches.all, both.section, at, end);
    count_missed(&mut stretches.missed, both, at, end);
    Ok(true)
}

// Steps through a run of the table, up to the first position in it at which a stretch begins, or up to its end. What was compared
// with the run's answer is remembered until then. `None` if both sides are exhausted.
fn pass_run<S: SpanSource, N: Runs<T::Held>, T: Telling>(
    stretches: &mut Stretches<S, N, T::Held>,
    telling: &T,
    memory: &mut T::Memory,
) -> Result<Option<Step<T::Held>>, T::Refusal>
    requires sound { T.is_sound telling.now memory.old }
    requires given { (by_section : spec_position.Position → Option T.Told) × (by_table : spec_position.Position → Option T.Told)
        × (given : List (Stretch T.Told))
        × HasGiven S.to_come N.is_at N.value_of (T.tell telling.now) T.said stretches.old by_section by_table given }
    ensures sound { OnOk result (T.is_sound telling.now memory.new) }
    ensures given { IfOk result (λ found. (by_section by_table : spec_position.Position → Option T.Told) (given : List (Stretch T.Told))
        → HasGiven S.to_come N.is_at N.value_of (T.tell telling.now) T.said stretches.old by_section by_table given
        → StretchStep S.to_come N.is_at N.value_of (T.tell telling.now) T.said stretches.new by_section by_table given found) }
    ensures fewer { IfOk result (λ found. IfSome found (λ _.
        stretches_to_give S.left N.runs stretches.new < stretches_to_give S.left N.runs stretches.old)) }
{
    let run = stretches.table.run_at(stretches.at);
    let mut recalled = telling.nothing();
    let mut is_same = false;
    while let Some(step) = take_step(stretches, telling, memory, &mut recalled, run, is_same)? {
        if !step.is_known || is_reached(run.end, stretches.at) {
            stretches.table.pass_to(stretches.at);
            return Ok(Some(step));
        }
        is_same = true;
    }
    Ok(None)
}

// Whether an end was reached, if there is one.
#[inline(always)]
fn is_reached(end: Option<Position>, at: Position) -> bool
    ensures { IsUpTo at end → MatchBool result (end ≡ Some at) (IsBefore at end) }
{
    match end {
        Some(end) => at >= end,
        None => false,
    }
}

// Steps to the next position at which the section's answer may end, or this run of the table does. `None` if neither ever ends: both
// sides are exhausted. Whether the table's answer is known to be the same as before is told: then it isn't compared.
#[inline(always)]
fn take_step<S: SpanSource, N: Runs<T::Held>, T: Telling>(
    stretches: &mut Stretches<S, N, T::Held>,
    telling: &T,
    memory: &mut T::Memory,
    recalled: &mut T::Recalled,
    run: Run<T::Held>,
    is_same: bool,
) -> Result<Option<Step<T::Held>>, T::Refusal>
    requires sound { T.is_sound telling.now memory.old }
    requires recalled { IfSome run.answer (T.recalls telling.now recalled.old) }
    requires past { IsBefore stretches.old.at run.end }
    requires same { IsTrue is_same → stretches.old.before.table ≡ run.answer }
    requires given { (from : spec_position.Position) × (by_section : spec_position.Position → Option T.Told)
        × (by_table : spec_position.Position → Option T.Told) × (given : List (Stretch T.Told))
        × HasGivenIn S.to_come N.is_at N.value_of run from (T.tell telling.now) T.said stretches.old by_section by_table given }
    ensures sound { OnOk result (T.is_sound telling.now memory.new) }
    ensures recalled { OnOk result (IfSome run.answer (T.recalls telling.now recalled.new)) }
    ensures table { OnOk result (stretches.new.table ≡ stretches.old.table) }
    ensures before { IfOk result (λ found. IfSome found (λ _. stretches.new.before.table ≡ run.answer)) }
    ensures given { IfOk result (λ found. (from : spec_position.Position) (by_section by_table : spec_position.Position → Option T.Told)
        (given : List (Stretch T.Told))
        → HasGivenIn S.to_come N.is_at N.value_of run from (T.tell telling.now) T.said stretches.old by_section by_table given
        → StretchStep S.to_come (IsInRun N.is_at N.value_of run from) N.value_of (T.tell telling.now) T.said stretches.new
        by_section by_table given found) }
    ensures fewer { IfOk result (λ found. IfSome found (λ _. HasFewerOrEnds S.left stretches.old stretches.new run.end)) }
{
    let at = stretches.at;
    let section = stretches.section.run_at(at);
    let Some(end) = earlier_end(section.end, run.end) else {
        return Ok(None);
    };
    let both = Both {
        section: section.answer,
        table: run.answer,
    };
    let is_known = is_known(telling, memory, recalled, both, stretches.before, is_same)?;
    stretches.section.pass_to(end);
    stretches.at = end;
    stretches.before = both;
    count_answered(&mut stretches.all, both.section, at, end);
    count_missed(&mut stretches.missed, both, at, end);
    Ok(Some(Step { at, both, is_known }))
}

// Whether a position is below another.
#[inline(always)]
fn is_below(at: Position, until: Position) -> bool
    ensures { IsTrue result → IsBelow at until }
{
    at < until
}

// The end of a run, or another position if it has none.
#[inline(always)]
fn end_or(end: Option<Position>, other: Position) -> Position
    ensures { (p : spec_position.Position) → IsBelow p result → IsBefore p end }
{
    match end {
        Some(end) => end,
        None => other,
    }
}

// Adds the addresses from a position up to another, if a side answers there.
#[inline(always)]
fn count_answered<A: Copy>(answered: &mut u128, answer: Option<A>, at: Position, end: Position)
    ensures { answered.old + answered_between answer at end ≤ 2 ^ 64
        → answered.new ≡ answered.old + answered_between answer at end }
{
    if answer.is_some() {
        add_between(answered, at, end);
    }
}

// The earlier of two ends; `None` if both are.
#[inline(always)]
fn earlier_end(one: Option<Position>, other: Option<Position>) -> Option<Position>
    ensures { MatchOption result ((one ≡ None) × (other ≡ None))
        (λ end. IsUpTo end one × IsUpTo end other × ((one ≡ Some end) ⊎ (other ≡ Some end))) }
{
    match (one, other) {
        (Some(first), Some(second)) if second < first => other,
        (None, _) => other,
        _ => one,
    }
}

// Adds the addresses from a position up to another, if the section answers there and the table doesn't.
#[inline(always)]
fn count_missed<A: Copy>(missed: &mut u128, both: Both<A>, at: Position, end: Position)
    ensures { missed.old + missed_between both.section both.table at end ≤ 2 ^ 64
        → missed.new ≡ missed.old + missed_between both.section both.table at end }
{
    if both.section.is_some() && both.table.is_none() {
        add_between(missed, at, end);
    }
}

// Whether no new stretch begins: both sides answer alike, or each answers as it did before.
#[inline(always)]
fn is_known<T: Telling>(
    telling: &T,
    memory: &mut T::Memory,
    recalled: &mut T::Recalled,
    both: Both<T::Held>,
    before: Both<T::Held>,
    is_same: bool,
) -> Result<bool, T::Refusal>
    requires sound { T.is_sound telling.now memory.old }
    requires recalled { IfSome both.table (T.recalls telling.now recalled.old) }
    requires same { IsTrue is_same → option_map T.said both.table ≡ option_map T.said before.table }
    ensures sound { OnOk result (T.is_sound telling.now memory.new) }
    ensures recalled { OnOk result (IfSome both.table (T.recalls telling.now recalled.new)) }
    ensures known { IfOk result (λ known. IsKnown known (option_map (T.tell telling.now) both.section) (option_map T.said both.table)
        (option_map (T.tell telling.now) before.section) (option_map T.said before.table)) }
{
    if are_alike(telling, memory, recalled, both)? {
        return Ok(true);
    }
    are_as_before(telling, memory, both, before, is_same)
}

// Whether both answers are the same as before.
#[inline(always)]
fn are_as_before<T: Telling>(
    telling: &T,
    memory: &mut T::Memory,
    both: Both<T::Held>,
    before: Both<T::Held>,
    is_same: bool,
) -> Result<bool, T::Refusal>
    requires sound { T.is_sound telling.now memory.old }
    requires same { IsTrue is_same → option_map T.said both.table ≡ option_map T.said before.table }
    ensures sound { OnOk result (T.is_sound telling.now memory.new) }
    ensures same { IfOk result (λ same. MatchBool same
        ((option_map (T.tell telling.now) both.section ≡ option_map (T.tell telling.now) before.section)
        × (option_map T.said both.table ≡ option_map T.said before.table))
        (option_map (T.tell telling.now) both.section ≡ option_map (T.tell telling.now) before.section
        → option_map T.said both.table ≢ option_map T.said before.table)) }
{
    if !is_as_held(telling, both.table, before.table, is_same) {
        return Ok(false);
    }
    is_as_before(telling, memory, both.section, before.section)
}

// Whether both sides answer alike.
#[inline(always)]
fn are_alike<T: Telling>(
    telling: &T,
    memory: &mut T::Memory,
    recalled: &mut T::Recalled,
    both: Both<T::Held>,
) -> Result<bool, T::Refusal>
    requires sound { T.is_sound telling.now memory.old }
    requires recalled { IfSome both.table (T.recalls telling.now recalled.old) }
    ensures sound { OnOk result (T.is_sound telling.now memory.new) }
    ensures recalled { OnOk result (IfSome both.table (T.recalls telling.now recalled.new)) }
    ensures same { IfOk result (λ same. MatchBool same (option_map (T.tell telling.now) both.section ≡ option_map T.said both.table)
        (option_map (T.tell telling.now) both.section ≢ option_map T.said both.table)) }
{
    match (both.section, both.table) {
        (Some(answer), Some(held)) => telling.is_said(memory, recalled, &answer, held),
        (None, None) => Ok(true),
        _ => Ok(false),
    }
}

// Whether a table's answer is the same as before. If that is known, it isn't compared.
#[inline(always)]
fn is_as_held<T: Telling>(
    telling: &T,
    one: Option<T::Held>,
    other: Option<T::Held>,
    is_same: bool,
) -> bool
    requires { IsTrue is_same → option_map T.said one ≡ option_map T.said other }
    ensures { MatchBool result (option_map T.said one ≡ option_map T.said other) (option_map T.said one ≢ option_map T.said other) }
{
    if is_same {
        return true;
    }
    match (one, other) {
        (Some(one), Some(other)) => telling.same_said(one, other),
        (None, None) => true,
        _ => false,
    }
}

// Whether a section's answer is the same as before.
#[inline(always)]
fn is_as_before<T: Telling>(
    telling: &T,
    memory: &mut T::Memory,
    one: Option<Answer>,
    other: Option<Answer>,
) -> Result<bool, T::Refusal>
    requires { T.is_sound telling.now memory.old }
    ensures sound { OnOk result (T.is_sound telling.now memory.new) }
    ensures same { IfOk result (λ same. MatchBool same (option_map (T.tell telling.now) one ≡ option_map (T.tell telling.now) other)
        (option_map (T.tell telling.now) one ≢ option_map (T.tell telling.now) other)) }
{
    match (one, other) {
        (Some(one), Some(other)) => telling.alike(memory, &one, &other),
        (None, None) => Ok(true),
        _ => Ok(false),
    }
}
