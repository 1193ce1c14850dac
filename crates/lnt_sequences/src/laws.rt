//! Laws of what rows say of positions, each the contract of a function without parameters that does nothing.
ghost use Rattle.lnt_sequences.specs.Copies.{AnyAnswers, ExtentsOfSequences};
ghost use Rattle.lnt_sequences.specs.Extents.{HolderAnswers};
ghost use Rattle.lnt_sequences.specs.RowSpans.{EntriesInTurn, SpansInTurn};
ghost use Rattle.lnt_sequences.specs.Laws.{AnswersAsHolder, CollectedUnit, ConvertedAnswers, DistinctSequences, FallIsNotOrdered};
ghost use Rattle.lnt_sequences.specs.Laws.{KeptSequences, MissingFileIsNotThere, OverlapIsNotApart, SequenceSpans, SpansAnswer};

/// The spans of sequences whose positions never fall answer at every position as their rows do.
#[tactic(auto, using(crate::proofs::RowLemmas::spans_answer))]
pub fn spans_answer()
    ensures { SpansAnswer }
{}

/// The spans of one sequence whose positions never fall hold exactly the positions that it holds, and answer there what the
/// last of its rows at or before the position says.
#[tactic(auto, using(crate::proofs::ExtentLemmas::sequence_spans))]
pub fn sequence_spans()
    ensures { SequenceSpans }
{}

/// If two sequences overlap, some position is held by two.
pub fn overlap_is_not_apart()
    ensures { OverlapIsNotApart }
{}

/// If a row falls, the positions of its sequence are not in order.
pub fn fall_is_not_ordered()
    ensures { FallIsNotOrdered }
{}

/// If a row of a live sequence names a file that is missing, not every row of the live sequences names an existing one.
pub fn missing_file_is_not_there()
    ensures { MissingFileIsNotThere }
{}

/// If a unit's program runs, what a watch has collected from all its rows is collected from its live sequences.
pub fn collected_unit()
    ensures { CollectedUnit }
{}

/// The live sequences of units at different offsets have different ids.
pub fn distinct_sequences()
    ensures { DistinctSequences }
{}

/// The kept sequences are the live ones, without the copies if these are skipped: then no two nonempty ones begin and end
/// at the same positions.
pub fn kept_sequences()
    ensures { KeptSequences }
{}

/// If no position is held by two sequences, their answer is that of the rows of the sequence whose extent holds the
/// position. There is none if no extent does.
#[tactic(auto, using(crate::proofs::HolderLemmas::holder_answers))]
pub fn holder_answers()
    ensures { HolderAnswers }
{}

/// If sequences share no position, at most one holds a position. Their answer there is that of its last row, in order, at
/// or before the position. There is none if no sequence holds it.
#[tactic(auto, using(crate::proofs::LastRowLemmas::answers_as_holder))]
pub fn answers_as_holder()
    ensures { AnswersAsHolder }
{}

/// Sequences one after another, whose positions never fall, have spans in order.
#[tactic(auto, using(crate::proofs::TurnLemmas::spans_in_turn))]
pub fn spans_in_turn()
    ensures { SpansInTurn }
{}

/// The sequences of settled extents, in the order of these, have spans in order, which answer as all sequences do.
#[tactic(auto, using(crate::proofs::EntryLemmas::entries_in_turn))]
pub fn entries_in_turn()
    ensures { EntriesInTurn }
{}

/// A section and its conversion to another format or byte order give the same answer at every position, except that the
/// offset of a unit is that of the unit with the same place (DWARF 5, sections 6.2.4 and 7.4).
pub fn converted_answers()
    ensures { ConvertedAnswers }
{
    lnt_machine::laws::same_matrix();
}

/// What the kept sequences answer, one of the live ones says, and no live one holds a position at which they answer nothing. If
/// no position is held by two live sequences, the kept ones answer what any live one says.
#[tactic(auto, using(crate::proofs::AnyLemmas::any_answers))]
pub fn any_answers()
    ensures { AnyAnswers }
{}

/// Each of the extents of sequences is that of one of them, and a sequence that holds a position has its extent among them.
#[tactic(auto, using(crate::proofs::AnyLemmas::extents_of_sequences))]
pub fn extents_of_sequences()
    ensures { ExtentsOfSequences }
{}
