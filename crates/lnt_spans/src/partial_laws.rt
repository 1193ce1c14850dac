//! Laws of tables that answer a part of the positions, and of counts of addresses, for any type of answers. Each is the contract of
//! a function that takes nothing and does nothing.
ghost use Rattle.lnt_spans.specs.Laws.{RightAsAnswered, FirstMistake, AllMistakes, MistakesAmong, MostAddresses, SameAddresses, AddedRange};
ghost use Rattle.lnt_spans.specs.Laws.{AddressesOfSpans, AnsweredAndMissed, WholeTable, TableAddresses, AllAnswered, EmptyTable};
ghost use Rattle.lnt_spans.specs.Laws.{FittingSpans, InstructionSpans};

/// A table is right wherever it answers exactly if it answers at every position as the section does at those positions at which the
/// table answers, and not at all elsewhere.
#[tactic(auto, using(crate::proofs::PartialLemmas::right_as_answered))]
pub fn right_as_answered<X>()
    ensures { RightAsAnswered X }
{}

/// The first mistake of a table is the least position at which it differs from the section's answers where the table answers, with
/// the two answers there.
#[tactic(auto, using(crate::proofs::PartialLemmas::first_mistake))]
pub fn first_mistake()
    ensures { FirstMistake }
{}

/// All stretches of mistakes of a table are those at which it differs from the section's answers where the table answers.
#[tactic(auto, using(crate::proofs::PartialLemmas::all_mistakes))]
pub fn all_mistakes<X>()
    ensures { AllMistakes X }
{}

/// Of all stretches at which a table and a section answer differently, those at which the table answers are all its mistakes.
#[tactic(auto, using(crate::proofs::AmongLemmas::mistakes_among))]
pub fn mistakes_among<X>()
    ensures { MistakesAmong X }
{}

/// At most 2^64 addresses are answered.
#[tactic(auto, using(crate::proofs::CountLemmas::most_addresses))]
pub fn most_addresses<X>()
    ensures { MostAddresses X }
{}

/// The number of addresses that are answered depends on where there are answers, and not on which they are.
#[tactic(auto, using(crate::proofs::CountLemmas::same_addresses))]
pub fn same_addresses<X, Y>()
    ensures { SameAddresses X Y }
{}

/// If a range of positions is answered in addition, the addresses in it are added to the number of those that are answered.
#[tactic(auto, using(crate::proofs::CountLemmas::added_range))]
pub fn added_range<X>()
    ensures { AddedRange X }
{}

/// The addresses that spans in order answer are those that they hold, added up span by span.
#[tactic(auto, using(crate::proofs::CountLemmas::addresses_of_spans))]
pub fn addresses_of_spans()
    ensures { AddressesOfSpans }
{}

/// Of the addresses at which a section answers, a table answers at some, and misses the others.
#[tactic(auto, using(crate::proofs::PartialLemmas::answered_and_missed))]
pub fn answered_and_missed<X>()
    ensures { AnsweredAndMissed X }
{}

/// A table that answers as the section does at every position is right wherever it answers, and answers at all addresses of the
/// section.
#[tactic(auto, using(crate::proofs::PartialLemmas::whole_table))]
pub fn whole_table<X>()
    ensures { WholeTable X }
{}

/// If a table is right wherever it answers, the addresses at which both answer are those at which the table does.
#[tactic(auto, using(crate::proofs::PartialLemmas::table_addresses))]
pub fn table_addresses<X>()
    ensures { TableAddresses X }
{}

/// A table that is right wherever it answers, and answers at all addresses of the section, answers as the section does at every
/// position, if the answers of both change at operation index 0 alone.
#[tactic(auto, using(crate::proofs::PartialLemmas::all_answered))]
pub fn all_answered<X>()
    ensures { AllAnswered X }
{}

/// The answers of spans that begin and end at operation index 0 change at operation index 0 alone.
#[tactic(auto, using(crate::proofs::CountLemmas::instruction_spans))]
pub fn instruction_spans()
    ensures { InstructionSpans }
{}

/// Spans whose numbers have at most 64 bits answer nothing at addresses that have more.
#[tactic(auto, using(crate::proofs::CountLemmas::fitting_spans))]
pub fn fitting_spans()
    ensures { FittingSpans }
{}

/// A table that never answers is right wherever it answers, and answers at no address.
#[tactic(auto, using(crate::proofs::PartialLemmas::empty_table))]
pub fn empty_table<X>()
    ensures { EmptyTable X }
{}
