//! Laws of answers and verdicts, each the contract of a function without parameters that does nothing.
ghost use Rattle.lnt_spans.specs.Laws.{Borders};
ghost use Rattle.lnt_table.specs.Laws.{OneCheck, OneNumbered, OneVerdict, OneWritten, OnlyYes, OwnTable, OwnTableByPath, OwnTableOfUnits};
ghost use Rattle.lnt_table.specs.Laws.{AnyIsKept, CoveredIsYes, EmptyIsCovered, KeptIsAny, OneWithin, YesIsCovered};

/// If two lists of spans, each in order and without empty spans, give the same answer at each position where a span of
/// either begins or ends, they give the same answer at every position. So the spans of a table and of a section need to be
/// compared only at their borders.
pub fn borders()
    ensures { Borders }
{
    lnt_spans::laws::borders();
}

/// For one section, table and choice of options at most one verdict is true. So if `check` doesn't stop, its answer is
/// determined, including the fault in malformed bytes and its place.
#[tactic(auto, using(crate::proofs::OneVerdictLemmas::one_verdict))]
pub fn one_verdict()
    ensures { OneVerdict }
{
    lnt_lines::laws::good_has_no_flaw();
    lnt_lines::laws::one_no();
    lnt_compare::laws::one_comparison();
}

/// For a good section, and a table that answers as it does at every position, Yes is the only true verdict. So if `check`
/// doesn't stop, it answers Yes exactly for these.
#[tactic(auto, using(crate::proofs::LawLemmas::only_yes))]
pub fn only_yes()
    ensures { OnlyYes }
{
    one_verdict();
}

/// For a good section, and the table that `write_table` wrote of its lines in either version, Yes is the only true verdict.
pub fn own_table()
    ensures { OwnTable }
{
    own_table_of_units();
}

/// For a good section, and the table that `write_index` wrote of its index in either version, Yes is the only true verdict.
#[tactic(auto, using(crate::proofs::LawLemmas::own_table_of_units))]
pub fn own_table_of_units()
    ensures { OwnTableOfUnits }
{
    only_yes();
}

/// The rows of some units have one written table of each version, byte for byte, and so have answers by path. So what
/// `write_index` and `write_paths` write is determined; if they stop, they have written a prefix of it.
pub fn one_written()
    ensures { OneWritten }
{}

/// If `Numbered` of a verdict is a true answer of `check_any` for a section, a table and a choice of options, no other
/// answer is: neither another verdict nor an answer by path.
#[tactic(auto, using(crate::proofs::AnyLawLemmas::one_numbered))]
pub fn one_numbered()
    ensures { OneNumbered }
{
    one_verdict();
    lnt_lines::laws::good_has_no_flaw();
}

/// For a good section, and the table by path of its units' answers in either version, which `write_paths` writes,
/// `ByPath(Same)` is a true answer of `check_any`, and `Numbered` of no verdict is.
#[tactic(auto, using(crate::proofs::AnyLawLemmas::own_table_by_path))]
pub fn own_table_by_path()
    ensures { OwnTableByPath }
{
    one_numbered();
}

/// For one section, table of any version and choice of options all true answers of `check_any` say the same. So if it
/// doesn't stop, its answer is determined: the fault that it names, or the position, the two answers there and the bytes of
/// their paths.
pub fn one_check()
    ensures { OneCheck }
{
    one_verdict();
    one_numbered();
    lnt_compare::laws::one_comparison();
}

/// For one section, table of any version, choice of options and scope all true answers of `check_within` say the same. So if
/// it doesn't stop, its answer is determined: as for `check_any`, and also the first mistake of a table that answers a part of
/// the positions, and how much such a table answers.
pub fn one_within()
    ensures { OneWithin }
{
    one_check();
    lnt_lines::laws::good_has_no_flaw();
    lnt_lines::laws::one_no();
}

/// If `check_any` can answer of a table that it answers as the section does, `check_within` can answer in the scope
/// `Answered` that it is right wherever it answers, and that it answers all addresses of the section.
#[tactic(auto, using(crate::proofs::CoveredLemmas::yes_is_covered))]
pub fn yes_is_covered()
    ensures { YesIsCovered }
{}

/// If `check_within` can answer in the scope `Answered` that a table by path is right wherever it answers, and that it answers all
/// addresses of the section, `check_any` can answer that it answers as the section does, if the section's spans begin and end at
/// operation index 0.
pub fn covered_is_yes()
    ensures { CoveredIsYes }
{}

/// Of a good section and a table without records `check_within` can answer in the scope `Answered` that the table is right
/// wherever it answers, and that it answers none of the section's addresses.
#[tactic(auto, using(crate::proofs::CoveredLemmas::empty_is_covered))]
pub fn empty_is_covered()
    ensures { EmptyIsCovered }
{}

/// A table to which `check_any` can answer, with copies skipped, that it answers as the section does is one to which
/// `check_any_copy` can answer so; and if `check_within` can answer that it is right wherever it answers, so can
/// `check_any_copy`, with the same numbers.
#[tactic(auto, using(crate::proofs::AnyCopyLaws::kept_is_any))]
pub fn kept_is_any()
    ensures { KeptIsAny }
{}

/// If no position is held by two live sequences, any of them that holds a position answers what the kept ones do, and if none
/// holds it, they don't answer. So without copies `check_any_copy` and `check_within` judge each position alike.
#[tactic(auto, using(crate::proofs::AnyCopyLaws::any_is_kept))]
pub fn any_is_kept()
    ensures { AnyIsKept }
{}
