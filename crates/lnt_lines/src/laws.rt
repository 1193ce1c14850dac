//! Laws of judged sections, each the contract of a function without parameters that does nothing.
ghost use Rattle.lnt_lines.specs.Laws.{AnswersAsHolder, FilesOfUnits, GoodHasNoFlaw, HeadersOfUnits, OneNo};

pub use lnt_spans::laws::one_canonical;

/// A good section has no flaw: no `No` is true of it. So if `verify` doesn't stop, it returns `Good` exactly when the
/// section is good.
#[tactic(auto, using(crate::proofs::FlawLemmas::no_flaw))]
pub fn good_has_no_flaw()
    ensures { GoodHasNoFlaw }
{
    lnt_sequences::laws::fall_is_not_ordered();
    lnt_sequences::laws::missing_file_is_not_there();
    lnt_sequences::laws::overlap_is_not_apart();
}

/// What lines say of the files of each unit is what its header lists, and they name no files at an offset without a unit.
#[tactic(auto, using(crate::proofs::FileLemmas::files_of_units))]
pub fn files_of_units()
    ensures { FilesOfUnits }
{}

/// What an index says of the files of each unit is what its header lists, and it names no files at an offset without a
/// unit.
#[tactic(auto, using(crate::proofs::FileLemmas::headers_of_units))]
pub fn headers_of_units()
    ensures { HeadersOfUnits }
{}

/// At most one kept sequence of a good section holds a position. The section's answer there is that of the sequence's last
/// row, in order, at or before the position. Without such a sequence there is no answer.
#[tactic(auto, using(crate::proofs::GoodLemmas::answers_as_holder))]
pub fn answers_as_holder()
    ensures { AnswersAsHolder }
{
    lnt_sequences::laws::answers_as_holder();
}

/// At most one reason is true of a section: the first flaw of the first unit that has one, or the first overlap, or that the
/// bytes are malformed, with the one fault that is true of them and its place.
#[tactic(auto, using(crate::proofs::OneNoLemmas::one_no))]
pub fn one_no()
    ensures { OneNo }
{
    lnt_sequences::laws::fall_is_not_ordered();
    lnt_sequences::laws::missing_file_is_not_there();
    lnt_unit::laws::one_true_fault();
}
