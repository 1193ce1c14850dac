//! Laws of the format, each the contract of a function without parameters that does nothing.
ghost use Rattle.lnt_unit.specs.Spelled.{AllowedUnitIsSpelled};
ghost use Rattle.lnt_unit.specs.Laws.{FaultOfSection, OneSection, OneSpelling, OneTrueFault, WholeWalk};

pub use lnt_header_bytes::laws::one_header;

/// In one byte order no unit's bytes are a prefix of another's, and bytes encode at most one unit (DWARF 5, section 6.2.4).
/// So decoding what was encoded gives it back, whatever follows.
#[tactic(auto, using(crate::proofs::UnitLaws::one_spelling))]
pub fn one_spelling()
    ensures { OneSpelling }
{}

/// A section has at most one list of units with their offsets, and none if a fault is true of it.
#[tactic(auto, using(crate::proofs::UnitLaws::one_section))]
pub fn one_section()
    ensures { OneSection }
{}

/// At most one fault is true of a section. The units before it are those that the section begins with until no further unit
/// follows, and one field of the bytes after them is the first that isn't valid.
#[tactic(auto, using(crate::proofs::OneFaultLemmas::one_true_fault))]
pub fn one_true_fault()
    ensures { OneTrueFault }
{}

/// The operations of a unit in a buffer, as `UnitView::ops` and `UnitInPlace::ops` give them one by one (DWARF 5, section
/// 6.2.5). The header admits them, and they are at most as many as the program has bytes. If the walk ends without a fault,
/// the bytes encode the unit with the header and these operations; if it ends with a fault, they encode no unit, and the
/// fault says why.
#[tactic(auto, using(crate::proofs::WholeWalks::whole_walk))]
pub fn whole_walk()
    ensures { WholeWalk }
{}

/// What a fault says of a section: one of `SectionReader::next_unit`, or one of the unit that it gave last. No list of
/// units encodes the section, and the fault is true of it.
#[tactic(auto, using(crate::proofs::WholeWalks::fault_of_section))]
pub fn fault_of_section()
    ensures { FaultOfSection }
{}

/// Parts that `Unit::new` allows have an encoding exactly if their format can represent each offset and the unit's
/// length (DWARF 5, sections 6.2.4 and 7.4); and every unit that has an encoding is allowed. In the 64-bit format no offset is too
/// large.
#[tactic(auto, using(crate::proofs::SpelledUnits::allowed_is_spelled))]
pub fn allowed_is_spelled()
    ensures { AllowedUnitIsSpelled }
{
    lnt_header_bytes::laws::allowed_is_spelled();
    lnt_ops::laws::allowed_ops_are_spelled();
}
