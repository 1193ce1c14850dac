//! Laws of the format, each the contract of a function without parameters that does nothing.
ghost use Rattle.lnt_header_bytes.specs.Spelled.{AllowedHeaderIsSpelled};
ghost use Rattle.lnt_header_bytes.specs.Laws.{OneHeader};

/// In one byte order no header with its program is a prefix of another's bytes, and bytes encode at most one header with
/// one program (DWARF 5, section 6.2.4). So decoding what was encoded gives it back, whatever follows.
#[tactic(auto, using(crate::proofs::HeaderLaws::one_header))]
pub fn one_header()
    ensures { OneHeader }
{}

/// Parts that `Header::new` allows have an encoding, with a program, exactly if their format can represent each offset
/// and the unit's length (DWARF 5, sections 6.2.4 and 7.4); and every header that has an encoding is allowed. In the 64-bit format
/// no offset is too large.
#[tactic(auto, using(crate::proofs::SpelledHeaders::allowed_is_spelled))]
pub fn allowed_is_spelled()
    ensures { AllowedHeaderIsSpelled }
{
    lnt_wire::laws::spelled_values();
}
