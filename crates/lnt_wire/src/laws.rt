//! Laws of the format. Each is the contract of a function that takes nothing and does nothing, so that it is proved.
//!
//! They say that what was written is read back: no encoding of a kind is a prefix of another, and each encodes one value.
//! So reading bytes that begin with an encoding gives the value that it encodes, whatever follows.
ghost use Rattle.lnt_wire.specs.Laws.{OneNumber, OneLeb, OneValue, SpelledValues};

/// Fixed-width numbers and offsets, in either order and format (DWARF 5, sections 7.4 and 7.5.5).
pub fn one_number()
    ensures { OneNumber }
{}

/// LEB128 numbers, unsigned and signed, padded or not (DWARF 5, section 7.6).
#[tactic(auto, using(crate::proofs::ValueLaws::one_leb))]
pub fn one_leb()
    ensures { OneLeb }
{}

/// Values of one form, in either order and format (DWARF 5, section 7.5.6).
#[tactic(auto, using(crate::proofs::ValueLaws::one_value))]
pub fn one_value()
    ensures { OneValue }
{}

/// Which values have an encoding (DWARF 5, sections 7.5.6 and 7.6): LEB128 numbers of 64 bits, and a value exactly when its
/// form has room for it in the format.
#[tactic(auto, using(crate::proofs::SpelledLemmas::spelled_values))]
pub fn spelled_values()
    ensures { SpelledValues }
{}
