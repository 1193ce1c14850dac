//! The ids of sequences.
ghost use Rattle.std.specs.Prelude.{Some};
ghost use Rattle.lnt_sequences.specs.FaultTexts.{sequence_text};

use std::fmt;

/// Which sequence of a section it is. Ids that are compared by `unit` and then by `index` have the order of the sequences in
/// the section.
#[derive(Clone, Copy, Debug, PartialEq, Eq)]
pub struct SeqId {
    /// The offset of its unit in the section.
    pub unit: u64,
    /// Its index among the sequences of that unit, counted from 0. Dead and empty sequences count.
    pub index: u64,
}

/// `0xOFFSET:INDEX`, of its unit and in it.
impl fmt::Display for SeqId {
    ghost output = { λ id. Some (sequence_text id) };

    fn fmt<W: fmt::Write>(&self, f: &mut fmt::Formatter<W>) -> fmt::Result {
        write!(f, "0x{:x}:{}", self.unit, self.index)
    }
}
