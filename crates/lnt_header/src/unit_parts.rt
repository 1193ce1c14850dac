//! What a unit is made of: the parts of its header, and operations (DWARF 5, section 6.2.4).
use crate::header::HeaderParts;
use crate::op::Op;
use lnt_wire::Items;

/// What a unit is made of. `Unit::new` of the crate `lnt_unit` checks whether some unit has these parts.
#[derive(Debug, Drop, PartialEq, Eq)]
pub struct UnitParts {
    /// What its header is made of.
    pub header: HeaderParts,
    /// Its operations, in order.
    pub ops: Items<Op>,
}
