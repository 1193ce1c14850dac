//! A unit: a header and its operations (DWARF 5, section 6.2.4).
ghost use Rattle.std.specs.Prelude.{◌≡◌, IfOk, IfErr, MatchOption};
ghost use Rattle.std.specs.List.{AllByRecursion};
ghost use Rattle.lnt_header.specs.HeaderTests.{IsFirstNot};
ghost use Rattle.lnt_header.specs.OpRules.{Admits};

use crate::fault::UnitFault;
use crate::header::Header;
use crate::op::Op;
use crate::unit_parts::UnitParts;
use lnt_wire::{Format, Items, Order};
use std::marker::Model;

/// A unit: a header, and operations that it admits (DWARF 5, section 6.2.4). Contracts see its parts.
#[derive(Debug, Drop)]
pub struct Unit {
    header: Header,
    ops: Items<Op>,
}

impl Model for Unit {
    ghost use Rattle.lnt_header.specs.declared.unit_parts.UnitParts.{UnitParts};
    ghost use Rattle.lnt_header.specs.HeaderRules.{IsUnit};

    ghost Value = { UnitParts };

    ghost view = { λ unit. record { header = unit.header; ops = unit.ops } };

    ghost invariant = { λ unit. IsUnit (record { header = unit.header; ops = unit.ops }) };
}

impl Unit {
    ghost use Rattle.std.specs.List.{AllByRecursion};
    ghost use Rattle.lnt_header.specs.OpRules.{Admits};
    ghost use Rattle.lnt_header.specs.HeaderRules.{IsUnit};
    ghost use Rattle.lnt_header.specs.Conversion.{unit_in_format};
    ghost use Rattle.lnt_header.specs.HeaderTests.{IsUnitFault};

    /// The unit with these parts, if they have an encoding in the 64-bit format, apart from lengths. Allocates nothing.
    ///
    /// Otherwise the parts are returned with the first fault: those of `Header::new`, then `OpNotOfUnit` with the index,
    /// counted from 0, of the first operation that the header doesn't admit. No unit has such parts.
    #[tactic(auto, using(crate::proofs::UnitLemmas::unit_lemmas))]
    pub fn new(parts: UnitParts) -> Result<Unit, (UnitFault, UnitParts)>
        ensures ok { IfOk result (λ unit. unit ≡ parts) }
        ensures err { IfErr result (λ refused. IsUnitFault refused.0 parts × (refused.1 ≡ parts)) }
        ensures none { IfErr result (λ _. IsUnit parts → ⊥) }
    {
        let UnitParts { header, ops } = parts;
        let header = match Header::new(header) {
            Ok(header) => header,
            Err((fault, header)) => return Err((fault, UnitParts { header, ops })),
        };
        match first_not_admitted(&header, ops.as_slice()) {
            None => Ok(Unit { header, ops }),
            Some(index) => {
                let header = header.into_parts();
                Err((UnitFault::OpNotOfUnit(index), UnitParts { header, ops }))
            }
        }
    }

    /// What the unit is made of. Allocates nothing.
    pub fn into_parts(self) -> UnitParts
        ensures value { result ≡ self }
        ensures unit { IsUnit result }
    {
        let Unit { header, ops } = self;
        UnitParts {
            header: header.into_parts(),
            ops,
        }
    }

    /// The unit in this format and order: only these two change (DWARF 5, sections 6.2.4 and 7.4). Allocates nothing and
    /// can't fail.
    pub fn with_format(self, format: Format, order: Order) -> Unit
        ensures { result ≡ unit_in_format self format order }
    {
        let Unit { header, ops } = self;
        Unit::of(header.with_format(format, order), ops)
    }

    /// The unit of a header and operations. The caller ensures that the header admits them; they aren't checked again. Allocates
    /// nothing.
    pub fn of(header: Header, ops: Items<Op>) -> Unit
        requires { AllByRecursion (Admits header.numbers) ops }
        ensures { result ≡ record { header = header; ops = ops } }
    {
        Unit { header, ops }
    }

    /// The header, which admits each of the operations.
    pub fn header(&self) -> &Header
        ensures { result.now ≡ self.now.header }
    {
        &self.header
    }

    /// The operations, in order.
    pub fn ops(&self) -> &[Op]
        ensures value { result.now ≡ self.now.ops }
        ensures unit { IsUnit self.now }
    {
        self.ops.as_slice()
    }
}

// The index of the first operation that the header doesn't admit.
#[tactic(auto, using(crate::proofs::FirstLaws::all_more, crate::proofs::FirstLaws::all_taken, crate::proofs::FirstLaws::first_not))]
fn first_not_admitted(header: &Header, ops: &[Op]) -> Option<u64>
    ensures { MatchOption result (AllByRecursion (Admits header.now.numbers) ops.now)
        (λ index. IsFirstNot (Admits header.now.numbers) ops.now index) }
{
    for (index, op) in ops.iter().enumerate() {
        if !header.admits(op) {
            return Some(index as u64);
        }
    }
    None
}
