//! A unit in a buffer, whose directories, files and operations are read in place.
ghost use Rattle.std.specs.Prelude.{◌≡◌, ◌≢◌, ◌≤◌, length, drop, IfOk, IfErr, false};
ghost use Rattle.lnt_header_bytes.specs.Broken.{BrokenHeader};
ghost use Rattle.lnt_unit.specs.BrokenUnits.{BrokenUnit};

use crate::UnitBuffer;
use lnt_header::HeaderNumbers;
use lnt_header_bytes::{HeaderInPlace, HeaderView, view_header};
use lnt_ops::Ops;
use lnt_wire::{Fault, Reason};
use std::alloc::Global;
use std::marker::Model;

/// A unit in a buffer, whose directories, files and operations are read in place (DWARF 5, section 6.2.4). Allocates memory
/// only for the formats of its tables and its standard opcode lengths.
///
/// Contracts see what those of `UnitView` see (`View`): the buffer's unit, the header, the program, and the program's
/// offset in the section. The header with the program encodes the buffer's bytes.
#[derive(Drop)]
pub struct UnitInPlace<'a> {
    buffer: &'a UnitBuffer,
    header: HeaderInPlace<'a>,
    program: &'a [u8],
    place: u64,
}

impl<'a> Model for UnitInPlace<'a> {
    ghost use Rattle.lnt_unit.specs.Views.{View, IsUnitView};

    ghost Value = { View };

    ghost view = { λ v. record { unit = v.buffer.now; header = v.header; program = v.program.now; place = v.place } };

    ghost invariant = { λ v. IsUnitView (record { unit = v.buffer.now; header = v.header; program = v.program.now; place = v.place }) };
}

impl<'a> UnitInPlace<'a> {
    ghost use Rattle.lnt_header.specs.HeaderRules.{IsHeader};
    ghost use Rattle.lnt_unit.specs.Views.{IsUnitView, HasCount};

    /// The unit in a buffer.
    ///
    /// Fails with `Memory`, and otherwise only if the bytes don't begin with a header and a program, with the fault of
    /// `decode_header`. Then they aren't a unit. The program isn't checked yet.
    pub fn over(alloc: Global, buffer: &'a UnitBuffer) -> Result<UnitInPlace<'a>, Fault>
        ensures ok { IfOk result (λ view. view.unit ≡ buffer.entry.now) }
        ensures err { IfErr result (λ fault. fault.reason ≢ Reason.Memory
            → BrokenUnit buffer.entry.now.order fault buffer.entry.now.offset buffer.entry.now.bytes) }
        ensures header { IfErr result (λ fault. fault.reason ≢ Reason.Memory
            → BrokenHeader buffer.entry.now.order fault buffer.entry.now.offset buffer.entry.now.bytes) }
    {
        let (header, program) = view_header(alloc, &buffer.frame(), buffer.order())?;
        let end = buffer.offset() + buffer.bytes().len() as u64;
        Ok(UnitInPlace {
            buffer,
            header,
            program,
            place: end - program.len() as u64,
        })
    }

    /// The header, whose directories and files stay in the bytes.
    pub fn header(&self) -> HeaderView<'_>
        ensures { result ≡ self.now.header }
    {
        self.header.view()
    }

    /// The numbers of the header, which a machine needs.
    pub fn numbers(&self) -> &HeaderNumbers
        ensures { result.now ≡ self.now.header.numbers }
    {
        self.header.numbers()
    }

    /// The bytes of the program.
    #[inline(always)]
    pub fn program(&self) -> &'a [u8]
        ensures { result.now ≡ self.now.program }
    {
        self.program
    }

    /// The header, and the number of bytes of the unit before the program, which extends to the unit's end.
    #[tactic(auto, using(crate::proofs::InPlaceLemmas::program_fits, crate::proofs::InPlaceLemmas::program_ends))]
    pub fn into_parts(self) -> (HeaderInPlace<'a>, usize)
        ensures header { result.0 ≡ self.entry.header }
        ensures within { result.1 ≤ length self.entry.unit.bytes }
        ensures program { drop result.1 self.entry.unit.bytes ≡ self.entry.program }
    {
        let UnitInPlace {
            buffer,
            header,
            program,
            ..
        } = self;
        (header, buffer.bytes().len() - program.len())
    }

    /// The operations in order, each read in place. Allocates nothing.
    ///
    /// Only the header's numbers are needed to read them. If all operations are valid, the bytes encode the unit with the
    /// header and these operations; if one isn't, they encode no unit (`laws::whole_walk`).
    pub fn ops(&self) -> Ops<'_>
        ensures header { result.numbers ≡ self.now.header.numbers }
        ensures place { result.at.place ≡ self.now.place }
        ensures rest { result.at.rest ≡ self.now.program }
        ensures order { result.at.order ≡ self.now.header.numbers.order }
        ensures going { result.failed ≡ false }
        ensures is_header { IsHeader self.now.header }
        ensures is_view { IsUnitView self.now }
    {
        Ops::new(self.header.numbers(), self.program, self.place)
    }

    /// The number of operations of the unit. If the bytes encode no unit, fails with the fault of the first operation that
    /// isn't valid. Allocates nothing.
    #[tactic(auto, using(crate::proofs::ViewLemmas::operation_count_lemmas))]
    pub fn operation_count(&self) -> Result<u64, Fault>
        ensures ok { IfOk result (HasCount self.now) }
        ensures err { IfErr result (λ fault. BrokenUnit self.now.unit.order fault self.now.unit.offset self.now.unit.bytes) }
    {
        let mut count = 0;
        for op in self.ops() {
            op?;
            count += 1;
        }
        Ok(count)
    }
}
