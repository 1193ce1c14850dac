//! Extended operations (DWARF 5, section 6.2.5.3).
ghost use Rattle.std.specs.Prelude.{◌≡◌, ◌↔◌, ◌+◌, ◌^◌, ◌<◌, drop, get_or, length, IfOk, IfErr, OnErr, IsTrue, MatchBool};
ghost use Rattle.lnt_wire.specs.Leb128.{IsLeb, UnsignedLeb};
ghost use Rattle.lnt_wire.specs.Numbers.{NumberBytes};
ghost use Rattle.lnt_header.specs.FieldFaults.{IsWrongOperand};
ghost use Rattle.lnt_header.specs.OpRules.{taken_by};
ghost use Rattle.lnt_header.specs.OpRules.Taken.{takes_number};
ghost use Rattle.lnt_ops.specs.OpSteps.{RefusesAfter, GivesAfter, IsRightOperand, GivesCounted, IsCountedOpFault, IsLargeNumber};

use lnt_header::{HeaderNumbers, OpView};
use lnt_wire::{Cursor, Fault, Reason};

/// Reads an extended operation after its zero byte: a length, and that many bytes, which are a code and its operand.
#[inline(never)]
#[tactic(auto, using(crate::proofs::ExtendedReaders::read_extended_lemmas))]
pub(crate) fn read_extended<'a>(
    cursor: &mut Cursor<'a>,
    numbers: &HeaderNumbers,
) -> Result<OpView<'a>, Fault>
    ensures ok { IfOk result (λ view. GivesAfter numbers.now 0 view cursor.old cursor.new) }
    ensures err { IfErr result (λ fault. RefusesAfter numbers.now 0 cursor.old fault) }
{
    let length_place = cursor.place();
    let length = cursor.uleb()?;
    let start = cursor.place();
    let counted = cursor.take(length as usize)?;
    read_counted(counted, length_place, start, numbers)
}

// The operation of these bytes, a code and its operand, at the offset `start` of the section. `length_place` is that of
// their length.
#[tactic(auto, using(crate::proofs::ExtendedReaders::counted_reads))]
fn read_counted<'a>(
    bytes: &'a [u8],
    length_place: u64,
    start: u64,
    numbers: &HeaderNumbers,
) -> Result<OpView<'a>, Fault>
    requires { start + length bytes.now < 2 ^ 64 }
    ensures ok { IfOk result (λ view. GivesCounted numbers.now view bytes.now) }
    ensures err { IfErr result (λ fault. IsCountedOpFault numbers.now.address_size length_place start fault bytes.now) }
{
    if !has_right_operand(bytes, numbers) {
        return Err(Fault {
            place: length_place,
            reason: Reason::ExtendedLength,
        });
    }
    let (_, operand) = bytes.split_at(1);
    match bytes[0] {
        1 => Ok(OpView::EndSequence),
        2 => {
            let mut cursor = Cursor::new(operand, start + 1, numbers.order());
            Ok(OpView::SetAddress(read_address(&mut cursor, numbers)?))
        }
        4 => Ok(OpView::SetDiscriminator(read_number(bytes, start, numbers)?)),
        code => Ok(OpView::UnknownExtended(code, operand)),
    }
}

// Whether these bytes are a code and an operand of the length and encoding that the code requires.
#[tactic(auto, using(crate::proofs::ExtendedReaders::operand_tests))]
fn has_right_operand(bytes: &[u8], numbers: &HeaderNumbers) -> bool
    ensures { MatchBool result (IsRightOperand numbers.now.address_size bytes.now) (IsWrongOperand numbers.now.address_size bytes.now) }
{
    if bytes.is_empty() {
        return false;
    }
    let (_, operand) = bytes.split_at(1);
    match bytes[0] {
        1 => operand.is_empty(),
        2 => operand.len() == usize::from(numbers.address_size()),
        4 => is_leb(operand),
        _ => true,
    }
}

// Whether these bytes are one number in groups of seven bits: the last byte is the first below 128.
#[tactic(auto, using(lnt_wire::proofs::LebLemmas::high_more, crate::proofs::ExtendedReaders::is_leb_lemmas))]
fn is_leb(bytes: &[u8]) -> bool
    ensures { IsTrue result ↔ IsLeb bytes.now }
{
    for (i, byte) in bytes.iter().enumerate() {
        if *byte < 128 {
            return i + 1 == bytes.len();
        }
    }
    false
}

// Reads the number after a code that takes one. The bytes, at the offset `start` of the section, are the code and the whole
// number.
#[tactic(auto, using(crate::proofs::ExtendedReaders::gives_number, crate::proofs::ExtendedReaders::refuses_number))]
fn read_number(bytes: &[u8], start: u64, numbers: &HeaderNumbers) -> Result<u64, Fault>
    requires room { start + length bytes.now < 2 ^ 64 }
    requires right { IsRightOperand numbers.now.address_size bytes.now }
    requires takes { taken_by (get_or bytes.now 0 0) ≡ takes_number }
    ensures ok { IfOk result (λ n. UnsignedLeb n (drop 1 bytes.now)) }
    ensures err { IfErr result (λ fault. IsLargeNumber start fault bytes.now) }
{
    let (_, operand) = bytes.split_at(1);
    Cursor::new(operand, start + 1, numbers.order()).uleb()
}

// Reads an address. The cursor has exactly as many bytes left as an address has.
fn read_address(cursor: &mut Cursor<'_>, numbers: &HeaderNumbers) -> Result<u64, Fault>
    requires size { length cursor.old.rest ≡ numbers.now.address_size }
    requires order { cursor.old.order ≡ numbers.now.order }
    ensures ok { IfOk result (λ address. NumberBytes numbers.now.order numbers.now.address_size address cursor.old.rest) }
    ensures err { OnErr result ⊥ }
{
    match numbers.address_size() {
        2 => Ok(u64::from(cursor.u16()?)),
        4 => Ok(u64::from(cursor.u32()?)),
        8 => cursor.u64(),
        _ => unreachable!(),
    }
}
