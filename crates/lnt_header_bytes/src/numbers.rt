//! The fields of one byte of a header.
ghost use Rattle.std.specs.Prelude.{◌≡◌, ◌-◌, ◌+◌, ◌<◌, ◌≤◌, take, true, IfOk, IfErr};
ghost use Rattle.lnt_wire.specs.Reading.{Reads, RefusesField, Refuses};
ghost use Rattle.lnt_header.specs.OpRules.{last_known};
ghost use Rattle.lnt_header_bytes.specs.HeaderFaults.{SinglesBytes, IsSinglesFault, LengthsBytes, IsLengthsFault};
ghost use Rattle.lnt_header_bytes.specs.HeaderFaults.{AreFieldBytes, IsSoundFault, SoundBytes, single_fields, zero_reasons};
ghost use Rattle.lnt_header_bytes.specs.HeaderReading.{numbers_with};
ghost use Rattle.lnt_header_bytes.specs.Stepping.{ByteOf, IsByteFault};

use lnt_header::{LAST_KNOWN, NumberParts, known_length};
use lnt_wire::{Cursor, Fault, Items, Order, Reason};

/// The six numbers of one byte before the standard opcode lengths. `max_ops` is 1 if the version has no such field.
#[derive(Clone, Copy, Debug)]
pub struct Singles {
    /// How many bytes the smallest instruction has.
    pub minimum_instruction_length: u8,
    /// `maximum_operations_per_instruction`: how many operations an instruction has at most.
    pub max_ops: u8,
    /// Whether a row begins a statement by default: if it isn't 0.
    pub default_is_stmt: u8,
    /// The least number that a special opcode adds to the line.
    pub line_base: i8,
    /// How many different numbers the special opcodes add to the line.
    pub line_range: u8,
    /// The first special opcode.
    pub opcode_base: u8,
}

impl Singles {
    /// The fields of one byte that say the numbers from version 4 on.
    pub fn single_fields(&self) -> [u8; 6]
        ensures { result ≡ single_fields true self.now }
    {
        [
            self.minimum_instruction_length,
            self.max_ops,
            self.default_is_stmt,
            self.line_base.cast_unsigned(),
            self.line_range,
            self.opcode_base,
        ]
    }
}

/// The numbers of a header with these fields, whose standard opcode lengths these are, in this order and with this address size.
pub fn numbers_of(
    singles: Singles,
    lengths: Items<u8>,
    order: Order,
    address_size: u8,
) -> NumberParts
    ensures { result ≡ numbers_with order address_size singles lengths }
{
    NumberParts {
        order,
        address_size,
        minimum_instruction_length: singles.minimum_instruction_length,
        max_ops: singles.max_ops,
        default_is_stmt: singles.default_is_stmt,
        line_base: singles.line_base,
        line_range: singles.line_range,
        opcode_base: singles.opcode_base,
        standard_lengths: lengths,
    }
}

/// Reads the fields of one byte before the standard opcode lengths, of a version with or without `max_ops`. It refuses the first of
/// them that is 0 and may not be, at that field, and with `Truncated` if there are fewer, at their end.
#[tactic(auto, using(crate::proofs::SoundLemmas::singles_read, crate::proofs::SoundLemmas::singles_refused))]
pub fn read_singles(cursor: &mut Cursor<'_>, has_max_ops: bool) -> Result<Singles, Fault>
    ensures ok { IfOk result (λ s. Reads (SinglesBytes has_max_ops) s cursor.old cursor.new) }
    ensures err { IfErr result (λ fault. Refuses (IsSinglesFault has_max_ops) (SinglesBytes has_max_ops) cursor.old fault) }
{
    let bytes = read_bytes(cursor, has_max_ops)?;
    Ok(singles_of(has_max_ops, bytes))
}

// The bytes of these fields.
fn read_bytes<'a>(cursor: &mut Cursor<'a>, has_max_ops: bool) -> Result<&'a [u8], Fault>
    ensures ok { IfOk result (λ bytes. Reads (SoundBytes (zero_reasons has_max_ops)) bytes.now cursor.old cursor.new) }
    ensures err { IfErr result (λ fault. Refuses (IsSinglesFault has_max_ops) (SoundBytes (zero_reasons has_max_ops)) cursor.old fault) }
{
    if has_max_ops {
        read_sound(cursor, &ZERO_REASONS)
    } else {
        read_sound(cursor, &ZERO_REASONS_BEFORE_4)
    }
}

// Why each of the fields may not be 0, if it may not.
const ZERO_REASONS: [Option<Reason>; 6] = [
    None,
    Some(Reason::MaxOpsZero),
    None,
    None,
    Some(Reason::LineRangeZero),
    Some(Reason::OpcodeBaseZero),
];

// The same without `maximum_operations_per_instruction`.
const ZERO_REASONS_BEFORE_4: [Option<Reason>; 5] = [
    None,
    None,
    None,
    Some(Reason::LineRangeZero),
    Some(Reason::OpcodeBaseZero),
];

// The numbers that these bytes say.
fn singles_of(has_max_ops: bool, bytes: &[u8]) -> Singles
    requires { AreFieldBytes (zero_reasons has_max_ops) bytes.now }
    ensures { SinglesBytes has_max_ops result bytes.now }
{
    if has_max_ops {
        Singles {
            minimum_instruction_length: bytes[0],
            max_ops: bytes[1],
            default_is_stmt: bytes[2],
            line_base: bytes[3].cast_signed(),
            line_range: bytes[4],
            opcode_base: bytes[5],
        }
    } else {
        Singles {
            minimum_instruction_length: bytes[0],
            max_ops: 1,
            default_is_stmt: bytes[1],
            line_base: bytes[2].cast_signed(),
            line_range: bytes[3],
            opcode_base: bytes[4],
        }
    }
}

// Reads a byte for each field. The reason says why it may not be 0, if it may not.
#[tactic(auto, using(crate::proofs::SoundLemmas::sound_walk))]
fn read_sound<'a>(
    cursor: &mut Cursor<'a>,
    zero_reasons: &[Option<Reason>],
) -> Result<&'a [u8], Fault>
    ensures ok { IfOk result (λ bytes. Reads (SoundBytes zero_reasons.now) bytes.now cursor.old cursor.new) }
    ensures err { IfErr result (λ fault. Refuses (IsSoundFault zero_reasons.now) (SoundBytes zero_reasons.now) cursor.old fault) }
{
    let all = cursor.rest();
    for zero_reason in zero_reasons {
        read_byte(cursor, *zero_reason)?;
    }
    let (bytes, _) = all.split_at(all.len() - cursor.rest().len());
    Ok(bytes)
}

// Reads the next byte.
#[tactic(auto, using(crate::proofs::SoundLemmas::byte_exits))]
fn read_byte(cursor: &mut Cursor<'_>, zero_reason: Option<Reason>) -> Result<u8, Fault>
    ensures ok { IfOk result (λ byte. Reads (ByteOf zero_reason) byte cursor.old cursor.new) }
    ensures err { IfErr result (λ fault. RefusesField (IsByteFault zero_reason) (ByteOf zero_reason) cursor.old fault) }
{
    let place = cursor.place();
    let byte = cursor.u8()?;
    match zero_reason {
        Some(reason) if byte == 0 => Err(Fault { place, reason }),
        _ => Ok(byte),
    }
}

/// The end of the known standard opcodes: `opcode_base`, or one more than the last known opcode if that is less.
fn known_end(opcode_base: u8) -> u8
    ensures low { result ≤ opcode_base }
    ensures high { result ≤ last_known + 1 }
    ensures whole { result < last_known + 1 → result ≡ opcode_base }
{
    opcode_base.min(LAST_KNOWN + 1)
}

/// Reads the lengths of the standard opcodes, `opcode_base - 1` bytes, which are borrowed. Fails at the first one that
/// isn't the length of its known opcode, and, with `Truncated`, at the end of the bytes if there are fewer.
#[tactic(auto, using(crate::proofs::HeaderReaders::read_lengths_lemmas))]
pub fn read_lengths<'a>(cursor: &mut Cursor<'a>, opcode_base: u8) -> Result<&'a [u8], Fault>
    requires { 0 < opcode_base }
    ensures ok { IfOk result (λ lengths. Reads (LengthsBytes opcode_base) lengths.now cursor.old cursor.new) }
    ensures err { IfErr result (λ fault. Refuses (IsLengthsFault opcode_base) (LengthsBytes opcode_base) cursor.old fault) }
{
    let bytes = cursor.rest();
    let place = cursor.place();
    let known = known_end(opcode_base);
    for opcode in 1..known {
        let i = opcode as usize - 1;
        if i < bytes.len() && bytes[i] != known_length(opcode) {
            return Err(Fault {
                place: place + i as u64,
                reason: Reason::StandardLength(opcode, bytes[i]),
            });
        }
    }
    match cursor.take(opcode_base as usize - 1) {
        Ok(lengths) => Ok(lengths),
        Err(_) => Err(Fault {
            place: place + bytes.len() as u64,
            reason: Reason::Truncated,
        }),
    }
}
