//! Checks of a header's parts.
ghost use Rattle.std.specs.Prelude.{◌≡◌, ◌↔◌, ◌<◌, FitsSigned, IsTrue, MatchOption, length, slice_index};
ghost use Rattle.std.specs.Int.{w8};
ghost use Rattle.std.specs.List.{AllByRecursion};
ghost use Rattle.lnt_header.specs.HeaderRules.{AreHeaderNumbers, AreStandardLengths, IsAddressSize, IsHeader};
ghost use Rattle.lnt_header.specs.HeaderTests.{FitsItsForm, FitsPair, HoldsNoZero, IsFormat, IsOfFormat, HasSoundTexts};
ghost use Rattle.lnt_header.specs.HeaderTests.{IsFirstNot, IsPartsFault};

use crate::fault::UnitFault;
use crate::header::{Entry, EntryTable, HeaderParts, Pair};
use crate::op::KNOWN_LENGTHS;
use lnt_wire::FormValue;

/// The first rule that the parts break, in the order of `UnitFault`; `None` if some header has them.
#[tactic(auto, using(crate::proofs::TestLemmas::tests_passed))]
pub(crate) fn parts_fault(parts: &HeaderParts) -> Option<UnitFault>
    ensures { MatchOption result (IsHeader parts.now) (λ fault. IsPartsFault fault parts.now) }
{
    if !has_numbers(parts)
        || !is_format(
            parts.directory_format.as_slice(),
            parts.directories.as_slice(),
        )
        || !is_format(parts.file_format.as_slice(), parts.files.as_slice())
    {
        return Some(UnitFault::HeaderNumber);
    }
    if let Some(index) = first_of_no_format(
        parts.directories.as_slice(),
        parts.directory_format.as_slice(),
    ) {
        return Some(UnitFault::EntryNotOfFormat(EntryTable::Directories, index));
    }
    if let Some(index) = first_of_no_format(parts.files.as_slice(), parts.file_format.as_slice()) {
        return Some(UnitFault::EntryNotOfFormat(EntryTable::Files, index));
    }
    if let Some(index) = first_with_zero(parts.directories.as_slice()) {
        return Some(UnitFault::TextHoldsZero(EntryTable::Directories, index));
    }
    if let Some(index) = first_with_zero(parts.files.as_slice()) {
        return Some(UnitFault::TextHoldsZero(EntryTable::Files, index));
    }
    None
}

// Whether a header can have the numbers: a valid address size, no zero in a number that mustn't be 0, and lengths that
// match `opcode_base`.
#[tactic(auto, using(crate::proofs::TestLemmas::header_numbers))]
fn has_numbers(parts: &HeaderParts) -> bool
    ensures { IsTrue result ↔ AreHeaderNumbers parts.now.numbers }
{
    let lengths = parts.standard_lengths.as_slice();
    let single_fields = [
        parts.minimum_instruction_length,
        parts.max_ops,
        parts.default_is_stmt,
        parts.line_base.cast_unsigned(),
        parts.line_range,
        parts.opcode_base,
    ];
    is_address_size(parts.address_size)
        && has_no_zero_number(&single_fields, parts.line_base)
        && usize::from(parts.opcode_base) == lengths.len() + 1
        && are_standard_lengths(lengths)
}

/// Whether an address may have `size` bytes: 2, 4 or 8.
pub fn is_address_size(size: u8) -> bool
    ensures { IsTrue result ↔ IsAddressSize size }
{
    size == 2 || size == 4 || size == 8
}

// Whether `max_ops` and `line_range`, numbers 1 and 4 of the six fields of one byte, aren't 0.
fn has_no_zero_number(fields: &[u8], line_base: i8) -> bool
    requires { length fields.now ≡ 6 }
    ensures numbers { IsTrue result ↔ (0 < slice_index fields.now 1) × (0 < slice_index fields.now 4) }
    ensures bytes { AllByRecursion (λ byte. byte < 256) fields.now }
    ensures fits { FitsSigned w8 line_base }
{
    fields[1] != 0 && fields[4] != 0
}

// Whether the listed lengths of the known opcodes are the numbers of operands that DWARF 5 gives them. Those of others can be
// anything.
fn are_standard_lengths(lengths: &[u8]) -> bool
    ensures bytes { AllByRecursion (λ byte. byte < 256) lengths.now }
    ensures known { IsTrue result ↔ AreStandardLengths lengths.now }
{
    let known = lengths.len().min(KNOWN_LENGTHS.len());
    lengths[..known] == KNOWN_LENGTHS[..known]
}

// Whether there are at most 255 pairs, and at least one if there are entries.
fn is_format(pairs: &[Pair], entries: &[Entry]) -> bool
    ensures { IsTrue result ↔ IsFormat pairs.now entries.now }
{
    pairs.len() < 256 && (!pairs.is_empty() || entries.is_empty())
}

// The index of the first entry that doesn't have one value of the right form for each pair; `None` if each has.
#[tactic(auto, using(crate::proofs::FirstLaws::all_more, crate::proofs::FirstLaws::all_taken, crate::proofs::FirstLaws::first_not))]
fn first_of_no_format(entries: &[Entry], pairs: &[Pair]) -> Option<u64>
    ensures { MatchOption result (AllByRecursion (IsOfFormat pairs.now) entries.now)
        (λ index. IsFirstNot (IsOfFormat pairs.now) entries.now index) }
{
    for (index, entry) in entries.iter().enumerate() {
        if !is_of_format(entry, pairs) {
            return Some(index as u64);
        }
    }
    None
}

// Whether the entry has one value for each pair, in the pair's form.
#[tactic(auto, using(crate::proofs::TestLemmas::is_of_format_lemmas))]
fn is_of_format(entry: &Entry, pairs: &[Pair]) -> bool
    ensures { IsTrue result ↔ IsOfFormat pairs.now entry.now }
{
    let values = entry.values.as_slice();
    if values.len() != pairs.len() {
        return false;
    }
    for (pair, value) in pairs.iter().zip(values) {
        if !fits_pair(value, pair) {
            return false;
        }
    }
    true
}

// Whether the value is in the pair's form and, if it is a block, has no more bytes than its length can count.
fn fits_pair(value: &FormValue, pair: &Pair) -> bool
    ensures { IsTrue result ↔ FitsPair pair.now value.now }
{
    value.form() == pair.form && fits_its_form(value)
}

fn fits_its_form(value: &FormValue) -> bool
    ensures { IsTrue result ↔ FitsItsForm value.now }
{
    matches!(value, FormValue::Text(_)) || value.has_spelling()
}

// The index of the first entry with a zero byte in a text, at which a reader would end it; `None` if there is none.
#[tactic(auto, using(crate::proofs::FirstLaws::all_more, crate::proofs::FirstLaws::all_taken, crate::proofs::FirstLaws::first_not))]
fn first_with_zero(entries: &[Entry]) -> Option<u64>
    ensures { MatchOption result (AllByRecursion HasSoundTexts entries.now) (λ index. IsFirstNot HasSoundTexts entries.now index) }
{
    for (index, entry) in entries.iter().enumerate() {
        if !has_sound_texts(entry) {
            return Some(index as u64);
        }
    }
    None
}

// Whether no text of the entry has a zero byte.
#[tactic(auto, using(crate::proofs::FirstLaws::all_more, crate::proofs::FirstLaws::all_taken, crate::proofs::FirstLaws::not_all))]
fn has_sound_texts(entry: &Entry) -> bool
    ensures { IsTrue result ↔ HasSoundTexts entry.now }
{
    for value in entry.values.as_slice() {
        if !holds_no_zero(value) {
            return false;
        }
    }
    true
}

fn holds_no_zero(value: &FormValue) -> bool
    ensures { IsTrue result ↔ HoldsNoZero value.now }
{
    !matches!(value, FormValue::Text(_)) || value.has_spelling()
}
