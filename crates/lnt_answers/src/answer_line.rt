//! The text of an answer, written backwards from its end, so that no digits have to be counted or moved.
ghost use Rattle.std.specs.Prelude.{◌≡◌, ◌+◌, ◌<◌, ◌≤◌, ◌++◌, OnOk, decimal, drop, length};
ghost use Rattle.lnt_text.specs.Texts.{position_text};
ghost use Rattle.lnt_answers.specs.Lines.{none_text, numbers_text};

use itoa::write_digits;
use lnt_spans::{Answer, Position};
use lnt_text::address_before;
use std::alloc::AllocError;

// More bytes than a position and the numbers of an answer have, with the words before them.
const MOST: usize = 192;

// Appends the position and the answer there, without the path.
pub(crate) fn put_answer(
    position: Position,
    answer: &Answer,
    line: &mut Vec<u8>,
) -> Result<(), AllocError>
    ensures { OnOk result (line.new.items ≡ line.old.items ++ (position_text position ++ numbers_text answer.now)) }
{
    let mut room = [0; MOST];
    let at = numbers_before(&mut room, answer);
    let at = position_before(&mut room, at, position);
    line.extend_from_slice(&room[at..])?;
    Ok(())
}

// Appends the line of a position without an answer.
pub(crate) fn put_none(position: Position, line: &mut Vec<u8>) -> Result<(), AllocError>
    ensures { OnOk result (line.new.items ≡ line.old.items ++ none_text position) }
{
    let mut room = [0; MOST];
    let at = word_before(&mut room, MOST, b" none\n");
    let at = position_before(&mut room, at, position);
    line.extend_from_slice(&room[at..])?;
    Ok(())
}

// Writes a position so that it ends before index `end`; gives the index at which it begins.
#[inline(always)]
fn position_before(room: &mut [u8; MOST], end: usize, position: Position) -> usize
    requires { (40 ≤ end) × (end ≤ MOST) }
    ensures within { result < end }
    ensures written { drop result room.new ≡ position_text position ++ drop end room.old }
{
    let at = number_before(room, end, position.op);
    let at = word_before(room, at, b",");
    address_before(room, at, position.address)
}

// Writes the numbers of an answer, with the words before them, so that they end where the room does; gives the index at which they
// begin.
#[inline(always)]
fn numbers_before(room: &mut [u8; MOST], answer: &Answer) -> usize
    ensures within { (40 ≤ result) × (result ≤ MOST) }
    ensures text { drop result room.new ≡ numbers_text answer.now }
{
    let at = number_before(room, MOST, u64::from(answer.is_stmt));
    let at = word_before(room, at, b" stmt ");
    let at = number_before(room, at, answer.column);
    let at = word_before(room, at, b" column ");
    let at = number_before(room, at, answer.line);
    let at = word_before(room, at, b" line ");
    let at = number_before(room, at, answer.file);
    let at = word_before(room, at, b" file ");
    let at = number_before(room, at, answer.unit);
    word_before(room, at, b" unit ")
}

// Writes a number so that it ends before index `end`; gives the index of its first digit.
#[inline(always)]
fn number_before(room: &mut [u8; MOST], end: usize, n: u64) -> usize
    requires { (20 ≤ end) × (end ≤ MOST) }
    ensures within { (result < end) × (end ≤ result + 20) }
    ensures written { drop result room.new ≡ decimal n ++ drop end room.old }
{
    write_digits(n, room, end)
}

// Writes a word so that it ends before index `end`; gives the index at which it begins.
#[inline(always)]
fn word_before(room: &mut [u8; MOST], end: usize, word: &[u8]) -> usize
    requires { (length word.now ≤ end) × (end ≤ MOST) }
    ensures begins { result + length word.now ≡ end }
    ensures written { drop result room.new ≡ word.now ++ drop end room.old }
{
    let start = end - word.len();
    room[start..end].copy_from_slice(word);
    start
}
