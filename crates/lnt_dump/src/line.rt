//! Lines of rows, written backwards from their ends, so that no digits have to be counted or moved.
ghost use Rattle.std.specs.Prelude.{◌≡◌, ◌+◌, ◌<◌, ◌≤◌, ◌∷◌, ◌++◌, [], decimal, drop};
ghost use Rattle.lnt_dump.specs.Operations.{flag_text, flags_text, row_line as line_of_row};

use lnt_machine::Row;
use lnt_text::{address_before, decimal_before};

// More bytes than the line of a row has.
pub(crate) const MOST: usize = 192;

// Writes the line of a row, the `index`th of its unit, so that it ends where the room does, and gives the index at which it begins.
#[inline(always)]
pub(crate) fn row_line(room: &mut [u8; MOST], index: u64, row: &Row) -> usize
    ensures within { result < 192 }
    ensures line { drop result room.new ≡ line_of_row index row.now }
{
    let at = number_before(room, MOST, row.discriminator, b'\n');
    let at = number_before(room, at, row.isa, b' ');
    let at = flags_before(room, at, row);
    let at = flag_before(room, at, true, b' ');
    let at = flag_before(room, at, true, b'0' + u8::from(row.is_stmt));
    let at = number_before(room, at, row.column, b' ');
    let at = number_before(room, at, row.line, b' ');
    let at = number_before(room, at, row.file, b' ');
    let at = number_before(room, at, row.op_index, b' ');
    let at = flag_before(room, at, true, b' ');
    let at = address_before(room, at, row.address);
    let at = number_before(room, at, index, b' ');
    let at = flag_before(room, at, true, b' ');
    let at = flag_before(room, at, true, b'w');
    let at = flag_before(room, at, true, b'o');
    flag_before(room, at, true, b'r')
}

// Writes a number and the byte after it, so that they end before index `end`, and gives the index of the first digit.
#[inline(always)]
fn number_before(room: &mut [u8; MOST], end: usize, n: u64, after: u8) -> usize
    requires { (21 ≤ end) × (end ≤ 192) }
    ensures within { (result < end) × (end ≤ result + 21) }
    ensures written { drop result room.new ≡ decimal n ++ (after ∷ drop end room.old) }
{
    room[end - 1] = after;
    decimal_before(room, end - 1, n)
}

// Writes the letters of the flags that are set, or a dash, and a space, so that they end before index `end`, and gives the
// index of the first.
#[inline(always)]
fn flags_before(room: &mut [u8; MOST], end: usize, row: &Row) -> usize
    requires { (5 ≤ end) × (end ≤ 192) }
    ensures within { (result ≤ end) × (end ≤ result + 5) }
    ensures written { drop result room.new ≡ flags_text row.now ++ (32 ∷ drop end room.old) }
{
    let at = flag_before(room, end, true, b' ');
    let some = row.basic_block | row.end_sequence | row.prologue_end | row.epilogue_begin;
    if !some {
        return flag_before(room, at, true, b'-');
    }
    let at = flag_before(room, at, row.epilogue_begin, b'g');
    let at = flag_before(room, at, row.prologue_end, b'p');
    let at = flag_before(room, at, row.end_sequence, b'e');
    flag_before(room, at, row.basic_block, b'b')
}

// Writes the letter `byte` of a flag before index `end`, if the flag is set, and gives the index at which the text then begins.
#[inline(always)]
fn flag_before(room: &mut [u8; MOST], end: usize, is_set: bool, byte: u8) -> usize
    requires { (1 ≤ end) × (end ≤ 192) }
    ensures within { (result ≤ end) × (end ≤ result + 1) }
    ensures written { drop result room.new ≡ flag_text is_set (byte ∷ []) ++ drop end room.old }
{
    if !is_set {
        return end;
    }
    room[end - 1] = byte;
    end - 1
}
