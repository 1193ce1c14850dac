//! Writes the line of a record backwards, from its end, so that no digits have to be counted or moved.
ghost use Rattle.std.specs.Prelude.{◌≡◌, ◌+◌, ◌<◌, ◌≤◌, ◌++◌, ◌^◌, [], drop, length};
ghost use Rattle.lnt_text.specs.Digits.{IsPlainAddress, IsPlainDecimal, Begins};
ghost use Rattle.lnt_spans.specs.declared.answer.Version.{Version};
ghost use Rattle.lnt_records.specs.Lines.{AreUnitAndFile, IsAnswer, IsFlagBefore, IsMore, IsPlainLine, IsPosition};
ghost use Rattle.lnt_records.specs.Lines.{position_fields, unit_and_file};
ghost use Rattle.lnt_records.specs.Written.{IsOfVersion};

use lnt_spans::{Answer, Position, Span};
use lnt_text::{address_before, decimal_before};

/// More bytes than there are in any line that is written here or parsed as a line.
pub const ROOM: usize = 256;

// No fewer bytes than two numbers have, each with a comma after it. These many are copied sixteen at a time.
const KEPT: usize = 48;

/// Room for the lines of spans, which are written one after another. It keeps the text of what most lines repeat.
#[derive(Drop)]
pub struct LineRoom {
    /// Room for any text.
    pub room: [u8; ROOM],
    place: KeptPlace,
    // The high position of the line before, which most often is the low one of the next.
    high: KeptPosition,
}

impl LineRoom {
    /// Room for the first line. Allocates nothing.
    pub fn new() -> LineRoom {
        LineRoom {
            room: [0; ROOM],
            place: KeptPlace::of(0, 0),
            high: KeptPosition::of(Position { address: 0, op: 0 }),
        }
    }

    /// The line of a span, without leading zeros.
    #[inline(always)]
    pub fn line(&mut self, span: &Span) -> &[u8]
        ensures { (version : Version) → IsOfVersion version span.now.answer → IsPlainLine version span.now result.now [] }
    {
        let LineRoom { room, place, high } = self;
        let start = line_before(room, place, high, span);
        &room[start..]
    }
}

// Writes the line of a span, without leading zeros, so that it ends where the room does; gives the index at which it begins.
#[inline(always)]
fn line_before(
    room: &mut [u8; ROOM],
    place: &mut KeptPlace,
    last: &mut KeptPosition,
    span: &Span,
) -> usize
    ensures begins { result < 256 }
    ensures written { (version : Version) → IsOfVersion version span.now.answer → IsPlainLine version span.now (drop result room.new) [] }
{
    let end = answer_before(room, place, &span.answer);
    let at = position_before(room, end, span.high);
    let start = last.copy_before(room, at, span.low);
    last.keep(room, at, end, span.high);
    start
}

// Two fields, each with a comma after it: they end where `text` does, and begin at `start`.
#[derive(Drop)]
struct Kept {
    text: [u8; KEPT],
    start: usize,
    ghost long: { length text ≡ 48 },
    ghost within: { start < 48 },
}

impl Kept {
    // What is in a room from `start` to `end`.
    #[inline(always)]
    fn of(room: &[u8; ROOM], start: usize, end: usize) -> Kept
        requires { (start < end) × (end ≤ start + 48) × (48 ≤ end) × (end ≤ 256) }
        ensures kept { drop start room.now ≡ drop result.start result.text ++ drop end room.now }
    {
        let mut text = [0; KEPT];
        text.copy_from_slice(&room[end - KEPT..end]);
        Kept {
            text,
            start: start + KEPT - end,
        }
    }

    // Writes it so that it ends before `end`; gives its index.
    #[inline(always)]
    fn before(&self, room: &mut [u8; ROOM], end: usize) -> usize
        requires { (48 ≤ end) × (end ≤ 256) }
        ensures begins { (result < end) × (end ≤ result + 48) }
        ensures written { drop result room.new ≡ drop self.now.start self.now.text ++ drop end room.old }
        ensures after { drop end room.new ≡ drop end room.old }
    {
        let start = end - KEPT;
        // A copy of its own, else each line tests that the room lies apart from this.
        let text = self.text;
        room[start..end].copy_from_slice(&text);
        start + self.start
    }
}

// A position, and the text of its fields.
#[derive(Drop)]
struct KeptPosition {
    position: Position,
    text: Kept,
    ghost fits: { (position.address < 2 ^ 64) × (position.op < 2 ^ 64) },
    ghost fields: { drop text.start text.text ≡ position_fields position },
}

impl KeptPosition {
    // The fields of a position.
    #[inline(never)]
    fn of(position: Position) -> KeptPosition
        ensures position { result.position ≡ position }
    {
        let mut room = [0; ROOM];
        let at = position_before(&mut room, ROOM, position);
        KeptPosition {
            position,
            text: Kept::of(&room, at, ROOM),
        }
    }

    // Keeps the fields of a position, which are in a room from `start` to `end`, in the place of those of another.
    #[inline(always)]
    fn keep(&mut self, room: &[u8; ROOM], start: usize, end: usize, position: Position)
        requires within { (start < end) × (end ≤ start + 48) × (48 ≤ end) × (end ≤ 256) }
        requires fields { IsPosition IsPlainAddress IsPlainDecimal position (drop start room.now) (drop end room.now) }
    {
        *self = KeptPosition {
            position,
            text: Kept::of(room, start, end),
        };
    }

    // Writes the fields of a position so that they end before `end`; gives their index. If they are kept, their text is copied.
    #[inline(always)]
    fn copy_before(&mut self, room: &mut [u8; ROOM], end: usize, position: Position) -> usize
        requires { (48 ≤ end) × (end ≤ 256) }
        ensures begins { result < end }
        ensures written { IsPosition IsPlainAddress IsPlainDecimal position (drop result room.new) (drop end room.old) }
        ensures after { drop end room.new ≡ drop end room.old }
    {
        self.turn_to(position);
        self.text.before(room, end)
    }

    // Keeps the fields of this in the place of those of another.
    #[inline(always)]
    fn turn_to(&mut self, position: Position)
        ensures position { self.new.position ≡ position }
    {
        if position != self.position {
            *self = KeptPosition::of(position);
        }
    }
}

// A unit and a file, and the text of their fields.
#[derive(Drop)]
struct KeptPlace {
    unit: u64,
    file: u64,
    text: Kept,
    ghost fields: { drop text.start text.text ≡ unit_and_file unit file },
}

impl KeptPlace {
    // The fields of a unit and a file.
    #[inline(never)]
    fn of(unit: u64, file: u64) -> KeptPlace
        ensures unit { result.unit ≡ unit }
        ensures file { result.file ≡ file }
    {
        let mut room = [0; ROOM];
        let at = number_before(&mut room, ROOM, file, b',');
        let at = number_before(&mut room, at, unit, b',');
        KeptPlace {
            unit,
            file,
            text: Kept::of(&room, at, ROOM),
        }
    }

    // Keeps the fields of these in the place of those of others.
    #[inline(always)]
    fn turn_to(&mut self, unit: u64, file: u64)
        ensures unit { self.new.unit ≡ unit }
        ensures file { self.new.file ≡ file }
    {
        if unit != self.unit || file != self.file {
            *self = KeptPlace::of(unit, file);
        }
    }
}

// Writes the two fields of a position, each with a comma after it, so that they end before `end`; gives their index.
#[inline(always)]
fn position_before(room: &mut [u8; ROOM], end: usize, position: Position) -> usize
    requires { (40 ≤ end) × (end ≤ 256) }
    ensures begins { (result < end) × (end ≤ result + 40) }
    ensures written { IsPosition IsPlainAddress IsPlainDecimal position (drop result room.new) (drop end room.old) }
{
    let at = number_before(room, end, position.op, b',');
    address_field_before(room, at, position.address)
}

/// Writes an address and a comma after it so that they end before `end`; gives their index.
#[inline(always)]
pub fn address_field_before(room: &mut [u8; ROOM], end: usize, address: u64) -> usize
    requires { (19 ≤ end) × (end ≤ 256) }
    ensures begins { (result < end) × (end ≤ result + 19) }
    ensures written { Begins IsPlainAddress (drop result room.new) address 44 (drop end room.old) }
{
    room[end - 1] = b',';
    address_before(room, end - 1, address)
}

// Writes the fields of an answer, separated by commas, and the line feed, so that they end where `room` does; gives their
// index.
#[inline(always)]
fn answer_before(room: &mut [u8; ROOM], place: &mut KeptPlace, answer: &Answer) -> usize
    ensures begins { (88 ≤ result) × (result < 256) }
    ensures written { (version : Version) → IsOfVersion version answer.now
        → IsAnswer IsPlainDecimal version answer.now (drop result room.new) [] }
{
    let at = more_before(room, answer);
    let at = flag_before(room, at, answer.is_stmt);
    let at = number_before(room, at, answer.column, b',');
    let at = number_before(room, at, answer.line, b',');
    place_before(room, at, place, answer.unit, answer.file)
}

// Writes the fields of a unit and a file, each with a comma after it, so that they end before `end`; gives their index. If they are
// those of the line before, their text is copied.
#[inline(always)]
fn place_before(
    room: &mut [u8; ROOM],
    end: usize,
    place: &mut KeptPlace,
    unit: u64,
    file: u64,
) -> usize
    requires { (48 ≤ end) × (end ≤ 256) }
    ensures begins { (result < end) × (end ≤ result + 48) }
    ensures written { AreUnitAndFile IsPlainDecimal unit file (drop result room.new) (drop end room.old) }
{
    place.turn_to(unit, file);
    place.text.before(room, end)
}

// Writes what only version 2 has, each field with a comma before it, and the line feed, so that they end where `room` does;
// gives their index.
#[inline(always)]
fn more_before(room: &mut [u8; ROOM], answer: &Answer) -> usize
    ensures begins { (212 ≤ result) × (result < 256) }
    ensures written { (version : Version) → IsOfVersion version answer.now
        → IsMore IsPlainDecimal version answer.now.more (drop result room.new) [] }
{
    match &answer.more {
        None => {
            room[ROOM - 1] = b'\n';
            ROOM - 1
        }
        Some(more) => {
            let at = number_before(room, ROOM, more.discriminator, b'\n');
            let at = number_before(room, at, more.isa, b',');
            room[at - 1] = b',';
            at - 1
        }
    }
}

// Writes `0` or `1` so that it ends before `end`; gives its index.
#[inline(always)]
fn flag_before(room: &mut [u8; ROOM], end: usize, on: bool) -> usize
    requires { (1 ≤ end) × (end ≤ 256) }
    ensures begins { result + 1 ≡ end }
    ensures written { IsFlagBefore on (drop result room.new) (drop end room.old) }
{
    room[end - 1] = b'0' + u8::from(on);
    end - 1
}

/// Writes a decimal number and the byte after it so that they end before `end`; gives their index.
#[inline(always)]
pub fn number_before(room: &mut [u8; ROOM], end: usize, n: u64, past: u8) -> usize
    requires { (21 ≤ end) × (end ≤ 256) }
    ensures begins { (result < end) × (end ≤ result + 21) }
    ensures written { Begins IsPlainDecimal (drop result room.new) n past (drop end room.old) }
{
    room[end - 1] = past;
    decimal_before(room, end - 1, n)
}
