//! `lnt_wire`: numbers, forms, frames, strings and sources.
use lnt_wire::{
    Counted, Cursor, EncodeFault, Fault, Form, FormValue, Format, Frame, Framed, Items, Order,
    ReadFault, Reason, Source, SourceStop, Strings, frames, put_form, put_sleb, put_uleb, read_all,
    take_frame,
};
use std::alloc::Global;
use std::io::Read;

/// Each byte order.
pub fn is_little(order: Order) -> bool {
    match order {
        Order::Little => true,
        Order::Big => false,
    }
}

/// Each format.
pub fn offset_size(format: Format) -> u8 {
    match format {
        Format::D32 => 4,
        Format::D64 => 8,
    }
}

/// Each form, and its code.
pub fn code_of(form: Form) -> u64 {
    match form {
        Form::Data1 => 0x0b,
        Form::Data2 => 0x05,
        Form::Data4 => 0x06,
        Form::Data8 => 0x07,
        Form::Data16 => 0x1e,
        Form::Text => 0x08,
        Form::Block => 0x09,
        Form::Strp => 0x0e,
        Form::LineStrp => 0x1f,
        Form::Udata => 0x0f,
        Form::Block1 => 0x0a,
        Form::Block2 => 0x03,
        Form::Block4 => 0x04,
    }
}

/// The form with a code, and back.
pub fn form_again(code: u64) -> Option<u64> {
    let form: Form = Form::of(code)?;
    Some(form.code())
}

/// Each value in a form. Those of bytes give their vector back.
pub fn bytes_of(value: FormValue) -> Option<Vec<u8>> {
    match value {
        FormValue::Text(bytes)
        | FormValue::Block(bytes)
        | FormValue::Block1(bytes)
        | FormValue::Block2(bytes)
        | FormValue::Block4(bytes) => Some(bytes.into_vec()),
        FormValue::LineStrp(_)
        | FormValue::Strp(_)
        | FormValue::Udata(_)
        | FormValue::Data1(_)
        | FormValue::Data2(_)
        | FormValue::Data4(_)
        | FormValue::Data8(_)
        | FormValue::Data16(_) => None,
    }
}

/// Values of bytes, each made from a vector without a copy.
pub fn values_of_bytes(text: Vec<u8>, block: Vec<u8>) -> [FormValue; 2] {
    [
        FormValue::Text(Items::new(text)),
        FormValue::Block(Items::new(block)),
    ]
}

/// Values that are numbers.
pub fn number_values(one: u8, two: u16, four: u32, eight: u64) -> [FormValue; 4] {
    [
        FormValue::Data1(one),
        FormValue::Data2(two),
        FormValue::Data4(four),
        FormValue::Data8(eight),
    ]
}

/// Values that are offsets or sixteen bytes.
pub fn other_values(offset: u64, sum: [u8; 16]) -> [FormValue; 4] {
    [
        FormValue::LineStrp(offset),
        FormValue::Strp(offset),
        FormValue::Udata(offset),
        FormValue::Data16(sum),
    ]
}

/// A fault and its fields.
pub fn fault_again(fault: Fault) -> Fault {
    let Fault { place, reason } = fault;
    let _: (u64, Reason) = (place, reason);
    Fault { place, reason }
}

/// Each reason, and what it says.
pub fn number_of(reason: Reason) -> (u8, u64) {
    match reason {
        Reason::Truncated => (1, 0),
        Reason::ReservedLength => (2, 0),
        Reason::VersionNotFive(version) => (3, u64::from(version)),
        Reason::AddressSize(size) => (4, u64::from(size)),
        Reason::SegmentSelector(size) => (5, u64::from(size)),
        Reason::HeaderLength => (6, 0),
        Reason::MaxOpsZero => (7, 0),
        Reason::LineRangeZero => (8, 0),
        Reason::OpcodeBaseZero => (9, 0),
        Reason::StandardLength(opcode, length) => (10, u64::from(opcode.max(length))),
        Reason::UnknownForm(code) => (11, code),
        Reason::EmptyFormat => (12, 0),
        Reason::LebTooLarge => (13, 0),
        Reason::ExtendedLength => (14, 0),
        Reason::Memory => (15, 0),
    }
}

/// A cursor before the first of these bytes.
pub fn cursor_over(bytes: &[u8], order: Order) -> Cursor<'_> {
    Cursor::new(bytes, 0, order)
}

/// Where a cursor is, and what is left.
pub fn left_at<'a>(cursor: &Cursor<'a>) -> (u64, &'a [u8]) {
    (cursor.place(), cursor.rest())
}

/// Numbers of each size, an offset, and some bytes.
pub fn read_numbers<'a>(
    cursor: &mut Cursor<'a>,
    format: Format,
) -> Result<(u8, u16, u32, u64, u64, &'a [u8]), Fault> {
    Ok((
        cursor.u8()?,
        cursor.u16()?,
        cursor.u32()?,
        cursor.u64()?,
        cursor.offset(format)?,
        cursor.take(2)?,
    ))
}

/// Both kinds of LEB128.
pub fn read_lebs(cursor: &mut Cursor<'_>) -> Result<(u64, i64), Fault> {
    Ok((cursor.uleb()?, cursor.sleb()?))
}

/// A value in a form.
pub fn read_value(
    alloc: Global,
    cursor: &mut Cursor<'_>,
    form: Form,
    format: Format,
) -> Result<FormValue, Fault> {
    cursor.form(alloc, form, format)
}

/// A frame, and its fields.
pub fn frame_at<'a>(cursor: &mut Cursor<'a>) -> Result<(u64, Format, u64, &'a [u8]), Fault> {
    let Frame {
        offset,
        format,
        length,
        body,
    } = take_frame(cursor)?;
    Ok((offset, format, length, body))
}

/// All frames of a section, and why there are no more.
pub fn all_frames<'a>(
    alloc: Global,
    bytes: &'a [u8],
    order: Order,
) -> Result<(Vec<Frame<'a>>, Option<Fault>), Fault> {
    let Framed { frames, fault } = frames(alloc, bytes, order)?;
    Ok((frames, fault))
}

/// String sections.
pub fn string_sections<'a>(line: &'a [u8], general: &'a [u8]) -> Strings<'a> {
    Strings { line, general }
}

/// The text of a value.
pub fn text_in<'s>(strings: &'s Strings<'s>, value: &'s FormValue) -> Option<&'s [u8]> {
    strings.text(value)
}

/// Both kinds of LEB128, written.
pub fn put_lebs(out: &mut Vec<u8>, n: u64, z: i64) -> Result<(), EncodeFault> {
    put_uleb(out, n)?;
    put_sleb(out, z)
}

/// A number, written as a value in a form.
pub fn put_number(out: &mut Vec<u8>, n: u64, format: Format) -> Result<(), EncodeFault> {
    put_form(out, &FormValue::Udata(n), format, Order::Little)
}

/// Each reason why a value isn't written.
pub fn encode_fault_number(fault: EncodeFault) -> u8 {
    match fault {
        EncodeFault::TooLarge => 20,
        EncodeFault::Memory => 21,
    }
}

/// A source over a reader, and what it tells after a read.
pub fn pulled<R: Read + Drop>(reader: R) -> (Result<usize, ReadFault>, u64, bool, u64) {
    let mut source: Counted<R> = Counted::new(reader, 70);
    let mut room = [0u8; 4];
    let taken = source.pull(&mut room);
    (taken, source.failures(), source.too_long(), source.left())
}

/// The fault of a read.
pub fn read_fault() -> ReadFault {
    ReadFault
}

/// All bytes of a reader.
pub fn all_bytes<R: Read + Drop>(alloc: Global, reader: R) -> Result<Vec<u8>, SourceStop> {
    read_all(alloc, &mut Counted::new(reader, 70))
}

/// Each reason why a source is read no further.
pub fn source_stop_number(stop: SourceStop) -> u8 {
    match stop {
        SourceStop::Memory => 33,
        SourceStop::Read => 34,
        SourceStop::TooLong => 35,
    }
}
