//! Older lists and headers, from bytes that are put together by hand.
ghost use Rattle.std.specs.Prelude.{◌<◌, ◌^◌, length};

use lnt_older::{
    DIRECTORY_PAIRS, FILE_PAIRS, OlderHeader, OlderVersion, pass_listed, read_older_header,
};
use lnt_wire::{Cursor, Fault, Format, Order, Reason};

// The directories `a` and `bc`, an end, and a byte after it.
const DIRECTORIES: &[u8] = b"a\0bc\0\0\x07";

// The files `f` in directory 1 and `g` in directory 300 (of time 2 and size 128), and an end.
const FILES: &[u8] = b"f\0\x01\0\0g\0\xac\x02\x02\x80\x01\0";

// Whether so many entries are listed, in so many bytes, and so many bytes are left after the list.
fn is_listed(bytes: &[u8], order: Order, is_of_files: bool, count: u64, sizes: [usize; 2]) -> bool {
    let mut cursor = Cursor::new(bytes, 16, order);
    let read = if is_of_files {
        pass_listed(&mut cursor, Format::D64, &FILE_PAIRS)
    } else {
        pass_listed(&mut cursor, Format::D32, &DIRECTORY_PAIRS)
    };
    read.is_ok_and(|listed| {
        listed.count == count && [listed.bytes.len(), cursor.rest().len()] == sizes
    })
}

// Whether no list of files is there, with this fault.
fn is_refused(bytes: &[u8], place: u64, reason: Reason) -> bool {
    let mut cursor = Cursor::new(bytes, 16, Order::Big);
    pass_listed(&mut cursor, Format::D32, &FILE_PAIRS).err() == Some(Fault { place, reason })
}

#[test]
fn lists_are_passed(rt: HostRuntime) {
    assert!(rt; is_listed(DIRECTORIES, Order::Little, false, 2, [5, 1]));
    assert!(rt; is_listed(DIRECTORIES, Order::Big, false, 2, [5, 1]));
    assert!(rt; is_listed(FILES, Order::Little, true, 2, [12, 0]));
    assert!(rt; is_listed(FILES, Order::Big, true, 2, [12, 0]));
    assert!(rt; is_listed(b"\0", Order::Little, true, 0, [0, 0]));
}

#[test]
fn first_faults_of_lists(rt: HostRuntime) {
    assert!(rt; is_refused(b"", 16, Reason::Truncated));
    assert!(rt; is_refused(b"f\0\x01\0\0", 21, Reason::Truncated));
    assert!(rt; is_refused(b"f\0\x01\0\0g", 21, Reason::Truncated));
    assert!(rt; is_refused(b"f\0\x81", 18, Reason::Truncated));
    let large = b"f\0\x01\x80\x80\x80\x80\x80\x80\x80\x80\x80\x02\0\0";
    assert!(rt; is_refused(large, 19, Reason::LebTooLarge));
}

// A header of version 2: `opcode_base` 10, the directory `d`, the files `a` and `b`.
const HEADER_2: &[u8] =
    b"\x01\x01\xfb\x0e\x0a\0\x01\x01\x01\x01\0\0\0\x01d\0\0a\0\0\0\0b\0\x01\x82\0\x03\0";

// A header of version 3: `opcode_base` 13, no directory, no file, and two bytes after these.
const HEADER_3: &[u8] = b"\x04\0\xfd\x0c\x0d\0\x01\x01\x01\x01\0\0\0\x01\0\0\x01\0\0\xaa\xbb";

// A header of version 4: 4 operations in an instruction, two directories and a file.
const HEADER_4: &[u8] =
    b"\x01\x04\x01\xfb\x0e\x0d\0\x01\x01\x01\x01\0\0\0\x01\0\0\x01include\0x\0\0a.c\0\x01\0\0\0";

// The header at offset 16, in the 64-bit format.
fn header_of(bytes: &[u8], version: OlderVersion, order: Order) -> Result<OlderHeader<'_>, Fault>
    requires { length bytes.now < 2 ^ 63 }
{
    read_older_header(bytes, 16, version, Format::D64, order)
}

// Whether the header is read with these numbers (of which `line_base` is its byte), numbers of entries, and last bytes.
fn is_header(
    read: Result<OlderHeader<'_>, Fault>,
    numbers: [u8; 6],
    counts: [u64; 2],
    extra: &[u8],
) -> bool {
    let Ok(header) = read else {
        return false;
    };
    let read = [
        header.numbers.minimum_instruction_length,
        header.numbers.max_ops,
        header.numbers.default_is_stmt,
        header.numbers.line_base.cast_unsigned(),
        header.numbers.line_range,
        header.numbers.opcode_base,
    ];
    numbers == read
        && header.standard_lengths.len() + 1 == usize::from(numbers[5])
        && counts == [header.directories.count, header.files.count]
        && extra == header.extra
}

// Whether no header is read, with this fault.
fn has_fault(read: Result<OlderHeader<'_>, Fault>, place: u64, reason: Reason) -> bool {
    read.err() == Some(Fault { place, reason })
}

#[test]
fn headers_are_read(rt: HostRuntime) {
    let two = header_of(HEADER_2, OlderVersion::Two, Order::Little);
    assert!(rt; is_header(two, [1, 1, 1, 0xfb, 14, 10], [1, 2], &[]));
    let three = header_of(HEADER_3, OlderVersion::Three, Order::Big);
    assert!(rt; is_header(three, [4, 1, 0, 0xfd, 12, 13], [0, 0], &[0xaa, 0xbb]));
    let four = header_of(HEADER_4, OlderVersion::Four, Order::Little);
    assert!(rt; is_header(four, [1, 4, 1, 0xfb, 14, 13], [2, 1], &[]));
}

#[test]
fn first_faults_of_headers(rt: HostRuntime) {
    let (two, four) = (OlderVersion::Two, OlderVersion::Four);
    let zero = header_of(b"\x01\0\x01\xfb\0\0", four, Order::Little);
    assert!(rt; has_fault(zero, 17, Reason::MaxOpsZero));
    let range = header_of(b"\x01\0\x01\0\0", OlderVersion::Three, Order::Little);
    assert!(rt; has_fault(range, 19, Reason::LineRangeZero));
    let base = header_of(b"\x01\x01\x01\xfb\x0e\0", four, Order::Big);
    assert!(rt; has_fault(base, 21, Reason::OpcodeBaseZero));
    let cut = header_of(b"\x01\x01\x01\xfb\x0e", four, Order::Big);
    assert!(rt; has_fault(cut, 21, Reason::Truncated));
    let length = header_of(b"\x01\x01\xfb\x0e\x0a\0\x01\x02", two, Order::Big);
    assert!(rt; has_fault(length, 23, Reason::StandardLength(3, 2)));
    let lists = header_of(b"\x01\x01\xfb\x0e\x01d\0\0a\0\x01", two, Order::Big);
    assert!(rt; has_fault(lists, 27, Reason::Truncated));
}
