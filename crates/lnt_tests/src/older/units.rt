//! Units from bytes that are put together by hand, and the units of version 5 that say the same at address size 8 in the directory `/w`.
ghost use Rattle.std.specs.Prelude.{◌<◌, ◌^◌, length};

use lnt_older::{AnyUnit, append_upgraded_unit, take_any_unit};
use lnt_wire::{Cursor, Fault, Order, Reason};
use std::alloc::Global;

// A unit of version 2 in the 32-bit format, little-endian: the directory `d`, the files `a` and `b`.
const TWO: &[u8] =
    b"4\0\0\0\x02\0\x1d\0\0\0\x01\x01\xfb\x0e\x0a\0\x01\x01\x01\x01\0\0\0\x01d\0\0a\0\0\0\0b\0\x01\x82\0\x03\0\0\x09\x02\x01\x02\x03\x04\x05\x06\x07\x08\x14\x02\x04\0\x01\x01";

const TWO_IN_5: &[u8] =
    b"K\0\0\0\x05\0\x08\02\0\0\0\x01\x01\x01\xfb\x0e\x0a\0\x01\x01\x01\x01\0\0\0\x01\x01\x01\x08\x02/w\0d\0\x04\x01\x08\x02\x0f\x03\x0f\x04\x0f\x03a\0\0\0\0a\0\0\0\0b\0\x01\x82\0\x03\0\x09\x02\x01\x02\x03\x04\x05\x06\x07\x08\x14\x02\x04\0\x01\x01";

// A unit of version 3 in the 64-bit format, big-endian: no directory, no file, two bytes after these, and no program.
const THREE: &[u8] =
    b"\xff\xff\xff\xff\0\0\0\0\0\0\0\x1f\0\x03\0\0\0\0\0\0\0\x15\x04\0\xfd\x0c\x0d\0\x01\x01\x01\x01\0\0\0\x01\0\0\x01\0\0\xaa\xbb";

const THREE_IN_5: &[u8] =
    b"\xff\xff\xff\xff\0\0\0\0\0\0\01\0\x05\x08\0\0\0\0\0\0\0\0%\x04\x01\0\xfd\x0c\x0d\0\x01\x01\x01\x01\0\0\0\x01\0\0\x01\x01\x01\x08\x01/w\0\x04\x01\x08\x02\x0f\x03\x0f\x04\x0f\0\xaa\xbb";

// A unit of version 4 in the 64-bit format, little-endian: two directories and a file.
const FOUR: &[u8] =
    b"\xff\xff\xff\xff:\0\0\0\0\0\0\0\x04\0%\0\0\0\0\0\0\0\x01\x04\x01\xfb\x0e\x0d\0\x01\x01\x01\x01\0\0\0\x01\0\0\x01include\0x\0\0a.c\0\x01\0\0\0\0\x05\x02\x01\x02\x03\x04\x01\0\x01\x01";

const FOUR_IN_5: &[u8] =
    b"\xff\xff\xff\xffR\0\0\0\0\0\0\0\x05\0\x08\0;\0\0\0\0\0\0\0\x01\x04\x01\xfb\x0e\x0d\0\x01\x01\x01\x01\0\0\0\x01\0\0\x01\x01\x01\x08\x03/w\0include\0x\0\x04\x01\x08\x02\x0f\x03\x0f\x04\x0f\x02a.c\0\x01\0\0a.c\0\x01\0\0\0\x05\x02\x01\x02\x03\x04\x01\0\x01\x01";

// A unit of version 4 in the 32-bit format, big-endian: `opcode_base` 14, a directory, a file, and a byte after these.
const FOUR_BIG: &[u8] =
    b"\0\0\0.\0\x04\0\0\0\x1d\x02\x01\x01\x01\x04\x0e\0\x01\x01\x01\x01\0\0\0\x01\0\0\x01\x07d\0\0f\0\x02\0\0\0\0\0\x05\x02\x01\x02\x03\x04\x01\0\x01\x01";

const FOUR_BIG_IN_5: &[u8] =
    b"\0\0\0D\0\x05\x08\0\0\0\01\x02\x01\x01\x01\x04\x0e\0\x01\x01\x01\x01\0\0\0\x01\0\0\x01\x07\x01\x01\x08\x02/w\0d\0\x04\x01\x08\x02\x0f\x03\x0f\x04\x0f\x02f\0\x02\0\0f\0\x02\0\0\0\0\x05\x02\x01\x02\x03\x04\x01\0\x01\x01";

// Whether the one is read, and the other written of it.
fn is_upgraded(alloc: Global, older: &[u8], newer: &[u8], order: Order) -> bool
    requires { length older.now < 2 ^ 63 }
{
    let mut cursor = Cursor::new(older, 0, order);
    let Ok(AnyUnit::Older(unit)) = take_any_unit(&mut cursor) else {
        return false;
    };
    let mut out = Vec::new(alloc);
    append_upgraded_unit(alloc, &mut out, &unit, 8, b"/w").is_ok()
        && cursor.rest().is_empty()
        && out.as_slice() == newer
}

// Whether no unit is there, with this fault.
fn is_refused(bytes: &[u8], order: Order, place: u64, reason: Reason) -> bool
    requires { length bytes.now < 2 ^ 63 }
{
    take_any_unit(&mut Cursor::new(bytes, 0, order)).err() == Some(Fault { place, reason })
}

// Whether the unit is one of version 5, given as it stands.
fn is_five(bytes: &[u8], order: Order) -> bool
    requires { length bytes.now < 2 ^ 63 }
{
    matches!(take_any_unit(&mut Cursor::new(bytes, 0, order)), Ok(AnyUnit::Five(five)) if five == bytes)
}

#[test]
fn units_are_upgraded(rt: HostRuntime) {
    let alloc = rt.alloc();
    assert!(rt; is_upgraded(alloc, TWO, TWO_IN_5, Order::Little));
    assert!(rt; is_upgraded(alloc, THREE, THREE_IN_5, Order::Big));
    assert!(rt; is_upgraded(alloc, FOUR, FOUR_IN_5, Order::Little));
    assert!(rt; is_upgraded(alloc, FOUR_BIG, FOUR_BIG_IN_5, Order::Big));
}

#[test]
fn version_5_stays(rt: HostRuntime) {
    assert!(rt; is_five(TWO_IN_5, Order::Little));
    assert!(rt; is_five(THREE_IN_5, Order::Big));
}

#[test]
fn first_faults_of_units(rt: HostRuntime) {
    let (little, big) = (Order::Little, Order::Big);
    assert!(rt; is_refused(b"\x04\0\0", little, 0, Reason::Truncated));
    assert!(rt; is_refused(b"\x04\0\0\0\x02\0\0", little, 0, Reason::Truncated));
    assert!(rt; is_refused(b"\xff\xff\xff\xf0", big, 0, Reason::ReservedLength));
    assert!(rt; is_refused(b"\0\0\0\x01\0", big, 4, Reason::Truncated));
    assert!(rt; is_refused(b"\0\0\0\x02\0\x06", big, 4, Reason::VersionNotFive(6)));
    assert!(rt; is_refused(b"\0\0\0\x04\0\x02\0\0", big, 6, Reason::Truncated));
    let cut = b"\0\0\0\x07\0\x02\0\0\0\x02\x01";
    assert!(rt; is_refused(cut, big, 6, Reason::HeaderLength));
    let ends = b"\0\0\0\x08\0\x02\0\0\0\x02\x01\x01";
    assert!(rt; is_refused(ends, big, 12, Reason::Truncated));
}
