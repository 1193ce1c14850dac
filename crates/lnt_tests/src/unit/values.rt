use lnt_wire::{
    Cursor, EncodeFault, Form, Format, Order, put_form, put_offset, put_sleb, put_u16, put_u32,
    put_u64, put_uleb,
};
use std::alloc::Global;
use std::test::Fail;

// Whether the bytes are a value of this form, and are those that are written for it.
fn comes_back(alloc: Global, bytes: &[u8], form: Form) -> bool {
    let mut cursor = Cursor::new(bytes, 0, Order::Big);
    let Ok(value) = cursor.form(alloc, form, Format::D32) else {
        return false;
    };
    let mut out = Vec::new(alloc);
    value.has_spelling()
        && put_form(&mut out, &value, Format::D32, Order::Big).is_ok()
        && out.as_slice() == bytes
}

#[test]
fn a_value_is_read_and_put(rt: HostRuntime) {
    assert!(rt; comes_back(rt.alloc(), &[0, 2, 0xaa, 0xbb], Form::Block2));
}

fn put_numbers(out: &mut Vec<u8>) -> Result<(), EncodeFault> {
    put_uleb(out, 12857)?;
    put_sleb(out, -129)?;
    put_u16(out, 0x0102, Order::Little)?;
    put_u32(out, 0x0102_0304, Order::Big)?;
    put_u64(out, 0x2a, Order::Big)?;
    put_offset(out, 0x10, Format::D32, Order::Little)
}

#[test]
fn numbers_are_put(rt: HostRuntime) -> Result<(), Fail> {
    let mut out = Vec::new(rt.alloc());
    put_numbers(&mut out)?;
    let want = [
        0xb9, 0x64, 0xff, 0x7e, 2, 1, 1, 2, 3, 4, 0, 0, 0, 0, 0, 0, 0, 0x2a, 0x10, 0, 0, 0,
    ];
    assert!(rt; out.as_slice() == want.as_slice());
    Ok(())
}
