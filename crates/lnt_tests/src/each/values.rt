//! Values of each form, in both formats and both orders.
use crate::each::units::LAYOUTS;
use lnt_wire::{Cursor, FormValue, Format, Items, Order, put_form};
use std::alloc::{AllocError, Global};

// The bytes `aa bb`.
fn two(alloc: Global) -> Result<Items<u8>, AllocError> {
    Ok(Items::new(Vec::from_slice(alloc, &[0xaa, 0xbb])?))
}

// Whether the bytes are read as the value.
fn is_read(alloc: Global, bytes: &[u8], value: &FormValue, layout: (Format, Order)) -> bool {
    let mut cursor = Cursor::new(bytes, 0, layout.1);
    let read = cursor.form(alloc, value.form(), layout.0);
    read.is_ok_and(|read| read == *value) && cursor.rest().is_empty()
}

// Whether the value is written, and read again as the same.
fn is_kept_in(alloc: Global, value: &FormValue, layout: (Format, Order)) -> bool {
    let mut out = Vec::new(alloc);
    value.has_spelling()
        && put_form(&mut out, value, layout.0, layout.1).is_ok()
        && is_read(alloc, &out, value, layout)
}

fn is_kept(alloc: Global, value: &FormValue) -> bool {
    LAYOUTS
        .iter()
        .all(|layout| is_kept_in(alloc, value, *layout))
}

// Whether a value of two bytes, made like this, is kept.
fn is_kept_of(alloc: Global, value: Result<FormValue, AllocError>) -> bool {
    value.is_ok_and(|value| is_kept(alloc, &value))
}

#[test]
fn numbers_in_each_layout(rt: HostRuntime) {
    let alloc = rt.alloc();
    assert!(rt; is_kept(alloc, &FormValue::LineStrp(7)));
    assert!(rt; is_kept(alloc, &FormValue::Strp(8)));
    assert!(rt; is_kept(alloc, &FormValue::Udata(300)));
    assert!(rt; is_kept(alloc, &FormValue::Data1(1)));
    assert!(rt; is_kept(alloc, &FormValue::Data2(2)));
    assert!(rt; is_kept(alloc, &FormValue::Data4(4)));
    assert!(rt; is_kept(alloc, &FormValue::Data8(8)));
    assert!(rt; is_kept(alloc, &FormValue::Data16([16; 16])));
}

#[test]
fn bytes_in_each_layout(rt: HostRuntime) {
    let alloc = rt.alloc();
    assert!(rt; is_kept_of(alloc, two(alloc).map(FormValue::Text)));
    assert!(rt; is_kept_of(alloc, two(alloc).map(FormValue::Block)));
    assert!(rt; is_kept_of(alloc, two(alloc).map(FormValue::Block1)));
    assert!(rt; is_kept_of(alloc, two(alloc).map(FormValue::Block2)));
    assert!(rt; is_kept_of(alloc, two(alloc).map(FormValue::Block4)));
}
