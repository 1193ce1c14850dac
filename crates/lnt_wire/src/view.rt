//! Values in the forms of a table, which borrow the bytes of the section (DWARF 5, section 7.5.6).
ghost use Rattle.std.specs.Prelude.{◌≡◌, IfOk};
ghost use Rattle.lnt_wire.specs.Borrowed.{value_of};

use crate::form::FormValue;
use crate::items::Items;
use std::alloc::{AllocError, Global};

/// A value in one of the forms. It borrows its bytes from the section; `FormValue` owns them.
#[derive(Clone, Copy, Debug)]
pub enum ValueView<'a> {
    /// The bytes before the zero byte.
    Text(&'a [u8]),
    /// An offset in bytes into the section `.debug_line_str`.
    LineStrp(u64),
    /// An offset in bytes into the section `.debug_str`.
    Strp(u64),
    /// The number. So are those of the next variants up to `Data8`.
    Udata(u64),
    Data1(u8),
    Data2(u16),
    Data4(u32),
    Data8(u64),
    /// The bytes, in the order of the section.
    Data16([u8; 16]),
    /// The bytes after the length, which counts them. So are those of the other blocks below.
    Block(&'a [u8]),
    Block1(&'a [u8]),
    Block2(&'a [u8]),
    Block4(&'a [u8]),
}

/// The value of the view, with a copy of its bytes. Fails only if memory runs out.
#[inline(always)]
pub(crate) fn owned(alloc: Global, view: ValueView<'_>) -> Result<FormValue, AllocError>
    ensures { IfOk result (λ value. value ≡ value_of view.entry) }
{
    match view {
        ValueView::Text(text) => Ok(FormValue::Text(copied(alloc, text)?)),
        ValueView::LineStrp(offset) => Ok(FormValue::LineStrp(offset)),
        ValueView::Strp(offset) => Ok(FormValue::Strp(offset)),
        ValueView::Udata(n) => Ok(FormValue::Udata(n)),
        ValueView::Data1(n) => Ok(FormValue::Data1(n)),
        ValueView::Data2(n) => Ok(FormValue::Data2(n)),
        ValueView::Data4(n) => Ok(FormValue::Data4(n)),
        ValueView::Data8(n) => Ok(FormValue::Data8(n)),
        ValueView::Data16(bytes) => Ok(FormValue::Data16(bytes)),
        ValueView::Block(block) => Ok(FormValue::Block(copied(alloc, block)?)),
        ValueView::Block1(block) => Ok(FormValue::Block1(copied(alloc, block)?)),
        ValueView::Block2(block) => Ok(FormValue::Block2(copied(alloc, block)?)),
        ValueView::Block4(block) => Ok(FormValue::Block4(copied(alloc, block)?)),
    }
}

/// A copy of the bytes. Fails only if memory runs out.
#[inline(never)]
pub fn copied(alloc: Global, bytes: &[u8]) -> Result<Items<u8>, AllocError>
    ensures { IfOk result (λ items. items ≡ bytes.now) }
{
    Ok(Items::new(Vec::from_slice(alloc, bytes)?))
}
