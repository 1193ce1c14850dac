//! Reads values in the forms of a table (DWARF 5, section 7.5.6).
ghost use Rattle.std.specs.Prelude.{◌≡◌, IfOk, IfErr, OnErr};
ghost use Rattle.lnt_wire.specs.Borrowed.{value_of};
ghost use Rattle.lnt_wire.specs.Bytes.{TakenBytes};
ghost use Rattle.lnt_wire.specs.declared.format.Format.{Format};
ghost use Rattle.lnt_wire.specs.FormBytes.{TextBytes, BlockBytes, ValueBytes};
ghost use Rattle.lnt_wire.specs.FormFaults.{IsCutText, IsValueFault};
ghost use Rattle.lnt_wire.specs.BlockLengths.{LengthBytes, IsLengthFault, IsBlockValueFault, block_form};
ghost use Rattle.lnt_wire.specs.Reading.{Reads, RefusesField, RefusesFieldOr, IsCutShort};

use crate::cursor::Cursor;
use crate::fault::{Fault, Reason};
use crate::form::{BlockLength, Form, FormValue};
use crate::format::Format;
use crate::strings::text_size;
use crate::view::{ValueView, owned};
use std::alloc::Global;

impl<'a> Cursor<'a> {
    /// The next value in the form. It borrows the bytes of the section. Offsets have 4 bytes in the 32-bit format, and 8 in
    /// the 64-bit one. Allocates nothing.
    ///
    /// Fails only if there is no value in the form here: with `Truncated` if it ends after the remaining bytes, and with
    /// `LebTooLarge` if a LEB128 number in it doesn't fit in 64 bits. The place of both is the value's first byte.
    #[inline(always)]
    #[tactic(auto, using(crate::proofs::RefusedForms::value_refusals))]
    pub fn value(&mut self, form: Form, format: Format) -> Result<ValueView<'a>, Fault>
        ensures ok { IfOk result (λ v. Reads (ValueBytes format self.old.order form) (value_of v) self.old self.new) }
        ensures err { IfErr result (λ fault.
            RefusesField (IsValueFault format self.old.order form) (ValueBytes format self.old.order form) self.old fault) }
        ensures unchanged { OnErr result (self.new ≡ self.old) }
    {
        match form {
            Form::Data1 => Ok(ValueView::Data1(self.u8()?)),
            Form::Data2 => Ok(ValueView::Data2(self.u16()?)),
            Form::Data4 => Ok(ValueView::Data4(self.u32()?)),
            Form::Data8 => Ok(ValueView::Data8(self.u64()?)),
            Form::Data16 => Ok(ValueView::Data16(self.data16()?)),
            Form::Text => Ok(ValueView::Text(self.text()?)),
            Form::Block => self.block_value(BlockLength::Leb),
            Form::Block1 => self.block_value(BlockLength::One),
            Form::Block2 => self.block_value(BlockLength::Two),
            Form::Block4 => self.block_value(BlockLength::Four),
            Form::Strp => Ok(ValueView::Strp(self.offset(format)?)),
            Form::LineStrp => Ok(ValueView::LineStrp(self.offset(format)?)),
            Form::Udata => Ok(ValueView::Udata(self.uleb()?)),
        }
    }

    /// The next value in the form, which owns a copy of its bytes.
    ///
    /// Fails with `Memory` if the copy can't be allocated, and otherwise as `value` does.
    #[inline(always)]
    pub fn form(&mut self, alloc: Global, form: Form, format: Format) -> Result<FormValue, Fault>
        ensures ok { IfOk result (λ v. Reads (ValueBytes format self.old.order form) v self.old self.new) }
        ensures err { IfErr result (λ fault.
            RefusesFieldOr (IsValueFault format self.old.order form) (ValueBytes format self.old.order form) self.old fault) }
        ensures unchanged { OnErr result (self.new ≡ self.old) }
    {
        let mut ahead = self.fork();
        let value = owned(alloc, ahead.value(form, format)?)?;
        *self = ahead;
        Ok(value)
    }

    // The next 16 bytes, unchanged. Fails with `Truncated` if fewer are left.
    #[inline(always)]
    fn data16(&mut self) -> Result<[u8; 16], Fault>
        ensures ok { IfOk result (λ v. Reads (TakenBytes 16) v self.old self.new) }
        ensures err { IfErr result (λ fault. RefusesField (IsCutShort 16) (TakenBytes 16) self.old fault) }
        ensures unchanged { OnErr result (self.new ≡ self.old) }
    {
        let mut value = [0; 16];
        value.copy_from_slice(self.take(16)?);
        Ok(value)
    }

    // The next bytes up to a zero byte, without it. The cursor moves past it too. Fails with `Truncated` if no zero byte
    // remains.
    #[inline(never)]
    fn text(&mut self) -> Result<&'a [u8], Fault>
        ensures ok { IfOk result (λ v. Reads TextBytes v.now self.old self.new) }
        ensures err { IfErr result (λ fault. RefusesField IsCutText TextBytes self.old fault) }
        ensures unchanged { OnErr result (self.new ≡ self.old) }
    {
        let place = self.place();
        let bytes = self.rest();
        let Some(size) = text_size(bytes) else {
            return Err(Fault {
                place,
                reason: Reason::Truncated,
            });
        };
        let (text, _) = bytes.split_at(size);
        self.skip(size + 1);
        Ok(text)
    }

    // The next block as a value, in the form whose lengths are encoded as `encoding` says. Such a form is the same in both
    // formats. Fails as `block` does.
    #[inline(always)]
    fn block_value(&mut self, encoding: BlockLength) -> Result<ValueView<'a>, Fault>
        ensures ok { IfOk result (λ v. (format : Format) →
            Reads (ValueBytes format self.old.order (block_form encoding)) (value_of v) self.old self.new) }
        ensures err { IfErr result (λ fault.
            RefusesField (IsBlockValueFault self.old.order encoding) (BlockBytes (LengthBytes self.old.order encoding)) self.old fault) }
        ensures unchanged { OnErr result (self.new ≡ self.old) }
    {
        let block = self.block(encoding)?;
        match encoding {
            BlockLength::Leb => Ok(ValueView::Block(block)),
            BlockLength::One => Ok(ValueView::Block1(block)),
            BlockLength::Two => Ok(ValueView::Block2(block)),
            BlockLength::Four => Ok(ValueView::Block4(block)),
        }
    }

    // The bytes of the next block, whose length is encoded as `encoding` says. Fails with `Truncated` if the length is truncated
    // or counts more bytes than follow it, and with `LebTooLarge`. The place of each is the length's first byte.
    #[inline(never)]
    fn block(&mut self, encoding: BlockLength) -> Result<&'a [u8], Fault>
        ensures ok { IfOk result (λ v. Reads (BlockBytes (LengthBytes self.old.order encoding)) v.now self.old self.new) }
        ensures err { IfErr result (λ fault.
            RefusesField (IsBlockValueFault self.old.order encoding) (BlockBytes (LengthBytes self.old.order encoding)) self.old fault) }
        ensures unchanged { OnErr result (self.new ≡ self.old) }
    {
        let place = self.place();
        let mut ahead = self.fork();
        let size = ahead.length(encoding)?;
        let bytes = ahead.rest();
        if size > bytes.len() as u64 {
            return Err(Fault {
                place,
                reason: Reason::Truncated,
            });
        }
        let (block, _) = bytes.split_at(size as usize);
        ahead.skip(size as usize);
        *self = ahead;
        Ok(block)
    }

    // The next length of a block, encoded as `encoding` says.
    fn length(&mut self, encoding: BlockLength) -> Result<u64, Fault>
        ensures ok { IfOk result (λ v. Reads (LengthBytes self.old.order encoding) v self.old self.new) }
        ensures err { IfErr result (λ fault.
            RefusesField (IsLengthFault encoding) (LengthBytes self.old.order encoding) self.old fault) }
        ensures unchanged { OnErr result (self.new ≡ self.old) }
    {
        match encoding {
            BlockLength::Leb => self.uleb(),
            BlockLength::One => Ok(u64::from(self.u8()?)),
            BlockLength::Two => Ok(u64::from(self.u16()?)),
            BlockLength::Four => Ok(u64::from(self.u32()?)),
        }
    }
}
