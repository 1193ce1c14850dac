//! The forms that values have in the tables of directories and files (DWARF 5, sections 6.2.4.1 and 7.5.6).
ghost use Rattle.std.specs.Prelude.{◌≡◌, ◌↔◌, IsTrue, MatchOption};
ghost use Rattle.lnt_wire.specs.FormBytes.{form_code, form_of, IsUnknownForm, HasSpelling};

use crate::items::Items;
use crate::strings::text_size;

/// A form that a value of a table may have. A table with values in any other form is rejected, with `UnknownForm`.
#[derive(Clone, Copy, Debug, PartialEq, Eq)]
pub enum Form {
    /// `DW_FORM_data1`, 0x0b: a number of 1 byte.
    Data1,
    /// `DW_FORM_data2`, 0x05: a number of 2 bytes.
    Data2,
    /// `DW_FORM_data4`, 0x06: a number of 4 bytes.
    Data4,
    /// `DW_FORM_data8`, 0x07: a number of 8 bytes.
    Data8,
    /// `DW_FORM_data16`, 0x1e: 16 bytes, as an MD5 sum.
    Data16,
    /// `DW_FORM_string`, 0x08: bytes other than zero, and a zero byte.
    Text,
    /// `DW_FORM_block`, 0x09: a length as an unsigned LEB128 number, and as many bytes.
    Block,
    /// `DW_FORM_block1`, 0x0a: a length in 1 byte, and as many bytes.
    Block1,
    /// `DW_FORM_block2`, 0x03: a length in 2 bytes, and as many bytes.
    Block2,
    /// `DW_FORM_block4`, 0x04: a length in 4 bytes, and as many bytes.
    Block4,
    /// `DW_FORM_strp`, 0x0e: an offset into the section `.debug_str`, of 4 or 8 bytes by the unit's format.
    Strp,
    /// `DW_FORM_line_strp`, 0x1f: an offset into the section `.debug_line_str`, of 4 or 8 bytes by the unit's format.
    LineStrp,
    /// `DW_FORM_udata`, 0x0f: an unsigned LEB128 number.
    Udata,
}

impl Form {
    /// The form with this code. `None` if and only if no form above has it.
    pub fn of(code: u64) -> Option<Form>
        ensures { MatchOption result (IsUnknownForm code) (λ form. form_code form ≡ code) }
    {
        match code {
            0x03 => Some(Form::Block2),
            0x04 => Some(Form::Block4),
            0x05 => Some(Form::Data2),
            0x06 => Some(Form::Data4),
            0x07 => Some(Form::Data8),
            0x08 => Some(Form::Text),
            0x09 => Some(Form::Block),
            0x0a => Some(Form::Block1),
            0x0b => Some(Form::Data1),
            0x0e => Some(Form::Strp),
            0x0f => Some(Form::Udata),
            0x1e => Some(Form::Data16),
            0x1f => Some(Form::LineStrp),
            _ => None,
        }
    }

    /// The code of the form in an entry format (DWARF 5, section 7.5.6).
    pub fn code(self) -> u64
        ensures { result ≡ form_code self }
    {
        match self {
            Form::Block2 => 0x03,
            Form::Block4 => 0x04,
            Form::Data2 => 0x05,
            Form::Data4 => 0x06,
            Form::Data8 => 0x07,
            Form::Text => 0x08,
            Form::Block => 0x09,
            Form::Block1 => 0x0a,
            Form::Data1 => 0x0b,
            Form::Strp => 0x0e,
            Form::Udata => 0x0f,
            Form::Data16 => 0x1e,
            Form::LineStrp => 0x1f,
        }
    }
}

/// A value in one of the forms, which owns its bytes. `ValueView` borrows them.
#[derive(Debug, Drop, PartialEq, Eq)]
pub enum FormValue {
    /// The bytes before the zero byte.
    Text(Items<u8>),
    /// An offset in bytes into the section `.debug_line_str`.
    LineStrp(u64),
    /// An offset in bytes into the section `.debug_str`.
    Strp(u64),
    /// The number. So are those of the next variants up to `Data8`.
    Udata(u64),
    Data1(u8),
    Data2(u16),
    Data4(u32),
    Data8(u64),
    /// The bytes, in the order of the section.
    Data16([u8; 16]),
    /// The bytes after the length, which counts them. So are those of the other blocks below.
    Block(Items<u8>),
    Block1(Items<u8>),
    Block2(Items<u8>),
    Block4(Items<u8>),
}

impl FormValue {
    /// The form of the value.
    pub fn form(&self) -> Form
        ensures { result ≡ form_of self.now }
    {
        match self {
            FormValue::Text(_) => Form::Text,
            FormValue::LineStrp(_) => Form::LineStrp,
            FormValue::Strp(_) => Form::Strp,
            FormValue::Udata(_) => Form::Udata,
            FormValue::Data1(_) => Form::Data1,
            FormValue::Data2(_) => Form::Data2,
            FormValue::Data4(_) => Form::Data4,
            FormValue::Data8(_) => Form::Data8,
            FormValue::Data16(_) => Form::Data16,
            FormValue::Block(_) => Form::Block,
            FormValue::Block1(_) => Form::Block1,
            FormValue::Block2(_) => Form::Block2,
            FormValue::Block4(_) => Form::Block4,
        }
    }

    /// Whether the value has an encoding in its form: a `Text` contains no zero byte, and the number of bytes of a
    /// `Block1`, `Block2` or `Block4` fits in 1, 2 or 4 bytes. Offsets are taken to be in the 64-bit format, which has room
    /// for each of them; `put_form` says which are too large for the 32-bit format.
    pub fn has_spelling(&self) -> bool
        ensures { IsTrue result ↔ HasSpelling self.now }
    {
        match self {
            FormValue::Text(text) => text_size(text.as_slice()).is_none(),
            FormValue::Block1(block) => block.as_slice().len() < 1 << 8,
            FormValue::Block2(block) => block.as_slice().len() < 1 << 16,
            FormValue::Block4(block) => block.as_slice().len() < 1 << 32,
            _ => true,
        }
    }
}

// How the length of a block is encoded: as an unsigned LEB128 number, or in 1, 2 or 4 bytes.
#[derive(Clone, Copy)]
pub(crate) enum BlockLength {
    Leb,
    One,
    Two,
    Four,
}
