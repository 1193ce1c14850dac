//! The texts of values: the string sections, and what an offset into them refers to (DWARF 5, sections 7.5.5 and 7.5.6).
ghost use Rattle.std.specs.Prelude.{◌≡◌, ◌<◌, length, take, drop, get_or, MatchOption, option_map};
ghost use Rattle.lnt_wire.specs.Borrowed.{value_of};
ghost use Rattle.lnt_wire.specs.FormBytes.{HasNoZero, text_of, up_to_zero};

use crate::form::FormValue;
use crate::view::ValueView;

/// The string sections that the offsets of values refer to. Either may be empty, for instance if the file has no such
/// section.
#[derive(Clone, Copy)]
pub struct Strings<'a> {
    /// The bytes of `.debug_line_str`, which `DW_FORM_line_strp` refers to.
    pub line: &'a [u8],
    /// The bytes of `.debug_str`, which `DW_FORM_strp` refers to.
    pub general: &'a [u8],
}

impl<'a> Strings<'a> {
    /// The text of the value, without its zero byte: a `Text`'s own bytes; for a `LineStrp` or a `Strp` those of its
    /// section from the offset up to the first zero byte.
    ///
    /// `None` if and only if the offset is past the end of the section, no zero byte follows there, or the form of the
    /// value isn't a string. The bytes are not copied, and need not be UTF-8.
    pub fn text<'s>(&'s self, value: &'s FormValue) -> Option<&'s [u8]>
        ensures { option_map (λ text. text.now) result ≡ text_of self.now.line.now self.now.general.now value.now }
    {
        match value {
            FormValue::Text(text) => Some(text.as_slice()),
            FormValue::LineStrp(offset) => text_at(self.line, *offset),
            FormValue::Strp(offset) => text_at(self.general, *offset),
            _ => None,
        }
    }

    /// The text of a borrowed value, as `text` gives it.
    pub fn view_text(self, value: ValueView<'a>) -> Option<&'a [u8]>
        ensures { option_map (λ text. text.now) result ≡ text_of self.entry.line.now self.entry.general.now (value_of value.entry) }
    {
        match value {
            ValueView::Text(text) => Some(text),
            ValueView::LineStrp(offset) => text_at(self.line, offset),
            ValueView::Strp(offset) => text_at(self.general, offset),
            _ => None,
        }
    }
}

// The bytes of the section from the offset up to the first zero byte. `None` if the offset is past the end or no zero byte
// follows.
#[tactic(auto, using(crate::proofs::TextLemmas::no_end, crate::proofs::TextLemmas::first_end))]
fn text_at(section: &[u8], offset: u64) -> Option<&[u8]>
    ensures { option_map (λ text. text.now) result ≡ up_to_zero (drop offset section.now) }
{
    if offset > section.len() as u64 {
        return None;
    }
    let (_, bytes) = section.split_at(offset as usize);
    let Some(size) = text_size(bytes) else {
        return None;
    };
    let (text, _) = bytes.split_at(size);
    Some(text)
}

// The number of bytes before the first zero byte. `None` if there is none.
#[tactic(auto, using(crate::proofs::TextLemmas::no_zero_more))]
pub(crate) fn text_size(bytes: &[u8]) -> Option<usize>
    ensures { MatchOption result (HasNoZero bytes.now)
        (λ size. (size < length bytes.now) × HasNoZero (take size bytes.now) × (get_or bytes.now size 0 ≡ 0)) }
{
    for (i, byte) in bytes.iter().enumerate() {
        if *byte == 0 {
            return Some(i);
        }
    }
    None
}
