//! Which offsets into the string sections have a text (DWARF 5, section 7.5.5).
ghost use Rattle.std.specs.Prelude.{◌≡◌, ◌↔◌, IsTrue, IsSome};
ghost use Rattle.lnt_wire.specs.Borrowed.{value_of};
ghost use Rattle.lnt_wire.specs.FormBytes.{text_of};
ghost use Rattle.lnt_files.specs.Tables.{Sections, TextsEndAt};

use lnt_wire::{Strings, ValueView};
use std::marker::Model;

/// The string sections, and where the texts of each end, so that whether an offset has a text is known without reading the
/// section. Contracts see the bytes of the two sections (`Sections`).
#[derive(Drop)]
pub struct StringEnds<'a> {
    strings: Strings<'a>,
    line: usize,
    general: usize,
}

impl<'a> Model for StringEnds<'a> {
    ghost use Rattle.lnt_files.specs.Tables.{Sections, TextsEndAt};

    ghost Value = { Sections };

    ghost view = { λ ends. record { line = ends.strings.line.now; general = ends.strings.general.now } };

    ghost invariant = { λ ends. TextsEndAt ends.line ends.strings.line.now × TextsEndAt ends.general ends.strings.general.now };
}

impl<'a> StringEnds<'a> {
    /// The sections. Each is searched once for its last zero byte. Allocates nothing.
    pub fn of(strings: Strings<'a>) -> StringEnds<'a>
        ensures line { result.line ≡ strings.entry.line.now }
        ensures general { result.general ≡ strings.entry.general.now }
    {
        StringEnds {
            strings,
            line: texts_end(strings.line),
            general: texts_end(strings.general),
        }
    }

    /// Whether the value has a text, as `Strings::text` gives it. It takes constant time.
    #[inline(always)]
    pub(crate) fn has_text(&self, value: ValueView<'_>) -> bool
        ensures { IsTrue result ↔ IsSome (text_of self.now.line self.now.general (value_of value.entry)) }
    {
        match value {
            ValueView::Text(_) => true,
            ValueView::LineStrp(offset) => offset < self.line as u64,
            ValueView::Strp(offset) => offset < self.general as u64,
            _ => false,
        }
    }
}

// The number of bytes of the section up to and including its last zero byte; 0 if it has none.
#[tactic(auto, using(crate::proofs::EndLemmas::texts_end_lemmas))]
fn texts_end(section: &[u8]) -> usize
    ensures { TextsEndAt result section.now }
{
    let mut end = section.len();
    while end > 0 {
        if section[end - 1] == 0 {
            return end;
        }
        end -= 1;
    }
    0
}
