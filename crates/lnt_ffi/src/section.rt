//! Sections as C hands them over.
ghost use Rattle.std.specs.Prelude.{◌≡◌};
ghost use Rattle.lnt_ffi.specs.Flat.{options_of};

use lnt_lines::Options;
use lnt_wire::{Order, Strings};

/// A section with its string sections, and how it is to be read: `struct linetab_section`.
#[repr(C)]
#[derive(Clone, Copy)]
pub struct FlatSection<'a> {
    /// The bytes of `.debug_line`.
    pub line: &'a [u8],
    /// The bytes of `.debug_line_str`.
    pub line_str: &'a [u8],
    /// The bytes of `.debug_str`.
    pub general: &'a [u8],
    /// The address at which sequences of dead code begin, where `has_dead` says that there is one.
    pub dead: u64,
    /// Whether there is one.
    pub has_dead: bool,
    /// Whether the numbers of the section are big-endian.
    pub is_big: bool,
    /// Whether copies are skipped (`Options`).
    pub skip_copies: bool,
}

impl<'a> FlatSection<'a> {
    // How it is to be read.
    pub(crate) fn options(&self) -> Options
        ensures { result ≡ options_of self.now }
    {
        Options {
            order: if self.is_big {
                Order::Big
            } else {
                Order::Little
            },
            dead: if self.has_dead { Some(self.dead) } else { None },
            skip_copies: self.skip_copies,
        }
    }

    // Its string sections.
    pub(crate) fn strings(&self) -> Strings<'a>
        ensures line { result.line.now ≡ self.now.line_str.now }
        ensures general { result.general.now ≡ self.now.general.now }
    {
        Strings {
            line: self.line_str,
            general: self.general,
        }
    }
}
