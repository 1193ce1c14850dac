//! Texts between quotes.
ghost use Rattle.std.specs.Prelude.{Some};
ghost use Rattle.lnt_text.specs.Texts.{quoted_byte, quoted_text};

use std::fmt;

/// A text between quotes. Each byte that isn't printable ASCII, and each quote and backslash, is written as `\x` and its
/// two hexadecimal digits.
#[derive(Clone, Copy)]
pub struct Quoted<'a>(pub &'a [u8]);

impl fmt::Display for Quoted<'_> {
    ghost output = { λ text. Some (quoted_text text.0.now) };

    fn fmt<W: fmt::Write>(&self, f: &mut fmt::Formatter<W>) -> fmt::Result {
        f.write_char('"')?;
        for &byte in self.0 {
            write!(f, "{}", QuotedByte(byte))?;
        }
        f.write_char('"')
    }
}

// A byte between the quotes.
#[derive(Clone, Copy)]
struct QuotedByte(u8);

impl fmt::Display for QuotedByte {
    ghost output = { λ byte. Some (quoted_byte byte.0) };

    #[inline(always)]
    fn fmt<W: fmt::Write>(&self, f: &mut fmt::Formatter<W>) -> fmt::Result {
        let byte = self.0;
        if byte < b' ' || byte > b'~' || byte == b'"' || byte == b'\\' {
            let (high, low) = (byte / 16, byte % 16);
            return write!(f, "\\x{high:x}{low:x}");
        }
        f.write_char(char::from(byte))
    }
}
