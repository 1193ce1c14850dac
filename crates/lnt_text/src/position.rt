//! How a position is printed.
ghost use Rattle.std.specs.Prelude.{Some};
ghost use Rattle.lnt_text.specs.Texts.{position_text};

use lnt_spans::Position;
use std::fmt;

/// A position: its address in hexadecimal digits, and its operation index after a comma.
#[derive(Clone, Copy)]
pub struct PositionText(pub Position);

impl fmt::Display for PositionText {
    ghost output = { λ text. Some (position_text text.0) };

    fn fmt<W: fmt::Write>(&self, f: &mut fmt::Formatter<W>) -> fmt::Result {
        let Position { address, op } = self.0;
        write!(f, "0x{address:x},{op}")
    }
}
