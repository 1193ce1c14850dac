//! How the fault of rejected bytes is printed.
ghost use Rattle.std.specs.Prelude.{Some};
ghost use Rattle.lnt_text.specs.Texts.{malformed_text};

use lnt_wire::Fault;
use std::fmt;

/// The line that says which bytes are rejected, and why (number 25), without its line feed.
#[derive(Clone, Copy)]
pub struct MalformedLine(pub Fault);

impl fmt::Display for MalformedLine {
    ghost output = { λ line. Some (malformed_text line.0) };

    fn fmt<W: fmt::Write>(&self, f: &mut fmt::Formatter<W>) -> fmt::Result {
        write!(f, "no 25 {}", self.0)
    }
}
