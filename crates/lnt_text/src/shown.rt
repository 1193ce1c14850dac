//! Names and words, as they are shown to the user.
use crate::quoted::Quoted;
use std::fmt;

/// A name or a word: between quotes if it contains a control character, which a terminal would obey, and otherwise
/// unchanged.
#[derive(Clone, Copy)]
pub struct Shown<'a>(pub &'a str);

impl fmt::Display for Shown<'_> {
    fn fmt<W: fmt::Write>(&self, f: &mut fmt::Formatter<W>) -> fmt::Result {
        if self.0.chars().any(char::is_control) {
            return write!(f, "{}", Quoted(self.0.as_bytes()));
        }
        f.write_str(self.0)
    }
}
