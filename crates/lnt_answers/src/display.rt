//! Appends text to a vector.
ghost use Rattle.std.specs.Prelude.{◌≡◌, ◌++◌, IfSome, OnOk};

use std::alloc::AllocError;
use std::fmt;
use std::io::Write;

// Appends the text of a value.
pub(crate) fn put_text<T: fmt::Display>(value: &T, text: &mut Vec<u8>) -> Result<(), AllocError>
    ensures { IfSome (T.output value.now) (λ shown. OnOk result (text.new.items ≡ text.old.items ++ shown)) }
{
    // Writing to a vector fails only if memory runs out.
    write!(text, "{value}").map_err(|_| AllocError)
}
