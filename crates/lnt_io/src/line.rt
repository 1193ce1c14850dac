//! Prints the lines of values.
ghost use Rattle.std.specs.Prelude.{◌≡◌, ◌++◌, ◌∷◌, [], IfErr, IfOk, IfSome, OnErr, OnOk, string_bytes};
ghost use Rattle.std.specs.Io.KnownBytes.{Appends};
ghost use Rattle.lnt_io.specs.Prefixes.{AppendsPrefix};
ghost use Rattle.lnt_io.specs.IoStops.{IsPrinting};

use crate::io_stop::IoStop;
use crate::whole::write_whole;
use std::alloc::{AllocError, Global};
use std::fmt;
use std::io::Write;

/// Prints the text of a value and a line feed.
///
/// Stops with `Write` if the writer failed, and with `Memory`. If it stops, a prefix of the line has been written, and nothing
/// else.
pub fn print_line<T: fmt::Display, W: Write>(
    alloc: Global,
    value: &T,
    out: &mut W,
) -> Result<(), IoStop>
    ensures line { IfSome (T.output value.now)
        (λ text. OnOk result (Appends (W.contents out.old) (W.contents out.new) (text ++ 10 ∷ []))) }
    ensures prefix { IfSome (T.output value.now)
        (λ text. OnErr result (AppendsPrefix (W.contents out.old) (W.contents out.new) (text ++ 10 ∷ []))) }
    ensures err { IfErr result IsPrinting }
{
    let line = text_line(alloc, value)?;
    write_whole(out, line.as_bytes())?;
    Ok(())
}

// The text of a value and a line feed.
fn text_line<T: fmt::Display>(alloc: Global, value: &T) -> Result<String, AllocError>
    ensures { IfSome (T.output value.now) (λ text. IfOk result (λ line. string_bytes line ≡ text ++ 10 ∷ [])) }
{
    format!(in alloc; "{value}\n")
}
