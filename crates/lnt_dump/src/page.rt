//! The text on its way to the writer.
ghost use Rattle.std.specs.Prelude.{◌≡◌, [], IfErr, OnErr, OnOk};
ghost use Rattle.std.specs.Io.KnownBytes.{Appends};
ghost use Rattle.lnt_io.specs.Prefixes.{AppendsPrefix};
ghost use Rattle.lnt_io.specs.IoStops.{IsPrinting};
ghost use Rattle.lnt_dump.specs.Stepping.{IsPaged};

use lnt_io::{BLOCK, IoStop, write_whole};
use std::io::Write;

// Writes the page if it is full, and empties it.
#[tactic(auto, using(crate::proofs::Pages::paged_kept, crate::proofs::Pages::paged_turned))]
#[inline(always)]
pub(crate) fn turn_full<W: Write>(page: &mut Vec<u8>, out: &mut W) -> Result<(), IoStop>
    ensures ok { OnOk result (IsPaged page.old.items (W.contents out.old) (W.contents out.new) page.new.items) }
    ensures prefix { OnErr result (AppendsPrefix (W.contents out.old) (W.contents out.new) page.old.items) }
    ensures err { IfErr result IsPrinting }
{
    if page.len() >= BLOCK {
        return hand_on(page, out);
    }
    Ok(())
}

// Writes the page, and empties it.
pub(crate) fn hand_on<W: Write>(page: &mut Vec<u8>, out: &mut W) -> Result<(), IoStop>
    ensures whole { OnOk result (Appends (W.contents out.old) (W.contents out.new) page.old.items) }
    ensures empty { OnOk result (page.new.items ≡ []) }
    ensures prefix { OnErr result (AppendsPrefix (W.contents out.old) (W.contents out.new) page.old.items) }
    ensures err { IfErr result IsPrinting }
{
    write_whole(out, page)?;
    page.clear();
    Ok(())
}
