//! Judges a section and prints why one isn't good.
ghost use Rattle.std.specs.Prelude.{◌≡◌, ◌-◌, ◌^◌, ◌<◌, ◌⊎◌, IfOk, IfSome, OnErr};
ghost use Rattle.std.specs.Io.KnownBytes.{Keeps};
ghost use Rattle.lnt_answers.specs.Lines.{HasBegunLine, IsIndexGiven, IsJudgedBy, IsReasonPrinted};
ghost use Rattle.lnt_io.specs.Stopping.{CountsFailure, IsTooLongOn};

use lnt_io::{IoStop, Source, print_line};
use lnt_lines::{JudgedIndex, Options, index_section, index_with_copies};
use lnt_wire::Strings;
use std::alloc::Global;
use std::io::Write;

/// Judges the section from the source, and prints the line that says why if it isn't good.
///
/// The result is true of the section (`IsJudgedBy`). For a good section it is the index, which has the extents of all live sequences if
/// these are asked for (`with_copies`), and nothing has been written;
/// otherwise it is the reason, and the reason's line has been written, and nothing else. Stops with `Read` only if the
/// source failed, with `TooLong` only if the source has more bytes than it may give, with `Write` if the writer failed, and
/// with `Memory`. If it stops, nothing has been written, or a prefix of the line of a true reason. The caller ensures that
/// the number of the source's failures is below `u64::MAX`.
pub fn judge_or_refuse<'s, R: Source, W: Write>(
    alloc: Global,
    section: &mut R,
    strings: &Strings<'s>,
    options: &Options,
    with_copies: bool,
    out: &mut W,
) -> Result<JudgedIndex<'s>, IoStop>
    requires { R.failures section.old < 2 ^ 64 - 1 }
    ensures judged { IfOk result (λ judged. IfSome (R.remaining section.old) (λ bytes.
        IsJudgedBy with_copies strings.now.line.now strings.now.general.now options.now bytes judged)) }
    ensures printed { IfOk result (λ judged. IsReasonPrinted judged (W.contents out.old) (W.contents out.new)) }
    ensures silent { IfOk result (λ judged. IsIndexGiven judged → out.new ≡ out.old) }
    ensures begun { OnErr result (Keeps (W.contents out.old) (W.contents out.new)
        ⊎ HasBegunLine (λ judged. IfSome (R.remaining section.old) (λ bytes.
        IsJudgedBy with_copies strings.now.line.now strings.now.general.now options.now bytes judged))
        (W.contents out.old) (W.contents out.new)) }
    ensures failures { CountsFailure ⟦<R as Source>⟧ section.old section.new result IoStop.Read }
    ensures too_long { IsTooLongOn ⟦<R as Source>⟧ section.old section.new result IoStop.TooLong }
{
    let judged = if with_copies {
        index_with_copies(alloc, section, strings, options)?
    } else {
        index_section(alloc, section, strings, options)?
    };
    match judged {
        JudgedIndex::Good(index) => Ok(JudgedIndex::Good(index)),
        JudgedIndex::Bad(no) => {
            print_line(alloc, &no, out)?;
            Ok(JudgedIndex::Bad(no))
        }
    }
}
