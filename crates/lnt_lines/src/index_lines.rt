//! The lines of an index, with all spans and paths in memory.
ghost use Rattle.std.specs.Prelude.{IfOk};
ghost use Rattle.lnt_lines.specs.Contents.{AreContentsOf};
ghost use Rattle.lnt_lines.specs.Indexed.{OfUnits};

use crate::index::Index;
use crate::lines::Lines;
use lnt_spans::collect;
use std::alloc::{AllocError, Global};

// The lines of the units that the index is of. Fails only if memory runs out.
pub(crate) fn lines_of(alloc: Global, index: &Index<'_>) -> Result<Lines, AllocError>
    ensures { IfOk result (λ lines. OfUnits index.now (λ selection. AreContentsOf index.now.line index.now.general selection lines)) }
{
    let spans = collect(alloc, index.spans())?;
    let files = index.files(alloc)?;
    let units = Vec::from_slice(alloc, index.units())?;
    Ok(Lines::of(spans, units, files))
}
