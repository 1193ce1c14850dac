//! Caches the ends of lines, which are the paths of files.
ghost use Rattle.std.specs.Prelude.{◌≡◌, ◌++◌, IfOk, IsSome, OnOk};
ghost use Rattle.lnt_lines.specs.Indexed.{Indexed, file_path_in};
ghost use Rattle.lnt_answers.specs.AddressBlocks.{AreEndsOf};
ghost use Rattle.lnt_answers.specs.Lines.{path_end};

use crate::display::put_text;
use lnt_lines::Index;
use lnt_text::Quoted;
use std::alloc::{AllocError, Global};

// The number of ends kept at most.
const SLOTS: u64 = 512;

// The number of bytes of the longest end that is kept, so that all of them together take 512 KiB at most.
const LONGEST: usize = 1024;

// The end of a line with the path of a file, with its unit and file number.
#[derive(Drop)]
struct LineEnd {
    unit: u64,
    file: u64,
    text: Vec<u8>,
}

// A cache of ends, one in each slot, which the sum of the unit and the file number selects: an end is made again only after
// another file with the same slot was asked for, or if it is long.
#[derive(Drop)]
pub(crate) struct LineEnds {
    slots: Vec<Option<LineEnd>>,
}

impl LineEnds {
    // An empty cache.
    pub(crate) fn new(alloc: Global) -> Result<LineEnds, AllocError>
        ensures { IfOk result (λ ends. (index : Indexed) → AreEndsOf index ends.slots.items) }
    {
        let mut slots = Vec::new(alloc);
        for _ in 0..SLOTS {
            slots.push(None)?;
        }
        Ok(LineEnds { slots })
    }

    // Appends the end of a line with the path of this file, and keeps it if it isn't long. The caller ensures that the file has
    // a path.
    pub(crate) fn put_end(
        &mut self,
        alloc: Global,
        index: &Index<'_>,
        unit: u64,
        file: u64,
        line: &mut Vec<u8>,
    ) -> Result<(), AllocError>
        requires there { IsSome (file_path_in index.now unit file) }
        requires known { AreEndsOf index.now self.old.slots.items }
        ensures known { AreEndsOf index.now self.new.slots.items }
        ensures put { OnOk result (line.new.items ≡ line.old.items ++ path_end (file_path_in index.now unit file)) }
    {
        if let Some(Some(end)) = self.slots.get(slot_of(unit, file)) {
            if end.unit == unit && end.file == file {
                line.extend_from_slice(&end.text)?;
                return Ok(());
            }
        }
        let start = line.len();
        append_end(alloc, index, unit, file, line)?;
        self.keep(alloc, unit, file, &line[start..])?;
        Ok(())
    }

    // Keeps the end of a line with the path of this file, if it isn't long.
    fn keep(&mut self, alloc: Global, unit: u64, file: u64, text: &[u8]) -> Result<(), AllocError>
        ensures { (index : Indexed) → text.now ≡ path_end (file_path_in index unit file) → AreEndsOf index self.old.slots.items
            → AreEndsOf index self.new.slots.items }
    {
        if text.len() > LONGEST {
            return Ok(());
        }
        let text = Vec::from_slice(alloc, text)?;
        if let Some(slot) = self.slots.get_mut(slot_of(unit, file)) {
            *slot = Some(LineEnd { unit, file, text });
        }
        Ok(())
    }
}

// The index of the slot for a file.
fn slot_of(unit: u64, file: u64) -> usize {
    (unit.wrapping_add(file) % SLOTS) as usize
}

// Appends the end of a line with the path of this file. The caller ensures that the file has a path.
fn append_end(
    alloc: Global,
    index: &Index<'_>,
    unit: u64,
    file: u64,
    line: &mut Vec<u8>,
) -> Result<(), AllocError>
    requires { IsSome (file_path_in index.now unit file) }
    ensures { OnOk result (line.new.items ≡ line.old.items ++ path_end (file_path_in index.now unit file)) }
{
    let Some(path) = index.path_of(alloc, unit, file)? else {
        unreachable!()
    };
    put_text(&format_args!(" path {}\n", Quoted(&path)), line)
}
