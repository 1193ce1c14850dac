//! The string section that has the paths of a unit's table.
ghost use Rattle.std.specs.Prelude.{◌-◌, ◌^◌, ◌<◌};

use crate::units::unit_at;
use lnt_header::EntryTable;
use lnt_header::content::PATH;
use lnt_io::Source;
use lnt_text::StringSection;
use lnt_unit::{UnitBuffer, UnitInPlace};
use lnt_wire::{Form, Order};
use std::alloc::Global;

// The string section that has the paths of this table of the unit at this offset. `None` if no string section has them, or
// the unit can't be read.
pub(crate) fn strings_of<R: Source>(
    alloc: Global,
    source: &mut R,
    order: Order,
    unit: u64,
    which: EntryTable,
) -> Option<StringSection>
    requires { R.failures source.old < 2 ^ 64 - 1 }
{
    strings_in(alloc, &unit_at(alloc, source, order, unit)?, which)
}

// The string section that has the paths of this table of the unit of the buffer, by the form of the first path in the table's format.
// `None` if neither section has them.
fn strings_in(alloc: Global, buffer: &UnitBuffer, which: EntryTable) -> Option<StringSection> {
    let unit = UnitInPlace::over(alloc, buffer).ok()?;
    let header = unit.header();
    let format = match which {
        EntryTable::Directories => header.directories().pairs(),
        EntryTable::Files => header.files().pairs(),
    };
    match format.iter().find(|pair| pair.content == PATH)?.form {
        Form::LineStrp => Some(StringSection::Line),
        Form::Strp => Some(StringSection::General),
        _ => None,
    }
}
