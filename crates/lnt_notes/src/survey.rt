//! The addresses at which sequences of discarded code may begin in a section.
ghost use Rattle.std.specs.Prelude.{◌-◌, ◌^◌, ◌<◌};

use crate::markers::is_marker;
use lnt_io::Source;
use lnt_machine::{Row, Rows};
use lnt_unit::{SectionReader, UnitBuffer, UnitInPlace};
use lnt_wire::Order;
use std::alloc::Global;

// The addresses at which the sequences of a section begin, as far as they indicate discarded code.
#[derive(Clone, Copy)]
pub(crate) struct Survey {
    // the address of discarded code that the words give
    dead: Option<u64>,
    // whether a sequence begins at that address
    pub(crate) begins_dead: bool,
    // the first other address at which a sequence begins and linkers leave discarded code, and how many sequences begin there
    pub(crate) marker: Option<u64>,
    pub(crate) count: u64,
}

impl Survey {
    // Adds a sequence by its first row, in a unit whose addresses have `address_size` bytes.
    fn see(&mut self, row: &Row, address_size: u8) {
        let address = row.address;
        if self.dead == Some(address) {
            self.begins_dead = true;
            return;
        }
        if self.marker.is_none() && is_marker(address, address_size) {
            self.marker = Some(address);
        }
        if self.marker == Some(address) {
            self.count = self.count.saturating_add(1);
        }
    }

    // Adds the sequences of a unit. `None` if its bytes encode none, or its program doesn't run.
    fn see_unit(&mut self, alloc: Global, buffer: &UnitBuffer) -> Option<()> {
        let unit = UnitInPlace::over(alloc, buffer).ok()?;
        let numbers = unit.numbers();
        let mut begins = true;
        for row in Rows::new(numbers, unit.ops()) {
            let row = row.ok()?;
            if begins {
                self.see(&row, numbers.address_size());
            }
            begins = row.end_sequence;
        }
        Some(())
    }
}

// The survey of the section from the source. Unless `all` is asked for, it ends after the first unit in which a sequence
// begins at the address `dead`. `None` if the section can't be read as far as that, or a program doesn't run.
pub(crate) fn survey_of<R: Source>(
    alloc: Global,
    source: &mut R,
    order: Order,
    dead: Option<u64>,
    all: bool,
) -> Option<Survey>
    requires { R.failures source.old < 2 ^ 64 - 1 }
{
    let mut survey = Survey {
        dead,
        begins_dead: false,
        marker: None,
        count: 0,
    };
    let mut reader = SectionReader::new(source, order);
    let mut room = Vec::new(alloc);
    while let Some(buffer) = reader.next_unit_in(room).ok()? {
        survey.see_unit(alloc, &buffer)?;
        if survey.begins_dead && !all {
            return Some(survey);
        }
        room = buffer.into_bytes();
    }
    Some(survey)
}
