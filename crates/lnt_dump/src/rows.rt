//! How rows are printed.
ghost use Rattle.std.specs.Prelude.{◌++◌, List, IfErr, OnErr, OnOk, [], cond};
ghost use Rattle.lnt_io.specs.Prefixes.{AppendsPrefix};
ghost use Rattle.lnt_io.specs.IoStops.{IsPrinting};
ghost use Rattle.lnt_header.specs.declared.op.Op.{Op};
ghost use Rattle.lnt_machine.specs.Matrix.{rows};
ghost use Rattle.lnt_unit.specs.Views.{with_ops};
ghost use Rattle.lnt_dump.specs.Units.{numbered};
ghost use Rattle.lnt_dump.specs.Operations.{row_line as line_of_row};
ghost use Rattle.lnt_dump.specs.Stepping.{IsPaged, IsSound, IsUnitOf};

use crate::line::{MOST, row_line};
use crate::page::turn_full;
use lnt_io::IoStop;
use lnt_machine::{Row, Run};
use lnt_unit::UnitInPlace;
use std::io::Write;

// Prints a line for each row of a valid unit, if they are shown; then its program runs.
pub(crate) fn print_rows<W: Write>(
    unit: &UnitInPlace<'_>,
    is_shown: bool,
    page: &mut Vec<u8>,
    out: &mut W,
) -> Result<(), IoStop>
    requires { IsSound unit.now is_shown }
    ensures ok { OnOk result ((ops : List Op) → IsUnitOf unit.now ops
        → IsPaged (page.old.items ++ cond is_shown (numbered line_of_row 0 (rows (with_ops unit.now ops))) [])
        (W.contents out.old) (W.contents out.new) page.new.items) }
    ensures prefix { OnErr result ((ops : List Op) → IsUnitOf unit.now ops
        → AppendsPrefix (W.contents out.old) (W.contents out.new)
        (page.old.items ++ cond is_shown (numbered line_of_row 0 (rows (with_ops unit.now ops))) [])) }
    ensures err { IfErr result IsPrinting }
{
    if !is_shown {
        return Ok(());
    }
    let mut room = [0; MOST];
    let mut run = Run::new(unit.numbers());
    let mut index: u64 = 0;
    for op in unit.ops() {
        let Ok(op) = op else { unreachable!() };
        let Ok(made) = run.step(&op) else {
            unreachable!()
        };
        if let Some(row) = made {
            print_row(index, &row, &mut room, page, out)?;
            index += 1;
        }
    }
    Ok(())
}

// Prints the line of the `index`th row. The room is for its text.
#[inline(always)]
fn print_row<W: Write>(
    index: u64,
    row: &Row,
    room: &mut [u8; MOST],
    page: &mut Vec<u8>,
    out: &mut W,
) -> Result<(), IoStop>
    ensures ok { OnOk result (IsPaged (page.old.items ++ line_of_row index row.now)
        (W.contents out.old) (W.contents out.new) page.new.items) }
    ensures prefix { OnErr result (AppendsPrefix (W.contents out.old) (W.contents out.new)
        (page.old.items ++ line_of_row index row.now)) }
    ensures err { IfErr result IsPrinting }
{
    let start = row_line(room, index, row);
    page.extend_from_slice(&room[start..])?;
    turn_full(page, out)
}
