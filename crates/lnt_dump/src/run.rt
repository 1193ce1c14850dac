//! Whether a unit is valid, and whether its program runs.
ghost use Rattle.std.specs.Prelude.{List, true, OnOk, IfErr};
ghost use Rattle.lnt_header.specs.declared.op.Op.{Op};
ghost use Rattle.lnt_machine.specs.Matrix.{IsRunFault};
ghost use Rattle.lnt_unit.specs.Views.{with_ops};
ghost use Rattle.lnt_dump.specs.Stepping.{IsFaultOf, IsSound, IsUnitOf};

use lnt_machine::{RowFault, Run, RunFault};
use lnt_unit::UnitInPlace;

// Checks the operations of a unit, and if `runs` is set, whether its program runs. An operation that isn't valid is reported
// first, wherever it is.
pub(crate) fn judge(unit: &UnitInPlace<'_>, runs: bool) -> Result<(), RowFault>
    ensures ok { OnOk result (IsSound unit.now runs) }
    ensures err { IfErr result (IsFaultOf unit.now.unit runs) }
{
    if runs {
        return run(unit);
    }
    unit.operation_count()?;
    Ok(())
}

// Runs the program of a unit, and checks its operations on the way.
fn run(unit: &UnitInPlace<'_>) -> Result<(), RowFault>
    ensures ok { OnOk result (IsSound unit.now true) }
    ensures err { IfErr result (IsFaultOf unit.now.unit true) }
{
    let mut run = Run::new(unit.numbers());
    for op in unit.ops() {
        if let Err(fault) = run.step(&op?) {
            return Err(not_run(unit, fault));
        }
    }
    run.end()?;
    Ok(())
}

// Why a unit isn't dumped whose program doesn't run, for this fault: an operation that isn't valid is reported first.
fn not_run(unit: &UnitInPlace<'_>, fault: RunFault) -> RowFault
    requires { (ops : List Op) → IsUnitOf unit.now ops → IsRunFault (with_ops unit.now ops) fault }
    ensures { IsFaultOf unit.now.unit true result }
{
    match unit.operation_count() {
        Ok(_) => RowFault::Run(fault),
        Err(first) => RowFault::Malformed(first),
    }
}
