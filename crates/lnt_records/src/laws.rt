//! Laws of tables, by number and by path. Each is the contract of a function that takes nothing and does nothing.
ghost use Rattle.lnt_records.specs.Laws.{NoFault, OneFault, OneTable};
ghost use Rattle.lnt_records.specs.PathTables.{by_path};
ghost use Rattle.lnt_records.specs.Table.{by_number};

/// Bytes are a table of at most one version and one list of spans.
pub fn one_table()
    ensures by_number { OneTable by_number }
    ensures by_path { OneTable by_path }
{}

/// Bytes that are a table have no fault.
pub fn no_fault()
    ensures by_number { NoFault by_number }
    ensures by_path { NoFault by_path }
{}

/// At most one fault of a table is the first of some bytes.
pub fn one_fault()
    ensures by_number { OneFault by_number }
    ensures by_path { OneFault by_path }
{}
