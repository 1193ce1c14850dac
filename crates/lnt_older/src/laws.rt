//! Laws of sections that are written anew, each the contract of a function without parameters that does nothing.
ghost use Rattle.lnt_older.specs.Laws.{OneUpgradeFault, SameRows, SameSection};

/// A section of version 5 alone is written anew as itself, whatever the directories and the size of addresses.
pub fn same_section()
    ensures { SameSection }
{}

/// At most one fault of `judge_upgrade` is true of a section and its file of directories, but for want of memory: of malformed bytes
/// at one place and for one reason.
pub fn one_fault()
    ensures { OneUpgradeFault }
{}

/// The unit of version 5 that is written for an older unit has the rows of the older unit's program, and its directories and files by
/// their numbers from 1 on.
pub fn same_rows()
    ensures { SameRows }
{}
