//! Units of versions 2, 3 and 4 (DWARF 2, 3 and 4, section 6.2.4), and the units of version 5 that say the same. An entry of an
//! older list of directories or files is spelled byte for byte as one of version 5, and so is a program: what is written anew
//! is the header around them. [`judge_upgrade`] and [`upgrade_next`] write whole sections anew, with the directories that
//! [`read_directories`] reads.
#![tactic(auto)]

mod directories;
mod header;
pub mod laws;
mod lists;
mod rows;
mod section;
mod unit;
mod upgrade;
mod version;

pub use directories::{Directory, directory_of, read_directories};
pub use header::{OlderHeader, read_older_header};
pub use lists::{DIRECTORY_PAIRS, FILE_PAIRS, pass_listed};
pub use lnt_header_bytes::Singles as OlderNumbers;
pub use section::{UpgradeFault, judge_upgrade, upgrade_next};
pub use unit::{AnyUnit, OlderUnit, take_any_unit};
pub use upgrade::append_upgraded_unit;
pub use version::OlderVersion;
