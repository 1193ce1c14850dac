//! Records and lines of tables by path: with the full path of a file, instead of a unit and a file number.

mod alike;
mod field;
mod fields;
mod header;
mod kept;
mod line;
mod paths;
mod plain;
mod record;
mod summed;
mod told;
mod version;

pub use fields::PathFields;
pub use kept::{FileText, FileTexts};
pub use line::{addresses_before, place_before, put_line};
pub use paths::Paths;
pub use plain::first_record;
pub use record::{HeldPath, PathRecord, record_of};
pub use told::{ToldFile, ToldFiles};
pub use version::PathVersion;
