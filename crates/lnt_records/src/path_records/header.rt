//! Record 0 of a table by path, which names its columns.
ghost use Rattle.std.specs.Prelude.{◌≡◌};
ghost use Rattle.lnt_records.specs.PathTables.{path_column_count};

use crate::header::TableVersion;
use crate::path_records::version::PathVersion;
use csv::ByteRecord;
use lnt_csv::has_fields;

impl TableVersion for PathVersion {
    ghost use Rattle.lnt_records.specs.PathTables.{path_column_names};

    ghost names = { path_column_names };

    fn header_line(&self) -> &'static [u8] {
        match *self {
            PathVersion::Three => b"low,high,path,line,column\n".as_slice(),
            PathVersion::Four => b"low,high,path,line\n".as_slice(),
        }
    }

    #[tactic(auto, using(crate::proofs::PathRecordLemmas::names_none))]
    fn of_record(row: &ByteRecord) -> Option<PathVersion> {
        let names = [b"low".as_slice(), b"high", b"path", b"line", b"column"];
        if has_fields(row, &names) {
            Some(PathVersion::Three)
        } else if has_fields(row, &names[..4]) {
            Some(PathVersion::Four)
        } else {
            None
        }
    }
}

// The number of columns in a table of this version.
pub(crate) fn columns(version: PathVersion) -> usize
    ensures { result ≡ path_column_count version }
{
    match version {
        PathVersion::Three => 5,
        PathVersion::Four => 4,
    }
}
