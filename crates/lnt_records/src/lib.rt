//! Address tables: comma-separated values, each record a span of positions with its answer. Their records and lines are read and
//! written here.
//!
//! Record 0 is the header. It names the columns, and so tells the version: `low,low_op,high,high_op,unit,file,line,column,is_stmt`
//! in version 1, and the same with `,isa,discriminator` in version 2, the tables *by number*; `low,high,path,line,column` in version
//! 3, and the same without `,column` in version 4, the tables *by path*. Each later record is a span: `low` and `high` are addresses,
//! by path for the positions at operation index 0, `is_stmt` is `0` or `1`, `path` is any bytes, quoted if necessary, and the other
//! fields are decimal numbers. The spans are in order, and none is empty. Records are counted from 0, so the first span is record 1;
//! columns are counted from 0 too.
#![tactic(auto)]

mod column;
mod fault;
mod header;
pub mod laws;
mod lines;
mod path_records;
mod record;
mod taking;
mod text;
mod wide;
mod write;

pub use column::{Columns, address_at, decimal_at};
pub use fault::{TableFault, WriteStop};
pub use header::{TableVersion, header_of};
pub use lines::first_span;
pub use path_records::{
    FileText, FileTexts, HeldPath, PathFields, PathRecord, PathVersion, Paths, ToldFile, ToldFiles,
    addresses_before, first_record, place_before, put_line, record_of,
};
pub use record::{RecordFault, span_of};
pub use taking::{TakeFault, TakesRecords, next_number, take_records};
pub use text::{LineRoom, ROOM, address_field_before, number_before};
pub use write::{put_header, put_span, send, send_full, write_spans};
