//! The headers of DWARF 5 line number units as bytes: read, with their entries in memory or in place, and kept; and written,
//! from their parts, and in another format and byte order from where their entries lie.
#![tactic(auto)]

mod decode;
mod encode;
mod header_view;
mod in_place;
mod kept;
pub mod laws;
mod marks;
mod numbers;
mod pass;
mod read_table;
mod start;
mod table;
mod table_view;
mod values;
mod view_encode;

pub use decode::decode_header;
pub use encode::{add_around, add_both, encode_header, put_header_view};
pub use header_view::HeaderView;
pub use in_place::{HeaderInPlace, view_header};
pub use kept::KeptHeader;
pub use marks::{Mark, Marks};
pub use numbers::{Singles, numbers_of, read_lengths, read_singles};
pub use read_table::EntriesInPlace;
pub use start::read_counted;
pub use table_view::EntryTableView;
pub use values::{KeepsValues, read_entry};
