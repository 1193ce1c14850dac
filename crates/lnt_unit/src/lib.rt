//! The units of DWARF 5 line number sections (section 6.2.4): their headers and operations, read from bytes and written as bytes,
//! and converted to another format and byte order. A unit is returned exactly when the bytes encode it, and what is written
//! encodes it. Units are read whole, or one at a time in the memory of the largest, with operations that are read in place: a
//! [`SectionReader`] reads the bytes of one unit only when it is asked for, and its results are those of `lnt_wire::frames` for the
//! whole section.
//!
//! Start with [`decode_section`] for a section in memory, with [`SectionReader::new`] and [`UnitView::over`] for a section
//! from a source, or with [`Unit::new`] to build a unit, which [`encode_unit`] writes.
//!
//! The first unit of a section that a reader gives:
//!
//! ```
//! let mut source = Counted::new(reader, 70);
//! let mut section = SectionReader::new(&mut source, order);
//! section.next_unit(alloc)
//! ```
#![tactic(auto)]

mod buffer;
mod convert;
mod converting;
mod decode;
mod encode;
mod in_place;
pub mod laws;
mod reader;
mod size;
mod stop;
mod taking;
mod view;

// Units as values.
pub use lnt_header::{
    CodedOp, Entry, EntryTable as Which, Header, HeaderNumbers, HeaderParts, NumberParts, Op,
    OpView, Operands, Pair, Unit, UnitFault, UnitParts as Parts,
};

// Whole headers, units and sections.
pub use decode::{decode_section, decode_unit};
pub use encode::encode_unit;
pub use lnt_header_bytes::{decode_header, encode_header};

// In another format and byte order.
pub use convert::{ConvertFault, convert_section, judge_conversion};
pub use converting::convert_unit;

// Unit by unit, from a source.
pub use buffer::UnitBuffer;
pub use lnt_ops::Ops;
pub use reader::{Progress, SectionReader};
pub use stop::SectionStop;
pub use view::UnitView;

// Headers whose entries are read in place.
pub use in_place::UnitInPlace;
pub use lnt_header_bytes::{
    EntriesInPlace, EntryTableView, HeaderInPlace, HeaderView, KeptHeader, Mark, Marks,
};

// The types of `lnt_wire` that these calls name.
pub use lnt_wire::{
    Cursor, EncodeFault, Fault, Form, FormValue, Format, Frame, Items, Order, Reason, Source,
};
