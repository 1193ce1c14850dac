//! The fields of DWARF 5 line number sections as bytes: numbers, values in a form, and the frames of units (sections 7.4 to 7.6).
//! A read moves past exactly the bytes that encode its value, or fails with a [`Fault`]: a reason, and the offset in the section
//! of the field at fault. A write produces the shortest encoding.
//!
//! Start with [`Cursor::new`] over some bytes; with [`frames`], which divides a section into its units by their initial
//! lengths alone; or with [`Counted::new`] for bytes from a reader.
//!
//! The frames of a section, and the fault after the last one if there is one:
//!
//! ```
//! let Framed { frames, fault } = frames(alloc, bytes, order)?;
//! Ok((frames, fault))
//! ```
#![tactic(auto)]

mod cursor;
mod fault;
mod form;
mod format;
mod frame;
mod initial;
mod items;
pub mod laws;
mod leb;
mod number;
mod prefix;
mod put;
mod strings;
mod value;
mod view;

// The source of the bytes.
pub use lnt_io::{Counted, ReadFault, Source, Stop as SourceStop, read_all};

// What they encode.
pub use form::{Form, FormValue};
pub use format::{Format, Order};
pub use items::Items;
pub use strings::Strings;
pub use view::{ValueView, copied};

// Reading.
pub use cursor::Cursor;
pub use fault::{Fault, Reason};
pub use frame::{Frame, Framed, frames, take_frame};
pub use initial::initial_length;
pub use prefix::{Prefix, take_prefix};

// Writing.
pub use put::{
    EncodeFault, append_sleb, append_uleb, put_form, put_offset, put_sleb, put_u16, put_u32,
    put_u64, put_uleb,
};
