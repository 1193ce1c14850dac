//! What tests share: the bytes of some units, the table of one, and readers and writers that give and take little at a
//! time, and fail.
mod streams;
mod units;
mod worked;

pub(crate) use streams::{FailsOnce, Narrow, Pieces, Reader, failing, whole};
pub(crate) use units::{
    BELOW_ZERO, COPY, ENDLESS, LISTED, OF_NOTHING, OPEN, PLAIN, SHORT, TABLE, WIDE,
};
pub(crate) use worked::{LINE_STRINGS, WORKED, Worked};
