//! Bytes, units and their rows.
mod matrices;
mod sections;
mod sources;
mod units;
mod values;
pub(crate) mod worked;
