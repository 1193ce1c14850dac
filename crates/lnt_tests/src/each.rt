//! Calls that allocate, with enough memory, on each class of their inputs: units of each kind in both byte orders and both
//! formats, values of each form, and sources of more than a mebibyte. A call that gives up on one of them meets its contract.
mod sections;
mod sources;
mod units;
mod values;
