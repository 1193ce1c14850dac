//! Units of versions 2 to 4, from bytes that are put together by hand.
mod lists;
mod units;
