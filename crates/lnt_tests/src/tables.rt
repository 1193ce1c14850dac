//! Spans, tables, lines and sums.
mod entries;
mod lines;
mod path_checks;
mod records;
mod spans;
mod sums;
mod symbols;
mod table;
mod within;
mod worked;
mod wrong;
