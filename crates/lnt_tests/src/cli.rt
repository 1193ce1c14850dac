//! The command: each word over readers and writers that take and give one byte at a time, and how it ends over those that
//! fail.
mod faults;
mod streams;
mod words;
mod worked;
