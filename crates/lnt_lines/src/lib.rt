//! Judges a whole line number section of DWARF 5 (section 6.2) in one pass, and answers from a good one. A good section answers at
//! each position, an address with an operation index, what its rows say there. For any other section the first thing that is wrong
//! is reported as a [`No`].
//!
//! Start with [`verify`], whose [`Lines`] hold all spans and don't need the section any more, or with [`index_section`],
//! whose [`Index`] is smaller and decodes rows when they are needed.
//!
//! The lines of a section in memory of at most 70 bytes, or why it isn't good:
//!
//! ```
//! match verify(alloc, &mut Counted::new(bytes, 70), strings, options)? {
//!     Judged::Good(lines) => Ok(Ok(lines)),
//!     Judged::Bad(no) => Ok(Err(no)),
//! }
//! ```
#![tactic(auto)]

mod draft;
mod index;
mod index_lines;
mod judge;
pub mod laws;
mod light;
mod lines;
mod lookups;
mod no;
mod options;
mod refusal;
mod run;
mod section;
mod spans;

// Judging.
pub use lnt_wire::{Counted, Fault, Order, Source, SourceStop as Stop, Strings};
pub use no::No;
pub use options::Options;
pub use section::{Judged, JudgedIndex, index_section, index_with_copies, verify};

// What a good section answers.
pub use index::Index;
pub use lines::Lines;
pub use lookups::{KeepsFrom, Lookups};
pub use spans::Spans;

// Positions and answers.
pub use lnt_sequences::{Overlap, SeqId};
pub use lnt_spans::{Answer, More, Position, Probes, Span, SpanSource, Version};
