//! The command `linetab`, over an opener of files and two writers, of the answer and of notes. It reads the words, opens the files that
//! they name, and writes the answer to one writer and advice to the other. It doesn't call the system: a program hands it an
//! [`Opener`] and the writers.
//!
//! Start with [`run`], with [`run_with_notes`], or with [`answer`] for a request that was read already.
//!
//! The command over an opener of your own:
//!
//! ```
//! pub fn ran<O: Opener, W: Write>(
//!     alloc: Global,
//!     words: Vec<String>,
//!     opener: &mut O,
//!     out: &mut W,
//! ) -> Result<Status, CliStop> {
//!     run(alloc, words, opener, out)
//! }
//! ```
#![tactic(auto)]

mod check;
mod inputs;
mod notes;
mod program;
mod question;
mod reading;
mod stop;

// Running the command.
pub use program::{run, run_with_notes};
pub use stop::CliStop;

// What words ask for, and its answer.
pub use lnt_text::{Argument, Shown};
pub use lnt_words::{
    AddressSize, Asked, FileQuestion, Judging, Question, Reading, Request, Upgrading, WordsStop,
    request_of,
};
pub use program::answer;
pub use stop::FileStop;

// Files by their names, and how a run ends.
pub use lnt_io::{Files, IoStop, OpenedFile, Opener, Status, Watcher};

// MD5 sums.
pub use lnt_answers::{Agreement, md5_agrees, sum_of};
pub use lnt_wire::{Source, SourceStop as Stop};
