//! Why words aren't a request.
ghost use Rattle.std.specs.Prelude.{◌≡◌};
ghost use Rattle.lnt_words.specs.declared.stop.WordsStop.TheVariants.{Memory};

use lnt_text::Argument;
use std::alloc::AllocError;
use thiserror::Error;

/// Why words aren't a request.
#[derive(Debug, Drop, Error)]
pub enum WordsStop {
    /// The words aren't a valid request. The text says how the command is used, or which word is unknown or missing, and
    /// ends in a line feed.
    #[error("{0}")]
    Usage(String),
    /// A word isn't valid for its argument.
    #[error("{text}")]
    BadWord {
        /// The line that names the word, with its line feed.
        text: String,
        /// The argument, which determines the valid words.
        argument: Argument,
        /// Whether the words ask for no notes.
        quiet: bool,
    },
    /// Memory ran out. The words may be valid.
    #[error("out of memory")]
    Memory,
}

impl From<AllocError> for WordsStop {
    ghost from_gives = { λ _ stop. stop ≡ Memory };

    fn from(_error: AllocError) -> WordsStop {
        WordsStop::Memory
    }
}
