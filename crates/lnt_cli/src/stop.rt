//! Why a run is stopped.
ghost use Rattle.std.specs.Prelude.{◌≡◌, string_bytes};
ghost use Rattle.lnt_cli.specs.Stops.{IsFileStop, IsOfWords, NamesOneOf, run_stop};
ghost use Rattle.lnt_cli.specs.declared.stop.CliStop.TheVariants as run;
ghost use Rattle.lnt_cli.specs.declared.stop.FileStop.TheVariants as answer;

use lnt_io::IoStop;
use lnt_text::Shown;
use lnt_words::WordsStop;
use std::alloc::AllocError;
use std::io;
use thiserror::Error;

/// Why a run was stopped. A stop is no judgement of the section or the table.
#[derive(Debug, Drop, Error)]
pub enum CliStop {
    /// The words ask for nothing that the command does. The text says how it is used, or which word is unknown, missing or
    /// bad, and ends in a line feed.
    #[error("{0}")]
    Usage(String),
    /// The file with this name can't be opened or read. A name with control characters is shown between quotes.
    #[error("linetab: cannot read {}", Shown(.0))]
    Read(String),
    /// The file with this name has more bytes than are read of a file, 2^40.
    #[error("linetab: {} is too long", Shown(.0))]
    TooLong(String),
    /// The writer failed.
    #[error("linetab: cannot write")]
    Write,
    /// Memory ran out.
    #[error("linetab: out of memory")]
    Memory,
}

/// Why the answer to a request was stopped: as a run, which has the texts, but for words that ask for nothing.
#[derive(Debug, Drop)]
pub enum FileStop {
    /// The file with this name can't be opened or read.
    Read(String),
    /// The file with this name has more bytes than are read of a file, 2^40.
    TooLong(String),
    /// The writer failed.
    Write,
    /// Memory ran out.
    Memory,
}

impl FileStop {
    // The stop if the work on the file with this name was stopped.
    pub(crate) fn of_file(name: String, io_stop: IoStop) -> FileStop
        ensures reported { IsFileStop io_stop (string_bytes name) result }
        ensures named { NamesOneOf (λ other. string_bytes name ≡ other) result }
    {
        match io_stop {
            IoStop::Read => FileStop::Read(name),
            IoStop::TooLong => FileStop::TooLong(name),
            IoStop::Write => FileStop::Write,
            IoStop::Memory => FileStop::Memory,
        }
    }
}

impl From<WordsStop> for CliStop {
    ghost from_gives = { IsOfWords };

    fn from(stop: WordsStop) -> CliStop {
        match stop {
            WordsStop::Usage(text) | WordsStop::BadWord { text, .. } => CliStop::Usage(text),
            WordsStop::Memory => CliStop::Memory,
        }
    }
}

impl From<FileStop> for CliStop {
    ghost from_gives = { λ stop found. found ≡ run_stop stop };

    fn from(stop: FileStop) -> CliStop {
        match stop {
            FileStop::Read(name) => CliStop::Read(name),
            FileStop::TooLong(name) => CliStop::TooLong(name),
            FileStop::Write => CliStop::Write,
            FileStop::Memory => CliStop::Memory,
        }
    }
}

impl From<AllocError> for CliStop {
    ghost from_gives = { λ _ stop. stop ≡ run.Memory };

    fn from(_error: AllocError) -> CliStop {
        CliStop::Memory
    }
}

impl From<AllocError> for FileStop {
    ghost from_gives = { λ _ stop. stop ≡ answer.Memory };

    fn from(_error: AllocError) -> FileStop {
        FileStop::Memory
    }
}

// Only a write gives this error: a source reports a failed read by itself.
impl From<io::Error> for FileStop {
    ghost from_gives = { λ _ stop. stop ≡ answer.Write };

    fn from(_error: io::Error) -> FileStop {
        FileStop::Write
    }
}
