//! Why the work on a file stopped.
ghost use Rattle.std.specs.Prelude.{◌≡◌, Some};
ghost use Rattle.lnt_io.specs.FaultTexts.{io_stop_text};
ghost use Rattle.lnt_io.specs.IoStops.{io_stop_of_source};
ghost use Rattle.lnt_io.specs.declared.io_stop.IoStop.TheVariants.{Memory, Write};

use crate::Stop;
use std::alloc::AllocError;
use std::error::Error;
use std::{fmt, io};

/// Why the work on a file stopped. It isn't a verdict.
#[derive(Clone, Copy, Debug, PartialEq, Eq)]
pub enum IoStop {
    /// The file can't be opened or read.
    Read,
    /// The file has more bytes than the limit, [`LIMIT`](crate::LIMIT).
    TooLong,
    /// The writer failed.
    Write,
    /// Memory ran out.
    Memory,
}

impl fmt::Display for IoStop {
    ghost output = { λ io_stop. Some (io_stop_text io_stop) };

    fn fmt<W: fmt::Write>(&self, f: &mut fmt::Formatter<W>) -> fmt::Result {
        match self {
            IoStop::Read => f.write_str("cannot read"),
            IoStop::TooLong => f.write_str("too long"),
            IoStop::Write => f.write_str("cannot write"),
            IoStop::Memory => f.write_str("out of memory"),
        }
    }
}

impl Error for IoStop {}

impl From<Stop> for IoStop {
    ghost from_gives = { λ stop io_stop. io_stop ≡ io_stop_of_source stop };

    fn from(stop: Stop) -> IoStop {
        match stop {
            Stop::Memory => IoStop::Memory,
            Stop::Read => IoStop::Read,
            Stop::TooLong => IoStop::TooLong,
        }
    }
}

impl From<AllocError> for IoStop {
    ghost from_gives = { λ _ io_stop. io_stop ≡ Memory };

    fn from(_error: AllocError) -> IoStop {
        IoStop::Memory
    }
}

// An `io::Error` here is a writer's: a failed read is reported by its source.
impl From<io::Error> for IoStop {
    ghost from_gives = { λ _ io_stop. io_stop ≡ Write };

    fn from(_error: io::Error) -> IoStop {
        IoStop::Write
    }
}
