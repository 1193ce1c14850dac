//! Why the work on the bytes of a source was stopped.
ghost use Rattle.std.specs.Prelude.{◌≡◌, Some};
ghost use Rattle.lnt_io.specs.FaultTexts.{stop_text};
ghost use Rattle.lnt_io.specs.declared.stop.Stop.TheVariants.{Memory};

use std::alloc::AllocError;
use std::error::Error;
use std::fmt;

/// Why the work on the bytes of a source was stopped. It is no verdict on the bytes. Each reason has a number, from 33 to
/// 35.
#[derive(Clone, Copy, Debug, PartialEq, Eq)]
pub enum Stop {
    /// 33: memory ran out.
    Memory,
    /// 34: the source failed to give its next bytes.
    Read,
    /// 35: the source has more bytes than its limit allows it to give.
    TooLong,
}

impl fmt::Display for Stop {
    ghost output = { λ stop. Some (stop_text stop) };

    fn fmt<W: fmt::Write>(&self, f: &mut fmt::Formatter<W>) -> fmt::Result {
        match self {
            Stop::Memory => f.write_str("out of memory"),
            Stop::Read => f.write_str("cannot read"),
            Stop::TooLong => f.write_str("too long"),
        }
    }
}

impl Error for Stop {}

impl From<AllocError> for Stop {
    ghost from_gives = { λ _ stop. stop ≡ Memory };

    fn from(_error: AllocError) -> Stop {
        Stop::Memory
    }
}
