//! The exit status of the process.
ghost use Rattle.std.specs.Prelude.{◌≡◌};
ghost use Rattle.std.specs.Process.{exit_status};
ghost use Rattle.linetab.specs.Exits.{status_of};

use lnt_cli::{CliStop, Status};
use std::process::ExitCode;

/// The exit status of a run. 0: all was done, or the answer is yes. 1: the answer is no. 2: the words aren't a valid request.
/// 3: a file or the output failed. 4: memory ran out.
pub(crate) fn exit_code(ended: &Result<Status, CliStop>) -> ExitCode
    ensures { exit_status result ≡ status_of ended.now }
{
    ExitCode::from(match ended {
        Ok(Status::Done) => 0,
        Ok(Status::No) => 1,
        Err(CliStop::Usage(_)) => 2,
        Err(CliStop::Read(_) | CliStop::TooLong(_) | CliStop::Write) => 3,
        Err(CliStop::Memory) => 4,
    })
}
