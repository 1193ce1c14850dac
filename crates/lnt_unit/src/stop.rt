//! Why a reader of a section stops.
ghost use Rattle.std.specs.Prelude.{◌≡◌, Some};
ghost use Rattle.lnt_unit.specs.declared.stop.SectionStop.TheVariants.{Fault as StopFault};
ghost use Rattle.lnt_unit.specs.Stops.{stop_of, section_stop_text};

use lnt_io::Stop;
use lnt_wire::Fault;
use std::error::Error;
use std::fmt;

/// Why no further unit comes, though the section hasn't ended. The reader reads no further.
#[derive(Clone, Copy, Debug, PartialEq, Eq)]
pub enum SectionStop {
    /// The remaining bytes don't begin with a unit, for a reason from 1 to 3: `Truncated`, `ReservedLength` or
    /// `VersionNotFive` (DWARF 5, sections 6.2.4 and 7.4).
    Fault(Fault),
    /// 33: memory ran out. The bytes may be valid.
    Memory,
    /// 34: the source failed to give its next bytes.
    Read,
    /// 35: the source has more bytes than its limit allows it to give.
    TooLong,
    /// 41: an earlier call of the same reader stopped.
    Failed,
}

impl fmt::Display for SectionStop {
    ghost output = { λ stop. Some (section_stop_text stop) };

    fn fmt<W: fmt::Write>(&self, f: &mut fmt::Formatter<W>) -> fmt::Result {
        match *self {
            SectionStop::Fault(fault) => write!(f, "{fault}"),
            SectionStop::Memory => f.write_str("out of memory"),
            SectionStop::Read => f.write_str("cannot read"),
            SectionStop::TooLong => f.write_str("too long"),
            SectionStop::Failed => f.write_str("stopped before"),
        }
    }
}

impl Error for SectionStop {}

impl From<Fault> for SectionStop {
    ghost from_gives = { λ fault stop. stop ≡ StopFault fault };

    fn from(fault: Fault) -> SectionStop {
        SectionStop::Fault(fault)
    }
}

impl From<Stop> for SectionStop {
    ghost from_gives = { λ stop result. result ≡ stop_of stop };

    fn from(stop: Stop) -> SectionStop {
        match stop {
            Stop::Memory => SectionStop::Memory,
            Stop::Read => SectionStop::Read,
            Stop::TooLong => SectionStop::TooLong,
        }
    }
}
