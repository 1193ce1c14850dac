//! Why there are no lines of a section.
ghost use Rattle.std.specs.Prelude.{◌≡◌, ◌≢◌};
ghost use Rattle.lnt_lines.specs.declared.no.No.TheVariants.{Overlap as NoOverlap};
ghost use Rattle.lnt_lines.specs.declared.refusal.Refusal.TheVariants.{No as Bad, Stop as Stopped};
ghost use Rattle.lnt_io.specs.declared.stop.Stop.TheVariants.{Memory as StopMemory};
ghost use Rattle.lnt_lines.specs.Running.{IsFaultRefusal, IsStopRefusal};

use crate::no::No;
use lnt_io::Stop;
use lnt_sequences::Overlap;
use lnt_unit::SectionStop;
use lnt_wire::{Fault, Reason};
use std::alloc::AllocError;

/// Why there are no lines of a section: it isn't good, or it was not judged.
#[derive(Clone, Copy)]
pub(crate) enum Refusal {
    No(No),
    Stop(Stop),
}

impl Refusal {
    // The refusal for a stop of the section's reader. A reader that hasn't stopped before never returns `Failed`.
    pub(crate) fn of_stop(stop: SectionStop) -> Refusal
        requires { stop ≢ SectionStop.Failed }
        ensures { IsStopRefusal stop result }
    {
        match stop {
            // Frames have no reason `Memory`.
            SectionStop::Fault(fault) => Refusal::No(No::Malformed(fault)),
            SectionStop::Memory => Refusal::Stop(Stop::Memory),
            SectionStop::Read => Refusal::Stop(Stop::Read),
            SectionStop::TooLong => Refusal::Stop(Stop::TooLong),
            SectionStop::Failed => unreachable!(),
        }
    }
}

impl From<Fault> for Refusal {
    ghost from_gives = { λ fault refusal. IsFaultRefusal fault refusal };

    fn from(fault: Fault) -> Refusal {
        match fault.reason {
            Reason::Memory => Refusal::Stop(Stop::Memory),
            _ => Refusal::No(No::Malformed(fault)),
        }
    }
}

impl From<Overlap> for Refusal {
    ghost from_gives = { λ overlap refusal. refusal ≡ Bad (NoOverlap overlap.first overlap.second overlap.position) };

    fn from(overlap: Overlap) -> Refusal {
        Refusal::No(No::Overlap {
            first: overlap.first,
            second: overlap.second,
            position: overlap.position,
        })
    }
}

impl From<AllocError> for Refusal {
    ghost from_gives = { λ _ refusal. refusal ≡ Stopped StopMemory };

    fn from(_error: AllocError) -> Refusal {
        Refusal::Stop(Stop::Memory)
    }
}
