//! The reader of a section, which returns one unit after another.
ghost use Rattle.std.specs.Prelude.{◌≡◌, ◌+◌, ◌-◌, ◌^◌, ◌<◌, length, false, IfOk, IfErr, IsErrOf, IfSome, IfNone};
ghost use Rattle.lnt_unit.specs.Stops.{IfFault};
ghost use Rattle.lnt_unit.specs.Units.{IsNextUnit, SectionEndsBy};
ghost use Rattle.lnt_unit.specs.declared.reader.Progress.TheVariants.{Reading};
ghost use Rattle.lnt_io.specs.Stopping.{CountsFailure, IsTooLongOn};

use crate::buffer::UnitBuffer;
use crate::stop::SectionStop;
use crate::taking::take_unit_bytes;
use lnt_io::Source;
use lnt_wire::Order;
use std::alloc::Global;

/// The progress of a reader of a section, which determines what its next call does.
#[derive(Clone, Copy, Debug, PartialEq, Eq)]
pub enum Progress {
    /// Before a unit, or at the end of the section, which isn't known yet: the next call reads on.
    Reading,
    /// The end of the section was returned: each further call returns `None`.
    Ended,
    /// A call has stopped: each further call stops with `Failed`.
    Failed,
}

/// Reads a section unit by unit from a source, which it borrows.
///
/// A contract sees the source in its current state and which one it is, the byte order, the offset in the section of the
/// next unit, and the progress (`source_of` and its neighbours).
#[derive(Drop)]
pub struct SectionReader<'s, R: Source> {
    source: &'s mut R,
    order: Order,
    offset: u64,
    progress: Progress,
    ghost room: { progress ≡ Reading → offset + R.left source.now < 2 ^ 64 },
    ghost countable: { progress ≡ Reading → R.failures source.now < 2 ^ 64 - 1 },
}

impl<'s, R: Source> SectionReader<'s, R> {
    ghost use Rattle.lnt_unit.specs.Readers.{source_of, loan_of, order_of, offset_of, progress_of, IsStep};

    /// A reader before the first unit of the section that the source gives from its current position on, with numbers in
    /// this byte order. It doesn't read from the source yet. The caller ensures that the source has failed fewer than
    /// `u64::MAX` times.
    pub fn new(source: &'s mut R, order: Order) -> SectionReader<'s, R>
        requires { R.failures source.now < 2 ^ 64 - 1 }
        ensures source { source_of result ≡ source.entry.now }
        ensures same_reference { loan_of result ≡ source.entry.ghost_name }
        ensures reading { progress_of result ≡ Progress.Reading }
        ensures offset { offset_of result ≡ 0 }
        ensures order { order_of result ≡ order }
    {
        // The remaining bytes are counted by a u64, so each offset is a u64.
        let _left = source.left();
        SectionReader {
            source,
            order,
            offset: 0,
            progress: Progress::Reading,
        }
    }

    /// The reader's progress: whether it reads on, has returned the end of the section, or has stopped.
    pub fn progress(&self) -> Progress
        ensures { result ≡ progress_of self.now }
    {
        self.progress
    }

    /// The offset in the section, in bytes, of the next unit: the number of bytes of all units returned so far.
    pub fn offset(&self) -> u64
        ensures { result ≡ offset_of self.now }
    {
        self.offset
    }

    /// The next unit of the section, or `None` at its end (DWARF 5, sections 6.2.4 and 7.4).
    ///
    /// The unit's bytes are the next ones of the source, and its offset is the number of bytes of all units before it.
    /// `None` is returned only if the section ends after the last unit, and again in each later call. No more bytes are
    /// ever read from the source than the initial length, or the current unit, still needs, and memory is reserved for at
    /// most 64 KiB ahead of the bytes that came.
    ///
    /// Stops with a `Fault` only if the remaining bytes don't begin with a unit: `Truncated` at the unit's offset if the
    /// section ends within the unit, and the others as in `take_frame`. Stops with `Read` only if the source failed; with
    /// `TooLong` only if the source has more bytes than it may give; and with `Memory`. From then on every call stops with
    /// `Failed`, and doesn't use the source.
    pub fn next_unit(&mut self, alloc: Global) -> Result<Option<UnitBuffer>, SectionStop>
        ensures { IsStep self.old self.new result }
    {
        self.next_unit_in(Vec::new(alloc))
    }

    /// The next unit of the section, as `next_unit` returns it, with its bytes read into this vector, which grows if the
    /// unit needs more. The vector's contents are dropped.
    ///
    /// `UnitBuffer::into_bytes` returns the vector of a unit that is no longer needed. So a whole section can be read in the
    /// memory of its largest unit.
    pub fn next_unit_in(&mut self, room: Vec<u8>) -> Result<Option<UnitBuffer>, SectionStop>
        ensures { IsStep self.old self.new result }
    {
        match self.progress {
            Progress::Reading => {}
            Progress::Ended => return Ok(None),
            Progress::Failed => return Err(SectionStop::Failed),
        }
        // It has failed unless everything below succeeds.
        self.progress = Progress::Failed;
        let Some(unit) = take_unit(self.source, room, self.offset, self.order)? else {
            self.progress = Progress::Ended;
            return Ok(None);
        };
        self.offset += unit.bytes().len() as u64;
        self.progress = Progress::Reading;
        Ok(Some(unit))
    }
}

// The next unit from the source, at the offset in the section, or `None` if the source has ended. Its bytes replace those
// in `bytes`. After a stop, how far the source was read is unspecified.
#[tactic(auto, using(crate::proofs::ReaderLemmas::unit_exits))]
fn take_unit<R: Source>(
    source: &mut R,
    mut bytes: Vec<u8>,
    offset: u64,
    order: Order,
) -> Result<Option<UnitBuffer>, SectionStop>
    requires failures { R.failures source.old < 2 ^ 64 - 1 }
    requires room { offset + R.left source.old < 2 ^ 64 }
    ensures unit { IfOk result (λ got. IfSome got (λ unit.
        IsNextUnit offset order (R.remaining source.old) (R.remaining source.new) unit)) }
    ensures left { IfOk result (λ got. IfSome got (λ unit. R.left source.new + length unit.bytes ≡ R.left source.old)) }
    ensures end { IfOk result (λ got. IfNone got (SectionEndsBy offset order (R.remaining source.old) None)) }
    ensures not_long { IfOk result (λ got. IfNone got (R.too_long source.new ≡ false)) }
    ensures fault { IfErr result (λ stop. IfFault stop (λ fault.
        SectionEndsBy offset order (R.remaining source.old) (Some fault))) }
    ensures failures { CountsFailure ⟦<R as Source>⟧ source.old source.new result SectionStop.Read }
    ensures too_long { IsTooLongOn ⟦<R as Source>⟧ source.old source.new result SectionStop.TooLong }
    ensures not_failed { IsErrOf result SectionStop.Failed → ⊥ }
{
    bytes.clear();
    take_unit_bytes(source, order, &mut bytes)?;
    if bytes.is_empty() {
        return Ok(None);
    }
    Ok(Some(UnitBuffer::of(bytes, offset, order)?))
}
