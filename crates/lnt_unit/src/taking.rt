//! The bytes of a unit, read from a source block by block, and none after them.
ghost use Rattle.std.specs.Prelude.{◌≡◌, ◌+◌, ◌-◌, ◌^◌, ◌<◌, [], length, IfOk, IfSome, OnOk, false, MatchBool};
ghost use Rattle.lnt_wire.specs.FrameFaults.{IsCutFrame};
ghost use Rattle.lnt_io.specs.Pulling.{Pulls};
ghost use Rattle.lnt_unit.specs.Spelled.{IsLeastSize};
ghost use Rattle.lnt_io.specs.Stopping.{CountsFailure, IsTooLongOn};

use crate::size::missing_size;
use lnt_io::{BLOCK, Source, Stop, take_block};
use lnt_wire::Order;

// Reads the bytes of the next frame, and none after them: all of them, or those up to the end of the source. It returns
// whether the frame is complete: false means that the source ended within the frame, or had no bytes left. No byte after
// the frame is read, and memory is reserved for at most one block ahead.
#[tactic(auto, using(crate::proofs::TakingLemmas::taking))]
pub(crate) fn take_unit_bytes<R: Source>(
    source: &mut R,
    order: Order,
    taken: &mut Vec<u8>,
) -> Result<bool, Stop>
    requires failures { R.failures source.old < 2 ^ 64 - 1 }
    requires empty { taken.old.items ≡ [] }
    ensures pulls { OnOk result (Pulls (R.remaining source.old) (R.remaining source.new) taken.new.items) }
    ensures least { OnOk result (IsLeastSize order taken.new.items (length taken.new.items)) }
    ensures whole { IfOk result (λ whole. MatchBool whole
        (IsCutFrame order taken.new.items → ⊥) (IfSome (R.remaining source.new) (λ bytes. bytes ≡ []))) }
    ensures ended { IfOk result (λ whole. whole ≡ false → R.too_long source.new ≡ false) }
    ensures left { OnOk result (R.left source.new + length taken.new.items ≡ R.left source.old) }
    ensures failures { CountsFailure ⟦<R as Source>⟧ source.old source.new result Stop.Read }
    ensures too_long { IsTooLongOn ⟦<R as Source>⟧ source.old source.new result Stop.TooLong }
{
    loop {
        let missing = missing_size(taken.as_slice(), order);
        if missing == 0 {
            return Ok(true);
        }
        let size = missing.min(BLOCK as u64) as usize;
        if take_block(source, taken, size)? < size {
            break;
        }
    }
    if source.too_long() {
        return Err(Stop::TooLong);
    }
    Ok(false)
}
