//! The MD5 sum of a source, and its comparison with the one that is listed.
ghost use Rattle.std.specs.Prelude.{◌≡◌, ◌-◌, ◌^◌, ◌<◌, IfOk, IfSome, IsErrOf, OnOk, false};
ghost use Rattle.md5.specs.Md5.{md5};
ghost use Rattle.lnt_answers.specs.SumLines.{Agrees};
ghost use Rattle.lnt_io.specs.Stopping.{CountsFailure, IsTooLongOn};

use lnt_io::{Source, Stop};
use md5::{Digest, Md5};

/// Whether the MD5 sum of a source is the listed one.
#[derive(Clone, Copy, Debug, PartialEq, Eq)]
pub enum Agreement {
    /// The sum of the bytes is the listed one, in all 16 bytes.
    Same,
    /// The sum of the bytes is this one, in the byte order of MD5. It isn't the listed one.
    Differs([u8; 16]),
}

// The number of bytes that are read from a source at once. They are on the stack, so no memory is allocated.
const BLOCK: usize = 1 << 14;

/// The MD5 sum of all remaining bytes of the source, up to its end. Allocates nothing.
///
/// Stops with `Read` only if the source failed, once, which isn't retried, and with `TooLong` only if the source was found
/// to have more bytes than it may give. The caller ensures that the source has failed fewer than `u64::MAX` times.
#[tactic(auto, using(crate::proofs::DigestLemmas::summing))]
pub fn sum_of<R: Source>(source: &mut R) -> Result<[u8; 16], Stop>
    requires { R.failures source.old < 2 ^ 64 - 1 }
    ensures ok { IfOk result (λ sum. IfSome (R.remaining source.old) (λ bytes. sum ≡ md5 bytes)) }
    ensures not_long { OnOk result (R.too_long source.new ≡ false) }
    ensures failures { CountsFailure ⟦<R as Source>⟧ source.old source.new result Stop.Read }
    ensures too_long { IsTooLongOn ⟦<R as Source>⟧ source.old source.new result Stop.TooLong }
    ensures no_memory { IsErrOf result Stop.Memory → ⊥ }
{
    let mut hasher = Md5::new();
    let mut block = [0; BLOCK];
    loop {
        let Ok(count) = source.pull(&mut block) else {
            return Err(Stop::Read);
        };
        if count == 0 {
            break;
        }
        hasher.update(&block[..count]);
    }
    if source.too_long() {
        return Err(Stop::TooLong);
    }
    Ok(hasher.finalize())
}

/// Whether the MD5 sum of all bytes from the source is the listed one, which an entry of a file table gives in 16 bytes
/// (`DW_LNCT_MD5` of DWARF 5, section 6.2.4.1). Allocates nothing.
///
/// Stops as `sum_of` does: with `Read` only if the source failed, and with `TooLong` only if it has more bytes than it may
/// give. The caller ensures that the source has failed fewer than `u64::MAX` times.
pub fn md5_agrees<R: Source>(source: &mut R, listed: &[u8; 16]) -> Result<Agreement, Stop>
    requires { R.failures source.old < 2 ^ 64 - 1 }
    ensures ok { IfOk result (λ agreement.
        IfSome (R.remaining source.old) (λ bytes. Agrees agreement (md5 bytes) listed.now)) }
    ensures not_long { OnOk result (R.too_long source.new ≡ false) }
    ensures failures { CountsFailure ⟦<R as Source>⟧ source.old source.new result Stop.Read }
    ensures too_long { IsTooLongOn ⟦<R as Source>⟧ source.old source.new result Stop.TooLong }
    ensures no_memory { IsErrOf result Stop.Memory → ⊥ }
{
    let sum = sum_of(source)?;
    if sum == *listed {
        Ok(Agreement::Same)
    } else {
        Ok(Agreement::Differs(sum))
    }
}
