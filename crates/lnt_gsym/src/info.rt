//! Judges the infos of functions.
ghost use Rattle.std.specs.Prelude.{◌≡◌, ◌+◌, ◌<◌, ◌^◌, ℕ, suc, None, Some, length, MatchResult, IfErr, IfOk, OnOk};
ghost use Rattle.lnt_gsym.specs.GsymFields.{fault_of};
ghost use Rattle.lnt_gsym.specs.GsymInfos.{function_of};
ghost use Rattle.lnt_gsym.specs.Reading.{part_fault, part_said, parts_fault, then_parts};

use crate::fault::GsymFault;
use crate::fields::number;
use crate::part::{InfoPart, bytes_of, part};
use crate::rows::judge_rows;
use lnt_wire::Cursor;

/// The first fault of the info of a function with this start, if the file has so many files.
#[tactic(auto, using(crate::proofs::InfoLemmas::size_refused, crate::proofs::InfoLemmas::name_refused, crate::proofs::InfoLemmas::parts_judged))]
pub(crate) fn judge_info(cursor: &mut Cursor<'_>, files: u32, start: u128) -> Result<(), GsymFault>
    requires { start < 2 ^ 65 }
    ensures { MatchResult result (λ _. fault_of (function_of files start cursor.old) ≡ None)
        (λ fault. fault_of (function_of files start cursor.old) ≡ Some fault) }
{
    number(cursor)?;
    number(cursor)?;
    match judge_parts(cursor, files, start) {
        Ok(()) => Ok(()),
        Err(fault) => Err(fault),
    }
}

// The first fault of the parts of an info, up to the end.
#[tactic(auto, using(crate::proofs::InfoLemmas::none_judged, crate::proofs::InfoLemmas::one_judged, crate::proofs::InfoLemmas::judging_ends, crate::proofs::InfoLemmas::all_judged))]
fn judge_parts(cursor: &mut Cursor<'_>, files: u32, start: u128) -> Result<(), GsymFault>
    requires { start < 2 ^ 65 }
    ensures { MatchResult result (λ _. parts_fault (suc (length cursor.old.rest)) files start cursor.old ≡ None)
        (λ fault. parts_fault (suc (length cursor.old.rest)) files start cursor.old ≡ Some fault) }
{
    loop {
        match judge_part(cursor, files, start) {
            Ok(true) => {}
            Ok(false) => return Ok(()),
            Err(fault) => return Err(fault),
        }
    }
}

// The first fault of a part of an info, and whether others follow.
#[tactic(auto, using(crate::proofs::InfoLemmas::part_ends, crate::proofs::InfoLemmas::part_passed, crate::proofs::InfoLemmas::part_refused, crate::proofs::InfoLemmas::part_faulty))]
fn judge_part(cursor: &mut Cursor<'_>, files: u32, start: u128) -> Result<bool, GsymFault>
    requires { start < 2 ^ 65 }
    ensures step { IfOk result (λ more. (room : ℕ) → parts_fault (suc room) files start cursor.old
        ≡ then_parts more room files start cursor.new) }
    ensures fault { IfErr result (λ fault. (room : ℕ) → parts_fault (suc room) files start cursor.old ≡ Some fault) }
    ensures smaller { OnOk result (length cursor.new.rest < length cursor.old.rest) }
{
    let part = part(cursor)?;
    if part.kind == 0 {
        return Ok(false);
    }
    match judge_table(part, files, start) {
        Ok(()) => Ok(true),
        Err(fault) => Err(fault),
    }
}

// The first fault of the line table that a part is, if it is one.
#[tactic(auto, unfolding(crate::specs::Reading::part_fault))]
fn judge_table(part: InfoPart<'_>, files: u32, start: u128) -> Result<(), GsymFault>
    requires start { start < 2 ^ 65 }
    requires room { part.place + length part.bytes.now < 2 ^ 64 }
    ensures { MatchResult result (λ _. part_fault files start (part_said part.entry) ≡ None)
        (λ fault. part_fault files start (part_said part.entry) ≡ Some fault) }
{
    if part.kind != 1 {
        return Ok(());
    }
    judge_rows(&mut bytes_of(part), files, start)
}
