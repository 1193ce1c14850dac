//! Asks the live sequences for the answers of a table, stretch by stretch at which it and the kept ones differ.
ghost use Rattle.std.specs.Prelude.{◌≡◌, [], Option, IfOk, option_map};
ghost use Rattle.lnt_spans.specs.declared.position.Position as spec_position;
ghost use Rattle.lnt_sequences.specs.Copies.{IsAnyAnswer};
ghost use Rattle.lnt_sequences.specs.Sequences.{line_answer};
ghost use Rattle.lnt_table.specs.Asked.{IsAsked, OfLive};

use crate::kept::KeptStretches;
use crate::wrong::WrongStretches;
use lnt_lines::Index;
use lnt_spans::{Coverage, Scope};
use std::alloc::{AllocError, Global};

// Asks the live sequences at each stretch at which a table and the section differ.
pub(crate) fn ask<D: Drop, K: KeptStretches<D> + Drop>(
    alloc: Global,
    kept: K,
    index: &Index<'_>,
    scope: Scope,
) -> Result<Result<Coverage, D>, AllocError>
    requires { (by_section : spec_position.Position → Option K.Told) × (by_table : spec_position.Position → Option K.Told)
        × K.has_given kept by_section by_table [] }
    ensures { IfOk result (λ asked. OfLive index.now (λ selection. (by_section by_table : spec_position.Position → Option K.Told)
        → ((p : spec_position.Position) → by_section p ≡ option_map (K.tell kept) (line_answer selection p))
        → K.has_given kept by_section by_table []
        → IsAsked scope K.value_of (IsAnyAnswer (K.tell kept) selection) by_section by_table asked)) }
{
    let mut wrong = WrongStretches::of(alloc, kept, index, scope);
    match wrong.next_wrong(alloc)? {
        Some(ended) => Ok(Err(ended.difference)),
        None => Ok(Ok(wrong.coverage())),
    }
}
