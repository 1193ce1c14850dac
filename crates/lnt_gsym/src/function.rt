//! Reads the info of a function without a fault, for its rows.
ghost use Rattle.std.specs.Prelude.{◌≡◌, ◌<◌, ◌≤◌, ◌^◌, ℕ, List, suc, length, Ok, IfSome, MatchOption};
ghost use Rattle.lnt_gsym.specs.declared.line_table.Row as spec;
ghost use Rattle.lnt_gsym.specs.GsymFiles.{at_place};
ghost use Rattle.lnt_gsym.specs.GsymInfos as infos;
ghost use Rattle.lnt_gsym.specs.Walking.{IsFunction, IsLast, count_left};

use crate::fields::number;
use crate::gate::Gate;
use crate::made::MadeRows;
use crate::part::part;
use crate::tables::cursor_at;
use lnt_wire::{Cursor, Order};

/// A function, with the rows of its last line table.
#[derive(Drop)]
pub(crate) struct Function<'a> {
    /// Its size.
    pub(crate) size: u32,
    /// Where its name is.
    pub(crate) name: u32,
    /// Its last line table, and what the others say.
    pub(crate) last: LastTable<'a>,
}

/// The rows of the last line table of a function.
#[derive(Drop)]
pub(crate) struct LastTable<'a> {
    /// What the line tables before it say of the address that was asked for.
    pub(crate) gate: Gate,
    /// The rows.
    pub(crate) rows: MadeRows<'a>,
}

/// The function with this start and its info at this place, as far as it tells of an address. `None` if the info has a fault.
#[tactic(auto, using(crate::proofs::FunctionLemmas::size_read, crate::proofs::FunctionLemmas::name_read, crate::proofs::FunctionLemmas::function_read))]
pub(crate) fn function_at<'a>(
    order: Order,
    bytes: &'a [u8],
    place: u32,
    start: u128,
    address: u128,
) -> Option<Function<'a>>
    requires { start < 2 ^ 65 }
    ensures function { (files : ℕ) (f : infos.Function) → infos.function_of files start (at_place order bytes.now place) ≡ Ok f
        → MatchOption result ⊥ (λ found. IsFunction files address found.size found.name found.last.gate found.last.rows f) }
    ensures bound { IfSome result (λ found. count_left found.last.rows ≤ 2 ^ 64) }
{
    let mut cursor = cursor_at(order, bytes, u64::from(place));
    let size = match number(&mut cursor) {
        Ok(size) => size,
        Err(_) => return None,
    };
    let name = match number(&mut cursor) {
        Ok(name) => name,
        Err(_) => return None,
    };
    match last_table(&mut cursor, start, address) {
        Some(last) => Some(Function { size, name, last }),
        None => None,
    }
}

// The last line table of the parts from here on, and what the others say of an address. `None` if one of them has a fault.
#[tactic(auto, using(crate::proofs::FunctionLemmas::none_opened, crate::proofs::FunctionLemmas::one_opened, crate::proofs::FunctionLemmas::one_skipped, crate::proofs::FunctionLemmas::all_opened))]
fn last_table<'a>(cursor: &mut Cursor<'a>, start: u128, address: u128) -> Option<LastTable<'a>>
    requires { start < 2 ^ 65 }
    ensures last { (files : ℕ) (tables : List (List spec.Row))
        → infos.tables_from (suc (length cursor.old.rest)) files start cursor.old ≡ Ok tables
        → MatchOption result ⊥ (λ last. IsLast files address last.gate last.rows tables) }
    ensures bound { IfSome result (λ last. count_left last.rows ≤ 2 ^ 64) }
{
    let mut gate = Gate::open();
    let mut has_table = false;
    let mut rows = MadeRows::none();
    loop {
        let part = match part(cursor) {
            Ok(part) => part,
            Err(_) => return None,
        };
        if part.kind == 0 {
            return Some(LastTable { gate, rows });
        }
        if part.kind == 1 {
            gate = gate.with(has_table, &mut rows, address);
            has_table = true;
            rows = match MadeRows::of(part, start) {
                Some(rows) => rows,
                None => return None,
            };
        }
    }
}
