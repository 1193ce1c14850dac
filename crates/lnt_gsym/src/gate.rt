//! What the line tables of a function before its last one say of an address.
ghost use Rattle.std.specs.Prelude.{◌≡◌, ℕ, List, false};
ghost use Rattle.lnt_gsym.specs.declared.line_table.Row as spec;
ghost use Rattle.lnt_gsym.specs.GsymSpans.{row_gate};
ghost use Rattle.lnt_gsym.specs.Walking.{AreLeft, count_left};

use crate::address::earlier;
use crate::made::MadeRows;

/// What line tables say of an address, and of those after it up to another.
#[derive(Clone, Copy)]
pub(crate) struct Gate {
    /// Whether each has a row there, of a file.
    pub(crate) passes: bool,
    /// The first address above it at which a row begins; the end of tables if there is none.
    pub(crate) until: u64,
}

impl Gate {
    ghost use Rattle.std.specs.Prelude.{◌≡◌, ℕ, List};
    ghost use Rattle.lnt_gsym.specs.declared.line_table.Row as spec;
    ghost use Rattle.lnt_gsym.specs.GsymSpans.{gate_with, open_gate};
    ghost use Rattle.lnt_gsym.specs.Walking.{AreLeft};

    /// What no line table says.
    pub(crate) fn open() -> Gate
        ensures { result ≡ open_gate }
    {
        Gate {
            passes: true,
            until: u64::MAX,
        }
    }

    /// What is said with the line table of these rows, if there is one.
    pub(crate) fn with(self, has_table: bool, rows: &mut MadeRows<'_>, address: u128) -> Gate
        ensures { (files : ℕ) (made : List spec.Row) → AreLeft files rows.old made
            → result ≡ gate_with address self has_table made }
    {
        if !has_table {
            return self;
        }
        let other = row_gate(rows, address);
        Gate {
            passes: self.passes && other.passes,
            until: earlier(self.until, other.until),
        }
    }
}

// What the line table of these rows says.
#[tactic(auto, using(crate::proofs::GateLemmas::none_asked, crate::proofs::GateLemmas::one_asked, crate::proofs::GateLemmas::is_above, crate::proofs::GateLemmas::all_asked))]
fn row_gate(rows: &mut MadeRows<'_>, address: u128) -> Gate
    ensures { (files : ℕ) (made : List spec.Row) → AreLeft files rows.old made → result ≡ row_gate false address made }
{
    let mut passes = false;
    loop {
        let row = match rows.take() {
            Some(row) => row,
            None => {
                return Gate {
                    passes,
                    until: u64::MAX,
                };
            }
        };
        if address < row.address {
            return Gate {
                passes,
                until: row.address as u64,
            };
        }
        passes = row.file != 0;
    }
}
