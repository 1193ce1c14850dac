//! The entries of a file, one after another.
ghost use Rattle.std.specs.Prelude.{◌≡◌, ◌*◌, ◌<◌, ◌≤◌, ◌^◌, [], length, true, IfSome, MatchOption};
ghost use Rattle.lnt_gsym.specs.GsymFiles.{is_address_size, numbers_of};
ghost use Rattle.lnt_gsym.specs.Walking.{GivesEntry, next_start};

use crate::address::in_table;
use crate::fields::{number_at, rest_after};
use crate::tables::offset_of;
use lnt_wire::Order;
use std::marker::Model;

/// The entries that are left: where each function starts, and where its info is.
#[derive(Drop)]
pub struct Entries<'a> {
    order: Order,
    size: u8,
    base: u64,
    left: u32,
    starts: &'a [u8],
    infos: &'a [u8],
}

impl<'a> Model for Entries<'a> {
    ghost use Rattle.std.specs.Prelude.{◌≡◌, ◌*◌, length, true};
    ghost use Rattle.lnt_gsym.specs.GsymFiles.{is_address_size, numbers_of};
    ghost use Rattle.lnt_gsym.specs.Walking.{EntriesSaid};

    ghost Value = { EntriesSaid };

    ghost view = { λ e. record {
      base = e.base;
      starts = numbers_of e.order e.size e.left e.starts.now;
      infos = numbers_of e.order 4 e.left e.infos.now;
    } };

    ghost invariant = { λ e. (is_address_size e.size ≡ true) × (length e.starts.now ≡ e.size * e.left)
        × (length e.infos.now ≡ 4 * e.left) };
}

impl<'a> Entries<'a> {
    /// So many entries, from these tables. Each address offset has `size` bytes.
    pub(crate) fn of(
        order: Order,
        size: u8,
        base: u64,
        count: u32,
        starts: &'a [u8],
        infos: &'a [u8],
    ) -> Entries<'a>
        requires size { is_address_size size ≡ true }
        requires starts { length starts.now ≡ size * count }
        requires infos { length infos.now ≡ 4 * count }
        ensures { result ≡ record {
          base = base;
          starts = numbers_of order size count starts.entry.now;
          infos = numbers_of order 4 count infos.entry.now;
        } }
    {
        Entries {
            order,
            size,
            base,
            left: count,
            starts,
            infos,
        }
    }

    /// The same entries.
    pub(crate) fn fork(&self) -> Entries<'a>
        ensures { result ≡ self.now }
    {
        Entries {
            order: self.order,
            size: self.size,
            base: self.base,
            left: self.left,
            starts: self.starts,
            infos: self.infos,
        }
    }

    /// Takes the next entry: where its function starts, and where its info is.
    #[tactic(auto, using(crate::proofs::EntryLemmas::no_entry, crate::proofs::EntryLemmas::one_entry, crate::proofs::EntryLemmas::fewer_entries, crate::proofs::TableLemmas::one_left, crate::proofs::EntryLemmas::rest_length))]
    pub(crate) fn take(&mut self) -> Option<(u128, u32)>
        ensures gives { MatchOption result (self.old.starts ≡ []) (λ entry. GivesEntry self.old self.new entry.0 entry.1) }
        ensures fewer { IfSome result (λ _. length self.new.starts < length self.old.starts) }
        ensures small { IfSome result (λ entry. entry.0 < 2 ^ 65) }
    {
        if self.left == 0 {
            return None;
        }
        let offset = offset_of(self.order, self.size, self.starts);
        let place = number_at(self.order, self.infos, 0);
        let starts = rest_after(self.starts, self.size as usize);
        let infos = rest_after(self.infos, 4);
        self.starts = starts;
        self.infos = infos;
        self.left -= 1;
        Some((u128::from(self.base) + u128::from(offset), place))
    }

    /// Where the first entry begins that starts above an address, at most at the end of a table.
    pub(crate) fn next_above(&self, start: u128) -> u64
        ensures { result ≡ next_start self.now.base start self.now.starts }
    {
        next_above(
            self.order,
            self.size,
            self.base,
            start,
            self.left,
            self.starts,
        )
    }
}

// Where the first of these entries begins that starts above an address, at most at the end of a table.
#[tactic(auto, using(crate::proofs::EntryLemmas::none_passed, crate::proofs::EntryLemmas::one_passed, crate::proofs::EntryLemmas::found_above, crate::proofs::EntryLemmas::none_above, crate::proofs::TableLemmas::one_left))]
fn next_above(order: Order, size: u8, base: u64, start: u128, count: u32, starts: &[u8]) -> u64
    requires size { is_address_size size ≡ true }
    requires length { length starts.now ≡ size * count }
    ensures { result ≡ next_start base start (numbers_of order size count starts.now) }
{
    let mut rest = starts;
    let mut left = count;
    while left > 0 {
        let next = u128::from(base) + u128::from(offset_of(order, size, rest));
        if start < next {
            return in_table(next);
        }
        let after = rest_after(rest, size as usize);
        rest = after;
        left -= 1;
    }
    u64::MAX
}
