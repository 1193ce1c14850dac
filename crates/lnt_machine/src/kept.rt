//! The program of a unit, which runs, kept with the places of its sequences.
ghost use Rattle.std.specs.Prelude.{◌≡◌, ◌<◌, ◌≤◌, length, drop, slice_index_or, IfNone, IfSome};
ghost use Rattle.lnt_header.specs.declared.unit_parts.UnitParts.{UnitParts};
ghost use Rattle.lnt_machine.specs.declared.row.Sequence as spec;
ghost use Rattle.lnt_machine.specs.Matrix.{sequences};
ghost use Rattle.lnt_machine.specs.Walking.{IsKeptProgram, KeepsProgram, WillGive};

use crate::walk::SequenceRows;
use lnt_header_bytes::{HeaderView, KeptHeader};
use std::marker::Model;

/// The program of a unit, which runs, with the place of each of its sequences.
#[derive(Drop)]
pub struct Program {
    header: KeptHeader,
    // The program is the end of these bytes, from index `start` on.
    bytes: Vec<u8>,
    start: usize,
    // The index in the program of the first operation of each sequence.
    places: Vec<usize>,
}

impl Model for Program {
    ghost use Rattle.std.specs.Prelude.{◌≤◌, length, drop};
    ghost use Rattle.lnt_machine.specs.Walking.{IsKeptProgram, KeptProgram};

    ghost Value = { KeptProgram };

    ghost view = { λ p. record { header = p.header; program = drop p.start p.bytes.items; places = p.places.items } };

    ghost invariant = { λ p. IsKeptProgram (record { header = p.header; program = drop p.start p.bytes.items; places = p.places.items })
        × (p.start ≤ length p.bytes.items) };
}

impl Program {
    /// The program of a unit, which runs: the end of `bytes`, from index `start` on. `places` are the indices in it of the
    /// first byte of each of the unit's sequences, in order. The caller ensures both, and that `start` isn't above the length
    /// of `bytes`. Allocates nothing.
    pub fn of(header: KeptHeader, bytes: Vec<u8>, start: usize, places: Vec<usize>) -> Program
        requires kept { IsKeptProgram (record { header = header; program = drop start bytes.items; places = places.items }) }
        requires within { start ≤ length bytes.items }
        ensures { result ≡ record { header = header; program = drop start bytes.items; places = places.items } }
    {
        Program {
            header,
            bytes,
            start,
            places,
        }
    }

    /// The header of the unit that the program is of, as it was read.
    pub fn header(&self) -> HeaderView<'_>
        ensures { result ≡ self.now.header }
    {
        self.header.view()
    }

    /// The header with its directories and files, in the form in which they are kept.
    pub fn kept_header(&self) -> &KeptHeader
        ensures { result.now ≡ self.now.header }
    {
        &self.header
    }

    /// The rows of the sequence with this index, counted from 0, decoded from the kept bytes. `None` if there are only
    /// `index` sequences or fewer. Allocates nothing.
    pub fn sequence(&self, index: usize) -> Option<SequenceRows<'_>>
        ensures none { IfNone result (length self.now.places ≤ index) }
        ensures left { IfSome result (λ walk. length walk.walk.at.rest ≤ length self.now.program) }
        ensures rows { IfSome result (λ walk. (unit : UnitParts) (d : spec.Sequence) → KeepsProgram self.now unit
            → WillGive (slice_index_or (sequences unit) index d).rows walk) }
    {
        let place = *self.places.get(index)?;
        let (_, program) = self.bytes.split_at(self.start);
        Some(SequenceRows::at(self.header.numbers(), program, place))
    }
}
