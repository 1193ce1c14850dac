//! The components of an entry that is read in place.
ghost use Rattle.std.specs.Prelude.{◌≡◌, ◌↔◌, List, IsTrue, option_map};
ghost use Rattle.lnt_header.specs.declared.header.Entry.{Entry};
ghost use Rattle.lnt_header.specs.declared.header.Pair.{Pair};
ghost use Rattle.lnt_wire.specs.Borrowed.{value_of};
ghost use Rattle.lnt_files.specs.Contents.{path_text, number_of, directory_number, bytes_of_sum, sum_of};
ghost use Rattle.lnt_files.specs.Tables.{HasPath};
ghost use Rattle.lnt_files.specs.Walks.{Says};

use crate::ends::StringEnds;
use crate::walk::EntryView;
use lnt_wire::{Strings, ValueView};

impl<'a> EntryView<'a> {
    /// Whether the entry's path has a text. It takes constant time.
    #[inline(always)]
    #[tactic(auto, using(crate::proofs::SaidLemmas::has_text, crate::proofs::SaidLemmas::has_none))]
    pub(crate) fn has_path(&self, ends: &StringEnds<'_>) -> bool
        ensures { (pairs : List Pair) (entry : Entry) → Says pairs entry self.now
            → IsTrue result ↔ HasPath ends.now.line ends.now.general pairs entry }
    {
        matches!(self.path, Some(value) if ends.has_text(value))
    }

    /// The text of the entry's path. `None` if there is none.
    #[tactic(auto, using(crate::proofs::SaidLemmas::text_is, crate::proofs::SaidLemmas::no_text_is))]
    pub(crate) fn path_text(&self, strings: Strings<'a>) -> Option<&'a [u8]>
        ensures { (pairs : List Pair) (entry : Entry) → Says pairs entry self.now
            → option_map (λ text. text.now) result ≡ path_text strings.entry.line.now strings.entry.general.now pairs entry }
    {
        strings.view_text(self.path?)
    }

    /// The number of the file's directory, or 0 if the entry has none.
    #[inline(always)]
    #[tactic(auto, using(crate::proofs::SaidLemmas::number_is, crate::proofs::SaidLemmas::no_number_is))]
    pub(crate) fn directory_number(&self) -> u64
        ensures { (pairs : List Pair) (entry : Entry) → Says pairs entry self.now → result ≡ directory_number pairs entry }
    {
        match self.directory {
            Some(value) => number_of(value),
            None => 0,
        }
    }

    /// The file's MD5 sum, if it lists one.
    #[tactic(auto, using(crate::proofs::SaidLemmas::sum_is, crate::proofs::SaidLemmas::no_sum_is))]
    pub(crate) fn listed(&self) -> Option<[u8; 16]>
        ensures { (pairs : List Pair) (entry : Entry) → Says pairs entry self.now → result ≡ sum_of pairs entry }
    {
        bytes_of_sum(self.sum?)
    }
}

#[inline(always)]
fn number_of(value: ValueView<'_>) -> u64
    ensures { result ≡ number_of (value_of value.entry) }
{
    match value {
        ValueView::Udata(n) | ValueView::Data8(n) => n,
        ValueView::Data1(n) => u64::from(n),
        ValueView::Data2(n) => u64::from(n),
        ValueView::Data4(n) => u64::from(n),
        _ => 0,
    }
}

fn bytes_of_sum(value: ValueView<'_>) -> Option<[u8; 16]>
    ensures { result ≡ bytes_of_sum (value_of value.entry) }
{
    match value {
        ValueView::Data16(bytes) => Some(bytes),
        _ => None,
    }
}
