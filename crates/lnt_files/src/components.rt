//! The components of an entry that matter, read in place.
ghost use Rattle.std.specs.Prelude.{◌≡◌, ◌++◌, ◌∷◌, [], List, length};
ghost use Rattle.lnt_wire.specs.Borrowed.{value_of};
ghost use Rattle.lnt_wire.specs.declared.form.FormValue.{FormValue};
ghost use Rattle.lnt_files.specs.Walks.{ArePlaces};
ghost use Rattle.lnt_files.specs.Stepping.{IsComponent, AreComponents};

use crate::contents::place_of;
use crate::walk::EntryView;
use lnt_header::Pair;
use lnt_header::content::{DIRECTORY_INDEX, MD5, PATH};
use lnt_header_bytes::KeepsValues;
use lnt_wire::ValueView;

/// The index in an entry of the first component of each content type.
#[derive(Clone, Copy)]
pub(crate) struct Places {
    path: Option<usize>,
    directory: Option<usize>,
    sum: Option<usize>,
}

/// The indices in entries with these pairs.
pub(crate) fn places_of(pairs: &[Pair]) -> Places
    ensures { ArePlaces result pairs.now }
{
    Places {
        path: place_of(PATH, pairs),
        directory: place_of(DIRECTORY_INDEX, pairs),
        sum: place_of(MD5, pairs),
    }
}

// The first component of each content type is kept.
impl<'a> KeepsValues<'a> for Places {
    type Kept = EntryView<'a>;

    ghost has_kept = { λ places entry values. AreComponents places values entry };

    #[inline(always)]
    fn keep(&self, entry: &mut EntryView<'a>, index: usize, value: ValueView<'a>) {
        keep_at(self.path, &mut entry.path, index, value);
        keep_at(self.directory, &mut entry.directory, index, value);
        keep_at(self.sum, &mut entry.sum, index, value);
    }
}

// Keeps the value with this index if the component with index `wanted` is it.
#[inline(always)]
#[tactic(auto, using(crate::proofs::EntryLemmas::kept_here, crate::proofs::EntryLemmas::kept_earlier))]
fn keep_at<'a>(
    wanted: Option<usize>,
    component: &mut Option<ValueView<'a>>,
    index: usize,
    value: ValueView<'a>,
)
    ensures { (values : List FormValue) → length values ≡ index → IsComponent wanted values component.old
        → IsComponent wanted (values ++ value_of value.entry ∷ []) component.new }
{
    if wanted == Some(index) {
        *component = Some(value);
    }
}
