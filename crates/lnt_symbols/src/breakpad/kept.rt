//! Which ranges are kept: each that is sound and has no address in common with a kept one before it.
ghost use Rattle.std.specs.Prelude.{◌≡◌, ◌++◌, ◌∷◌, [], List, IfOk, OnOk, true};
ghost use Rattle.std.specs.List.{list_any};
ghost use Rattle.lnt_symbols.specs.BreakpadAnswers.{is_kept, is_sound, kept, meet};
ghost use Rattle.lnt_symbols.specs.Stepping.{AreInTree, IsAbove, more_kept};
ghost use Rattle.lnt_symbols.specs.declared.breakpad.record.Range as spec;

use crate::breakpad::range::{is_sound, last_of};
use crate::breakpad::record::Range;
use std::alloc::{AllocError, Global};
use std::collections::BTreeMap;

/// The kept ones of ranges that come one by one: 16 bytes for each, or an entry of a tree from the first on that is sound and doesn't
/// begin above all kept ones before it. Up to there a range takes constant time, and then the logarithm of their number.
#[derive(Drop)]
pub(crate) struct KeptRanges {
    // The kept ranges, if there is no tree.
    pub(crate) rising: Vec<Range>,
    // The last address of these.
    pub(crate) last: Option<u64>,
    // The last address of each kept range at its first.
    pub(crate) tree: Option<BTreeMap<u64, u64>>,
}

impl KeptRanges {
    ghost use Rattle.lnt_symbols.specs.Stepping.{HasKept};

    /// No range yet. It takes no memory.
    pub(crate) fn new(alloc: Global) -> KeptRanges
        ensures { HasKept result [] }
    {
        KeptRanges {
            rising: Vec::new(alloc),
            last: None,
            tree: None,
        }
    }

    /// Forgets all ranges.
    pub(crate) fn clear(&mut self)
        ensures { HasKept self.new [] }
    {
        self.rising.clear();
        self.last = None;
        self.tree = None;
    }

    /// Whether a range is kept after those before, of which it is one then.
    #[inline(always)]
    #[tactic(auto, using(crate::proofs::KeptLemmas::not_sound))]
    pub(crate) fn keep(&mut self, alloc: Global, range: Range) -> Result<bool, AllocError>
        ensures said { (those : List spec.Range) → HasKept self.old those → IfOk result (λ kept. kept ≡ is_kept (λ y. y) those range) }
        ensures kept { (those : List spec.Range) → HasKept self.old those → OnOk result (HasKept self.new (more_kept those range)) }
    {
        if !is_sound(range) {
            return Ok(false);
        }
        if let Some(tree) = &mut self.tree {
            return keep_in(tree, range);
        }
        if !is_above(self.last, range) {
            return self.keep_below(alloc, range);
        }
        self.rising.push(range)?;
        self.last = Some(last_of(range));
        Ok(true)
    }

    // The same of the first range that doesn't begin above all kept ones before it: they go into a tree.
    #[inline(never)]
    fn keep_below(&mut self, alloc: Global, range: Range) -> Result<bool, AllocError>
        requires { self.old.tree ≡ None }
        ensures said { (those : List spec.Range) → HasKept self.old those → IfOk result (λ kept. kept ≡ is_kept (λ y. y) those range) }
        ensures kept { (those : List spec.Range) → HasKept self.old those → OnOk result (HasKept self.new (more_kept those range)) }
    {
        let mut tree = tree_of(alloc, self.rising.as_slice())?;
        let is_kept = keep_in(&mut tree, range)?;
        self.rising = Vec::new(alloc);
        self.tree = Some(tree);
        Ok(is_kept)
    }
}

// Whether a range begins above an address.
#[inline(always)]
fn is_above(last: Option<u64>, range: Range) -> bool
    ensures { result ≡ true → IsAbove last range }
{
    match last {
        Some(last) => last < range.address,
        None => true,
    }
}

// The kept ones of ranges, as a tree.
#[tactic(auto, using(crate::proofs::TreeLemmas::empty_tree))]
fn tree_of(alloc: Global, ranges: &[Range]) -> Result<BTreeMap<u64, u64>, AllocError>
    ensures { IfOk result (λ tree. AreInTree tree (kept (λ y. y) ranges.now)) }
{
    let mut tree = BTreeMap::new(alloc);
    for range in ranges {
        keep_in(&mut tree, *range)?;
    }
    Ok(tree)
}

// Whether a range is kept after those in the tree, which has it then.
fn keep_in(tree: &mut BTreeMap<u64, u64>, range: Range) -> Result<bool, AllocError>
    ensures said { (those : List spec.Range) → AreInTree tree.old those → IfOk result (λ kept. kept ≡ is_kept (λ y. y) those range) }
    ensures kept { (those : List spec.Range) → AreInTree tree.old those → OnOk result (AreInTree tree.new (more_kept those range)) }
{
    if !is_kept_by(tree, range) {
        return Ok(false);
    }
    put_in(tree, range)?;
    Ok(true)
}

// Whether a range is kept after those in the tree.
fn is_kept_by(tree: &BTreeMap<u64, u64>, range: Range) -> bool
    ensures value { (those : List spec.Range) → AreInTree tree.now those → result ≡ is_kept (λ y. y) those range }
    ensures sound { result ≡ true → is_sound range ≡ true }
{
    is_sound(range) && !meets_one(tree, range)
}

// Puts a kept range into the tree.
fn put_in(tree: &mut BTreeMap<u64, u64>, range: Range) -> Result<(), AllocError>
    requires { is_sound range ≡ true }
    ensures { (those : List spec.Range) → AreInTree tree.old those → is_kept (λ y. y) those range ≡ true
        → OnOk result (AreInTree tree.new (those ++ range ∷ [])) }
{
    match tree.insert(range.address, last_of(range)) {
        Ok(_) => Ok(()),
        Err(_) => Err(AllocError),
    }
}

// Whether a sound range has an address in common with one in the tree. If it does, it has one with the last that begins in it or before it.
fn meets_one(tree: &BTreeMap<u64, u64>, range: Range) -> bool
    requires { is_sound range ≡ true }
    ensures { (those : List spec.Range) → AreInTree tree.now those → result ≡ list_any (λ y. meet y range) those }
{
    match tree.range(..=last_of(range)).next_back() {
        Some((_, last)) => range.address <= *last,
        None => false,
    }
}
