//! Remembers which files have a path, so that it isn't compared again for code that alternates between files.
ghost use Rattle.std.specs.Prelude.{◌≡◌, ◌≢◌, ◌<◌, ℕ, List, IfSome, MatchBool};
ghost use Rattle.lnt_records.specs.KeptPaths.{AreTold};

// The number of results kept at most, of each kind.
pub(crate) const SLOTS: usize = 4;

// The slot that a number selects.
#[inline(always)]
pub(crate) fn slot_of(number: u64) -> usize
    ensures { result < 4 }
{
    (number % SLOTS as u64) as usize
}

/// Whether a file has a certain path.
#[derive(Clone, Copy)]
pub struct ToldFile {
    pub unit: u64,
    pub file: u64,
    pub same: bool,
}

/// Whether some files have a certain path, one file in each slot, which the file number selects.
#[derive(Clone, Copy)]
pub struct ToldFiles {
    slots: [Option<ToldFile>; SLOTS],
}

impl ToldFiles {
    /// Nothing is remembered of any file.
    #[inline(always)]
    pub fn none() -> ToldFiles
        ensures { (path : ℕ → ℕ → List ℕ) (target : List ℕ) → AreTold path target result.slots }
    {
        ToldFiles {
            slots: [None; SLOTS],
        }
    }

    /// Whether the file has the path, if that is remembered.
    #[inline(always)]
    pub fn recall(&self, unit: u64, file: u64) -> Option<bool>
        ensures { IfSome result (λ same. (path : ℕ → ℕ → List ℕ) (target : List ℕ) → AreTold path target self.now.slots
            → MatchBool same (path unit file ≡ target) (path unit file ≢ target)) }
    {
        if let Some(told) = self.slots[slot_of(file)] {
            if told.unit == unit && told.file == file {
                return Some(told.same);
            }
        }
        None
    }

    /// What is remembered in the slot of the file, be it of another file.
    pub fn in_slot(&self, file: u64) -> Option<ToldFile>
        ensures { IfSome result (λ told. (path : ℕ → ℕ → List ℕ) (target : List ℕ) → AreTold path target self.now.slots
            → MatchBool told.same (path told.unit told.file ≡ target) (path told.unit told.file ≢ target)) }
    {
        self.slots[slot_of(file)]
    }

    /// Remembers whether the file has the path.
    #[inline(always)]
    pub fn keep(&mut self, unit: u64, file: u64, same: bool)
        ensures { (path : ℕ → ℕ → List ℕ) (target : List ℕ) → AreTold path target self.old.slots
            → MatchBool same (path unit file ≡ target) (path unit file ≢ target) → AreTold path target self.new.slots }
    {
        self.slots[slot_of(file)] = Some(ToldFile { unit, file, same });
    }
}
