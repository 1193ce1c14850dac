//! The versions before 5.
ghost use Rattle.std.specs.Prelude.{◌≡◌, ◌≢◌, MatchOption};
ghost use Rattle.lnt_older.specs.OlderBytes.{has_max_ops, version_number, OlderVersion};

/// The version of an older unit.
#[derive(Clone, Copy, Debug, PartialEq, Eq)]
pub enum OlderVersion {
    /// Version 2, of DWARF 2.
    Two,
    /// Version 3, of DWARF 3.
    Three,
    /// Version 4, of DWARF 4, from which on a header has `maximum_operations_per_instruction`.
    Four,
}

impl OlderVersion {
    /// The version of this number. None exactly where that is none of 2, 3 and 4.
    pub fn of(number: u16) -> Option<OlderVersion>
        ensures { MatchOption result ((version : OlderVersion) → version_number version ≢ number)
            (λ version. version_number version ≡ number) }
    {
        match number {
            2 => Some(OlderVersion::Two),
            3 => Some(OlderVersion::Three),
            4 => Some(OlderVersion::Four),
            _ => None,
        }
    }

    // Whether a header has `maximum_operations_per_instruction`.
    pub(crate) fn has_max_ops(self) -> bool
        ensures { result ≡ has_max_ops self }
    {
        matches!(self, OlderVersion::Four)
    }
}
