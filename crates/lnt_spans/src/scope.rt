//! The positions at which a table is compared with a section, and how much of the section it answers.
ghost use Rattle.std.specs.Prelude.{◌≡◌};
ghost use Rattle.lnt_spans.specs.Partial.{coverage_but, scope_in};

/// The positions at which a table is compared with a section.
#[derive(Clone, Copy, Debug, PartialEq, Eq)]
pub enum Scope {
    /// All positions.
    All,
    /// Those at which the table answers.
    Answered,
}

impl Scope {
    /// The scope of a check that is partial, or isn't.
    pub fn of(is_partial: bool) -> Scope
        ensures { result ≡ scope_in is_partial }
    {
        if is_partial {
            Scope::Answered
        } else {
            Scope::All
        }
    }
}

/// How much of a section a table answers. An address counts if its position with operation index 0 does.
#[derive(Clone, Copy, Debug, PartialEq, Eq)]
pub struct Coverage {
    /// The number of addresses, from 0 to 2^64 - 1, at which both answer.
    pub answered: u128,
    /// The number of those at which the section does.
    pub all: u128,
}

impl Coverage {
    /// How much of a section a table answers that misses so many of its addresses.
    pub fn but(missed: u128, all: u128) -> Coverage
        ensures { result ≡ coverage_but missed all }
    {
        Coverage {
            answered: all.saturating_sub(missed),
            all,
        }
    }
}
