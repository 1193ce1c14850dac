//! Answers at positions, and which parts of an answer an address table contains.
ghost use Rattle.std.specs.Prelude.{◌≡◌};
ghost use Rattle.lnt_spans.specs.Answers.{narrowed, in_version};

/// Which parts of an answer an address table contains.
#[derive(Clone, Copy, Debug, PartialEq, Eq)]
pub enum Version {
    /// Unit, file, line, column and `is_stmt`.
    One,
    /// The same, with the instruction set and the discriminator.
    Two,
}

/// What version 2 of the address table adds to version 1 (DWARF 5, section 6.2.2).
#[derive(Clone, Copy, Debug, PartialEq, Eq)]
pub struct More {
    /// The instruction set.
    pub isa: u64,
    /// Tells apart the blocks that belong to one source line.
    pub discriminator: u64,
}

/// The place in the source that the code at a position comes from (DWARF 5, section 6.2.2).
#[derive(Clone, Copy, Debug, PartialEq, Eq)]
pub struct Answer {
    /// The section offset of the unit that gives this answer.
    pub unit: u64,
    /// The index of the source file in that unit.
    pub file: u64,
    /// The line in the file, counted from 1; 0 means that there is none.
    pub line: u64,
    /// The column in the line, counted from 1; 0 means the line's left edge.
    pub column: u64,
    /// Whether the position is a recommended breakpoint location, such as the beginning of a statement.
    pub is_stmt: bool,
    /// What only version 2 of the address table contains; `None` if it is left out.
    pub more: Option<More>,
}

impl Answer {
    /// The answer as version 1 of the address table contains it: without instruction set and discriminator.
    pub fn narrow(self) -> Answer
        ensures { result ≡ narrowed self }
    {
        Answer { more: None, ..self }
    }

    /// The answer as a version of the address table contains it.
    #[inline(always)]
    pub fn in_version(self, version: Version) -> Answer
        ensures { result ≡ in_version version self }
    {
        // Field by field: a copy of the whole struct would copy its padding too, which costs as much again.
        let more = match (version, self.more) {
            (Version::Two, Some(more)) => Some(More {
                isa: more.isa,
                discriminator: more.discriminator,
            }),
            _ => None,
        };
        Answer {
            unit: self.unit,
            file: self.file,
            line: self.line,
            column: self.column,
            is_stmt: self.is_stmt,
            more,
        }
    }
}
