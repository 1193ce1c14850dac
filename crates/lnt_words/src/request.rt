//! What is asked for.
ghost use Rattle.std.specs.Prelude.{◌≡◌};
ghost use Rattle.lnt_words.specs.Words.{size_bytes};

use lnt_spans::{Position, Version};
use lnt_wire::{Format, Order};

/// What the words ask for, and how.
#[derive(Drop)]
pub struct Asked<'a> {
    /// What they ask for.
    pub request: Request<'a>,
    /// Whether they ask for no notes.
    pub quiet: bool,
}

/// What the words ask for. Files are named as the words name them.
#[derive(Drop)]
pub enum Request<'a> {
    /// This text, of help or of the version.
    Help(String),
    /// What a section holds, or the section in another format; its lines aren't judged.
    Read {
        /// The file of the section.
        section: &'a str,
        /// The order of the bytes of its numbers.
        order: Order,
        /// How it is read.
        reading: Reading,
    },
    /// The section with its older units written anew in version 5.
    Upgrade(Upgrading<'a>),
    /// The address table of a symbol file.
    Symbols {
        /// The file.
        file: &'a str,
        /// The address at which its address 0 is loaded.
        base: u64,
    },
    /// What a good section says.
    Judge {
        /// The section.
        from: Judging<'a>,
        /// What is asked of it.
        question: Question,
    },
    /// What a section says of the contents of another file.
    JudgeWith {
        /// The section.
        from: Judging<'a>,
        /// The other file.
        file: &'a str,
        /// What is asked of both.
        question: FileQuestion,
    },
}

/// A section whose older units are written anew: its file, and how these are read.
#[derive(Clone, Copy)]
pub struct Upgrading<'a> {
    /// The file of the section.
    pub section: &'a str,
    /// The order of the bytes of its numbers.
    pub order: Order,
    /// The size of the addresses of older units.
    pub address_size: AddressSize,
    /// The file of the compilation directories of older units, if one is named.
    pub directories: Option<&'a str>,
}

/// How many bytes an address has.
#[derive(Clone, Copy, Debug, PartialEq, Eq)]
pub enum AddressSize {
    /// 2 bytes.
    Two = 2,
    /// 4 bytes.
    Four = 4,
    /// 8 bytes.
    Eight = 8,
}

impl AddressSize {
    /// The number of these bytes.
    pub fn bytes(self) -> u8
        ensures { result ≡ size_bytes self }
    {
        self as u8
    }
}

/// A section that is judged: its file and those of its strings, and how it is read.
#[derive(Clone, Copy)]
pub struct Judging<'a> {
    /// The file of the section.
    pub section: &'a str,
    /// The file of `.debug_line_str`, if one is named.
    pub line_strings: Option<&'a str>,
    /// The file of `.debug_str`, if one is named.
    pub strings: Option<&'a str>,
    /// The order of the bytes of its numbers.
    pub order: Order,
    /// The address at which sequences of dead code begin, if one is given.
    pub dead: Option<u64>,
    /// Whether copies are skipped.
    pub skip_copies: bool,
}

/// How a section is read if its lines aren't judged.
#[derive(Clone, Copy)]
pub enum Reading {
    /// A line for each unit.
    Units,
    /// The units with their headers.
    Dump {
        /// Whether their operations are printed too.
        ops: bool,
        /// Whether their rows are printed too.
        rows: bool,
    },
    /// The section in another format and byte order.
    Convert {
        /// The new format of the section.
        format: Format,
        /// The new byte order of its numbers.
        to: Order,
    },
}

/// What is asked of a good section.
#[derive(Drop)]
pub enum Question {
    /// Nothing but whether it is good.
    Verify,
    /// The answers at these positions.
    Lookup(Vec<Position>),
    /// The files of its units.
    Files,
    /// Its address table, in this version.
    Table(Version),
    /// Its address table with the paths of files.
    TableByPath {
        /// Whether the table has columns: version 3 if so, version 4 if not.
        columns: bool,
    },
    /// Whether files have the sums that are listed.
    Md5,
}

/// What is asked of a section and another file.
#[derive(Clone, Copy)]
pub enum FileQuestion {
    /// What the section answers, if it is good, at the positions in the file's lines. This is the operation index for a line
    /// without one.
    Lines(u64),
    /// Whether the table in the file answers as the section does.
    Check {
        /// Whether all positions at which it doesn't are reported, instead of only the first.
        all: bool,
        /// Whether the line of each stretch of these positions tells its end too.
        ends: bool,
        /// Whether they are compared only at the positions at which the table answers.
        partial: bool,
        /// How many of a hundred addresses of the section a table has to answer then.
        at_least: u64,
        /// Whether the answer of any copy is right too, instead of only that of the sequence that is kept. This isn't asked of all
        /// positions.
        any_copy: bool,
    },
}
