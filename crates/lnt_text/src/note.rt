//! Notes: help for the user, after an answer, which they don't change.
ghost use Rattle.std.specs.Prelude.{◌≡◌, Some};
ghost use Rattle.lnt_text.specs.Notes.{argument_text, column_kind, column_name, count_text, line_text};
ghost use Rattle.lnt_text.specs.Notes.{look_text, note_text, rule_text, strings_text};

use lnt_wire::Order;
use std::fmt;

/// A note for the user. No answer and no status depends on it.
#[derive(Clone, Copy, Debug, PartialEq, Eq)]
pub enum Note {
    /// A word isn't valid for this argument.
    Word(Argument),
    /// The file of the section isn't the raw bytes of one: it looks like this.
    NotRaw(Look),
    /// A unit is of version 2, 3 or 4.
    Older,
    /// The operation at fault sets an address of this many bytes, which isn't the address size of its unit.
    AddressBytes(u64),
    /// The text of an entry is in a section that wasn't given.
    NoStrings(StringSection),
    /// This many live sequences begin at this address, at which linkers leave discarded code. `None` if they weren't
    /// counted.
    MaybeDead(Option<u64>, u64),
    /// No sequence begins at the address that was given as that of discarded code.
    NoneDead(u64),
    /// The two sequences that overlap hold the same positions, and copies weren't skipped.
    Copies,
    /// No sequence of the good section holds a position.
    HoldsNothing,
    /// The good section lists no MD5 sum.
    NoSums,
    /// The table begins with the header of no version.
    TableHeader,
    /// A record of the table breaks this rule. It begins in this line of the text, if that is known.
    TableRecord(Option<u64>, RecordRule),
}

/// An argument that takes only words of a certain kind.
#[derive(Clone, Copy, Debug, PartialEq, Eq)]
pub enum Argument {
    /// An address to look up.
    Address,
    /// The operation index of `--op`.
    Op,
    /// The address of `--dead`.
    Dead,
    /// The format of `--format`.
    Format,
    /// The byte order of `--order`.
    Order,
    /// The number of bytes of an address, of `--address-size`.
    AddressSize,
    /// The address of `--base`.
    Base,
    /// The percentage of `--at-least`.
    AtLeast,
}

/// What a file that isn't a section looks like.
#[derive(Clone, Copy, Debug, PartialEq, Eq)]
pub enum Look {
    /// An ELF file.
    Elf,
    /// A PE file.
    Pe,
    /// A Mach-O file.
    MachO,
    /// A file that gzip compressed.
    Gzip,
    /// A file that zstd compressed.
    Zstd,
    /// A compressed section of an ELF file, with its header.
    CompressedSection,
    /// A symbol file, of Breakpad or a GSYM file.
    Symbols,
    /// Text.
    Text,
    /// A section in this byte order, which isn't the one in which it was read.
    InOrder(Order),
}

/// A section of strings.
#[derive(Clone, Copy, Debug, PartialEq, Eq)]
pub enum StringSection {
    /// `.debug_line_str`
    Line,
    /// `.debug_str`
    General,
}

/// The rules for the records of a table.
#[derive(Clone, Copy, Debug, PartialEq, Eq)]
pub enum RecordRule {
    /// It has as many fields as its table has columns.
    Fields,
    /// Its field in this column is of the column's kind.
    Kind(Column),
    /// Its span isn't empty, and doesn't begin below the end of the one before it.
    Order,
}

/// A column of a table.
#[derive(Clone, Copy, Debug, PartialEq, Eq)]
pub enum Column {
    /// The address of the first position.
    Low,
    /// Its operation index.
    LowOp,
    /// The address of the position after the last.
    High,
    /// Its operation index.
    HighOp,
    /// The offset of the unit.
    Unit,
    /// The file.
    File,
    /// The line.
    Line,
    /// The column of the line.
    Column,
    /// Whether a statement begins there.
    IsStmt,
    /// The instruction set.
    Isa,
    /// The discriminator.
    Discriminator,
}

impl fmt::Display for Note {
    ghost output = { λ note. Some (note_text note) };

    fn fmt<W: fmt::Write>(&self, f: &mut fmt::Formatter<W>) -> fmt::Result {
        match *self {
            Note::Word(argument) => f.write_str(rule_of_argument(argument)),
            Note::NotRaw(look) => f.write_str(advice_to_look(look)),
            Note::Older => f.write_str(
                "linetab upgrade SECTION --address-size N writes units of versions 2 to 4 anew in version 5, which the other words read; N is how many bytes an address has: 8 in a 64-bit program, 4 in a 32-bit one",
            ),
            Note::AddressBytes(count) => write!(
                f,
                "the operation there sets an address of {count} bytes; if linetab upgrade wrote the section, \
                 run it with --address-size {count}"
            ),
            Note::NoStrings(section) => f.write_str(missing_option(section)),
            Note::MaybeDead(count, address) => {
                let counted = CountText(count);
                write!(
                    f,
                    "sequences begin at 0x{address:x}, where linkers leave discarded code{counted}; \
                     --dead 0x{address:x} leaves them out"
                )
            }
            Note::NoneDead(address) => write!(
                f,
                "no sequence begins at 0x{address:x}, so --dead leaves nothing out"
            ),
            Note::Copies => f.write_str(
                "the two hold the same positions, as where a linker kept one of several copies of some code; --skip-copies leaves out the others",
            ),
            Note::HoldsNothing => f.write_str(
                "no sequence holds a position, so the section's table is empty; a relocatable object has to be linked first",
            ),
            Note::NoSums => f.write_str("the section lists no MD5 sum, so nothing was compared"),
            Note::TableHeader => write!(
                f,
                "the first line has to be {}, or low,high,path,line[,column]",
                NUMBERED_HEADERS
            ),
            Note::TableRecord(line, rule) => write!(f, "{}{rule}", LineText(line)),
        }
    }
}

impl fmt::Display for RecordRule {
    ghost output = { λ rule. Some (rule_text rule) };

    fn fmt<W: fmt::Write>(&self, f: &mut fmt::Formatter<W>) -> fmt::Result {
        match *self {
            RecordRule::Fields => {
                f.write_str("each record has as many fields as the header has names")
            }
            RecordRule::Kind(column) => {
                let (name, kind) = (name_of_column(column), kind_of_column(column));
                write!(f, "{name} is {kind}")
            }
            RecordRule::Order => f.write_str(
                "each span ends above its low, which isn't below the high of the span before",
            ),
        }
    }
}

// The headers of the versions that contain units and file numbers.
const NUMBERED_HEADERS: &str =
    "low,low_op,high,high_op,unit,file,line,column,is_stmt[,isa,discriminator]";

// The words that an argument takes.
fn rule_of_argument(argument: Argument) -> &'static str
    ensures { result.now ≡ argument_text argument }
{
    match argument {
        Argument::Address => "ADDRESS is 0x and 1 to 16 hexadecimal digits",
        Argument::Op => "N of --op is 1 to 20 decimal digits, and below 2^64",
        Argument::Dead => "ADDRESS of --dead is 0x and 1 to 16 hexadecimal digits",
        Argument::Format => "--format is 32 or 64",
        Argument::Order => "--order is little or big",
        Argument::AddressSize => "--address-size is 2, 4 or 8",
        Argument::Base => "ADDRESS of --base is 0x and 1 to 16 hexadecimal digits",
        Argument::AtLeast => "P of --at-least is 1 to 3 decimal digits, and at most 100",
    }
}

// What a file looks like, and what to do.
fn advice_to_look(look: Look) -> &'static str
    ensures { result.now ≡ look_text look }
{
    match look {
        Look::Elf => {
            "this looks like an ELF file; use linetab-object, which extracts the sections itself"
        }
        Look::Pe => {
            "this looks like a PE file; use linetab-object, which extracts the sections itself"
        }
        Look::MachO => {
            "this looks like a Mach-O file; use linetab-object, which extracts the sections itself"
        }
        Look::Gzip => "this looks like a file that gzip compressed; decompress it first",
        Look::Zstd => "this looks like a file that zstd compressed; decompress it first",
        Look::CompressedSection => {
            "this looks like a compressed section; objcopy --decompress-debug-sections, with --dump-section, decompresses it"
        }
        Look::Symbols => {
            "this looks like a symbol file; linetab-object check compares one with a program"
        }
        Look::Text => "this looks like text; a section is the raw bytes of .debug_line",
        Look::InOrder(Order::Big) => {
            "its length fits where the section is big-endian; try --big"
        }
        Look::InOrder(Order::Little) => {
            "its length fits where the section is little-endian; leave out --big"
        }
    }
}

// Which option is missing.
fn missing_option(section: StringSection) -> &'static str
    ensures { result.now ≡ strings_text section }
{
    match section {
        StringSection::Line => {
            "its text lies in .debug_line_str, which wasn't given; --line-str FILE names that section's bytes"
        }
        StringSection::General => {
            "its text lies in .debug_str, which wasn't given; --str FILE names that section's bytes"
        }
    }
}

// How many sequences begin there, if that is known.
#[derive(Clone, Copy)]
struct CountText(Option<u64>);

impl fmt::Display for CountText {
    ghost output = { λ text. Some (count_text text.0) };

    fn fmt<W: fmt::Write>(&self, f: &mut fmt::Formatter<W>) -> fmt::Result {
        match self.0 {
            Some(count) => write!(f, " ({count} of them)"),
            None => Ok(()),
        }
    }
}

// The line of the text in which a record begins, if that is known.
#[derive(Clone, Copy)]
struct LineText(Option<u64>);

impl fmt::Display for LineText {
    ghost output = { λ text. Some (line_text text.0) };

    fn fmt<W: fmt::Write>(&self, f: &mut fmt::Formatter<W>) -> fmt::Result {
        match self.0 {
            Some(line) => write!(f, "line {line} of the table: "),
            None => Ok(()),
        }
    }
}

// What a column is called.
fn name_of_column(column: Column) -> &'static str
    ensures { result.now ≡ column_name column }
{
    match column {
        Column::Low => "low",
        Column::LowOp => "low_op",
        Column::High => "high",
        Column::HighOp => "high_op",
        Column::Unit => "unit",
        Column::File => "file",
        Column::Line => "line",
        Column::Column => "column",
        Column::IsStmt => "is_stmt",
        Column::Isa => "isa",
        Column::Discriminator => "discriminator",
    }
}

// What a column holds.
fn kind_of_column(column: Column) -> &'static str
    ensures { result.now ≡ column_kind column }
{
    match column {
        Column::Low | Column::High => "0x and 1 to 16 hexadecimal digits",
        Column::IsStmt => "0 or 1",
        _ => "1 to 20 decimal digits, and below 2^64",
    }
}
