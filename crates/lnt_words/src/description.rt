//! The words that the command takes: its subcommands, and the arguments of each, as data.

/// A subcommand and its help.
#[derive(Clone, Copy)]
pub(crate) struct Subcommand {
    /// The word that names it.
    pub(crate) name: &'static str,
    /// What it does, in one line of help.
    pub(crate) about: &'static str,
    /// The text of its help after the arguments, if there is one.
    pub(crate) after: Option<&'static str>,
    /// The arguments that aren't shared. They come before the shared ones.
    pub(crate) own: &'static [ArgumentRule],
    /// The arguments that it shares with other subcommands.
    pub(crate) shared: &'static [ArgumentRule],
}

/// An argument of a subcommand.
#[derive(Clone, Copy)]
pub(crate) struct ArgumentRule {
    /// The name by which its value is found. A flag or an option is given as `--name`.
    pub(crate) name: &'static str,
    /// The words that it takes.
    pub(crate) kind: Kind,
    /// Its text in help.
    pub(crate) help: &'static str,
}

/// The words that an argument takes.
#[derive(Clone, Copy)]
pub(crate) enum Kind {
    /// One word, which is required.
    Word,
    /// One or more words, required unless this option is given, which conflicts with them.
    WordsUnless(&'static str),
    /// The flag `--name`.
    Flag,
    /// The flag `--name`, which conflicts with this argument.
    FlagWithout(&'static str),
    /// The flag `--name`, which conflicts with either of these two.
    FlagWithoutBoth(&'static str, &'static str),
    /// The flag `--name`, which requires this argument.
    FlagWith(&'static str),
    /// The option `--name VALUE`; the text is what help calls the value.
    Valued(&'static str),
    /// The same, which requires the second argument.
    ValuedWith(&'static str, &'static str),
    /// The same, but required.
    Required(&'static str),
}

// The version of the program, and the toolchain that it is proved with: the number of its kit and its logic, as `rt version`
// prints them, without the letter of the kit, which distinguishes revisions that prove by the same logic.
pub(crate) const VERSION: &str = "0.9.0 (rattle-kit-13 logic dac8208d650f15bf)";

// The arguments in these rows: name, kind and help.
macro_rules! arguments {
    ($($name:literal => $kind:ident $(($($value:literal),+))?, $help:expr;)*) => {
        &[$(ArgumentRule { name: $name, kind: Kind::$kind $(($($value),+))?, help: $help }),*]
    };
}

// What subcommands that read a section share, and the arguments in these rows.
macro_rules! reading {
    ($($more:tt)*) => {
        arguments! {
            "big" => Flag, "The section is big-endian; otherwise it is little-endian";
            "quiet" => Flag, QUIET;
            $($more)*
        }
    };
}

// A subcommand: its name, help, text after its help and shared arguments, and then a row for each of its own arguments, which
// follow the section.
macro_rules! subcommand {
    ($name:literal => $about:literal, $after:expr, $shared:expr; $($own:tt)*) => {
        Subcommand {
            name: $name,
            about: $about,
            after: $after,
            own: arguments! {
                "SECTION" => Word, "The file with the bytes of a .debug_line section, or - for standard input";
                $($own)*
            },
            shared: $shared,
        }
    };
}

/// The subcommands, in the order in which help lists them.
pub(crate) const SUBCOMMANDS: [Subcommand; 11] = [
    subcommand! {
        "units" => "Prints the offset, the format and the length of each unit of a section", None, READING;
    },
    subcommand! {
        "dump" => "Prints the header of each unit of a section, with its directories and files", None, READING;
        "ops" => Flag, "Prints the operations of each unit too";
        "rows" => Flag, "Prints the rows of each unit too";
    },
    subcommand! {
        "check" => "Prints yes if an address table answers as a section does, or else the first thing that is wrong", Some(NUMBERS), JUDGING;
        "TABLE" => Word, "The file with the address table, or - for standard input";
        "all" => Flag, "Prints every place where the two differ, not only the first";
        "ends" => FlagWith("all"), "Prints the first position after each of these places too";
        "partial" => Flag, "Compares only where the table answers, and prints at how many of the section's addresses it does";
        "at-least" => ValuedWith("P", "partial"), "Prints no if these are fewer than P percent; P is 0 to 100";
        "any-copy" => Flag, "Skips copies, and takes the answer of each of them as right too";
    },
    subcommand! {
        "verify" => "Prints yes if a section is good, or else the first thing that is wrong with it", None, JUDGING;
    },
    subcommand! {
        "lookup" => "Prints a line for each address: what a section answers there", None, JUDGING;
        "ADDRESS" => WordsUnless("addresses"), "An address: 0x and 1 to 16 hexadecimal digits";
        "addresses" => Valued("FILE"), "A file with a line ADDRESS or ADDRESS,N for each lookup, or - for standard input";
        "op" => Valued("N"), "The operation within the instruction, counted from 0; 0 by default";
    },
    subcommand! {
        "files" => "Prints the path and the MD5 sum of each file of a section, as comma-separated values", None, JUDGING;
    },
    subcommand! {
        "table" => "Prints the address table of a section", Some(WHOLE), JUDGING;
        "wide" => FlagWithoutBoth("paths", "lines"), "Adds the instruction set and the discriminator";
        "paths" => FlagWithout("lines"), "Writes only the path of the file, the line and the column";
        "lines" => Flag, "Writes only the path of the file and the line";
    },
    subcommand! {
        "convert" => "Prints a section in another format and byte order", None, READING;
        "format" => Required("32|64"), "The format to write";
        "order" => Required("little|big"), "The byte order to write";
    },
    subcommand! {
        "upgrade" => "Prints a section with its units of versions 2 to 4 written anew in version 5", Some(OLDER), READING;
        "address-size" => Required("2|4|8"), "How many bytes an address has in units of versions 2 to 4, which don't say so themselves";
        "directories" => Valued("FILE"), "A file with the compilation directories of these units, or - for standard input";
    },
    Subcommand {
        name: "symbols",
        about: "Prints the address table of a symbol file of Breakpad or a GSYM file, as the format's own reader answers from it",
        after: Some(BASE),
        own: arguments! {
            "FILE" => Word, "The symbol file, or - for standard input";
            "base" => Valued("ADDRESS"), "The address of the program's first byte, from which addresses in a file of Breakpad count; 0x0 by default";
        },
        shared: arguments! {
            "quiet" => Flag, QUIET;
        },
    },
    subcommand! {
        "md5" => "Compares the files of a section with the MD5 sums that it lists", Some(SUMS), JUDGING;
    },
];

// The help of the flag that each subcommand has.
const QUIET: &str = "Prints no notes on standard error";

// The arguments of a subcommand that reads a section.
const READING: &[ArgumentRule] = reading! {};

// The arguments of a subcommand that judges a section.
const JUDGING: &[ArgumentRule] = reading! {
    "line-str" => Valued("FILE"), "The file with the bytes of .debug_line_str";
    "str" => Valued("FILE"), "The file with the bytes of .debug_str";
    "dead" => Valued("ADDRESS"), "The address at which sequences of discarded code begin; they are left out";
    "skip-copies" => Flag, "Takes no answer from sequences that begin and end at the same positions as an earlier one";
};

// What the numbers in the lines `no ..` of `check` mean.
const NUMBERS: &str = "Lines that begin with no, and the document that says more:
  25  the bytes are not a valid unit; the reason follows (docs/SPECIFICATION.md)
  26  the program of a unit doesn't run (docs/SPECIFICATION.md)
  27  a table of directories or files has no path, or one in a form that it may not have (docs/LINES.md)
  28  the path of a directory or file has no text; --line-str and --str name the sections of strings (docs/LINES.md)
  29  a file names a directory that isn't there (docs/LINES.md)
  30  a row names a file that isn't there (docs/LINES.md)
  31  a row's position is below that of the row before it, in one sequence (docs/LINES.md)
  32  two sequences overlap; --dead and --skip-copies ignore what a linker left behind (docs/LINES.md)
  36  the table doesn't begin with the names of its columns (docs/TABLES.md)
  37  a record of the table has too few or too many fields (docs/TABLES.md)
  38  a field of the table isn't a number of the kind that its column has (docs/TABLES.md)
  39  a span of the table is empty, or begins below the end of the one before it (docs/TABLES.md)
  40  the table and the section differ; this is the lowest position at which they do (docs/TABLES.md)
  46  the table is right wherever it answers, but answers at fewer of the section's addresses than --at-least asks for (docs/TABLES.md)";

// What the line `no 43` of `table` means.
const WHOLE: &str = "With --paths or --lines a table describes whole instructions only. \
If a span begins or ends within one, the line 'no 43 operation index at 0xA,OP' names the first such place, and the status is 1 \
(docs/TABLES.md).";

// What the file of directories is, and the lines `no` of `upgrade`.
const OLDER: &str =
    "The file of directories is comma-separated values: the line unit,directory, and then for some of these units, \
in rising order, the offset in the section as a decimal number and the path. The line 'no 44 directories record R' names the \
first record that isn't valid, 'no 20 too large unit 0xU' the first unit that is too long for its format once it is written anew; \
the status is then 1.";

// What the table of a symbol file is, and the line `no` of `symbols`.
const BASE: &str =
    "The table has the path and the line at each address, as table --lines prints those of a section, so check can \
compare the two. The line 'no 45 symbols line L: REASON', of a GSYM file 'no 45 symbols at 0xP: REASON', names the first line or field \
that isn't valid, and the status is 1 (docs/TABLES.md).";

// What the words `same`, `differs` and `unreadable` in the lines of `md5` mean.
const SUMS: &str = "A file is the same, differs, or is unreadable: it can't be opened or read. \
If one isn't the same, the status is 1.";
