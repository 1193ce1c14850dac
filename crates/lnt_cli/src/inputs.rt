//! The files that a run reads.
ghost use Rattle.std.specs.Prelude.{◌≡◌, ◌^◌, IfErr, IfOk, IsErr, Ok, OnErr, Some, option_map, string_bytes, option_copied};
ghost use Rattle.lnt_io.specs.Files.{AreBytesOf, FindsNoMore, Readable};
ghost use Rattle.lnt_cli.specs.Answered.{AreStringsOf, AreTextsOf, IsTextOf};
ghost use Rattle.lnt_cli.specs.Stops.{IsFileOf, IsFileStop, NamesOneOf, StopsIfRefused, TellsFile};

use crate::stop::FileStop;
use lnt_io::{Files, IoStop, OpenedFile, Source, bytes_of_file};
use lnt_notes::{Seen, Watching};
use lnt_wire::Strings;
use lnt_words::Judging;
use std::alloc::Global;
use std::cell::Cell;

// The file of a section. Its first bytes are kept and all of them are counted, for notes.
pub(crate) type Section<'n, 'c, R> = OpenedFile<'n, R, Watching<'c>>;

// Another file.
pub(crate) type Other<'n, R> = OpenedFile<'n, R, ()>;

// The bytes of both string sections.
#[derive(Drop)]
pub(crate) struct Texts {
    line: Vec<u8>,
    general: Vec<u8>,
}

impl Texts {
    pub(crate) fn strings(&self) -> Strings<'_>
        ensures line { result.line.now ≡ self.now.line.items }
        ensures general { result.general.now ≡ self.now.general.items }
    {
        Strings {
            line: &self.line,
            general: &self.general,
        }
    }
}

// The result of the work on the file with this name. A stop has the name, which is copied before the work, so that no stop
// depends on the memory that is left then.
pub(crate) fn of_file<T>(name: String, ended: Result<T, IoStop>) -> Result<T, FileStop>
    ensures ok { IfOk result (λ value. ended ≡ Ok value) }
    ensures reported { IfErr result (λ stop. IfErr ended (λ io_stop. IsFileStop io_stop (string_bytes name) stop)) }
    ensures err { OnErr result (IsErr ended) }
    ensures named { IfErr result (NamesOneOf (λ other. string_bytes name ≡ other)) }
{
    match ended {
        Ok(value) => Ok(value),
        Err(io_stop) => Err(FileStop::of_file(name, io_stop)),
    }
}

// The open files of a section that is to be judged.
#[derive(Drop)]
pub(crate) struct Opened<S> {
    pub(crate) texts: Texts,
    pub(crate) section: S,
}

// Reads the string files of the section that is to be judged, whole, and opens the section.
pub(crate) fn open_judged<'n, 'c, O: Files>(
    alloc: Global,
    opener: &mut O,
    from: &Judging<'n>,
    seen: &'c Cell<Seen>,
) -> Result<Opened<Section<'n, 'c, O::Reader>>, FileStop>
    ensures named { IfErr result (NamesOneOf (IsFileOf from.now)) }
    ensures texts { IfOk result (λ opened.
        AreTextsOf (O.finds opener.old) from.now opened.texts.line.items opened.texts.general.items) }
    ensures name { IfOk result (λ opened. ⟦<Section<'n, 'c, O::Reader> as Source>⟧.name opened.section ≡ from.now.section.now) }
    ensures failures { IfOk result (λ opened. ⟦<Section<'n, 'c, O::Reader> as Source>⟧.failures opened.section ≡ 0) }
    ensures left { IfOk result (λ opened. ⟦<Section<'n, 'c, O::Reader> as Source>⟧.left opened.section ≡ 2 ^ 40) }
    ensures found { IfOk result (λ opened. O.finds opener.old from.now.section.now
        (Readable (⟦<Section<'n, 'c, O::Reader> as Source>⟧.remaining opened.section))) }
    ensures later { FindsNoMore (O.finds opener.old) (O.finds opener.new) }
    ensures refused { StopsIfRefused result (O.refused opener.old) (O.refused opener.new) }
    ensures cause { IfErr result (TellsFile (O.finds opener.old)) }
{
    let line = read_strings(alloc, opener, from.line_strings)?;
    let general = read_strings(alloc, opener, from.strings)?;
    let name = String::from_str(alloc, from.section)?;
    let opened = OpenedFile::open(alloc, opener, from.section, Watching::new(seen));
    let section = of_file(name, opened)?;
    let texts = Texts { line, general };
    Ok(Opened { texts, section })
}

// Opens the file with this name.
pub(crate) fn open_other<'n, O: Files>(
    alloc: Global,
    opener: &mut O,
    file: &'n str,
) -> Result<Other<'n, O::Reader>, FileStop>
    ensures named { IfErr result (NamesOneOf (λ other. file.now ≡ other)) }
    ensures name { IfOk result (λ opened. ⟦<Other<'n, O::Reader> as Source>⟧.name opened ≡ file.now) }
    ensures fails { IfOk result (λ opened. ⟦<Other<'n, O::Reader> as Source>⟧.failures opened ≡ 0) }
    ensures left { IfOk result (λ opened. ⟦<Other<'n, O::Reader> as Source>⟧.left opened ≡ 2 ^ 40) }
    ensures found { IfOk result (λ opened.
        O.finds opener.old file.now (Readable (⟦<Other<'n, O::Reader> as Source>⟧.remaining opened))) }
    ensures later { FindsNoMore (O.finds opener.old) (O.finds opener.new) }
    ensures refused { StopsIfRefused result (O.refused opener.old) (O.refused opener.new) }
    ensures cause { IfErr result (TellsFile (O.finds opener.old)) }
{
    let name = String::from_str(alloc, file)?;
    let opened = OpenedFile::open(alloc, opener, file, ());
    of_file(name, opened)
}

// All bytes of the file with this name, if one is named.
pub(crate) fn read_named<O: Files>(
    alloc: Global,
    opener: &mut O,
    file: Option<&str>,
) -> Result<Option<Vec<u8>>, FileStop>
    ensures named { IfErr result (NamesOneOf (λ name. option_copied file.entry ≡ Some name)) }
    ensures text { IfOk result (λ text.
        IsTextOf (O.finds opener.old) (option_copied file.entry) (option_map (λ bytes. bytes.items) text)) }
    ensures refused { StopsIfRefused result (O.refused opener.old) (O.refused opener.new) }
    ensures cause { IfErr result (TellsFile (O.finds opener.old)) }
{
    match file {
        Some(name) => Ok(Some(read_file(alloc, opener, name)?)),
        None => Ok(None),
    }
}

// All bytes of the file with this name; empty without a name.
fn read_strings<O: Files>(
    alloc: Global,
    opener: &mut O,
    file: Option<&str>,
) -> Result<Vec<u8>, FileStop>
    ensures named { IfErr result (NamesOneOf (λ name. option_copied file.entry ≡ Some name)) }
    ensures strings { IfOk result (λ bytes. AreStringsOf (O.finds opener.old) (option_copied file.entry) bytes.items) }
    ensures later { FindsNoMore (O.finds opener.old) (O.finds opener.new) }
    ensures refused { StopsIfRefused result (O.refused opener.old) (O.refused opener.new) }
    ensures cause { IfErr result (TellsFile (O.finds opener.old)) }
{
    match file {
        Some(name) => read_file(alloc, opener, name),
        None => Ok(Vec::new(alloc)),
    }
}

// All bytes of the file with this name.
fn read_file<O: Files>(alloc: Global, opener: &mut O, name: &str) -> Result<Vec<u8>, FileStop>
    ensures named { IfErr result (NamesOneOf (λ other. name.now ≡ other)) }
    ensures bytes { IfOk result (λ bytes. AreBytesOf (O.finds opener.old name.now) bytes.items) }
    ensures later { FindsNoMore (O.finds opener.old) (O.finds opener.new) }
    ensures refused { StopsIfRefused result (O.refused opener.old) (O.refused opener.new) }
    ensures cause { IfErr result (TellsFile (O.finds opener.old)) }
{
    let copy = String::from_str(alloc, name)?;
    of_file(copy, bytes_of_file(alloc, opener, name, ()))
}
