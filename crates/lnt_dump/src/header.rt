//! How headers are printed, with their entries read one by one in place.
ghost use Rattle.std.specs.Prelude.{◌≡◌, ◌++◌, IfErr, IfSome, OnErr, OnOk, Some, codes, decimal};
ghost use Rattle.std.specs.Io.KnownBytes.{Appends};
ghost use Rattle.lnt_io.specs.Prefixes.{AppendsPrefix};
ghost use Rattle.lnt_io.specs.IoStops.{IsPrinting};
ghost use Rattle.hex.specs.Hex.{encode_lower};
ghost use Rattle.lnt_wire.specs.Borrowed.{value_of};
ghost use Rattle.lnt_wire.specs.Bytes.{NoneSpelled};
ghost use Rattle.lnt_header_bytes.specs.TableBytes.{EntryBytes};
ghost use Rattle.lnt_dump.specs.Headers.{block_text, entry_line, header_lines, numbers_line, value_text};
ghost use Rattle.lnt_dump.specs.Units.{numbered, unit_line};
ghost use Rattle.lnt_dump.specs.Stepping.{IsPaged, PassesPrinting};

use crate::page::turn_full;
use crate::units::width_of;
use lnt_header::{HeaderNumbers, Pair};
use lnt_header_bytes::{EntryTableView, HeaderView};
use lnt_io::{IoStop, write_whole};
use lnt_text::Quoted;
use lnt_wire::{Cursor, Format, Frame, ValueView};
use std::alloc::Global;
use std::fmt;
use std::io::Write;

// This many bytes of a block are written at once.
const PIECE: usize = 4096;

// Prints the lines of a unit's header and of its two tables.
#[tactic(auto, using(crate::proofs::Headers::header_told, crate::proofs::Headers::files_cut))]
pub(crate) fn print_header<W: Write>(
    alloc: Global,
    frame: &Frame<'_>,
    header: &HeaderView<'_>,
    page: &mut Vec<u8>,
    out: &mut W,
) -> Result<(), IoStop>
    ensures ok { OnOk result (IsPaged (page.old.items ++ header_lines frame.now header.now)
        (W.contents out.old) (W.contents out.new) page.new.items) }
    ensures prefix { OnErr result (AppendsPrefix (W.contents out.old) (W.contents out.new)
        (page.old.items ++ header_lines frame.now header.now)) }
    ensures err { IfErr result IsPrinting }
{
    put_numbers(frame, header.numbers(), page)?;
    print_entries(alloc, "dir", header.directories(), page, out)?;
    print_entries(alloc, "file", header.files(), page, out)
}

// Adds the lines of a unit and of its header's numbers.
fn put_numbers(frame: &Frame<'_>, numbers: &HeaderNumbers, text: &mut Vec<u8>) -> Result<(), IoStop>
    ensures ok { OnOk result (text.new.items ≡ text.old.items ++ ((codes "unit " ++ unit_line frame.now) ++ numbers_line numbers.now)) }
    ensures err { IfErr result IsPrinting }
{
    print_numbers(frame, numbers, text).map_err(|_| IoStop::Memory)
}

// Prints the lines of a unit and of its header's numbers, in the order in which the header has them.
fn print_numbers<W: Write>(
    frame: &Frame<'_>,
    numbers: &HeaderNumbers,
    out: &mut W,
) -> Result<(), IoStop>
    ensures { OnOk result (Appends (W.contents out.old) (W.contents out.new)
        ((codes "unit " ++ unit_line frame.now) ++ numbers_line numbers.now)) }
{
    let (offset, width, length) = (frame.offset, width_of(frame.format), frame.length);
    writeln!(out, "unit 0x{offset:x} {width} {length}")?;
    let address_size = numbers.address_size();
    let minimum = numbers.minimum_instruction_length();
    let max_ops = numbers.max_ops();
    let default_is_stmt = numbers.default_is_stmt();
    let line_base = numbers.line_base();
    let line_range = numbers.line_range();
    let opcode_base = numbers.opcode_base();
    writeln!(
        out,
        "header {address_size} {minimum} {max_ops} {default_is_stmt} {line_base} {line_range} {opcode_base}"
    )?;
    Ok(())
}

// Prints a line for each entry of a table.
fn print_entries<W: Write>(
    alloc: Global,
    name: &str,
    table: &EntryTableView<'_>,
    page: &mut Vec<u8>,
    out: &mut W,
) -> Result<(), IoStop>
    ensures ok { OnOk result (IsPaged (page.old.items ++ numbered (entry_line name.now table.now.pairs) 0 table.now.entries)
        (W.contents out.old) (W.contents out.new) page.new.items) }
    ensures prefix { OnErr result (AppendsPrefix (W.contents out.old) (W.contents out.new)
        (page.old.items ++ numbered (entry_line name.now table.now.pairs) 0 table.now.entries)) }
    ensures err { IfErr result IsPrinting }
{
    let (format, pairs) = (table.format(), table.pairs());
    let mut cursor = table.cursor();
    for index in 0..table.count() {
        put_line(alloc, name, index, format, pairs, &mut cursor, page)?;
        turn_full(page, out)?;
    }
    Ok(())
}

// Adds the line of the next entry, which exists, and moves past it.
fn put_line(
    alloc: Global,
    name: &str,
    index: u64,
    format: Format,
    pairs: &[Pair],
    cursor: &mut Cursor<'_>,
    text: &mut Vec<u8>,
) -> Result<(), IoStop>
    requires { NoneSpelled (EntryBytes format cursor.old.order pairs.now) cursor.old.rest → ⊥ }
    ensures ok { OnOk result (PassesPrinting (entry_line name.now pairs.now index) format pairs.now cursor.old cursor.new
        (Some text.old.items) (Some text.new.items)) }
    ensures err { IfErr result IsPrinting }
{
    print_entry_line(alloc, name, index, format, pairs, cursor, text).map_err(|_| IoStop::Memory)
}

// Prints the line of the next entry, which exists, and moves past it.
fn print_entry_line<W: Write>(
    alloc: Global,
    name: &str,
    index: u64,
    format: Format,
    pairs: &[Pair],
    cursor: &mut Cursor<'_>,
    out: &mut W,
) -> Result<(), IoStop>
    requires { NoneSpelled (EntryBytes format cursor.old.order pairs.now) cursor.old.rest → ⊥ }
    ensures { OnOk result (PassesPrinting (entry_line name.now pairs.now index) format pairs.now cursor.old cursor.new
        (W.contents out.old) (W.contents out.new)) }
{
    print_text(&format_args!("{name} {index}"), out)?;
    for pair in pairs {
        let Ok(value) = cursor.value(pair.form, format) else {
            unreachable!()
        };
        print_component(alloc, pair.content, value, out)?;
    }
    write_whole(out, b"\n")?;
    Ok(())
}

// Prints a component of an entry: its content type and its value.
fn print_component<W: Write>(
    alloc: Global,
    content: u64,
    value: ValueView<'_>,
    out: &mut W,
) -> Result<(), IoStop>
    ensures { OnOk result (Appends (W.contents out.old) (W.contents out.new)
        (codes " " ++ (decimal content ++ (codes "=" ++ value_text (value_of value.entry))))) }
{
    print_text(&format_args!(" {content}="), out)?;
    print_value(alloc, value, out)
}

// Prints a value in its form.
fn print_value<W: Write>(alloc: Global, value: ValueView<'_>, out: &mut W) -> Result<(), IoStop>
    ensures { OnOk result (Appends (W.contents out.old) (W.contents out.new) (value_text (value_of value.entry))) }
{
    match value {
        ValueView::Text(text) => print_text(&Quoted(text), out),
        ValueView::LineStrp(offset) => print_text(&format_args!("line_strp:0x{offset:x}"), out),
        ValueView::Strp(offset) => print_text(&format_args!("strp:0x{offset:x}"), out),
        ValueView::Udata(n) | ValueView::Data8(n) => print_text(&n, out),
        ValueView::Data1(n) => print_text(&n, out),
        ValueView::Data2(n) => print_text(&n, out),
        ValueView::Data4(n) => print_text(&n, out),
        ValueView::Data16(bytes) => print_bytes(alloc, bytes.as_slice(), out),
        ValueView::Block(bytes)
        | ValueView::Block1(bytes)
        | ValueView::Block2(bytes)
        | ValueView::Block4(bytes) => print_block(alloc, bytes, out),
    }
}

// Prints the text of a value.
fn print_text<T: fmt::Display, W: Write>(value: &T, out: &mut W) -> Result<(), IoStop>
    ensures { IfSome (T.output value.now) (λ text. OnOk result (Appends (W.contents out.old) (W.contents out.new) text)) }
{
    write!(out, "{value}")?;
    Ok(())
}

fn print_block<W: Write>(alloc: Global, bytes: &[u8], out: &mut W) -> Result<(), IoStop>
    ensures { OnOk result (Appends (W.contents out.old) (W.contents out.new) (block_text bytes.now)) }
{
    write_whole(out, b"block:")?;
    print_bytes(alloc, bytes, out)
}

// Prints the hexadecimal digits of the bytes, some bytes at a time.
#[tactic(auto, using(crate::proofs::Lines::print_bytes_lemmas))]
pub(crate) fn print_bytes<W: Write>(alloc: Global, bytes: &[u8], out: &mut W) -> Result<(), IoStop>
    ensures { OnOk result (Appends (W.contents out.old) (W.contents out.new) (encode_lower bytes.now)) }
{
    let mut rest = bytes;
    while let Some((piece, more)) = rest.split_at_checked(PIECE) {
        print_piece(alloc, piece, out)?;
        rest = more;
    }
    print_piece(alloc, rest, out)
}

// Prints the hexadecimal digits of the bytes at once.
fn print_piece<W: Write>(alloc: Global, bytes: &[u8], out: &mut W) -> Result<(), IoStop>
    ensures { OnOk result (Appends (W.contents out.old) (W.contents out.new) (encode_lower bytes.now)) }
{
    write!(out, "{}", hex::encode(alloc, bytes)?)?;
    Ok(())
}
