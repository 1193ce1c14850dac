//! What the words of the command ask for.
ghost use Rattle.std.specs.Prelude.{◌≡◌, ◌≢◌, ◌⊎◌, ℕ, IfErr, IfOk, List, codes, false, map, option_copied, option_map, string_bytes};
ghost use Rattle.clap.specs.Words.{Row, all_of, first_of, kind_of, subcommand_rows_of};
ghost use Rattle.lnt_words.specs.Described.{IsAskedOfMatches, IsFound, rows_in};
ghost use Rattle.lnt_text.specs.Digits.{IsAddress};
ghost use Rattle.lnt_words.specs.Words.{AreAddresses, AreAddressesIn, ArePositionsIn, AskForNothing, IsAskedBy, IsAskedIn, IsAskedOf};
ghost use Rattle.lnt_words.specs.Words.{IsFlagGiven, IsHelp, IsJudging, IsNoYes, IsOp, IsOrder, IsPercentageIn, IsQuestion, IsReading};
ghost use Rattle.lnt_words.specs.Words.{IsBase, IsSize, IsWord};
ghost use Rattle.lnt_words.specs.Words.{IsWrittenFormat, IsWrittenOrder, Asked as AskedSpec};
ghost use Rattle.lnt_words.specs.declared.request.Judging.{Judging as JudgingSpec};
ghost use Rattle.lnt_words.specs.declared.request.Request.{Request as RequestSpec};

use crate::command::command_of;
use crate::request::{
    AddressSize, Asked, FileQuestion, Judging, Question, Reading, Request, Upgrading,
};
use crate::stop::WordsStop;
use clap::error::ErrorKind;
use clap::{ArgMatches, Error};
use lnt_spans::{Position, Version};
use lnt_text::{Argument, Shown, address, decimal, percentage};
use lnt_wire::{Format, Order};
use std::alloc::{AllocError, Global};

/// What the words ask for. The first word is the program's own name.
///
/// Stops with `Usage` if they aren't a valid request, and then says how the command is used; with `BadWord` if one of them
/// isn't valid for its argument; and with `Memory`. With the first two it stops only if the words ask for nothing
/// (`AskForNothing`). The result names files by the words themselves.
///
/// The result is what the words ask for (`IsAskedBy`): which subcommand they name, and the value of each of its arguments,
/// follows from the words and from the command that `linetab` describes. It is a text of help only if the words ask for help
/// or for the version. That text doesn't begin with `yes`.
pub fn request_of<'a>(alloc: Global, words: &'a [String]) -> Result<Asked<'a>, WordsStop>
    ensures asked { IfOk result (IsAskedBy (map string_bytes words.entry.now)) }
    ensures refused { IfErr result (λ stop. (stop ≢ WordsStop.Memory) → AskForNothing (map string_bytes words.entry.now)) }
{
    match command_of(alloc, false)?.try_get_matches_from(words) {
        Ok(matches) => asked_in(alloc, &matches, words),
        Err(error) => help_in(alloc, &error, words),
    }
}

// What clap says if it finds no matches: help, the version, or how the command is used.
fn help_in<'a>(alloc: Global, error: &Error, given: &[String]) -> Result<Asked<'a>, WordsStop>
    ensures asked { IfOk result (λ asked. IsHelp asked.request
        × ((kind_of error.now ≡ ErrorKind.DisplayHelp) ⊎ (kind_of error.now ≡ ErrorKind.DisplayVersion))) }
    ensures refused { IfErr result (λ stop. (stop ≢ WordsStop.Memory) → (kind_of error.now ≢ ErrorKind.OutOfMemory)
        × (kind_of error.now ≢ ErrorKind.DisplayHelp) × (kind_of error.now ≢ ErrorKind.DisplayVersion)) }
{
    match error.kind() {
        ErrorKind::OutOfMemory => Err(WordsStop::Memory),
        ErrorKind::DisplayHelp | ErrorKind::DisplayVersion => Ok(Asked {
            request: Request::Help(help_text(alloc, error)?),
            quiet: true,
        }),
        _ => Err(refusal(alloc, given)),
    }
}

// The text of help or of the version. No contract of clap says it. Whatever it is, it doesn't begin as the answer `yes` does.
fn help_text(alloc: Global, error: &Error) -> Result<String, AllocError>
    ensures { IfOk result (λ text. IsNoYes (string_bytes text)) }
{
    let text = error.to_string(alloc)?;
    if begins_with_y(text.as_bytes()) {
        return format!(in alloc; "help: {text}");
    }
    Ok(text)
}

// Whether the bytes begin with the letter y.
fn begins_with_y(bytes: &[u8]) -> bool
    ensures { result ≡ false → IsNoYes bytes.now }
{
    if bytes.is_empty() {
        return false;
    }
    bytes[0] == b'y'
}

// What clap says of rejected words. Its texts on arguments that exclude one another come from the command in which they do.
fn refusal(alloc: Global, given: &[String]) -> WordsStop {
    refusal_text(alloc, given).map_or(WordsStop::Memory, WordsStop::Usage)
}

fn refusal_text(alloc: Global, given: &[String]) -> Result<String, AllocError> {
    match command_of(alloc, true)?.try_get_matches_from(given) {
        Ok(_matches) => String::from_str(alloc, "error: these arguments exclude one another\n"),
        Err(error) if error.kind() == ErrorKind::OutOfMemory => Err(AllocError),
        Err(error) => harmless(alloc, &error.to_string(alloc)?),
    }
}

// The text with the digits of each control character instead of it, since a terminal would obey it. Line feeds stay.
fn harmless(alloc: Global, text: &str) -> Result<String, AllocError> {
    let mut shown = String::new(alloc);
    for character in text.chars() {
        if character.is_control() && character != '\n' {
            write!(shown, "\\x{:02x}", u32::from(character))?;
        } else {
            shown.push(character)?;
        }
    }
    Ok(shown)
}

// What the words of a subcommand ask for.
fn asked_in<'a>(
    alloc: Global,
    matches: &ArgMatches<'a>,
    given: &[String],
) -> Result<Asked<'a>, WordsStop>
    ensures asked { IfOk result (IsAskedOfMatches matches.now) }
    ensures refused { IfErr result (λ stop. (stop ≢ WordsStop.Memory)
        → (asked : AskedSpec) → IsAskedOf (subcommand_rows_of matches.now) asked → ⊥) }
{
    let Some((name, words)) = matches.subcommand() else {
        return Err(usage(alloc, "no word for", "SUBCOMMAND"));
    };
    Ok(Asked {
        request: request_in(alloc, name, words, given)?,
        quiet: flag_in(words, "quiet"),
    })
}

fn request_in<'a>(
    alloc: Global,
    name: &str,
    words: &ArgMatches<'a>,
    given: &[String],
) -> Result<Request<'a>, WordsStop>
    ensures asked { IfOk result (λ request. IsAskedIn name.now (rows_in words.now) request) }
    ensures refused { IfErr result (λ stop. (stop ≢ WordsStop.Memory)
        → (request : RequestSpec) → IsAskedIn name.now (rows_in words.now) request → ⊥) }
{
    match name {
        "units" => read_in(alloc, words, Reading::Units),
        "dump" => {
            let (ops, rows) = (flag_in(words, "ops"), flag_in(words, "rows"));
            read_in(alloc, words, Reading::Dump { ops, rows })
        }
        "convert" => convert_in(alloc, words),
        "upgrade" => upgrade_in(alloc, words),
        "symbols" => symbols_in(alloc, words),
        "check" => check_in(alloc, words, given),
        "lookup" => lookup_in(alloc, words, given),
        "verify" => judge_in(alloc, words, Question::Verify),
        "files" => judge_in(alloc, words, Question::Files),
        "table" => judge_in(alloc, words, table_in(alloc, words, given)?),
        "md5" => judge_in(alloc, words, Question::Md5),
        _ => Err(usage(alloc, "unknown subcommand", name)),
    }
}

// What the words of `check` ask for. Ends are those of all positions, and a percentage is that of a part.
fn check_in<'a>(
    alloc: Global,
    words: &ArgMatches<'a>,
    given: &[String],
) -> Result<Request<'a>, WordsStop>
    ensures { IsFound (IsAskedIn (codes "check") (rows_in words.now)) result }
{
    let (all, ends) = (flag_in(words, "all"), flag_in(words, "ends"));
    let (partial, percentage) = (flag_in(words, "partial"), str_in(words, "at-least"));
    if (ends && !all) || (percentage.is_some() && !partial) {
        return Err(refusal(alloc, given));
    }
    Ok(Request::JudgeWith {
        from: judging_in(alloc, words)?,
        file: word_in(alloc, words, "TABLE")?,
        question: FileQuestion::Check {
            all,
            ends,
            partial,
            at_least: percentage_of(alloc, words, percentage)?,
            any_copy: flag_in(words, "any-copy"),
        },
    })
}

// The percentage in a word, if there is one, or 0.
fn percentage_of(
    alloc: Global,
    words: &ArgMatches<'_>,
    word: Option<&str>,
) -> Result<u64, WordsStop>
    ensures { IsFound (IsPercentageIn (option_copied word.entry)) result }
{
    let Some(word) = word else {
        return Ok(0);
    };
    match percentage(word.as_bytes()) {
        Some(percentage) => Ok(percentage),
        None => Err(bad_word(alloc, words, word, Argument::AtLeast)),
    }
}

fn read_in<'a>(
    alloc: Global,
    words: &ArgMatches<'a>,
    reading: Reading,
) -> Result<Request<'a>, WordsStop>
    ensures asked { IfOk result (λ request. (name : List ℕ) → IsReading name (rows_in words.now) reading
        → IsAskedIn name (rows_in words.now) request) }
    ensures refused { IfErr result (λ _. (word : List ℕ) → IsWord (rows_in words.now) (codes "SECTION") word → ⊥) }
{
    Ok(Request::Read {
        section: word_in(alloc, words, "SECTION")?,
        order: order_in(words),
        reading,
    })
}

fn judge_in<'a>(
    alloc: Global,
    words: &ArgMatches<'a>,
    question: Question,
) -> Result<Request<'a>, WordsStop>
    ensures asked { IfOk result (λ request. (name : List ℕ) → IsQuestion name (rows_in words.now) question
        → IsAskedIn name (rows_in words.now) request) }
    ensures refused { IfErr result (λ _. (from : JudgingSpec) → IsJudging (rows_in words.now) from → ⊥) }
{
    Ok(Request::Judge {
        from: judging_in(alloc, words)?,
        question,
    })
}

// What the words of `lookup` ask for: the addresses are words, or are in a file. The addresses are parsed first, in their
// order, and then the operation index: so the first bad word is reported.
fn lookup_in<'a>(
    alloc: Global,
    words: &ArgMatches<'a>,
    given: &[String],
) -> Result<Request<'a>, WordsStop>
    ensures asked { IfOk result (λ request. IsAskedIn (codes "lookup") (rows_in words.now) request) }
    ensures refused { IfErr result (λ stop. (stop ≢ WordsStop.Memory)
        → (request : RequestSpec) → IsAskedIn (codes "lookup") (rows_in words.now) request → ⊥) }
{
    match (strs_in(words, "ADDRESS"), str_in(words, "addresses")) {
        (Some(addresses), None) => {
            let addresses = addresses_of(alloc, words, addresses)?;
            let op = op_in(alloc, words)?;
            let positions = positions_at(alloc, &addresses, op)?;
            judge_in(alloc, words, Question::Lookup(positions))
        }
        (None, Some(file)) => {
            let question = FileQuestion::Lines(op_in(alloc, words)?);
            let from = judging_in(alloc, words)?;
            Ok(Request::JudgeWith {
                from,
                file,
                question,
            })
        }
        (Some(_), Some(_)) | (None, None) => Err(refusal(alloc, given)),
    }
}

// The addresses in these words, in their order.
fn addresses_of(
    alloc: Global,
    words: &ArgMatches<'_>,
    given: &[&str],
) -> Result<Vec<u64>, WordsStop>
    ensures asked { IfOk result (λ addresses. AreAddresses (map (λ word. word.now) given.now) addresses.items) }
    ensures refused { IfErr result (λ stop. (stop ≢ WordsStop.Memory)
        → (addresses : List ℕ) → AreAddresses (map (λ word. word.now) given.now) addresses → ⊥) }
{
    let mut addresses = Vec::new(alloc);
    for word in given {
        let address = address_of(alloc, words, word, Argument::Address)?;
        if addresses.push(address).is_err() {
            return Err(WordsStop::Memory);
        }
    }
    Ok(addresses)
}

// A position at each of the addresses, in their order, with this operation index.
fn positions_at(alloc: Global, addresses: &[u64], op: u64) -> Result<Vec<Position>, AllocError>
    ensures { IfOk result (λ positions. (rows : List Row) → AreAddressesIn rows addresses.now → IsOp rows op
        → ArePositionsIn rows positions.items) }
{
    let mut positions = Vec::new(alloc);
    for address in addresses {
        positions.push(Position {
            address: *address,
            op,
        })?;
    }
    Ok(positions)
}

// The operation index that the words give, or 0.
fn op_in(alloc: Global, words: &ArgMatches<'_>) -> Result<u64, WordsStop>
    ensures { IsFound (IsOp (rows_in words.now)) result }
{
    let Some(word) = str_in(words, "op") else {
        return Ok(0);
    };
    match decimal(word.as_bytes()) {
        Some(op) => Ok(op),
        None => Err(bad_word(alloc, words, word, Argument::Op)),
    }
}

// Which table is asked for: at most one of the three flags may be given.
fn table_in(alloc: Global, words: &ArgMatches<'_>, given: &[String]) -> Result<Question, WordsStop>
    ensures { IsFound (IsQuestion (codes "table") (rows_in words.now)) result }
{
    let wide = flag_in(words, "wide");
    let paths = flag_in(words, "paths");
    let lines = flag_in(words, "lines");
    match (wide, paths, lines) {
        (false, false, false) => Ok(Question::Table(Version::One)),
        (true, false, false) => Ok(Question::Table(Version::Two)),
        (false, true, false) => Ok(Question::TableByPath { columns: true }),
        (false, false, true) => Ok(Question::TableByPath { columns: false }),
        (true, true, _) | (true, false, true) | (false, true, true) => Err(refusal(alloc, given)),
    }
}

fn convert_in<'a>(alloc: Global, words: &ArgMatches<'a>) -> Result<Request<'a>, WordsStop>
    ensures { IsFound (IsAskedIn (codes "convert") (rows_in words.now)) result }
{
    let format = format_in(alloc, words)?;
    let to = written_order_in(alloc, words)?;
    read_in(alloc, words, Reading::Convert { format, to })
}

fn format_in(alloc: Global, words: &ArgMatches<'_>) -> Result<Format, WordsStop>
    ensures { IsFound (IsWrittenFormat (rows_in words.now)) result }
{
    match word_in(alloc, words, "format")? {
        "32" => Ok(Format::D32),
        "64" => Ok(Format::D64),
        word => Err(bad_word(alloc, words, word, Argument::Format)),
    }
}

fn written_order_in(alloc: Global, words: &ArgMatches<'_>) -> Result<Order, WordsStop>
    ensures { IsFound (IsWrittenOrder (rows_in words.now)) result }
{
    match word_in(alloc, words, "order")? {
        "little" => Ok(Order::Little),
        "big" => Ok(Order::Big),
        word => Err(bad_word(alloc, words, word, Argument::Order)),
    }
}

fn upgrade_in<'a>(alloc: Global, words: &ArgMatches<'a>) -> Result<Request<'a>, WordsStop>
    ensures { IsFound (IsAskedIn (codes "upgrade") (rows_in words.now)) result }
{
    Ok(Request::Upgrade(Upgrading {
        section: word_in(alloc, words, "SECTION")?,
        order: order_in(words),
        address_size: size_in(alloc, words)?,
        directories: str_in(words, "directories"),
    }))
}

fn size_in(alloc: Global, words: &ArgMatches<'_>) -> Result<AddressSize, WordsStop>
    ensures { IsFound (IsSize (rows_in words.now)) result }
{
    match word_in(alloc, words, "address-size")? {
        "2" => Ok(AddressSize::Two),
        "4" => Ok(AddressSize::Four),
        "8" => Ok(AddressSize::Eight),
        word => Err(bad_word(alloc, words, word, Argument::AddressSize)),
    }
}

fn symbols_in<'a>(alloc: Global, words: &ArgMatches<'a>) -> Result<Request<'a>, WordsStop>
    ensures { IsFound (IsAskedIn (codes "symbols") (rows_in words.now)) result }
{
    Ok(Request::Symbols {
        file: word_in(alloc, words, "FILE")?,
        base: base_in(alloc, words)?,
    })
}

// The base that the words give, or 0.
fn base_in(alloc: Global, words: &ArgMatches<'_>) -> Result<u64, WordsStop>
    ensures { IsFound (IsBase (rows_in words.now)) result }
{
    match str_in(words, "base") {
        Some(word) => address_of(alloc, words, word, Argument::Base),
        None => Ok(0),
    }
}

// A section that is judged, with its strings, the address of dead code, and whether copies are skipped.
fn judging_in<'a>(alloc: Global, words: &ArgMatches<'a>) -> Result<Judging<'a>, WordsStop>
    ensures { IsFound (IsJudging (rows_in words.now)) result }
{
    let dead = match str_in(words, "dead") {
        Some(word) => Some(address_of(alloc, words, word, Argument::Dead)?),
        None => None,
    };
    Ok(Judging {
        section: word_in(alloc, words, "SECTION")?,
        line_strings: str_in(words, "line-str"),
        strings: str_in(words, "str"),
        order: order_in(words),
        dead,
        skip_copies: flag_in(words, "skip-copies"),
    })
}

// The word of a required argument.
fn word_in<'a>(alloc: Global, words: &ArgMatches<'a>, name: &str) -> Result<&'a str, WordsStop>
    ensures asked { IfOk result (λ word. IsWord (rows_in words.now) name.now word.now) }
    ensures refused { IfErr result (λ _. (word : List ℕ) → IsWord (rows_in words.now) name.now word → ⊥) }
{
    match str_in(words, name) {
        Some(word) => Ok(word),
        None => Err(usage(alloc, "no word for", name)),
    }
}

// The word that was given for an argument, if one was.
fn str_in<'a>(words: &ArgMatches<'a>, name: &str) -> Option<&'a str>
    ensures { option_map (λ word. word.now) result ≡ first_of name.now (rows_in words.now) }
{
    words.get_str(name)
}

// The words that were given for an argument that takes several, if any were.
fn strs_in<'w, 'a>(words: &'w ArgMatches<'a>, name: &str) -> Option<&'w [&'a str]>
    ensures { option_map (λ given. map (λ word. word.now) given.now) result ≡ all_of name.now (rows_in words.now) }
{
    words.get_strs(name)
}

fn flag_in(words: &ArgMatches<'_>, name: &str) -> bool
    ensures { IsFlagGiven (rows_in words.now) name.now result }
{
    matches!(str_in(words, name), Some("true"))
}

fn order_in(words: &ArgMatches<'_>) -> Order
    ensures { IsOrder (rows_in words.now) result }
{
    if flag_in(words, "big") {
        Order::Big
    } else {
        Order::Little
    }
}

fn address_of(
    alloc: Global,
    words: &ArgMatches<'_>,
    word: &str,
    argument: Argument,
) -> Result<u64, WordsStop>
    ensures { IsFound (IsAddress word.now) result }
{
    match address(word.as_bytes()) {
        Some(address) => Ok(address),
        None => Err(bad_word(alloc, words, word, argument)),
    }
}

// What is printed if a word is missing or unknown. Clap rejects such words, by the description of the command.
fn usage(alloc: Global, what: &str, name: &str) -> WordsStop {
    let text = format!(in alloc; "linetab: {what} {}\n", Shown(name));
    text.map_or(WordsStop::Memory, WordsStop::Usage)
}

// A word isn't valid for this argument.
fn bad_word(alloc: Global, words: &ArgMatches<'_>, word: &str, argument: Argument) -> WordsStop {
    match format!(in alloc; "linetab: bad word {}\n", Shown(word)) {
        Ok(text) => WordsStop::BadWord {
            text,
            argument,
            quiet: flag_in(words, "quiet"),
        },
        Err(_) => WordsStop::Memory,
    }
}
