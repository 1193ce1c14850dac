//! The spans of a file, one after another.
ghost use Rattle.std.specs.Prelude.{◌≡◌, ◌&&◌, ◌+◌, ◌<◌, ◌≤◌, ◌^◌, ℕ, true, false, not, List, [], ◌∷◌, None, length, nat_lt};
ghost use Rattle.std.specs.Prelude.{if◌then◌else◌, IfSome, MatchOption};
ghost use Rattle.lnt_gsym.specs.declared.line_table.Row as spec;
ghost use Rattle.lnt_gsym.specs.GsymInfos as infos;
ghost use Rattle.lnt_gsym.specs.GsymSpans.{end_of, more, row_span, tells};
ghost use Rattle.lnt_gsym.specs.GsymFiles.{Gsym};
ghost use Rattle.lnt_gsym.specs.Spanning.{FunctionsLeft, IsAbove, IsOpenedPart, IsPartOf, openings};
ghost use Rattle.lnt_gsym.specs.Walking.{AreLeft, GivesPart, IsFunction, count_left, named, next_start};

use crate::address::{earlier, later};
use crate::entries::Entries;
use crate::function::{Function, LastTable, function_at};
use crate::line_table::Row;
use crate::made::MadeRows;
use crate::names::Names;
use lnt_spans::{Answer, Position, Span, SpanSource};
use lnt_wire::Order;

/// The functions of a file without a fault, with the bytes of the file.
#[derive(Drop)]
pub struct Functions<'a> {
    pub(crate) order: Order,
    pub(crate) bytes: &'a [u8],
    pub(crate) entries: Entries<'a>,
}

// Where the first function begins that starts above another.
#[derive(Clone, Copy)]
struct Above {
    start: u128,
    next: u64,
}

// Rows of a function, how far addresses are covered with them, and whether the function has no others.
#[derive(Drop)]
struct Opened<'a> {
    covered: u64,
    is_over: bool,
    part: Part<'a>,
}

// Rows between two addresses.
#[derive(Drop)]
struct Part<'a> {
    low: u64,
    high: u64,
    rows: MadeRows<'a>,
}

/// A source of the spans of a file, in order. Only one row is kept at a time.
#[derive(Drop)]
pub struct GsymSpans<'f, 'a> {
    functions: Functions<'a>,
    names: &'f Names<'a>,
    above: Option<Above>,
    covered: u64,
    part: Part<'a>,
}

// The span of the next row between two addresses that has one.
fn next_in_part(rows: &mut MadeRows<'_>, low: u64, high: u64, names: &Names<'_>) -> Option<Span>
    ensures gives { (files : ℕ) (made : List spec.Row) → AreLeft files rows.old made
        → GivesPart (tells (named names.now)) files low high made rows.new result }
    ensures fewer { IfSome result (λ _. count_left rows.new < count_left rows.old) }
{
    loop {
        let row = match rows.take() {
            Some(row) => row,
            None => return None,
        };
        let end = rows.begins(high);
        let begin = later(low, row.address as u64);
        if has_span(begin, end, row, names) {
            return Some(span_of(begin, end, row));
        }
    }
}

// Whether a row has a span from one address up to another.
#[inline(always)]
fn has_span(low: u64, high: u64, row: Row, names: &Names<'_>) -> bool
    ensures { result ≡ (nat_lt low high && tells (named names.now) row) }
{
    low < high && names.tells(row)
}

// The span of a row.
#[inline(always)]
fn span_of(low: u64, high: u64, row: Row) -> Span
    ensures { result ≡ row_span low high row }
{
    Span {
        low: whole(low),
        high: whole(high),
        answer: Answer {
            unit: 0,
            file: u64::from(row.file),
            line: u64::from(row.line),
            column: 0,
            is_stmt: false,
            more: None,
        },
    }
}

// The position of a whole instruction.
#[inline(always)]
fn whole(address: u64) -> Position
    ensures { result ≡ record { address = address; op = 0 } }
{
    Position { address, op: 0 }
}

// Where a function with this start and size ends, at most at the end of a table; 0 if it holds nothing.
fn end_of(start: u128, size: u32) -> u64
    requires { start < 2 ^ 65 }
    ensures { result ≡ end_of start size }
{
    if size == 0 {
        return u64::MAX;
    }
    let end = start + u128::from(size);
    if end < 1 << 64 { end as u64 } else { 0 }
}

impl<'f, 'a> GsymSpans<'f, 'a> {
    ghost use Rattle.lnt_gsym.specs.GsymFiles.{Gsym};
    ghost use Rattle.lnt_gsym.specs.Spanning.{HasRead, SpansSo};

    /// The spans of a file with these functions and names.
    pub fn of(functions: Functions<'a>, names: &'f Names<'a>) -> GsymSpans<'f, 'a>
        ensures { (gsym : Gsym) → HasRead functions.entry names.now gsym
            → SpansSo (⟦<GsymSpans<'f, 'a> as SpanSource>⟧.to_come result) names.now gsym }
    {
        GsymSpans {
            functions,
            names,
            above: None,
            covered: 0,
            part: no_part(),
        }
    }
}

impl<'f, 'a> SpanSource for GsymSpans<'f, 'a> {
    ghost use Rattle.lnt_gsym.specs.Spanning.{AreToCome, count_to_come};

    ghost to_come = { AreToCome };

    ghost left = { count_to_come };

    #[inline(always)]
    #[tactic(auto, using(crate::proofs::SourceLemmas::none_moved, crate::proofs::SourceLemmas::one_moved, crate::proofs::SourceLemmas::moved_fewer, crate::proofs::SourceLemmas::one_given, crate::proofs::SourceLemmas::given_fewer, crate::proofs::SourceLemmas::all_given))]
    fn next_span(&mut self) -> Option<Span> {
        loop {
            let low = self.part.low;
            let high = self.part.high;
            let covered = self.covered;
            match next_in_part(&mut self.part.rows, low, high, self.names) {
                Some(span) => return Some(span),
                None => {}
            }
            match open_next(&mut self.functions, &mut self.above, covered) {
                Some(opened) => {
                    self.covered = opened.covered;
                    self.part = opened.part;
                }
                None => return None,
            }
        }
    }
}

// Opens the next rows of the next function, which is left if it has others after them. `None` if no function is left.
#[tactic(auto, using(crate::proofs::OpenLemmas::none_open, crate::proofs::OpenLemmas::never_open, crate::proofs::OpenLemmas::one_open, crate::proofs::OpenLemmas::fewer_openings, crate::proofs::OpenLemmas::more_covered))]
fn open_next<'a>(
    functions: &mut Functions<'a>,
    above: &mut Option<Above>,
    covered: u64,
) -> Option<Opened<'a>>
    ensures opens { (gsym : Gsym) (files : ℕ) (fs : List infos.Function) → FunctionsLeft files functions.old above.old fs
        → MatchOption result (fs ≡ []) (λ o. IsOpenedPart gsym files functions.new above.new covered o.covered o.part fs) }
    ensures fewer { IfSome result (λ o. openings o.covered functions.new.entries.starts < openings covered functions.old.entries.starts) }
    ensures bound { IfSome result (λ o. count_left o.part.rows ≤ 2 ^ 64) }
{
    let mut entries = functions.entries.fork();
    let (start, place) = match entries.take() {
        Some(entry) => entry,
        None => return None,
    };
    let next = next_above(&entries, above, start);
    let address = begin_of(covered, start);
    let function = match function_at(functions.order, functions.bytes, place, start, address) {
        Some(function) => function,
        None => return None,
    };
    let opened = part_of(function, covered, start, next);
    if opened.is_over {
        functions.entries = entries;
        return Some(opened);
    }
    Some(opened)
}

// The first address from a start on that isn't covered.
#[inline(always)]
fn begin_of(covered: u64, start: u128) -> u128
    ensures { result ≡ more covered start }
{
    let covered = u128::from(covered);
    if covered < start { start } else { covered }
}

// Where the first entry begins that starts above this address, at which the entry before these starts.
#[tactic(auto, using(crate::proofs::OpenLemmas::known_above))]
fn next_above(entries: &Entries<'_>, above: &mut Option<Above>, start: u128) -> u64
    ensures { (offset : ℕ) → start ≡ entries.now.base + offset → IsAbove entries.now.base (offset ∷ entries.now.starts) above.old
        → (result ≡ next_start entries.now.base start entries.now.starts) × IsAbove entries.now.base entries.now.starts above.new
        × IsAbove entries.now.base (offset ∷ entries.now.starts) above.new }
{
    if let Some(known) = *above {
        if known.start == start {
            return known.next;
        }
    }
    let next = entries.next_above(start);
    *above = Some(Above { start, next });
    next
}

// The rows of a function from the first address on that isn't covered. It starts at an address above which the next start is `next`.
#[tactic(auto, using(crate::proofs::OpenLemmas::part_empty, crate::proofs::OpenLemmas::part_nameless, crate::proofs::OpenLemmas::part_filled, crate::proofs::OpenLemmas::covers_more, crate::proofs::OpenLemmas::none_bound))]
fn part_of<'a>(function: Function<'a>, covered: u64, start: u128, next: u64) -> Opened<'a>
    requires start { start < 2 ^ 65 }
    requires bound { count_left function.last.rows ≤ 2 ^ 64 }
    ensures part { (gsym : Gsym) (files : ℕ) (f : infos.Function)
        → IsFunction files (more covered start) function.entry.size function.entry.name function.entry.last.gate function.entry.last.rows f
        → IsPartOf gsym files covered start next result f }
    ensures more { result.is_over ≡ false → covered < result.covered }
    ensures bound { count_left result.part.rows ≤ 2 ^ 64 }
{
    let high = earlier(end_of(start, function.size), next);
    if start >= u128::from(high) {
        return passed_over(covered);
    }
    let low = later(covered, start as u64);
    if low >= high {
        return passed_over(covered);
    }
    if function.name == 0 {
        return passed_over(high);
    }
    let LastTable { gate, rows } = function.last;
    let end = earlier(gate.until, high);
    Opened {
        covered: end,
        is_over: is_over(low, end, high),
        part: Part {
            low,
            high: end,
            rows: let_through(gate.passes, rows),
        },
    }
}

// Whether an address isn't between two others.
#[inline(always)]
fn is_over(low: u64, end: u64, high: u64) -> bool
    ensures { result ≡ not (nat_lt low end && nat_lt end high) }
{
    end <= low || high <= end
}

// These rows, or none.
#[tactic(auto, using(crate::proofs::OpenLemmas::no_rows, crate::proofs::OpenLemmas::none_bound))]
fn let_through<'a>(passes: bool, rows: MadeRows<'a>) -> MadeRows<'a>
    requires { count_left rows ≤ 2 ^ 64 }
    ensures left { (files : ℕ) (made : List spec.Row) → AreLeft files rows.entry made
        → AreLeft files result (if passes then made else []) }
    ensures bound { count_left result ≤ 2 ^ 64 }
{
    if passes {
        return rows;
    }
    MadeRows::none()
}

// No rows of a function.
fn passed_over<'a>(covered: u64) -> Opened<'a>
    ensures covered { result.covered ≡ covered }
    ensures over { result.is_over ≡ true }
    ensures none { result.part.rows.row ≡ None }
{
    Opened {
        covered,
        is_over: true,
        part: no_part(),
    }
}

// No rows.
fn no_part<'a>() -> Part<'a>
    ensures { result.rows.row ≡ None }
{
    Part {
        low: 0,
        high: 0,
        rows: MadeRows::none(),
    }
}
