//! Judges and reads a file.
ghost use Rattle.std.specs.Prelude.{◌≡◌, ◌+◌, ◌*◌, ◌^◌, ◌<◌, ◌≤◌, None, Some, length, MatchResult, true};
ghost use Rattle.lnt_gsym.specs.GsymFiles.{functions_of, gsym_of, is_address_size, numbers_of, order_of};
ghost use Rattle.lnt_gsym.specs.GsymFields.{fault_of};
ghost use Rattle.lnt_gsym.specs.Reading.{entry_fault};
ghost use Rattle.lnt_gsym.specs.Spanning.{IsReadOf, entries_said, names_said};

use crate::entries::Entries;
use crate::fault::GsymFault;
use crate::fields::{number_at, rest_after};
use crate::header::{Header, header_of};
use crate::info::judge_info;
use crate::names::Names;
use crate::spans::Functions;
use crate::tables::{Tables, cursor_at, offset_of, tables_of};
use lnt_wire::Order;

/// The first fault of a file with these bytes, whose numbers have this order.
#[tactic(auto, using(crate::proofs::JudgeLemmas::no_fault))]
pub fn judge(order: Order, bytes: &[u8]) -> Result<(), GsymFault>
    ensures { MatchResult result (λ _. fault_of (gsym_of order bytes.now) ≡ None)
        (λ fault. fault_of (gsym_of order bytes.now) ≡ Some fault) }
{
    match read_gsym(order, bytes) {
        Ok(_) => Ok(()),
        Err(fault) => Err(fault),
    }
}

/// The order of a file's numbers: that in which its first 4 bytes are the number 0x4753594d. `None` if it isn't a GSYM file.
pub fn order_of(bytes: &[u8]) -> Option<Order>
    ensures { result ≡ order_of bytes.now }
{
    if bytes.len() < 4 {
        return None;
    }
    if number_at(Order::Little, bytes, 0) == 0x4753594d {
        return Some(Order::Little);
    }
    if number_at(Order::Big, bytes, 0) == 0x4753594d {
        return Some(Order::Big);
    }
    None
}

/// The functions and the names of files of a file with these bytes, whose numbers have this order. Fails with its first fault.
#[tactic(auto, using(crate::proofs::JudgeLemmas::header_refused, crate::proofs::JudgeLemmas::tables_refused, crate::proofs::JudgeLemmas::functions_judged, crate::proofs::FileLemmas::read_whole))]
pub fn read_gsym<'a>(order: Order, bytes: &'a [u8]) -> Result<(Functions<'a>, Names<'a>), GsymFault>
    ensures { MatchResult result (λ read. IsReadOf order bytes.now read.0 read.1)
        (λ fault. fault_of (gsym_of order bytes.now) ≡ Some fault) }
{
    let header = header_of(order, bytes)?;
    let tables = tables_of(order, bytes, header)?;
    let entries = EntriesOf {
        order,
        address_size: header.address_size,
        base: header.base,
        files: tables.count,
    };
    match judge_entries(bytes, entries, header.count, tables.starts, tables.infos) {
        Ok(()) => Ok((
            functions_of(order, bytes, header, tables),
            names_of(order, bytes, header, tables),
        )),
        Err(fault) => Err(fault),
    }
}

// The functions of a file with this header and these tables.
fn functions_of<'a>(
    order: Order,
    bytes: &'a [u8],
    header: Header,
    tables: Tables<'a>,
) -> Functions<'a>
    requires size { is_address_size header.address_size ≡ true }
    requires starts { length tables.starts.now ≡ header.address_size * header.count }
    requires infos { length tables.infos.now ≡ 4 * header.count }
    ensures order { result.order ≡ order }
    ensures bytes { result.bytes.now ≡ bytes.entry.now }
    ensures entries { result.entries ≡ entries_said order header tables.entry }
{
    Functions {
        order,
        bytes,
        entries: Entries::of(
            order,
            header.address_size,
            header.base,
            header.count,
            tables.starts,
            tables.infos,
        ),
    }
}

// The names of files in a file with this header and these tables.
fn names_of<'a>(order: Order, bytes: &'a [u8], header: Header, tables: Tables<'a>) -> Names<'a>
    requires strings { header.strings_place + header.strings_size ≤ length bytes.now }
    requires files { length tables.files.now ≡ 8 * tables.count }
    ensures { result ≡ names_said order bytes.entry.now header tables.entry }
{
    let place = header.strings_place as usize;
    let rest = rest_after(bytes, place);
    let strings = &rest[..header.strings_size as usize];
    Names::of(order, strings, tables.files, tables.count)
}

// What the entries of a file have in common.
#[derive(Clone, Copy)]
struct EntriesOf {
    order: Order,
    address_size: u8,
    base: u64,
    files: u32,
}

// The first fault of these entries.
#[tactic(auto, using(crate::proofs::JudgeLemmas::no_entry_yet, crate::proofs::JudgeLemmas::entry_judged, crate::proofs::JudgeLemmas::entry_refused, crate::proofs::JudgeLemmas::entries_end, crate::proofs::TableLemmas::one_left))]
fn judge_entries(
    bytes: &[u8],
    of: EntriesOf,
    count: u32,
    starts: &[u8],
    infos: &[u8],
) -> Result<(), GsymFault>
    requires size { is_address_size of.address_size ≡ true }
    requires starts { length starts.now ≡ of.address_size * count }
    requires infos { length infos.now ≡ 4 * count }
    ensures { MatchResult result (λ _. fault_of (functions_of of.order bytes.now of.base of.files
        (numbers_of of.order of.address_size count starts.now) (numbers_of of.order 4 count infos.now)) ≡ None)
        (λ fault. fault_of (functions_of of.order bytes.now of.base of.files
        (numbers_of of.order of.address_size count starts.now) (numbers_of of.order 4 count infos.now)) ≡ Some fault) }
{
    let mut starts = starts;
    let mut infos = infos;
    let mut left = count;
    while left > 0 {
        match judge_entry(bytes, of, starts, infos) {
            Ok(()) => {}
            Err(fault) => return Err(fault),
        }
        let later_starts = rest_after(starts, of.address_size as usize);
        let later_infos = rest_after(infos, 4);
        starts = later_starts;
        infos = later_infos;
        left -= 1;
    }
    Ok(())
}

// The first fault of the info of the first of these entries.
#[tactic(auto, unfolding(crate::specs::Reading::entry_fault))]
fn judge_entry(bytes: &[u8], of: EntriesOf, starts: &[u8], infos: &[u8]) -> Result<(), GsymFault>
    requires size { is_address_size of.address_size ≡ true }
    requires starts { of.address_size ≤ length starts.now }
    requires infos { 4 ≤ length infos.now }
    ensures { MatchResult result (λ _. entry_fault of.order bytes.now of.base of.files of.address_size starts.now infos.now ≡ None)
        (λ fault. entry_fault of.order bytes.now of.base of.files of.address_size starts.now infos.now ≡ Some fault) }
{
    let offset = offset_of(of.order, of.address_size, starts);
    let place = number_at(of.order, infos, 0);
    let start = u128::from(of.base) + u128::from(offset);
    let mut cursor = cursor_at(of.order, bytes, u64::from(place));
    judge_info(&mut cursor, of.files, start)
}
