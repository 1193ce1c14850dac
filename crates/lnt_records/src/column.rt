//! The fields of a record, by column.
ghost use Rattle.std.specs.Prelude.{◌≡◌, ◌+◌, ◌<◌, [], length, get_or, IfOk, IfErr, OnOk, MatchOption, Bool};
ghost use Rattle.csv.specs.Records.{fields_of};
ghost use Rattle.lnt_text.specs.Digits.{IsAddress, IsDecimal};
ghost use Rattle.lnt_records.specs.Progress.{AreSoundBefore, IsColumnFault, IsColumnOf};
ghost use Rattle.lnt_records.specs.Table.{IsFlag};
ghost use Rattle.lnt_records.specs.Table as table;

use crate::record::RecordFault;
use csv::ByteRecord;
use lnt_csv::field;

/// The columns of a table. Contracts see their kinds, `columns`; at run time there is nothing of them.
pub trait Columns {
    ghost use Rattle.std.specs.Prelude.{List};
    ghost use Rattle.lnt_records.specs.Table.{Kind};

    ghost columns: { List Kind };
}

/// The columns of a table by number.
pub enum ByNumber {}

impl Columns for ByNumber {
    ghost use Rattle.lnt_records.specs.Table.{kinds};

    ghost columns = { kinds };
}

/// Reads the address in column `i`. The caller makes sure that this is a column of addresses, that the record has it, and that
/// the fields before it are of their columns' kinds. So the fault, `Number`, names the first column whose field isn't of its kind.
#[tactic(auto, using(crate::proofs::ColumnLemmas::sound_address, crate::proofs::ColumnLemmas::no_address))]
pub fn address_at<C: Columns>(row: &ByteRecord, i: usize) -> Result<u64, RecordFault>
    requires there { i < length (fields_of row.now) }
    requires kind { IsColumnOf C.columns table.address i }
    requires before { AreSoundBefore C.columns (fields_of row.now) i }
    ensures ok { IfOk result (λ n. IsAddress (get_or (fields_of row.now) i []) n) }
    ensures after { OnOk result (AreSoundBefore C.columns (fields_of row.now) (i + 1)) }
    ensures err { IfErr result (λ fault. IsColumnFault C.columns (fields_of row.now) fault) }
{
    match lnt_text::address(field(row, i)) {
        Some(address) => Ok(address),
        None => Err(RecordFault::Number(i as u64)),
    }
}

/// Reads the decimal number in column `i`, as [`address_at`] reads an address.
#[tactic(auto, using(crate::proofs::ColumnLemmas::sound_decimal, crate::proofs::ColumnLemmas::no_decimal))]
pub fn decimal_at<C: Columns>(row: &ByteRecord, i: usize) -> Result<u64, RecordFault>
    requires there { i < length (fields_of row.now) }
    requires kind { IsColumnOf C.columns table.decimal i }
    requires before { AreSoundBefore C.columns (fields_of row.now) i }
    ensures ok { IfOk result (λ n. IsDecimal (get_or (fields_of row.now) i []) n) }
    ensures after { OnOk result (AreSoundBefore C.columns (fields_of row.now) (i + 1)) }
    ensures err { IfErr result (λ fault. IsColumnFault C.columns (fields_of row.now) fault) }
{
    match lnt_text::decimal(field(row, i)) {
        Some(number) => Ok(number),
        None => Err(RecordFault::Number(i as u64)),
    }
}

// Reads the flag in column `i`, as `address_at` reads an address.
#[tactic(auto, using(crate::proofs::ColumnLemmas::sound_flag, crate::proofs::ColumnLemmas::no_flag))]
pub(crate) fn flag_at<C: Columns>(row: &ByteRecord, i: usize) -> Result<bool, RecordFault>
    requires there { i < length (fields_of row.now) }
    requires kind { IsColumnOf C.columns table.flag i }
    requires before { AreSoundBefore C.columns (fields_of row.now) i }
    ensures ok { IfOk result (λ on. IsFlag (get_or (fields_of row.now) i []) on) }
    ensures after { OnOk result (AreSoundBefore C.columns (fields_of row.now) (i + 1)) }
    ensures err { IfErr result (λ fault. IsColumnFault C.columns (fields_of row.now) fault) }
{
    match flag(field(row, i)) {
        Some(on) => Ok(on),
        None => Err(RecordFault::Number(i as u64)),
    }
}

// Reads a field that is `0` or `1`.
fn flag(text: &[u8]) -> Option<bool>
    ensures { MatchOption result ((on : Bool) → IsFlag text.now on → ⊥) (λ on. IsFlag text.now on) }
{
    match text {
        [b'0'] => Some(false),
        [b'1'] => Some(true),
        _ => None,
    }
}
