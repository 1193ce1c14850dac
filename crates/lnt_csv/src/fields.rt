//! The fields of a record.
ghost use Rattle.std.specs.Prelude.{◌≡◌, ◌≢◌, ◌<◌, [], length, map, get_or, MatchBool};
ghost use Rattle.csv.specs.Records.{fields_of};

use csv::ByteRecord;

/// The field in column `i` of a record. The caller makes sure that the record has that column.
#[tactic(auto, using(crate::proofs::FieldLemmas::field_is, crate::proofs::FieldLemmas::field_there))]
pub fn field(row: &ByteRecord, i: usize) -> &[u8]
    requires { i < length (fields_of row.now) }
    ensures { result.now ≡ get_or (fields_of row.now) i [] }
{
    let Some(field) = row.get(i) else {
        unreachable!()
    };
    field
}

/// Whether the fields of a record are these.
pub fn has_fields(row: &ByteRecord, fields: &[&[u8]]) -> bool
    ensures { MatchBool result (fields_of row.now ≡ map (λ field. field.now) fields.now)
        (fields_of row.now ≢ map (λ field. field.now) fields.now) }
{
    if row.len() != fields.len() {
        return false;
    }
    for (i, one) in fields.iter().enumerate() {
        if field(row, i) != *one {
            return false;
        }
    }
    true
}
