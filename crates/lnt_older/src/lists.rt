//! The lists of directories and files of older units (DWARF 4, section 6.2.4).
ghost use Rattle.std.specs.Prelude.{◌↔◌, IfErr, IfOk, IsTrue};
ghost use Rattle.lnt_wire.specs.Reading.{Refuses};
ghost use Rattle.lnt_older.specs.Lists.{BeginsWithPath, IsListFault, PassesList};
ghost use Rattle.lnt_older.specs.OlderBytes.{BeginsEntry, ListBytes};

use lnt_header::Pair;
use lnt_header::content::{DIRECTORY_INDEX, PATH, SIZE, TIMESTAMP};
use lnt_header_bytes::{EntriesInPlace, read_entry};
use lnt_wire::{Cursor, Fault, Form, Format};

macro_rules! pair {
    ($content:expr, $form:ident) => {
        Pair {
            content: $content,
            form: Form::$form,
        }
    };
}

/// What a listed directory consists of: a path.
pub const DIRECTORY_PAIRS: [Pair; 1] = [pair!(PATH, Text)];

/// What a listed file consists of: a path, the number of its directory, a time and a size.
pub const FILE_PAIRS: [Pair; 4] = [
    pair!(PATH, Text),
    pair!(DIRECTORY_INDEX, Udata),
    pair!(TIMESTAMP, Udata),
    pair!(SIZE, Udata),
];

/// Moves past the entries of a list, up to the zero byte that ends it, and past that. The entries stay where they lie. It takes
/// no memory.
///
/// It refuses only where no such list begins the bytes that are left: with the fault of the first value of an entry that isn't
/// there, at that value; and with `Truncated` where the bytes end in place of the zero byte.
#[tactic(auto, using(crate::proofs::ListLemmas::list_walk, crate::proofs::ListFaultLemmas::list_faults))]
pub fn pass_listed<'a>(
    cursor: &mut Cursor<'a>,
    format: Format,
    pairs: &[Pair],
) -> Result<EntriesInPlace<'a>, Fault>
    requires { BeginsWithPath pairs.now }
    ensures ok { IfOk result (λ listed. PassesList format pairs.now listed.count listed.bytes.now cursor.old cursor.new) }
    ensures err { IfErr result (λ fault. Refuses (IsListFault format cursor.old.order pairs.now)
        (ListBytes format cursor.old.order pairs.now) cursor.old fault) }
{
    let all = cursor.rest();
    let mut count = 0;
    while is_listed(cursor) {
        read_entry(cursor, format, pairs, &(), &mut ())?;
        count += 1;
    }
    let (bytes, _) = all.split_at(all.len() - cursor.rest().len());
    cursor.u8()?;
    Ok(EntriesInPlace { count, bytes })
}

// Whether an entry comes next: a byte that isn't zero.
fn is_listed(cursor: &Cursor<'_>) -> bool
    ensures { IsTrue result ↔ BeginsEntry cursor.now.rest }
{
    cursor.rest().first().is_some_and(|byte| *byte != 0)
}
