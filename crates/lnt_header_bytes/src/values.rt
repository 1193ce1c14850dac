//! The values of an entry (DWARF 5, section 6.2.4.1), read one after another, and what is kept of them.
ghost use Rattle.std.specs.Prelude.{[], IfErr, OnOk};
ghost use Rattle.lnt_wire.specs.FormBytes.{ValueBytes};
ghost use Rattle.lnt_wire.specs.FormFaults.{IsValueFault};
ghost use Rattle.lnt_wire.specs.Reading.{Refuses, RefusesField};
ghost use Rattle.lnt_header_bytes.specs.Stepping.{KeepsNext, KeepsEntry};
ghost use Rattle.lnt_header_bytes.specs.TableBytes.{EntryBytes};
ghost use Rattle.lnt_header_bytes.specs.TableFaults.{IsEntryFault};

use lnt_header::Pair;
use lnt_wire::{Cursor, Fault, Form, Format, ValueView};

/// Keeps something of the values of an entry. Contracts see by `has_kept` whether what is kept is what it should be of some values.
pub trait KeepsValues<'a> {
    ghost use Rattle.std.specs.Prelude.{◌≡◌, ◌++◌, ◌∷◌, List, [], length};
    ghost use Rattle.lnt_wire.specs.Borrowed.{value_of};
    ghost use Rattle.lnt_wire.specs.declared.form.FormValue.{FormValue};

    /// What is kept.
    type Kept;

    ghost has_kept: { Self → Self.Kept → List FormValue → Type 0 };

    /// Keeps what it needs of the next value, the one with this index in the entry.
    fn keep(&self, kept: &mut Self::Kept, index: usize, value: ValueView<'a>)
        ensures { (values : List FormValue) → length values ≡ index → has_kept self.now kept.old values
            → has_kept self.now kept.new (values ++ value_of value.entry ∷ []) };
}

// Nothing is kept.
impl<'a> KeepsValues<'a> for () {
    type Kept = ();

    ghost has_kept = { λ _ _ _. Unit {0} };

    #[inline(always)]
    fn keep(&self, _kept: &mut (), _index: usize, _value: ValueView<'a>) {}
}

/// Moves the cursor past the next entry, and keeps in `kept`, which has nothing yet, what the keeper needs of its values. Fails
/// with the fault of the first invalid value; it is left open where the cursor is then, and what was kept. Allocates nothing.
#[inline(always)]
#[tactic(auto, using(crate::proofs::EntryValueLemmas::read_entry_lemmas))]
pub fn read_entry<'a, K: KeepsValues<'a>>(
    cursor: &mut Cursor<'a>,
    format: Format,
    pairs: &[Pair],
    keeper: &K,
    kept: &mut K::Kept,
) -> Result<(), Fault>
    requires { K.has_kept keeper.now kept.old [] }
    ensures ok { OnOk result (KeepsEntry format pairs.now (K.has_kept keeper.now kept.new) cursor.old cursor.new) }
    ensures err { IfErr result (λ fault. Refuses (IsEntryFault format cursor.old.order pairs.now)
        (EntryBytes format cursor.old.order pairs.now) cursor.old fault) }
{
    for (index, pair) in pairs.iter().enumerate() {
        read_value(cursor, format, pair.form, keeper, kept, index)?;
    }
    Ok(())
}

// Moves past the next value, the one with this index in its entry, and keeps what the keeper needs of it.
#[inline(always)]
fn read_value<'a, K: KeepsValues<'a>>(
    cursor: &mut Cursor<'a>,
    format: Format,
    form: Form,
    keeper: &K,
    kept: &mut K::Kept,
    index: usize,
) -> Result<(), Fault>
    ensures ok { OnOk result (KeepsNext format form index (K.has_kept keeper.now kept.old) (K.has_kept keeper.now kept.new)
        cursor.old cursor.new) }
    ensures err { IfErr result (λ fault.
        RefusesField (IsValueFault format cursor.old.order form) (ValueBytes format cursor.old.order form) cursor.old fault) }
{
    let value = cursor.value(form, format)?;
    keeper.keep(kept, index, value);
    Ok(())
}
