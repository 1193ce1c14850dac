//! The pairs of a format by their content types (DWARF 5, sections 6.2.4.1 and 7.22).
ghost use Rattle.std.specs.Prelude.{◌≡◌, ◌==◌};
ghost use Rattle.lnt_files.specs.Contents.{place_of, form_at};

use lnt_header::Pair;
use lnt_wire::Form;

/// The first place of the content type in a format.
pub(crate) fn place_of(content: u64, pairs: &[Pair]) -> Option<usize>
    ensures { result ≡ place_of content pairs.now }
{
    pairs.iter().position(|pair| pair.content == content)
}

/// The form of the first component of the content type.
pub(crate) fn form_at(content: u64, pairs: &[Pair]) -> Option<Form>
    ensures { result ≡ form_at content pairs.now }
{
    let place = place_of(content, pairs)?;
    let pair = pairs.get(place)?;
    Some(pair.form)
}
