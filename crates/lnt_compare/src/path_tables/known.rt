//! Caches the paths of files.
ghost use Rattle.std.specs.Prelude.{◌≡◌, ◌≢◌, ℕ, List, IfOk, IfSome, OnOk, MatchBool};
ghost use Rattle.lnt_records.specs.KeptPaths.{AreTextsOf, AreTold, IsTextOf};
ghost use Rattle.lnt_records.specs.PathLines.{AreFieldsOf};

use lnt_records::{FileText, FileTexts, PathFields, Paths, ToldFiles};
use lnt_spans::Answer;
use std::alloc::{AllocError, Global};

// Whether the file that an answer names has this path, byte for byte. `told` has the results for some files; a file with the same path as
// one of them has its result. `known` has the paths of some files.
#[inline(always)]
pub(crate) fn has_told_path<P: Paths>(
    alloc: Global,
    paths: &P,
    known: &mut FileTexts,
    fields: &mut PathFields,
    told: &mut ToldFiles,
    answer: &Answer,
    path: &[u8],
) -> Result<bool, AllocError>
    requires known { AreTextsOf (P.bytes_of paths.now) known.old }
    requires fields { AreFieldsOf (P.bytes_of paths.now) fields.old }
    requires told { AreTold (P.bytes_of paths.now) path.now told.old.slots }
    ensures kept { OnOk result (AreTextsOf (P.bytes_of paths.now) known.new) }
    ensures fields { OnOk result (AreFieldsOf (P.bytes_of paths.now) fields.new) }
    ensures told { OnOk result (AreTold (P.bytes_of paths.now) path.now told.new.slots) }
    ensures same { IfOk result (λ same. MatchBool same (P.bytes_of paths.now answer.now.unit answer.now.file ≡ path.now)
        (P.bytes_of paths.now answer.now.unit answer.now.file ≢ path.now)) }
{
    if let Some(same) = told.recall(answer.unit, answer.file) {
        return Ok(same);
    }
    let same = has_path_as_told(alloc, paths, known, fields, told, answer, path)?;
    told.keep(answer.unit, answer.file, same);
    Ok(same)
}

// The same of a file that `told` has no result for.
fn has_path_as_told<P: Paths>(
    alloc: Global,
    paths: &P,
    known: &mut FileTexts,
    fields: &mut PathFields,
    told: &ToldFiles,
    answer: &Answer,
    path: &[u8],
) -> Result<bool, AllocError>
    requires known { AreTextsOf (P.bytes_of paths.now) known.old }
    requires fields { AreFieldsOf (P.bytes_of paths.now) fields.old }
    requires told { AreTold (P.bytes_of paths.now) path.now told.now.slots }
    ensures kept { OnOk result (AreTextsOf (P.bytes_of paths.now) known.new) }
    ensures fields { OnOk result (AreFieldsOf (P.bytes_of paths.now) fields.new) }
    ensures same { IfOk result (λ same. MatchBool same (P.bytes_of paths.now answer.now.unit answer.now.file ≡ path.now)
        (P.bytes_of paths.now answer.now.unit answer.now.file ≢ path.now)) }
{
    if let Some(same) = told_of_same(alloc, paths, fields, told, answer)? {
        return Ok(same);
    }
    has_path(alloc, paths, known, answer, path)
}

// Whether the file that an answer names has the path that these results are about, if that follows from one of them: the file has the
// same path as another that was asked for, or the other has the path and this one a different one.
fn told_of_same<P: Paths>(
    alloc: Global,
    paths: &P,
    fields: &mut PathFields,
    told: &ToldFiles,
    answer: &Answer,
) -> Result<Option<bool>, AllocError>
    requires { AreFieldsOf (P.bytes_of paths.now) fields.old }
    ensures kept { OnOk result (AreFieldsOf (P.bytes_of paths.now) fields.new) }
    ensures same { IfOk result (λ found. IfSome found (λ same. (path : List ℕ) → AreTold (P.bytes_of paths.now) path told.now.slots
        → MatchBool same (P.bytes_of paths.now answer.now.unit answer.now.file ≡ path)
        (P.bytes_of paths.now answer.now.unit answer.now.file ≢ path))) }
{
    let Some(other) = told.in_slot(answer.file) else {
        return Ok(None);
    };
    let named = Answer {
        unit: other.unit,
        file: other.file,
        ..*answer
    };
    if fields.same_path(alloc, paths, &named, answer)? {
        return Ok(Some(other.same));
    }
    if other.same {
        return Ok(Some(false));
    }
    Ok(None)
}

// Whether the file that an answer names has this path, byte for byte.
fn has_path<P: Paths>(
    alloc: Global,
    paths: &P,
    known: &mut FileTexts,
    answer: &Answer,
    path: &[u8],
) -> Result<bool, AllocError>
    requires { AreTextsOf (P.bytes_of paths.now) known.old }
    ensures kept { OnOk result (AreTextsOf (P.bytes_of paths.now) known.new) }
    ensures same { IfOk result (λ same. MatchBool same (P.bytes_of paths.now answer.now.unit answer.now.file ≡ path.now)
        (P.bytes_of paths.now answer.now.unit answer.now.file ≢ path.now)) }
{
    let text = match known.take(answer.unit, answer.file) {
        Some(text) => text,
        None => file_text_of(alloc, paths, answer)?,
    };
    let same = text.is_text(path);
    known.keep(text);
    Ok(same)
}

// The path of the file that an answer names.
fn file_text_of<P: Paths>(alloc: Global, paths: &P, answer: &Answer) -> Result<FileText, AllocError>
    ensures { IfOk result (λ made. (made.unit ≡ answer.now.unit) × (made.file ≡ answer.now.file)
        × IsTextOf (P.bytes_of paths.now) made) }
{
    let text = paths.path_of(alloc, answer.unit, answer.file)?;
    Ok(FileText {
        unit: answer.unit,
        file: answer.file,
        text,
    })
}
