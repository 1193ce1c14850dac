//! Caches the paths of files as fields of a record, and which files have the same path.
ghost use Rattle.std.specs.Prelude.{◌≡◌, ◌≢◌, ℕ, List, IfOk, OnOk, MatchBool};
ghost use Rattle.lnt_records.specs.KeptPaths.{IsSummed, IsTextOf};
ghost use Rattle.lnt_records.specs.PathLines.{AreFieldsOf, path_field};

use crate::path_records::alike::{AlikeFiles, NamedFile};
use crate::path_records::field::field_of;
use crate::path_records::kept::{FileText, FileTexts};
use crate::path_records::paths::Paths;
use crate::path_records::summed::{SHORT, SummedFile, SummedFiles, sum_of};
use lnt_spans::Answer;
use std::alloc::{AllocError, Global};

// The number of fields kept in slots.
const FIELDS: u64 = 256;

// The number of bytes of the longest of these, so that all of them together take 2 MiB at most.
const LONGEST: usize = 8192;

/// The paths of files as fields, each with the comma after it, as far as they are kept; and which files have the same path, as far as
/// that is remembered.
#[derive(Drop)]
pub struct PathFields {
    texts: FileTexts,
    sums: SummedFiles,
    alike: AlikeFiles,
}

impl PathFields {
    /// Nothing is kept.
    pub fn new(alloc: Global) -> Result<PathFields, AllocError>
        ensures { IfOk result (λ fields. (path : ℕ → ℕ → List ℕ) → AreFieldsOf path fields) }
    {
        let texts = FileTexts::new(alloc, FIELDS, LONGEST)?;
        let sums = SummedFiles::empty(alloc);
        let alike = AlikeFiles::empty(alloc);
        Ok(PathFields { texts, sums, alike })
    }

    /// The path of the file that an answer names, as a field. It is taken out, if it is kept.
    #[inline(always)]
    pub fn take<P: Paths>(
        &mut self,
        alloc: Global,
        paths: &P,
        answer: &Answer,
    ) -> Result<FileText, AllocError>
        requires { AreFieldsOf (P.bytes_of paths.now) self.old }
        ensures kept { OnOk result (AreFieldsOf (P.bytes_of paths.now) self.new) }
        ensures field { IfOk result (λ field. IsTextOf (path_field (P.bytes_of paths.now)) field
            × (field.text.items ≡ path_field (P.bytes_of paths.now) answer.now.unit answer.now.file)) }
    {
        self.take_file(alloc, paths, answer.unit, answer.file)
    }

    // The path of a file as a field. It is taken out, if it is kept.
    #[inline(always)]
    fn take_file<P: Paths>(
        &mut self,
        alloc: Global,
        paths: &P,
        unit: u64,
        file: u64,
    ) -> Result<FileText, AllocError>
        requires { AreFieldsOf (P.bytes_of paths.now) self.old }
        ensures kept { OnOk result (AreFieldsOf (P.bytes_of paths.now) self.new) }
        ensures field { IfOk result (λ field. IsTextOf (path_field (P.bytes_of paths.now)) field
            × (field.text.items ≡ path_field (P.bytes_of paths.now) unit file)) }
    {
        if let Some(field) = self.texts.take(unit, file) {
            return Ok(field);
        }
        let text = field_of(alloc, paths, unit, file)?;
        Ok(FileText { unit, file, text })
    }

    /// Keeps a field that was taken.
    #[inline(always)]
    pub fn keep(&mut self, field: FileText)
        ensures { (path : ℕ → ℕ → List ℕ) → AreFieldsOf path self.old → IsTextOf (path_field path) field → AreFieldsOf path self.new }
    {
        self.texts.keep(field);
    }

    /// Whether two answers have the same path, byte for byte. Two units may name the same file by different numbers. Paths are made
    /// only if neither the numbers of the files nor the places of their texts tell, and if it isn't remembered.
    pub fn same_path<P: Paths>(
        &mut self,
        alloc: Global,
        paths: &P,
        one: &Answer,
        other: &Answer,
    ) -> Result<bool, AllocError>
        requires { AreFieldsOf (P.bytes_of paths.now) self.old }
        ensures kept { OnOk result (AreFieldsOf (P.bytes_of paths.now) self.new) }
        ensures same { IfOk result (λ same. MatchBool same (P.bytes_of paths.now one.now.unit one.now.file
            ≡ P.bytes_of paths.now other.now.unit other.now.file)
            (P.bytes_of paths.now one.now.unit one.now.file ≢ P.bytes_of paths.now other.now.unit other.now.file)) }
    {
        let (one, other) = (NamedFile::of(one), NamedFile::of(other));
        if one.is(other) {
            return Ok(true);
        }
        if let Some(same) = self.alike.recall(one, other) {
            return Ok(same);
        }
        if let Some(same) = self.sums.same(one, other) {
            return Ok(same);
        }
        self.alike.make_slots(alloc)?;
        let first = self.first_of(paths, one)?;
        let second = self.first_of(paths, other)?;
        let same = self.same_first(alloc, paths, first, second)?;
        self.alike.remember(one, other, same);
        Ok(same)
    }

    // A file with the same path, which stands for those with the same texts. What is known of that one is known of this file then.
    fn first_of<P: Paths>(&mut self, paths: &P, file: NamedFile) -> Result<NamedFile, AllocError>
        requires { AreFieldsOf (P.bytes_of paths.now) self.old }
        ensures kept { OnOk result (AreFieldsOf (P.bytes_of paths.now) self.new) }
        ensures same { IfOk result (λ first. P.bytes_of paths.now first.unit first.file ≡ P.bytes_of paths.now file.unit file.file) }
    {
        let first = self.alike.first_of(paths, file);
        if let Some(known) = self.sums.of_file(first) {
            self.sums.keep(SummedFile {
                file,
                sum: known.sum,
                first: known.first,
            })?;
        }
        Ok(first)
    }

    // Does the same for two files of which each stands for those with the same texts.
    fn same_first<P: Paths>(
        &mut self,
        alloc: Global,
        paths: &P,
        one: NamedFile,
        other: NamedFile,
    ) -> Result<bool, AllocError>
        requires { AreFieldsOf (P.bytes_of paths.now) self.old }
        ensures kept { OnOk result (AreFieldsOf (P.bytes_of paths.now) self.new) }
        ensures same { IfOk result (λ same. MatchBool same
            (P.bytes_of paths.now one.unit one.file ≡ P.bytes_of paths.now other.unit other.file)
            (P.bytes_of paths.now one.unit one.file ≢ P.bytes_of paths.now other.unit other.file)) }
    {
        if one.is(other) {
            return Ok(true);
        }
        if let Some(same) = self.alike.recall(one, other) {
            return Ok(same);
        }
        let same = self.same_field(alloc, paths, one, other)?;
        self.alike.remember(one, other, same);
        Ok(same)
    }

    // Does the same by their fields: by the bytes of short ones, and of long ones if their sums don't tell.
    fn same_field<P: Paths>(
        &mut self,
        alloc: Global,
        paths: &P,
        one: NamedFile,
        other: NamedFile,
    ) -> Result<bool, AllocError>
        requires { AreFieldsOf (P.bytes_of paths.now) self.old }
        ensures kept { OnOk result (AreFieldsOf (P.bytes_of paths.now) self.new) }
        ensures same { IfOk result (λ same. MatchBool same
            (P.bytes_of paths.now one.unit one.file ≡ P.bytes_of paths.now other.unit other.file)
            (P.bytes_of paths.now one.unit one.file ≢ P.bytes_of paths.now other.unit other.file)) }
    {
        let first = self.summed(alloc, paths, one)?;
        let second = self.summed(alloc, paths, other)?;
        if let Some(same) = first.is_same(second) {
            return Ok(same);
        }
        let field = self.take_file(alloc, paths, other.unit, other.file)?;
        let same = self.is_field(alloc, paths, one, &field.text)?;
        self.texts.keep(field);
        Ok(same)
    }

    // What is known of a file, which is kept if its field is long.
    fn summed<P: Paths>(
        &mut self,
        alloc: Global,
        paths: &P,
        file: NamedFile,
    ) -> Result<SummedFile, AllocError>
        requires { AreFieldsOf (P.bytes_of paths.now) self.old }
        ensures kept { OnOk result (AreFieldsOf (P.bytes_of paths.now) self.new) }
        ensures file { IfOk result (λ summed. (summed.file.unit ≡ file.unit) × (summed.file.file ≡ file.file)) }
        ensures summed { IfOk result (IsSummed (path_field (P.bytes_of paths.now))) }
    {
        if let Some(summed) = self.sums.of_file(file) {
            return Ok(summed);
        }
        let field = self.take_file(alloc, paths, file.unit, file.file)?;
        let sum = sum_of(&field.text);
        let first = self.first_with(alloc, paths, file, sum, &field.text)?;
        let summed = SummedFile { file, sum, first };
        if field.text.len() > SHORT {
            self.sums.keep(summed)?;
        }
        self.texts.keep(field);
        Ok(summed)
    }

    // The first file with the field of this one, which has this sum.
    fn first_with<P: Paths>(
        &mut self,
        alloc: Global,
        paths: &P,
        file: NamedFile,
        sum: u64,
        field: &[u8],
    ) -> Result<NamedFile, AllocError>
        requires kept { AreFieldsOf (P.bytes_of paths.now) self.old }
        requires field { field.now ≡ path_field (P.bytes_of paths.now) file.unit file.file }
        ensures kept { OnOk result (AreFieldsOf (P.bytes_of paths.now) self.new) }
        ensures same { IfOk result (λ first. path_field (P.bytes_of paths.now) first.unit first.file ≡ field.now) }
    {
        if let Some(first) = self.sums.with_sum(sum) {
            if self.is_field(alloc, paths, first, field)? {
                return Ok(first);
            }
        }
        Ok(file)
    }

    // Whether this is the field of a file.
    fn is_field<P: Paths>(
        &mut self,
        alloc: Global,
        paths: &P,
        file: NamedFile,
        field: &[u8],
    ) -> Result<bool, AllocError>
        requires { AreFieldsOf (P.bytes_of paths.now) self.old }
        ensures kept { OnOk result (AreFieldsOf (P.bytes_of paths.now) self.new) }
        ensures same { IfOk result (λ same. MatchBool same (path_field (P.bytes_of paths.now) file.unit file.file ≡ field.now)
            (path_field (P.bytes_of paths.now) file.unit file.file ≢ field.now)) }
    {
        let made = self.take_file(alloc, paths, file.unit, file.file)?;
        let same = made.is_text(field);
        self.texts.keep(made);
        Ok(same)
    }
}
