//! The files of a header, kept without its bytes.
ghost use Rattle.std.specs.Prelude.{◌≡◌, ◌<◌, [], IfOk, length, slice_get, option_map, option_and_then, option_copied};
ghost use Rattle.lnt_files.specs.Files.{AreFilesOf, kept_path, kept_sum, EndAt, kept_files};
ghost use Rattle.lnt_files.specs.Stepping.{start_of, KeepsFiles};
ghost use Rattle.lnt_files.specs.Tables.{AreUsableTables};

use crate::paths::add_path;
use crate::walk::Entries;
use lnt_header_bytes::HeaderView;
use lnt_wire::Strings;
use std::alloc::{AllocError, Global};
use std::marker::Model;

// Room for the paths of most headers, so that it seldom grows while they are appended.
const ROOM: usize = 1024;

// The end of the file's path, and the MD5 sum that is listed for it.
#[derive(Clone, Copy, Debug)]
pub(crate) struct PathEnd {
    end: usize,
    listed: Option<[u8; 16]>,
}

/// The full paths and the listed MD5 sums of a header's files (DWARF 5, section 6.2.4.1), which outlive the header and the
/// string sections. Contracts see a list, with a path and a sum for each file. Files count from 0.
#[derive(Debug, Drop)]
pub struct Files {
    // The paths, one after the other.
    paths: Vec<u8>,
    kept: Vec<PathEnd>,
}

impl Model for Files {
    ghost use Rattle.std.specs.Prelude.{List, length};
    ghost use Rattle.lnt_files.specs.Files.{KeptFile, EndAt, kept_files};

    ghost Value = { List KeptFile };

    ghost view = { λ files. kept_files files.paths.items 0 files.kept.items };

    ghost invariant = { λ files. EndAt (length files.paths.items) 0 files.kept.items };
}

impl Files {
    /// The files of the header. The caller ensures that its tables are usable, which `tables_fault` checks. Fails only if
    /// memory runs out. All paths are in one block of bytes.
    pub fn of<'s>(
        alloc: Global,
        header: &'s HeaderView<'s>,
        strings: Strings<'s>,
    ) -> Result<Files, AllocError>
        requires { AreUsableTables strings.line.now strings.general.now header.now }
        ensures { IfOk result (λ files. AreFilesOf strings.entry.line.now strings.entry.general.now header.entry.now files) }
    {
        let mut paths = Vec::with_capacity(alloc, ROOM)?;
        match ends_of(alloc, &mut paths, header, strings) {
            Ok(kept) => {
                paths.shrink_to_fit();
                Ok(Files { paths, kept })
            }
            Err(error) => {
                drop(paths);
                Err(error)
            }
        }
    }

    /// The number of files.
    #[tactic(auto, using(crate::proofs::KeptLemmas::kept_length))]
    pub fn count(&self) -> u64
        ensures { result ≡ length self.now }
    {
        self.kept.len() as u64
    }

    /// The full path of the file, as `in_place::path_of` returns it. `None` if and only if there is no such file.
    pub fn path(&self, file: u64) -> Option<&[u8]>
        ensures { option_map (λ path. path.now) result ≡ kept_path self.now file }
    {
        path_at(&self.paths, &self.kept, file)
    }

    /// The MD5 sum that is listed for the file, as `in_place::listed` returns it. `None` if it lists none, or if there is
    /// no such file.
    #[tactic(auto, using(crate::proofs::KeptLemmas::kept_sum_is))]
    pub fn listed(&self, file: u64) -> Option<[u8; 16]>
        ensures { result ≡ kept_sum self.now file }
    {
        sum_at(&self.kept, file)
    }
}

// Appends the full paths of the header's files to `paths`, which is empty at first, and returns their ends with the sums.
#[tactic(auto, using(crate::proofs::KeptLemmas::keeps_begun, crate::proofs::KeptLemmas::never_ends, crate::proofs::KeptLemmas::all_kept))]
fn ends_of<'s>(
    alloc: Global,
    paths: &mut Vec<u8>,
    header: &'s HeaderView<'s>,
    strings: Strings<'s>,
) -> Result<Vec<PathEnd>, AllocError>
    requires usable { AreUsableTables strings.line.now strings.general.now header.now }
    requires empty { paths.old.items ≡ [] }
    ensures { IfOk result (λ kept. KeepsFiles strings.entry.line.now strings.entry.general.now header.entry.now header.entry.now.files
        paths.new.items kept.items) }
{
    let files = header.files();
    let count = files.count();
    let mut entries = Entries::of(files);
    let mut kept = Vec::with_capacity(alloc, count as usize)?;
    for _ in 0..count {
        let Some(file) = entries.next_entry() else {
            unreachable!()
        };
        add_path(paths, header, strings, &file)?;
        kept.push(PathEnd {
            end: paths.len(),
            listed: file.listed(),
        })?;
    }
    Ok(kept)
}

fn kept_at(kept: &[PathEnd], file: u64) -> Option<&PathEnd>
    ensures { option_copied result ≡ slice_get kept.now file }
{
    kept.get(file as usize)
}

fn sum_at(kept: &[PathEnd], file: u64) -> Option<[u8; 16]>
    ensures { result ≡ option_and_then (λ file. file.listed) (slice_get kept.now file) }
{
    kept_at(kept, file)?.listed
}

#[tactic(auto, using(crate::proofs::KeptLemmas::path_is, crate::proofs::KeptLemmas::no_path_is, crate::proofs::KeptLemmas::within))]
fn path_at<'f>(paths: &'f [u8], kept: &[PathEnd], file: u64) -> Option<&'f [u8]>
    requires { EndAt (length paths.now) 0 kept.now }
    ensures { option_map (λ path. path.now) result ≡ kept_path (kept_files paths.now 0 kept.now) file }
{
    let end = kept_at(kept, file)?.end;
    let start = start_of(kept, file as usize);
    let (prefix, _) = paths.split_at(end);
    let (_, path) = prefix.split_at(start);
    Some(path)
}

// The index at which the path of the file begins.
#[tactic(auto, using(crate::proofs::KeptLemmas::start_is_end))]
fn start_of(kept: &[PathEnd], index: usize) -> usize
    requires { index < length kept.now }
    ensures { result ≡ start_of 0 kept.now index }
{
    if index == 0 {
        return 0;
    }
    kept[index - 1].end
}
