//! The bytes of a slice as a source.
ghost use Rattle.std.specs.Prelude.{◌≡◌};

use lnt_io::{ReadFault, Source};

// Gives the bytes of a slice, one block after another, and never fails.
#[derive(Drop)]
pub(crate) struct Bytes<'a> {
    rest: &'a [u8],
}

impl<'a> Bytes<'a> {
    // A source of these bytes.
    pub(crate) fn of(bytes: &'a [u8]) -> Bytes<'a>
        ensures { result.rest.now ≡ bytes.now }
    {
        Bytes { rest: bytes }
    }
}

impl Source for Bytes<'_> {
    ghost use Rattle.std.specs.Prelude.{Some, false, length};
    ghost use Rattle.lnt_ffi.specs.ByteSources.{is_never_too_long};

    ghost remaining = { λ s. Some s.rest.now };

    ghost failures = { λ _. 0 };

    ghost too_long = { λ _. false };

    ghost left = { λ s. length s.rest.now };

    ghost more = { λ s found. is_never_too_long found };

    fn pull(&mut self, buf: &mut [u8]) -> Result<usize, ReadFault> {
        let count = buf.len().min(self.rest.len());
        let (prefix, rest) = self.rest.split_at(count);
        buf[..count].copy_from_slice(prefix);
        self.rest = rest;
        Ok(count)
    }

    fn failures(&self) -> u64 {
        0
    }

    fn too_long(&self) -> bool {
        false
    }

    fn left(&self) -> u64 {
        self.rest.len() as u64
    }
}
