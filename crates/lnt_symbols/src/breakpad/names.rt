//! The names of files, by number.
ghost use Rattle.std.specs.Prelude.{◌≡◌, ◌==◌, ℕ, List, Some, if◌then◌else◌, IfOk, OnOk};
ghost use Rattle.std.specs.BTreeMap.{Updates, get};
ghost use Rattle.std.specs.Ordering.{nat_cmp};
ghost use Rattle.lnt_symbols.specs.Stepping.{AreInside, name_at, name_or, text_at};

use lnt_records::Paths;
use std::alloc::{AllocError, Global};
use std::collections::BTreeMap;

/// Where a text stands among others.
#[derive(Clone, Copy)]
pub(crate) struct Place {
    pub(crate) start: usize,
    pub(crate) length: usize,
}

/// The names of files, of each number the first one. They stand one after another.
#[derive(Drop)]
pub(crate) struct Names {
    pub(crate) texts: Vec<u8>,
    pub(crate) places: BTreeMap<u32, Place>,
}

impl Names {
    /// No name yet. It takes no memory.
    pub(crate) fn new(alloc: Global) -> Names
        ensures inside { AreInside result }
        ensures none { (number : ℕ) (rest : List ℕ) → name_or result number rest ≡ rest }
    {
        Names {
            texts: Vec::new(alloc),
            places: BTreeMap::new(alloc),
        }
    }

    /// Puts in a name, if there is none with its number.
    pub(crate) fn put_first(&mut self, number: u32, name: &[u8]) -> Result<(), AllocError>
        ensures inside { AreInside self.old → OnOk result (AreInside self.new) }
        ensures names { AreInside self.old → OnOk result ((other : ℕ) (rest : List ℕ) → name_or self.new other rest
            ≡ name_or self.old other (if number == other then name.now else rest)) }
    {
        let place = Place {
            start: self.texts.len(),
            length: name.len(),
        };
        // Mostly there is none, and so the tree is searched once. Else the first is put back.
        if let Some(first) = self.put(number, place)? {
            self.put(number, first)?;
            return Ok(());
        }
        self.texts.extend_from_slice(name)?;
        Ok(())
    }

    // Puts in a place in any case, and gives the one that was there.
    fn put(&mut self, number: u32, place: Place) -> Result<Option<Place>, AllocError>
        ensures texts { self.new.texts ≡ self.old.texts }
        ensures old { IfOk result (λ first. first ≡ get nat_cmp self.old.places number) }
        ensures updates { OnOk result (Updates nat_cmp self.old.places self.new.places number (Some place)) }
    {
        match self.places.insert(number, place) {
            Ok(first) => Ok(first),
            Err(_) => Err(AllocError),
        }
    }

    // The name with a number, or nothing.
    fn name_at(&self, number: u64) -> &[u8]
        ensures { result.now ≡ name_at self.now number }
    {
        let Ok(number) = u32::try_from(number) else {
            return &[];
        };
        match self.places.get(&number) {
            Some(place) => text_at(&self.texts, *place),
            None => &[],
        }
    }
}

impl Paths for Names {
    ghost use Rattle.lnt_symbols.specs.Stepping.{name_at};

    ghost bytes_of = { λ names unit file. name_at names file };

    fn path_of(&self, alloc: Global, _unit: u64, file: u64) -> Result<Vec<u8>, AllocError> {
        let mut path = Vec::new(alloc);
        path.extend_from_slice(self.name_at(file))?;
        Ok(path)
    }

    fn same_texts(&self, _unit: u64, file: u64, _other_unit: u64, other_file: u64) -> bool {
        file == other_file
    }

    fn texts_number(&self, _unit: u64, file: u64) -> u64 {
        file
    }
}

// The text at a place, or as much of it as there is.
fn text_at(texts: &[u8], place: Place) -> &[u8]
    ensures { result.now ≡ text_at texts.now place }
{
    let Some(rest) = texts.get(place.start..) else {
        return &[];
    };
    let Some(text) = rest.get(..place.length) else {
        return rest;
    };
    text
}
