ghost use Rattle.std.specs.Prelude.{◌≡◌, ◌≢◌, ℕ, ◌+◌, ◌-◌, ◌^◌, ◌<◌, ◌≤◌, ◌==◌, Bool, List, [], ◌∷◌, ◌++◌, length, take, drop, min, map, position, nat_eq, Option, Some, None, IsSome, IfSome, IfNone, IfOk, OnOk, OnErr};
ghost use Rattle.std.specs.Option.{option_map, ForSome};
ghost use Rattle.std.specs.Cmp.Lexicographic.{pointwise};
ghost use Rattle.std.specs.String.{string_bytes};
ghost use Rattle.knx_base.specs.Files.{IsThere, IsAtStart, MovesOn, octets_named};
ghost use Rattle.knx_base.specs.Shelf.{Stored, ShelfState, FirstAt, file_of, name_at, place_named};
ghost use Rattle.knx_base.specs.SureFiles.{seen_of};

use crate::NoMemory;
use crate::openings::Openings;
use std::alloc::Global;
use std::marker::Model;

/// A file in memory, and how far it was read.
#[derive(Drop)]
pub(crate) struct StoredFile {
    name: String,
    octets: Vec<u8>,
    place: usize,
}

impl Model for StoredFile {
    ghost Value = { Stored };

    ghost view = { λ f. record { name = string_bytes f.name; octets = f.octets.items; place = f.place } };

    ghost invariant = { λ f. (f.place ≤ length f.octets.items) × (length f.octets.items ≤ 2 ^ 40) };
}

impl StoredFile {
    fn new(alloc: Global, name: &str, octets: &[u8]) -> Result<StoredFile, NoMemory>
        requires short { length octets.now ≤ 2 ^ 40 }
        ensures stored { IfOk result (λ f. f ≡ record { name = name.now; octets = octets.now; place = 0 }) }
    {
        Ok(StoredFile {
            name: String::from_str(alloc, name)?,
            octets: octets.to_vec(alloc)?,
            place: 0,
        })
    }

    fn has_name(&self, name: &str) -> bool
        ensures same { result ≡ pointwise nat_eq self.now.name name.now }
    {
        self.name.as_str() == name
    }

    fn name(&self) -> &String
        ensures name { string_bytes result.now ≡ self.now.name }
    {
        &self.name
    }

    fn restart(&mut self)
        ensures start { self.new ≡ record self.old { place = 0 } }
    {
        self.place = 0;
    }

    // Copies the next octets to the front of the buffer and answers how many.
    fn copy_out(&mut self, buffer: &mut [u8]) -> usize
        ensures count { result ≡ min (length buffer.old) (length self.old.octets - self.old.place) }
        ensures given { take result buffer.new ≡ take result (drop self.old.place self.old.octets) }
        ensures moved { self.new ≡ record self.old { place = self.old.place + result } }
        ensures last { (self.new.place ≤ length self.old.octets) × (self.new.place ≤ 2 ^ 40) }
    {
        let count = buffer.len().min(self.octets.len() - self.place);
        buffer[..count].copy_from_slice(&self.octets[self.place..self.place + count]);
        self.place += count;
        count
    }
}

/// Files in memory by name, of which one may be current.
#[derive(Drop)]
pub(crate) struct Shelf {
    files: Vec<StoredFile>,
    current: Option<usize>,
    opened: Openings,
}

impl Model for Shelf {
    ghost Value = { ShelfState };

    ghost view = { λ s. record {
      files = s.files.items;
      current = option_map (name_at s.files.items) s.current;
      opened = s.opened;
    } };

    ghost invariant = { λ s. ForSome s.current (λ i. FirstAt s.files.items i (name_at s.files.items i)) };
}

impl Shelf {
    pub(crate) fn new(alloc: Global) -> Shelf
        ensures empty { result ≡ record { files = []; current = None; opened = [] } }
    {
        Shelf {
            files: Vec::new(alloc),
            current: None,
            opened: Openings::new(),
        }
    }

    pub(crate) fn add(&mut self, alloc: Global, name: &str, octets: &[u8]) -> Result<(), NoMemory>
        requires short { length octets.now ≤ 2 ^ 40 }
        ensures added { OnOk result (self.new ≡ record self.old {
          files = self.old.files
              ++ (record { name = name.now; octets = octets.now; place = 0 }) ∷ [];
        }) }
        ensures unchanged { OnErr result (self.new ≡ self.old) }
    {
        let file = StoredFile::new(alloc, name, octets)?;
        self.files.push(file)?;
        Ok(())
    }

    pub(crate) fn open(&mut self, name: &str)
        requires there { IsThere (map file_of self.old.files) name.now }
        ensures told { map file_of self.new.files ≡ map file_of self.old.files }
        ensures start { IsAtStart (seen_of self.old) (seen_of self.new) name.now }
        ensures opened { self.new.opened ≡ self.old.opened ++ name.now ∷ [] }
        ensures others { (other : List ℕ) → other ≢ name.now
            → place_named self.new.files other ≡ place_named self.old.files other }
    {
        if let Some(index) = position_named(&self.files, name) {
            let file = &mut self.files[index];
            file.restart();
            self.opened.note(file.name());
            self.current = Some(index);
        }
    }

    // The file was opened, and yet none is current.
    pub(crate) fn fail_to_open(&mut self, name: &str)
        requires there { IsThere (map file_of self.old.files) name.now }
        ensures closed { self.new ≡ record self.old {
          current = None;
          opened = self.old.opened ++ name.now ∷ [];
        } }
    {
        self.current = None;
        if let Some(index) = position_named(&self.files, name) {
            self.opened.note(self.files[index].name());
        }
    }

    pub(crate) fn read(&mut self, buffer: &mut [u8]) -> usize
        requires room { 0 < length buffer.old }
        requires current { IsSome self.old.current }
        ensures told { map file_of self.new.files ≡ map file_of self.old.files }
        ensures moves { MovesOn (seen_of self.old) (seen_of self.new) buffer.new result }
        ensures opened { self.new.opened ≡ self.old.opened }
        ensures others { (other : List ℕ) → self.old.current ≢ Some other
            → place_named self.new.files other ≡ place_named self.old.files other }
    {
        match self.current {
            Some(index) => {
                let file = &mut self.files[index];
                file.copy_out(buffer)
            }
            None => 0,
        }
    }
}

// The place in the list of the first file of this name.
fn position_named(files: &[StoredFile], name: &str) -> Option<usize>
    ensures { result ≡ position (λ f. pointwise nat_eq f.name name.now) files.now }
{
    files.iter().position(|file| file.has_name(name))
}
