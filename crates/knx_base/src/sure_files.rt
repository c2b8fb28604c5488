ghost use Rattle.std.specs.Prelude.{◌≡◌, ℕ, ◌^◌, ◌<◌, ◌≤◌, [], ◌∷◌, ◌++◌, length, map, None, IsSome, IsOk, OnOk, OnErr};
ghost use Rattle.knx_base.specs.Files.{IsThere, Opens, Reads, octets_named};
ghost use Rattle.knx_base.specs.Shelf.{ShelfState, file_of};
ghost use Rattle.knx_base.specs.SureFiles.{seen_of};

use crate::shelf::Shelf;
use crate::{Failed, Files, NoMemory};
use std::alloc::Global;
use std::marker::Model;

/// Files in memory of which no call fails. They tell their names and octets, and count no fault.
#[derive(Drop)]
pub struct SureFiles {
    alloc: Global,
    shelf: Shelf,
}

impl Model for SureFiles {
    ghost Value = { ShelfState };

    ghost view = { λ s. s.shelf };
}

impl SureFiles {
    /// No files yet.
    pub fn new(alloc: Global) -> SureFiles
        ensures empty { result ≡ record { files = []; current = None; opened = [] } }
    {
        SureFiles {
            alloc,
            shelf: Shelf::new(alloc),
        }
    }

    /// Adds a file of a new name, with at most 2^40 octets.
    pub fn add(&mut self, name: &str, octets: &[u8]) -> Result<(), NoMemory>
        requires new { octets_named (map file_of self.old.files) name.now ≡ None }
        requires short { length octets.now ≤ 2 ^ 40 }
        ensures added { OnOk result (self.new ≡ record self.old {
          files = self.old.files
              ++ (record { name = name.now; octets = octets.now; place = 0 }) ∷ [];
        }) }
        ensures unchanged { OnErr result (self.new ≡ self.old) }
    {
        self.shelf.add(self.alloc, name, octets)
    }
}

impl Files for SureFiles {
    ghost seen = { seen_of };

    fn open(&mut self, name: &str) -> Result<(), Failed>
        requires there { IsThere (map file_of self.old.files) name.now }
        ensures opens { Opens (seen_of self.old) (seen_of self.new) name.now result }
        ensures sure { IsOk result }
    {
        self.shelf.open(name);
        Ok(())
    }

    fn read(&mut self, buffer: &mut [u8]) -> Result<usize, Failed>
        requires room { 0 < length buffer.old }
        requires current { IsSome self.old.current }
        ensures reads { Reads (seen_of self.old) (seen_of self.new) buffer.new result }
        ensures sure { IsOk result }
    {
        Ok(self.shelf.read(buffer))
    }
}
