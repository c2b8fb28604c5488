ghost use Rattle.std.specs.Prelude.{◌≡◌, ◌≢◌, ℕ, ◌-◌, ◌^◌, ◌<◌, ◌≤◌, ◌↔◌, ◌==◌, List, [], ◌∷◌, ◌++◌, length, map, if◌then◌else◌, Option, Some, None, IsTrue, IsSome, IsNone, IsErr, IfOk, OnOk, OnErr};
ghost use Rattle.std.specs.Option.{ForSome};
ghost use Rattle.std.specs.List.{list_any};
ghost use Rattle.knx_base.specs.Faults.{counted};
ghost use Rattle.knx_base.specs.Files.{Seen, IsThere, Opens, Reads, octets_named};
ghost use Rattle.knx_base.specs.Shelf.{Stored, file_of};
ghost use Rattle.knx_base.specs.MemFiles.{MemFilesState, seen_of, is_armed};

use crate::shelf::Shelf;
use crate::{Failed, Files, NoMemory};
use std::alloc::Global;
use std::marker::Model;

/// Files in memory, of which chosen calls of `open` and `read` fail. They tell their names and octets.
#[derive(Drop)]
pub struct MemFiles {
    alloc: Global,
    shelf: Shelf,
    armed: Vec<u64>,
    calls: u64,
    faults: u64,
}

impl Model for MemFiles {
    ghost Value = { MemFilesState };

    ghost view = { λ m. record {
      files = m.shelf.files;
      current = m.shelf.current;
      opened = m.shelf.opened;
      armed = m.armed.items;
      calls = m.calls;
      faults = m.faults;
    } };
}

impl MemFiles {
    /// No files yet, and no call armed.
    pub fn new(alloc: Global) -> MemFiles
        ensures empty { result ≡ record {
          files = [];
          current = None;
          opened = [];
          armed = [];
          calls = 0;
          faults = 0;
        } }
    {
        MemFiles {
            alloc,
            shelf: Shelf::new(alloc),
            armed: Vec::new(alloc),
            calls: 0,
            faults: 0,
        }
    }

    /// Adds a file of a new name, with at most 2^40 octets.
    pub fn add(&mut self, name: &str, octets: &[u8]) -> Result<(), NoMemory>
        requires new { octets_named (map file_of self.old.files) name.now ≡ None }
        requires short { length octets.now ≤ 2 ^ 40 }
        ensures added { OnOk result (self.new ≡ record self.old {
          files = self.old.files
              ++ (record { name = name.now; octets = octets.now; place = 0 }) ∷ [];
        }) }
        ensures unchanged { OnErr result (self.new ≡ self.old) }
    {
        self.shelf.add(self.alloc, name, octets)
    }

    /// Makes the call with this number fail, counted from 1 over all calls of `open` and `read`.
    pub fn fail_at(&mut self, call: u64) -> Result<(), NoMemory>
        requires numbered { (1 ≤ call) × (call ≤ 2 ^ 64 - 2) }
        ensures armed { OnOk result (self.new ≡ record self.old { armed = self.old.armed ++ call ∷ [] }) }
        ensures unchanged { OnErr result (self.new ≡ self.old) }
    {
        self.armed.push(call)?;
        Ok(())
    }

    fn is_armed(&self) -> bool
        ensures armed { result ≡ is_armed self.now }
    {
        let next = self.calls.saturating_add(1);
        self.armed.iter().any(|call| *call == next)
    }

    fn count_call(&mut self)
        ensures state { self.new ≡ record self.old { calls = counted self.old.calls } }
    {
        self.calls = self.calls.saturating_add(1);
    }

    fn count_failure(&mut self)
        ensures state { self.new ≡ record self.old {
          calls = counted self.old.calls;
          faults = counted self.old.faults;
        } }
        ensures later { self.old.faults ≤ self.new.faults }
    {
        self.calls = self.calls.saturating_add(1);
        self.faults = self.faults.saturating_add(1);
    }
}

impl Files for MemFiles {
    ghost seen = { seen_of };

    fn open(&mut self, name: &str) -> Result<(), Failed>
        requires there { IsThere (map file_of self.old.files) name.now }
        ensures opens { Opens (seen_of self.old) (seen_of self.new) name.now result }
        ensures exact { IsErr result ↔ IsTrue (is_armed self.old) }
        ensures counted { self.new.calls ≡ counted self.old.calls }
        ensures faults { self.new.faults ≡ (if is_armed self.old then counted self.old.faults else self.old.faults) }
        ensures armed { self.new.armed ≡ self.old.armed }
        ensures only_closed { OnErr result (self.new ≡ record self.old {
          current = None;
          opened = self.old.opened ++ name.now ∷ [];
          calls = counted self.old.calls;
          faults = counted self.old.faults;
        }) }
    {
        if self.is_armed() {
            self.count_failure();
            self.shelf.fail_to_open(name);
            Err(Failed)
        } else {
            self.count_call();
            self.shelf.open(name);
            Ok(())
        }
    }

    fn read(&mut self, buffer: &mut [u8]) -> Result<usize, Failed>
        requires room { 0 < length buffer.old }
        requires current { IsSome self.old.current }
        ensures reads { Reads (seen_of self.old) (seen_of self.new) buffer.new result }
        ensures exact { IsErr result ↔ IsTrue (is_armed self.old) }
        ensures counted { self.new.calls ≡ counted self.old.calls }
        ensures faults { self.new.faults ≡ (if is_armed self.old then counted self.old.faults else self.old.faults) }
        ensures armed { self.new.armed ≡ self.old.armed }
        ensures unmoved { OnErr result (self.new ≡ record self.old {
          calls = counted self.old.calls;
          faults = counted
              self.old.faults;
        }) }
    {
        if self.is_armed() {
            self.count_failure();
            Err(Failed)
        } else {
            self.count_call();
            Ok(self.shelf.read(buffer))
        }
    }
}
