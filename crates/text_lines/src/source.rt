ghost use Rattle.std.specs.Prelude.{◌≡◌, ℕ, ◌+◌, ◌-◌, ◌≤◌, List, [], ◌∷◌, length, take, drop, IsTrue, ◌↔◌, IsSome, IfOk, OnOk, OnErr, MatchOption};
ghost use Rattle.knx_base.specs.Faults.{HasCause};
ghost use Rattle.knx_base.specs.Files.{Seen};
ghost use Rattle.text_lines.specs.Reading.{GoesOn, OthersStay, WhereTold, TakesOctet, ahead, count_of};

use knx_base::{Failed, Files};
use std::marker::Model;

const STORE: usize = 4096;

/// The octets of the current file one after the other, read in pieces into a store of its own. A contract sees the
/// octets that were read and not yet taken.
#[derive(Drop)]
pub struct Source {
    store: [u8; STORE],
    from: usize,
    to: usize,
}

impl Model for Source {
    ghost Value = { List ℕ };

    ghost view = { λ s. take (s.to - s.from) (drop s.from s.store) };

    ghost invariant = { λ s. (s.from ≤ s.to) × (s.to ≤ 4096) };
}

impl Source {
    /// Nothing was read yet.
    pub fn new() -> Source
        ensures empty { result ≡ [] }
    {
        Source {
            store: [0; STORE],
            from: 0,
            to: 0,
        }
    }

    /// No octet is held.
    pub fn is_empty(&self) -> bool
        ensures empty { IsTrue result ↔ (self.now ≡ []) }
    {
        self.from == self.to
    }

    /// The octets that are held.
    pub fn bytes(&self) -> &[u8]
        ensures octets { result.now ≡ self.now }
    {
        &self.store[self.from..self.to]
    }

    /// Takes all octets that are held.
    pub fn clear(&mut self)
        ensures empty { self.new ≡ [] }
    {
        self.from = self.to;
    }

    /// Reads the next octets of the current file, none only at its end.
    pub fn fill<F: Files>(&mut self, files: &mut F) -> Result<(), Failed>
        requires current { IsSome (F.seen files.old).current }
        requires empty { self.old ≡ [] }
        ensures told { (F.seen files.new).told ≡ (F.seen files.old).told }
        ensures others { OthersStay (F.seen files.old) (F.seen files.new) }
        ensures goes { OnOk result (GoesOn (F.seen files.old) (F.seen files.new) [] self.new 0) }
        ensures given { OnOk result (WhereTold (F.seen files.old)
            (λ octets. drop (F.seen files.old).place octets ≡ ahead (F.seen files.new) self.new octets)) }
        ensures end { OnOk result (self.new ≡ [] → WhereTold (F.seen files.old)
            (λ octets. drop (F.seen files.new).place octets ≡ [])) }
        ensures failed { OnErr result (self.new ≡ []) }
        ensures cause { HasCause (F.seen files.old).faults (F.seen files.new).faults result }
    {
        let count = files.read(&mut self.store)?;
        self.from = 0;
        self.to = count;
        Ok(())
    }

    /// Reads the next octets of the current file where none are held, and holds none only at its end.
    pub fn refill<F: Files>(&mut self, files: &mut F) -> Result<(), Failed>
        requires current { IsSome (F.seen files.old).current }
        ensures told { (F.seen files.new).told ≡ (F.seen files.old).told }
        ensures others { OthersStay (F.seen files.old) (F.seen files.new) }
        ensures goes { OnOk result (GoesOn (F.seen files.old) (F.seen files.new) self.old self.new 0) }
        ensures given { OnOk result (WhereTold (F.seen files.old)
            (λ octets. ahead (F.seen files.old) self.old octets ≡ ahead (F.seen files.new) self.new octets)) }
        ensures end { OnOk result (self.new ≡ [] → WhereTold (F.seen files.old)
            (λ octets. drop (F.seen files.new).place octets ≡ [])) }
        ensures failed { OnErr result ((self.old ≡ []) × (self.new ≡ [])) }
        ensures cause { HasCause (F.seen files.old).faults (F.seen files.new).faults result }
    {
        if !self.is_empty() {
            return Ok(());
        }
        self.fill(files)
    }

    /// Takes so many of the octets that are held.
    pub(crate) fn take_front(&mut self, count: usize)
        requires held { count ≤ length self.old }
        ensures rest { self.new ≡ drop count self.old }
    {
        self.from += count;
    }

    /// Takes the next octet of the current file, `None` at its end.
    pub fn next<F: Files>(&mut self, files: &mut F) -> Result<Option<u8>, Failed>
        requires current { IsSome (F.seen files.old).current }
        ensures told { (F.seen files.new).told ≡ (F.seen files.old).told }
        ensures others { OthersStay (F.seen files.old) (F.seen files.new) }
        ensures goes { IfOk result (λ octet. GoesOn (F.seen files.old) (F.seen files.new) self.old self.new
            (count_of octet)) }
        ensures given { IfOk result (λ octet. TakesOctet (F.seen files.old) (F.seen files.new) self.old self.new
            octet) }
        ensures failed { OnErr result ((self.old ≡ []) × (self.new ≡ [])) }
        ensures cause { HasCause (F.seen files.old).faults (F.seen files.new).faults result }
    {
        if self.is_empty() {
            self.fill(files)?;
        }
        Ok(self.take())
    }

    fn take(&mut self) -> Option<u8>
        ensures taken { MatchOption result ((self.old ≡ []) × (self.new ≡ [])) (λ octet. self.old ≡ octet ∷ self.new) }
    {
        if self.from == self.to {
            return None;
        }
        let octet = self.store[self.from];
        self.from += 1;
        Some(octet)
    }
}
