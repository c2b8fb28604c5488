ghost use Rattle.std.specs.Prelude.{◌≡◌, ℕ, ◌+◌, ◌-◌, ◌^◌, ◌<◌, ◌≤◌, ◌==◌, Bool, List, [], ◌∷◌, ◌++◌, length, take, min, IsTrue, IsErr, OnOk, OnErr, IfOk, MatchBool, Option, Some, Ok};
ghost use Rattle.std.specs.List.{list_any};
ghost use Rattle.knx_base.specs.Faults.{counted, HasCause};
ghost use Rattle.knx_base.specs.Sink.{TakesPiece};
ghost use Rattle.knx_base.specs.MemSink.{MemSinkState, is_refused, fitting, after_refusal, after_write};

use crate::{Failed, NoMemory, Sink};
use std::alloc::Global;
use std::marker::Model;

/// A sink in memory with room for so many octets, of which chosen writes fail. It tells its octets.
#[derive(Drop)]
pub struct MemSink {
    store: Vec<u8>,
    taken: usize,
    armed: Vec<u64>,
    calls: u64,
    faults: u64,
}

impl Model for MemSink {
    ghost Value = { MemSinkState };

    ghost view = { λ s. record {
      octets = take s.taken s.store.items;
      room = length s.store.items;
      armed = s.armed.items;
      calls = s.calls;
      faults = s.faults;
    } };

    ghost invariant = { λ s. s.taken ≤ length s.store.items };
}

impl MemSink {
    /// An empty sink with room for `room` octets, no write of which is armed.
    pub fn new(alloc: Global, room: usize) -> Result<MemSink, NoMemory>
        ensures empty { IfOk result (λ s. s ≡ record { octets = []; room = room; armed = []; calls = 0; faults = 0 }) }
    {
        let store = vec![in alloc; 0; room]?;
        Ok(MemSink {
            store,
            taken: 0,
            armed: Vec::new(alloc),
            calls: 0,
            faults: 0,
        })
    }

    /// Makes the write with this number fail, counted from 1 over all writes.
    pub fn fail_at(&mut self, call: u64) -> Result<(), NoMemory>
        requires numbered { (1 ≤ call) × (call ≤ 2 ^ 64 - 2) }
        ensures armed { OnOk result (self.new ≡ record self.old { armed = self.old.armed ++ call ∷ [] }) }
        ensures unchanged { OnErr result (self.new ≡ self.old) }
    {
        self.armed.push(call)?;
        Ok(())
    }

    /// What was taken so far.
    pub fn bytes(&self) -> &[u8]
        ensures octets { result.now ≡ self.now.octets }
    {
        &self.store[..self.taken]
    }

    fn is_armed(&self) -> bool
        ensures armed { result ≡ list_any (λ call. call == counted self.now.calls) self.now.armed }
    {
        let next = self.calls.saturating_add(1);
        self.armed.iter().any(|call| *call == next)
    }

    fn free(&self) -> usize
        ensures room { result ≡ self.now.room - length self.now.octets }
    {
        self.store.len() - self.taken
    }

    fn refuses(&self) -> bool
        ensures refused { result ≡ is_refused self.now }
    {
        self.is_armed() || self.free() == 0
    }

    fn count_refusal(&mut self)
        ensures state { self.new ≡ after_refusal self.old }
        ensures later { self.old.faults ≤ self.new.faults }
    {
        self.calls = self.calls.saturating_add(1);
        self.faults = self.faults.saturating_add(1);
    }

    fn take(&mut self, bytes: &[u8]) -> usize
        ensures count { result ≡ fitting self.old bytes.now }
        ensures state { self.new ≡ after_write self.old bytes.now }
    {
        let count = bytes.len().min(self.free());
        self.store[self.taken..self.taken + count].copy_from_slice(&bytes[..count]);
        self.taken += count;
        self.calls = self.calls.saturating_add(1);
        count
    }
}

impl Sink for MemSink {
    ghost octets = { λ s. Some s.octets };

    ghost faults = { λ s. s.faults };

    fn write(&mut self, bytes: &[u8]) -> Result<usize, Failed>
        requires not_empty { 0 < length bytes.now }
        ensures taken { TakesPiece (Some self.old.octets) (Some self.new.octets) result bytes.now }
        ensures cause { HasCause self.old.faults self.new.faults result }
        ensures exact { MatchBool (is_refused self.old)
            (IsErr result × (self.new ≡ after_refusal self.old))
            ((result ≡ Ok (fitting self.old bytes.now)) × (self.new ≡ after_write self.old bytes.now)) }
    {
        if self.refuses() {
            self.count_refusal();
            Err(Failed)
        } else {
            Ok(self.take(bytes))
        }
    }
}
