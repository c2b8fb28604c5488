ghost use Rattle.std.specs.Prelude.{◌≡◌, Some, None, OnOk, OnErr};
ghost use Rattle.sync_service.specs.Open.{asked_in, nobody_asked, with_pair};

use knx_base::{IndAddr, NoMemory};
use std::alloc::Global;
use std::collections::BTreeMap;
use std::marker::Model;

/// The challenges of all devices that wait for their answers. A contract sees each requester and responder with
/// their challenge.
#[derive(Drop)]
pub struct AskedBook {
    challenges: BTreeMap<(IndAddr, IndAddr), [u8; 6]>,
}

impl Model for AskedBook {
    ghost use Rattle.sync_service.specs.Open.{Book};

    ghost Value = { Book };

    ghost view = { λ book. book.challenges.entries };
}

impl AskedBook {
    /// Nobody is asked.
    pub fn new(alloc: Global) -> AskedBook
        ensures none { asked_in result ≡ nobody_asked }
    {
        AskedBook {
            challenges: BTreeMap::new(alloc),
        }
    }

    /// The requester asks the responder. What it asked of it before is forgotten.
    pub fn note(
        &mut self,
        requester: IndAddr,
        responder: IndAddr,
        challenge: [u8; 6],
    ) -> Result<(), NoMemory>
        ensures noted { OnOk result (asked_in self.new ≡ with_pair requester responder (Some challenge)
            (asked_in self.old)) }
        ensures unchanged { OnErr result (self.new ≡ self.old) }
    {
        match self.challenges.insert((requester, responder), challenge) {
            Ok(_) => Ok(()),
            Err(_) => Err(NoMemory),
        }
    }

    /// The challenge of the requester's last request to the responder that is not closed, or None where there is none.
    pub fn asked(&self, requester: IndAddr, responder: IndAddr) -> Option<[u8; 6]>
        ensures asked { result ≡ asked_in self.now requester responder }
    {
        self.challenges.get(&(requester, responder)).copied()
    }

    /// Forgets what the requester asked of the responder.
    pub fn close(&mut self, requester: IndAddr, responder: IndAddr)
        ensures closed { asked_in self.new ≡ with_pair requester responder None (asked_in self.old) }
    {
        self.challenges.remove(&(requester, responder));
    }
}
