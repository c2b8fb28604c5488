ghost use Rattle.std.specs.Prelude.{◌≡◌, Some, None};
ghost use Rattle.sync_service.specs.Open.{asked_of};

use knx_base::IndAddr;
use std::marker::Model;

/// The challenge that a device asked of a peer.
#[derive(Clone, Copy, Debug, PartialEq, Eq)]
pub struct OpenChallenge {
    pub peer: IndAddr,
    pub challenge: [u8; 6],
}

/// The challenge of a device's last request, while it waits for its answer. A contract sees none, or one peer and
/// challenge.
#[derive(Clone, Copy, Debug, PartialEq, Eq)]
pub struct Pending {
    last: Option<OpenChallenge>,
}

impl Model for Pending {
    ghost use Rattle.sync_service.specs.Open.{Pending};

    ghost Value = { Pending };

    ghost view = { λ pending. pending.last };

    ghost inverse = { λ last. record { last = last } };
}

impl Pending {
    /// Nobody is asked.
    pub fn none() -> Pending
        ensures none { result ≡ None }
    {
        Pending { last: None }
    }

    /// A peer is asked. What was asked before is forgotten.
    pub fn open(&mut self, peer: IndAddr, challenge: [u8; 6])
        ensures open { self.new ≡ Some (record { peer = peer; challenge = challenge }) }
    {
        self.last = Some(OpenChallenge { peer, challenge });
    }

    /// The challenge under which an answer from this source is to open; None where it is not the peer that was asked.
    pub fn asked(&self, source: IndAddr) -> Option<[u8; 6]>
        ensures asked { result ≡ asked_of self.now source }
    {
        match self.last {
            Some(last) if last.peer == source => Some(last.challenge),
            _ => None,
        }
    }

    /// Forgets what was asked.
    pub fn close(&mut self)
        ensures none { self.new ≡ None }
    {
        self.last = None;
    }
}
