ghost use Rattle.std.specs.Prelude.{◌≡◌, ℕ, ◌↔◌, ◌⊎◌, ◌<◌, ◌≤◌, length, IfSome, IsNone};

use crate::octets::Octets;
use group_objects::{SendService, Value};
use knx_base::IndAddr;
use std::marker::Model;

/// The application PDU of a tool: 2 to 16 octets. A contract sees these.
#[derive(Clone, Copy, Debug, PartialEq, Eq)]
pub struct ToolApdu {
    pub(crate) octets: Octets<16>,
}

impl Model for ToolApdu {
    ghost use Rattle.std.specs.Prelude.{List, ℕ};
    ghost use Rattle.script_text.specs.Parts.{HasLength};

    ghost Value = { List ℕ };

    ghost view = { λ apdu. apdu.octets };

    ghost invariant = { λ apdu. HasLength 2 16 apdu.octets };

    ghost inverse = { λ d. record { octets = d } };
}

impl ToolApdu {
    /// The PDU of these octets. None is fewer than 2 octets and more than 16.
    pub fn new(bytes: &[u8]) -> Option<ToolApdu>
        ensures octets { IfSome result (λ apdu. apdu ≡ bytes.now) }
        ensures none { IsNone result ↔ ((length bytes.now < 2) ⊎ (16 < length bytes.now)) }
    {
        match bytes.len() {
            2..=16 => Some(ToolApdu {
                octets: Octets::new(bytes),
            }),
            _ => None,
        }
    }

    /// The octets, 2 to 16.
    pub fn bytes(&self) -> &[u8]
        ensures octets { result.now ≡ self.now }
        ensures least { 2 ≤ length self.now }
        ensures most { length self.now ≤ 16 }
    {
        self.octets.bytes()
    }
}

/// The octets of a frame that someone puts on the air, 1 to 265. A contract sees these.
#[derive(Clone, Copy, Debug, PartialEq, Eq)]
pub struct RawFrame {
    pub(crate) octets: Octets<265>,
}

impl Model for RawFrame {
    ghost use Rattle.std.specs.Prelude.{List, ℕ};
    ghost use Rattle.script_text.specs.Parts.{HasLength};

    ghost Value = { List ℕ };

    ghost view = { λ frame. frame.octets };

    ghost invariant = { λ frame. HasLength 1 265 frame.octets };

    ghost inverse = { λ d. record { octets = d } };
}

impl RawFrame {
    /// The frame of these octets. None is none and more than 265 octets.
    pub fn new(bytes: &[u8]) -> Option<RawFrame>
        ensures octets { IfSome result (λ frame. frame ≡ bytes.now) }
        ensures none { IsNone result ↔ ((length bytes.now ≡ 0) ⊎ (265 < length bytes.now)) }
    {
        match bytes.len() {
            1..=265 => Some(RawFrame {
                octets: Octets::new(bytes),
            }),
            _ => None,
        }
    }

    /// The octets, 1 to 265.
    pub fn bytes(&self) -> &[u8]
        ensures octets { result.now ≡ self.now }
        ensures least { 1 ≤ length self.now }
        ensures most { length self.now ≤ 265 }
    {
        self.octets.bytes()
    }
}

/// One thing that happens in a script. Nodes are named by their places among the script's nodes, counted from 0, and
/// telegrams by their numbers, counted from 1 in the order in which they go on the air.
#[derive(Clone, Copy, Debug, PartialEq, Eq)]
pub enum Event {
    /// The node's own application sets a value.
    Set {
        node: usize,
        object: usize,
        value: Value,
    },
    /// The node sends for one of its objects.
    Send {
        node: usize,
        object: usize,
        service: SendService,
    },
    /// The node sends a service of tools to a device.
    ToolSend {
        node: usize,
        to: IndAddr,
        apdu: ToolApdu,
    },
    /// The node asks a device for synchronisation.
    Ask {
        node: usize,
        to: IndAddr,
        challenge: [u8; 6],
    },
    /// A telegram reaches the node.
    Deliver {
        telegram: u32,
        node: usize,
    },
    /// A telegram is lost to all from now on.
    Lose {
        telegram: u32,
    },
    /// Someone who is no node puts these octets on the air.
    Inject {
        octets: RawFrame,
    },
    /// The node loses its power.
    Off {
        node: usize,
    },
    /// The node gets its power back, and starts.
    On {
        node: usize,
    },
    /// The node's power fails inside the memory write with this number, counted from 1 from now on. All octets of that
    /// write then are this one.
    Cut {
        node: usize,
        write: u32,
        torn: u8,
    },
    /// The same, where the write fails and the power stays.
    Fault {
        node: usize,
        write: u32,
        torn: u8,
    },
}
