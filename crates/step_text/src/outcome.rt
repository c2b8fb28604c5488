use group_objects::Value;
use judge_rules::Verdict;
use key_tables::Lane;
use knx_base::Number48;
use node_core::Act;
use script_text::{Event, Marks};

/// An event, and what came of it.
#[derive(Drop)]
pub struct Step {
    pub event: Event,
    pub outcome: StepOutcome,
}

/// What came of an event.
#[derive(Drop)]
pub enum StepOutcome {
    /// The node is not running.
    Off,
    /// The node has no such object.
    NoObject,
    /// The object has another kind or number of octets.
    Size,
    /// The object has the value.
    Set,
    /// The object sends nothing.
    Flag,
    /// There is no key to seal under.
    NoKey,
    /// All numbers are drawn.
    Exhausted,
    /// Power was lost inside a write of the node's memory.
    Cut,
    /// A write of the node's memory failed, and the node stopped.
    Fault,
    /// The telegram of this place is on the air, sealed under `number`; an injected one under no number of a node.
    Air {
        telegram: u32,
        number: Option<Number48>,
    },
    /// There is no such telegram, or it is lost.
    Gone,
    /// The telegram is lost now.
    Lost,
    /// A check fails. It is never one of the three good verdicts.
    Refused(Verdict),
    /// The telegram is for others.
    Ignored,
    /// The telegram of this number was kept on this lane and acted on; `reply` is the telegram that answers it.
    Acted {
        number: Number48,
        lane: Lane,
        act: Act,
        reply: Option<u32>,
    },
    /// A request of a synchronisation; `reply` is the telegram that answers it.
    Answered {
        challenge: [u8; 6],
        reply: Option<u32>,
    },
    /// The answer of a synchronisation, sealed under `number`: the responder kept `kept`, and the next number is
    /// `next`.
    Synced {
        number: Number48,
        kept: Number48,
        next: u64,
    },
    /// The node was switched off.
    Down,
    /// The node is running already.
    Running,
    /// The node was switched on: its next number, and the mark of each of its lanes.
    On {
        next: u64,
        marks: Marks,
    },
    /// A cut or a fault is armed.
    Armed,
}

/// What stands in the journal of a node: a value that its own application set, or a telegram that it acted on.
#[derive(Clone, Copy, Debug, PartialEq, Eq)]
pub enum Entry {
    Set {
        object: usize,
        value: Value,
    },
    Telegram {
        telegram: u32,
        number: Number48,
        lane: Lane,
        act: Act,
    },
}
