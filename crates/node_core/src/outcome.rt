use group_objects::Value;
use judge_rules::Verdict;
use key_tables::Lane;
use knx_base::Number48;
use nvm_model::NvmFault;
use plain_apdu::Service;

/// What came of a frame at a node.
#[derive(Clone, Copy, Debug, PartialEq, Eq)]
pub enum Outcome {
    /// It is for another device, or for a group of none of the node's objects.
    Ignored,
    /// It fails a check, or an object does not take it. Its number may be kept.
    Refused(Verdict),
    /// The telegram of this number was kept on this lane and acted on.
    Acted {
        number: Number48,
        lane: Lane,
        act: Act,
    },
    /// A request of a synchronisation. The answer has the number `reply`, and is not sent where all numbers are drawn.
    Answered {
        challenge: [u8; 6],
        reply: Option<Number48>,
    },
    /// The answer of a synchronisation, sealed under `number`: the responder kept `kept`, and the next number is
    /// `next`.
    Synced {
        number: Number48,
        kept: Number48,
        next: u64,
    },
    /// The memory failed. Nothing was acted on, and the node does not run any more.
    Stopped(NvmFault),
}

/// What a node did with an accepted telegram.
#[derive(Clone, Copy, Debug, PartialEq, Eq)]
pub enum Act {
    /// The object has this value now.
    Write {
        object: usize,
        value: Value,
    },
    /// The object has this value now, as an answer to a read told it.
    Response {
        object: usize,
        value: Value,
    },
    /// The object was read. The answer has the number `reply`, and is not sent where all numbers are drawn.
    Read {
        object: usize,
        reply: Option<Number48>,
    },
    /// A service of the node itself.
    Tool {
        service: Service,
    },
}

/// Whom a frame is for at a node. The definition of what a node does with a frame goes by it.
#[derive(Clone, Copy, Debug, PartialEq, Eq)]
pub enum Addressee {
    /// The node itself.
    Device,
    /// The object at this place, by its group.
    Object(usize),
}
