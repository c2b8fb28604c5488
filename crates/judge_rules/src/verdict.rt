use cemi_frames::NotFrame;
use key_tables::{Lane, Role};
use knx_base::Number48;
use knx_ccm::CodeDiffers;
use plain_apdu::{BadObject, Service};
use secure_apdu::BadSecure;

/// What is told of a frame: the first check that fails, or that none does.
#[derive(Clone, Copy, Debug, PartialEq, Eq)]
pub enum Verdict {
    /// A data telegram that may be acted on.
    Accepted {
        number: Number48,
        service: Service,
    },
    /// A request of a synchronisation.
    SyncAsk {
        number: Number48,
        challenge: [u8; 6],
    },
    /// An answer of a synchronisation, and the number that the responder kept.
    SyncAnswer {
        number: Number48,
        kept: Number48,
    },
    /// The octets are no frame.
    NotFrame(NotFrame),
    /// The frame carries no data. This is its TPCI octet.
    Control(u8),
    /// The service is not the secure one; None where there are no octets for one.
    Plain(Option<Service>),
    /// The secure frame is out of form.
    BadSecure(BadSecure),
    /// There is no key for the frame.
    NoKey,
    /// An answer of a synchronisation that nobody asked for.
    NoPending,
    /// No APDU seals to the octets.
    BadCode(CodeDiffers),
    /// The payload of an answer has another number than the one that it was sealed under.
    BadPayload {
        said: Number48,
        number: Number48,
    },
    /// The sender has no role on the channel, or its receiver has none on the sender's.
    Sender,
    /// The number is not above the one that was kept.
    Stale {
        kept: Number48,
        got: Number48,
    },
    /// The APDU is readable where it should be encrypted.
    Level,
    /// The sender's role is below the one that is needed.
    Role {
        needs: Role,
        has: Role,
    },
    /// The service is not one of the channel's.
    Service(BadService),
    /// An object does not take it. Nodes alone give this verdict.
    Object(BadObject),
}

/// Why a service is not one of a channel's.
#[derive(Clone, Copy, Debug, PartialEq, Eq)]
pub enum BadService {
    /// The upper six bits of this first octet are not zero.
    UpperBits(u8),
    /// These ten bits name none.
    Code(u16),
}

/// The verdict on a frame, and the lane and the number that are kept of it.
#[derive(Clone, Copy, Debug, PartialEq, Eq)]
pub struct Judgement {
    pub verdict: Verdict,
    pub keeps: Option<(Lane, Number48)>,
}
