ghost use Rattle.std.specs.Prelude.{◌≡◌, ◌/◌, ◌%◌, ◌<◌, ◌≤◌, ◌↔◌, length, IsTrue};

use knx_base::IndAddr;

/// The message code of a frame.
#[derive(Clone, Copy, Debug, PartialEq, Eq)]
pub enum Code {
    /// L_Data.req, 0x11: a request to send.
    Req,
    /// L_Data.ind, 0x29: a telegram that was received.
    Ind,
    /// L_Data.con, 0x2e: a telegram that was sent.
    Con,
    /// L_Busmon.ind, 0x2b: a raw frame of the line.
    Busmon,
}

/// A telegram, and where its content stands among the octets that it was read from.
#[derive(Clone, Copy, Debug, PartialEq, Eq)]
pub struct Frame<'a> {
    pub code: Code,
    /// The link layer's mark that this is a repetition.
    pub repeated: bool,
    /// Two bits: 0 system, 1 normal, 2 urgent, 3 low.
    pub priority: u8,
    /// Bit 7 address type, bits 6 to 4 hop count, bits 3 to 0 extended frame format.
    pub control2: u8,
    pub source: IndAddr,
    /// A group address or an individual one, by bit 7 of `control2`.
    pub destination: u16,
    /// The octet of transport control and what stands after it.
    pub content: &'a [u8],
    pub ghost not_empty: { 0 < length content.now },
    pub ghost fits: { length content.now ≤ 255 },
}

impl Frame<'_> {
    /// Whether the destination is a group.
    pub fn is_group(&self) -> bool
        ensures { IsTrue result ↔ (self.now.control2 / 128 % 2 ≡ 1) }
    {
        self.control2 & 0x80 != 0
    }
}

/// Why octets are no frame: the first that is met from left to right.
#[derive(Clone, Copy, Debug, PartialEq, Eq)]
pub enum NotFrame {
    /// The octets end too early. This many there are.
    Short(usize),
    /// No message code of a frame.
    Code(u8),
    /// A row of the additional information does not fit into it. Here stands its type.
    Info(usize),
    /// A control octet of neither a standard nor an extended TP1 frame.
    Format(u8),
    /// The reserved length 255.
    Escape,
    /// The octets that the length says stand after it, and those that do.
    Length(usize, usize),
    /// The check octet that was found, and the one that these octets have.
    Check(u8, u8),
    /// One raw octet alone, as a receiver answers on the line: 0xcc acknowledge, 0x0c not acknowledged, 0xc0 busy.
    Acknowledge(u8),
}
