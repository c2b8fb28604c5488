use knx_base::Number48;

/// What a code covers of a frame beside its APDU, and what numbers the stream.
#[derive(Clone, Copy, Debug, PartialEq, Eq)]
pub struct Head {
    /// The nonce number: the number field, or for an answer of a synchronisation the responder's own
    pub number: Number48,
    /// The individual address of the sender.
    pub source: u16,
    /// A group address or an individual one, by bit 7 of control 2.
    pub destination: u16,
    /// Control 2 of the frame, of which the hop count, bits 6 to 4, is not covered
    pub control2: u8,
    /// The TPCI octet.
    pub tpci: u8,
    /// The control field: bit 7 tool access, bits 6 to 4 the algorithm, bit 3 system broadcast, bits 2 to 0 the service
    pub field: u8,
}
