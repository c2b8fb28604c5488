ghost use Rattle.std.specs.Prelude.{◌≡◌};
ghost use Rattle.plain_apdu.specs.Tpci.{tpci_of, HasKind};

/// What an octet of transport control says (the transport layer of ISO/IEC 14543-3-1).
#[derive(Clone, Copy, Debug, PartialEq, Eq)]
pub enum Tpci {
    /// Data without a connection. The two low bits belong to the application layer.
    Data,
    /// Data in a connection, with its sequence number, 0 to 15.
    Connected(u8),
    /// A connection is opened.
    Connect,
    /// A connection is closed.
    Disconnect,
    /// The data of this sequence number was received.
    Ack(u8),
    /// The data of this sequence number was refused.
    Nak(u8),
    /// No kind has this octet.
    Other(u8),
}

impl Tpci {
    /// The kind of an octet.
    #[tactic(auto, unfolding(crate::specs::Tpci::tpci_of))]
    pub fn read(octet: u8) -> Tpci
        ensures kind { result ≡ tpci_of octet }
        ensures octet { HasKind result octet }
    {
        let number = octet >> 2 & 0x0f;
        match (octet >> 6, octet & 3) {
            (0, _) if number == 0 => Tpci::Data,
            (1, _) => Tpci::Connected(number),
            (3, 2) => Tpci::Ack(number),
            (3, 3) => Tpci::Nak(number),
            _ => match octet {
                0x80 => Tpci::Connect,
                0x81 => Tpci::Disconnect,
                _ => Tpci::Other(octet),
            },
        }
    }
}
