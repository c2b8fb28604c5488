ghost use Rattle.std.specs.Prelude.{◌≡◌, ℕ, ◌≤◌, List, [], length, take};

use std::marker::Model;

/// Up to `ROOM` octets, in memory of their own. A contract sees them as these octets.
#[derive(Drop)]
pub struct OctetBuf<const ROOM: usize> {
    pub(crate) store: [u8; ROOM],
    pub(crate) len: usize,
}

/// The octets of a frame that was sealed.
pub type FrameBuf = OctetBuf<264>;

/// The octets of an APDU that was opened.
pub type ApduBuf = OctetBuf<242>;

impl<const ROOM: usize> Model for OctetBuf<ROOM> {
    ghost Value = { List ℕ };

    ghost view = { λ buffer. take buffer.len buffer.store };

    ghost invariant = { λ buffer. buffer.len ≤ ROOM };
}

impl<const ROOM: usize> OctetBuf<ROOM> {
    /// No octets.
    pub fn new() -> Self
        ensures empty { result ≡ [] }
    {
        OctetBuf {
            store: [0; ROOM],
            len: 0,
        }
    }

    /// The octets.
    pub fn bytes(&self) -> &[u8]
        ensures octets { result.now ≡ self.now }
        ensures room { length self.now ≤ ROOM }
    {
        &self.store[..self.len]
    }

    /// Leaves no octets.
    pub fn clear(&mut self)
        ensures empty { self.new ≡ [] }
    {
        self.len = 0;
    }
}
