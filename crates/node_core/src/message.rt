ghost use Rattle.std.specs.Prelude.{◌≡◌};
ghost use Rattle.node_core.specs.Message.{message_frame, IsSendable};

use aes_modes::Key128;
use knx_base::{IndAddr, Number48};
use secure_apdu::{FrameBuf, SendHead, seal_frame};
use sync_service::{answer, ask};

// What a node seals.
#[derive(Clone, Copy)]
pub(crate) enum Message<'a> {
    // Data for a group or a device, under this control field.
    Data {
        destination: u16,
        group: bool,
        field: u8,
        apdu: &'a [u8],
    },
    // A request of a synchronisation.
    Ask {
        to: IndAddr,
        challenge: [u8; 6],
    },
    // The answer to one.
    Answer {
        to: IndAddr,
        challenge: [u8; 6],
        kept: Number48,
    },
}

impl Message<'_> {
    // Writes the frame of the message, sealed under this key and this number.
    pub(crate) fn seal(&self, key: &Key128, source: IndAddr, number: Number48, out: &mut FrameBuf)
        requires sendable { IsSendable self.now }
        ensures frame { out.new ≡ message_frame source self.now key.now number }
    {
        match *self {
            Message::Data {
                destination,
                group,
                field,
                apdu,
            } => {
                let head = SendHead {
                    source,
                    destination,
                    group,
                    number,
                    shown: number,
                    field,
                };
                seal_frame(key, &head, apdu, out);
            }
            Message::Ask { to, challenge } => ask(key, source, to, number, challenge, out),
            Message::Answer {
                to,
                challenge,
                kept,
            } => answer(key, source, to, number, challenge, kept, out),
        }
    }
}
