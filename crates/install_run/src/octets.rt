use script_text::RawFrame;
use secure_apdu::FrameBuf;

// The octets of a telegram, which a node sealed or someone else put on the air.
#[derive(Drop)]
pub(crate) enum Octets {
    Sealed(FrameBuf),
    Injected(RawFrame),
}
