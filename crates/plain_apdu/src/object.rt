/// Why a group object does not take an application PDU.
#[derive(Clone, Copy, Debug, PartialEq, Eq)]
pub enum BadObject {
    /// The object's flag for this service is not set.
    Flag,
    /// The octets of the PDU that was found, and the octets that the object's PDU has.
    Size(u8, u8),
}
