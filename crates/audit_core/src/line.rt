use judge_rules::Verdict;
use knx_base::IndAddr;

/// What a report says of one record.
#[derive(Clone, Copy, Debug, PartialEq, Eq)]
pub struct Line {
    /// The number of the record, counted from 1.
    pub index: u64,
    /// None where the record is no frame.
    pub addresses: Option<Addresses>,
    /// The link layer marked the frame as a repetition.
    pub repeated: bool,
    pub verdict: Verdict,
    pub alarm: bool,
}

/// Whom a frame is from and whom it is for.
#[derive(Clone, Copy, Debug, PartialEq, Eq)]
pub struct Addresses {
    pub source: IndAddr,
    /// The destination is a group's address, else a device's.
    pub group: bool,
    pub destination: u16,
}
