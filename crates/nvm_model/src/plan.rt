/// A strike that is armed: it falls on the `writes`-th write from now, and leaves `torn` in its whole range.
#[derive(Clone, Copy, Debug, PartialEq, Eq)]
pub struct Armed {
    pub writes: u32,
    pub torn: u8,
}

/// What is armed in a memory. Where both fall on one write it is a cut.
#[derive(Clone, Copy, Debug, PartialEq, Eq)]
pub struct Plan {
    pub cut: Option<Armed>,
    pub fault: Option<Armed>,
}
