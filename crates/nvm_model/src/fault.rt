/// Why a call of a memory was not done.
#[derive(Clone, Copy, Debug, PartialEq, Eq)]
pub enum NvmFault {
    /// The memory failed and has counted a fault. Power is on.
    Failed,
    /// Power was lost in this call, or was off before it. Power is off.
    Cut,
}
