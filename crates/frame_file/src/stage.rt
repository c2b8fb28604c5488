use crate::log::Log;

/// Of which kind the file is, once that is known.
#[derive(Drop)]
pub(crate) enum Stage {
    /// No octet was read.
    Start,
    /// A list of frames.
    Lines,
    /// A recorded log.
    Log(Log),
}
