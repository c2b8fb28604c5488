use crate::Config;
use group_objects::ObjectsFault;
use key_tables::BuildFault;
use nvm_model::NvmFault;
use seq_store::StoreFault;

/// Why a node has no such configuration, the first in this order.
#[derive(Clone, Copy, Debug, PartialEq, Eq)]
pub enum ConfigFault {
    /// The first row that gives a role to any sender, counted from 0.
    Any(usize),
    /// The rows may not stand. It is never want of memory.
    Rows(BuildFault),
    /// The objects may not stand. It is never want of memory.
    Objects(ObjectsFault),
    /// There are so many lanes, more than a memory keeps marks for.
    Lanes(usize),
    /// There was no memory.
    NoMemory,
}

/// A node that was not started, its configuration, and its memory as it is.
#[derive(Drop)]
pub struct StartRefused<M> {
    pub fault: StoreFault,
    pub config: Config,
    pub memory: M,
}

/// Why nothing was sent, the first in this order.
#[derive(Clone, Copy, Debug, PartialEq, Eq)]
pub enum SendFault {
    /// There is no such object.
    NoObject,
    /// The object sends nothing.
    Flag,
    /// There is no key to seal under.
    NoKey,
    /// All numbers below 2^48 are drawn.
    Exhausted,
    /// The memory failed, and the node does not run any more.
    Memory(NvmFault),
}
