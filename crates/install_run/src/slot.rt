use node_core::{Config, Node};
use nvm_model::SimNvm;

// The place of a node: the node since it was started, also where its memory stopped it, or its configuration and its
// memory since it was switched off. A place is empty only while its node is switched.
#[derive(Drop)]
pub(crate) enum Slot {
    Started(Node<SimNvm>),
    Stopped(Config, SimNvm),
    Empty,
}
