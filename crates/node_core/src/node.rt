ghost use Rattle.std.specs.Prelude.{◌≡◌, length};
ghost use Rattle.seq_store.specs.Store.{store_state};

mod act;
mod armed;
mod receive;
mod send;
mod start;
mod views;

use crate::Config;
use nvm_model::Nvm;
use seq_store::SeqStore;
use sync_service::Pending;

/// A device: its configuration, and over its memory the marks of its lanes and the numbers that it draws.
///
/// It runs until a call of its memory fails. While it runs its memory has power on and restores its marks and its
/// reservation. Once it does not, only its configuration and its memory are of use: a start over them, once power is
/// on, goes on with what the memory restores.
#[derive(Drop)]
pub struct Node<M: Nvm> {
    config: Config,
    store: SeqStore<M>,
    pending: Pending,
    ghost lanes: { length (store_state store).marks ≡ length config.lanes },
}
