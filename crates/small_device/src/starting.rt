ghost use Rattle.std.specs.Prelude.{◌≡◌, ◌↔◌, ℕ, true, false, None, Some, length, IfOk, IfErr};
ghost use Rattle.nvm_model.specs.Nvm.{Reads};
ghost use Rattle.seq_store.specs.Laws.{IsUnformattedAt};
ghost use Rattle.seq_store.specs.Refusal.{has_read};
ghost use Rattle.seq_store.specs.Store.{store_state};
ghost use Rattle.small_device.specs.Device.{fits_lanes, is_size, IsStarted, IsBack, refusal_in};

use nvm_model::Nvm;
use seq_store::{SeqStore, StoreFault, StoreRefused, store_size};
use std::alloc::Global;

// The most lanes that a store keeps marks for.
const MOST_LANES: usize = 64;

/// A store that was not started, and its memory.
#[derive(Drop)]
pub enum NotStarted<M> {
    /// The memory has another size than one of so many lanes, or there are more lanes than a store has marks for.
    Size(M),
    /// The store refused it.
    Store(StoreRefused<M>),
}

/// Starts the store of a device with so many lanes over its memory, which was formatted once. It writes nothing.
///
/// A memory of another size is handed back as it is. Else a refusal is that of [`SeqStore::start`].
pub fn start<M: Nvm>(alloc: Global, lanes: usize, memory: M) -> Result<SeqStore<M>, NotStarted<M>>
    ensures started { IfOk result (λ store. IsStarted lanes (M.state memory).octets (store_state store)) }
    ensures reads { IfOk result (λ store. Reads None
        (M.state memory) (M.state (store_state store).memory) (M.images memory)
        (M.images (store_state store).memory)) }

    ensures size { (is_size result ≡ true) ↔ (fits_lanes lanes (M.state memory).octets ≡ false) }
    ensures unformatted { fits_lanes lanes (M.state memory).octets ≡ true → (place : ℕ)
        → (refusal_in result ≡ Some (StoreFault.Unformatted place))
        ↔ (IsUnformattedAt lanes (M.state memory).octets place × (has_read (refusal_in result) ≡ true)) }
    ensures handed_back { IfErr result (λ refused. IsBack refused memory M.state M.images) }
{
    if lanes > MOST_LANES || memory.size() != store_size(lanes) {
        return Err(NotStarted::Size(memory));
    }
    match SeqStore::start(alloc, lanes, memory) {
        Ok(store) => Ok(store),
        Err(refused) => Err(NotStarted::Store(refused)),
    }
}
