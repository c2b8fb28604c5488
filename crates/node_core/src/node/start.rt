ghost use Rattle.std.specs.Prelude.{◌≡◌, ◌↔◌, ℕ, true, None, Some, length, IfOk, IfErr};
ghost use Rattle.nvm_model.specs.Nvm.{Reads};
ghost use Rattle.seq_store.specs.Laws.{IsUnformattedAt};
ghost use Rattle.seq_store.specs.Layout.{store_size};
ghost use Rattle.seq_store.specs.Calls.{IsHandedBack};
ghost use Rattle.seq_store.specs.Refusal.{has_read};
ghost use Rattle.node_core.specs.Node.{config_state, node_state, IsStarted, start_refusal};

use crate::{Config, Node, StartRefused};
use nvm_model::Nvm;
use seq_store::{SeqStore, StoreFault, StoreRefused};
use std::alloc::Global;
use sync_service::Pending;

impl<M: Nvm> Node<M> {
    /// Starts a node over a memory that was formatted for its lanes. Its marks and its reservation are those that the
    /// memory restores, its next number is one above the reservation, its objects have their first values, and no
    /// challenge is open. It writes nothing.
    ///
    /// A refusal hands configuration and memory back. NoMemory comes before anything is read. Memory comes only as a
    /// read answered. Unformatted comes exactly where the memory lacks a value and no read was refused.
    pub fn start(alloc: Global, config: Config, memory: M) -> Result<Node<M>, StartRefused<M>>
        requires size { length (M.state memory).octets ≡ store_size (length (config_state config).lanes) }

        ensures started { IfOk result
            (λ node. IsStarted (config_state config) (M.state memory).octets (node_state node)) }
        ensures reads { IfOk result (λ node. Reads None
            (M.state memory) (M.state (node_state node).memory) (M.images memory) (M.images (node_state node).memory)) }

        ensures unformatted { (place : ℕ) → (start_refusal result ≡ Some (StoreFault.Unformatted place))
            ↔ (IsUnformattedAt (length (config_state config).lanes) (M.state memory).octets place
            × (has_read (start_refusal result) ≡ true)) }
        ensures refused { IfErr result (λ refused. IsHandedBack refused.fault (refused.memory ≡ memory)
            (M.state memory) (M.state refused.memory) (M.images memory) (M.images refused.memory)) }
        ensures handed_back { IfErr result (λ refused. config_state refused.config ≡ config_state config) }
    {
        match SeqStore::start(alloc, config.lanes.as_slice().len(), memory) {
            Ok(store) => {
                let mut config = config;
                config.objects.reset();
                Ok(Node {
                    config,
                    store,
                    pending: Pending::none(),
                })
            }
            Err(refused) => {
                let StoreRefused { fault, memory } = refused;
                Err(StartRefused {
                    fault,
                    config,
                    memory,
                })
            }
        }
    }
}
