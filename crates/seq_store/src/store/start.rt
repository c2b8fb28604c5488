ghost use Rattle.std.specs.Prelude.{◌≡◌, ◌≢◌, ℕ, ◌+◌, ◌≤◌, ◌↔◌, true, Some, None, Err, length, IfOk, IfErr};
ghost use Rattle.nvm_model.specs.Nvm.{Reads};
ghost use Rattle.seq_store.specs.Calls.{IsHandedBack};
ghost use Rattle.seq_store.specs.Laws.{Restores, IsUnformattedAt};
ghost use Rattle.seq_store.specs.Layout.{most_lanes, store_size};
ghost use Rattle.seq_store.specs.Refusal.{reading_fault, refusal_of, has_read};
ghost use Rattle.seq_store.specs.Runs.{RestoresNumbers, numbers_in};
ghost use Rattle.seq_store.specs.Store.{store_state, lanes_of, numbers_of};

use crate::layout::read_value;
use crate::{SeqStore, StoreFault, StoreRefused};
use knx_base::Number48;
use nvm_model::Nvm;
use std::alloc::Global;

impl<M: Nvm> SeqStore<M> {
    /// Starts a store over a memory that was formatted for so many lanes: its marks are those of the memory, and its
    /// next number is the last reserved one plus 1. It writes nothing.
    ///
    /// A refusal hands the memory back. NoMemory comes before anything is read. Memory comes only as a read answered.
    /// Unformatted comes exactly where the memory lacks a value and no read was refused.
    pub fn start(alloc: Global, lanes: usize, mut memory: M) -> Result<SeqStore<M>, StoreRefused<M>>
        requires size { length (M.state memory).octets ≡ store_size lanes }
        requires lanes_fit { lanes ≤ most_lanes }

        ensures lanes { IfOk result (λ store. lanes_of (store_state store) ≡ lanes) }
        ensures numbers { IfOk result (λ store. numbers_of (store_state store)
            ≡ numbers_in lanes (M.state memory).octets) }
        ensures restores { IfOk result (λ store. RestoresNumbers (numbers_of (store_state store))
            (M.state memory).octets) }
        ensures after_reserved { IfOk result (λ store. (store_state store).next ≡ (store_state store).reserved + 1) }
        ensures sound { IfOk result (λ store. (store_state store).sound ≡ true) }
        ensures reads { IfOk result (λ store. Reads None
            (M.state memory) (M.state (store_state store).memory) (M.images memory)
            (M.images (store_state store).memory)) }

        ensures unformatted { (place : ℕ) → (refusal_of result ≡ Some (StoreFault.Unformatted place))
            ↔ (IsUnformattedAt lanes (M.state memory).octets place × (has_read (refusal_of result) ≡ true)) }
        ensures refused { IfErr result (λ refused. IsHandedBack refused.fault (refused.memory ≡ memory)
            (M.state memory) (M.state refused.memory) (M.images memory) (M.images refused.memory)) }
    {
        let zero = Number48::from_bytes([0; 6]);
        let Ok(mut marks) = vec![in alloc; zero; lanes] else {
            return Err(StoreRefused {
                fault: StoreFault::NoMemory,
                memory,
            });
        };
        match read_values(&mut memory, &mut marks) {
            Ok(reserved) => Ok(SeqStore {
                memory,
                marks,
                reserved,
                next: reserved.get() + 1,
                sound: true,
            }),
            Err(fault) => Err(StoreRefused { fault, memory }),
        }
    }
}

// Reads the marks of all lanes, and gives the last reserved number.
fn read_values<M: Nvm>(memory: &mut M, marks: &mut [Number48]) -> Result<Number48, StoreFault>
    requires size { length (M.state memory.old).octets ≡ store_size (length marks.old) }
    requires lanes_fit { length marks.old ≤ most_lanes }

    ensures restores { IfOk result (λ last. Restores (M.state memory.old).octets last marks.new) }
    ensures unformatted { (place : ℕ) → result ≡ Err (StoreFault.Unformatted place)
        → IsUnformattedAt (length marks.old) (M.state memory.old).octets place }
    ensures had_memory { result ≢ Err StoreFault.NoMemory }
    ensures reads { Reads (reading_fault result)
        (M.state memory.old) (M.state memory.new) (M.images memory.old) (M.images memory.new) }
{
    let lanes = marks.len();
    let reserved = read_value(memory, lanes, 0)?;
    for (lane, mark) in marks.iter_mut().enumerate() {
        *mark = read_value(memory, lanes, 1 + lane)?;
    }
    Ok(reserved)
}
