ghost use Rattle.std.specs.Prelude.{◌≡◌, ◌+◌, ◌^◌, ◌<◌, ◌≤◌, true, length, max, slice_index, IsTrue};
ghost use Rattle.seq_store.specs.Laws.{Ready};
ghost use Rattle.seq_store.specs.Layout.{store_size};
ghost use Rattle.seq_store.specs.Runs.{RestoresNumbers};
ghost use Rattle.seq_store.specs.Store.{store_state, lanes_of, numbers_of};

use crate::SeqStore;
use knx_base::Number48;
use nvm_model::Nvm;

impl<M: Nvm> SeqStore<M> {
    /// The mark of a lane.
    pub fn mark(&self, lane: usize) -> Number48
        requires in_range { lane < lanes_of (store_state self.now) }
        ensures mark { result ≡ slice_index (store_state self.now).marks lane }
    {
        self.marks[lane]
    }

    /// The number that the next draw gives, or 2^48 where all are drawn.
    pub fn next(&self) -> u64
        ensures next { result ≡ (store_state self.now).next }
        ensures fits { result ≤ 2 ^ 48 }
    {
        self.next
    }

    /// Whether no call of the memory has failed. While none has, power is on, and the memory restores the last
    /// reserved number and the marks.
    pub fn is_sound(&self) -> bool
        ensures sound { result ≡ (store_state self.now).sound }
        ensures powered { IsTrue result → (M.state (store_state self.now).memory).powered ≡ true }
        ensures ready { IsTrue result → Ready (lanes_of (store_state self.now))
            (M.state (store_state self.now).memory).octets }
        ensures restores_numbers { let store = store_state self.now in
            IsTrue result → RestoresNumbers (numbers_of store) (M.state store.memory).octets }
    {
        self.sound
    }

    /// Makes the next number greater than this one. It changes working memory only.
    pub fn raise_next(&mut self, above: Number48)
        ensures next { let old = store_state self.old in store_state self.new
            ≡ record old { next = max old.next (above + 1) } }
    {
        self.next = self.next.max(above.get() + 1);
    }

    /// The memory as it is.
    pub fn memory(&self) -> &M
        ensures memory { result.now ≡ (store_state self.now).memory }
        ensures size { length (M.state result.now).octets ≡ store_size (lanes_of (store_state self.now)) }
    {
        &self.memory
    }

    /// Gives the memory back as it is.
    pub fn into_memory(self) -> M
        ensures memory { result ≡ (store_state self).memory }
        ensures size { length (M.state result).octets ≡ store_size (lanes_of (store_state self)) }
    {
        self.memory
    }
}
