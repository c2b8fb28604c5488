ghost use Rattle.std.specs.Prelude.{◌≡◌, ◌↔◌, ◌<◌, ◌≤◌, ◌^◌, true, length, slice_index, slice_get, IsNone, IsTrue};
ghost use Rattle.group_objects.specs.Objects.{KeepsForms};
ghost use Rattle.seq_store.specs.Layout.{store_size};
ghost use Rattle.seq_store.specs.Runs.{RestoresNumbers};
ghost use Rattle.node_core.specs.Node.{config_state, node_state};

use crate::{Config, Node};
use group_objects::Value;
use knx_base::Number48;
use nvm_model::Nvm;

impl<M: Nvm> Node<M> {
    /// Whether no call of the memory has failed since the start. While none has, the memory has power on and restores
    /// the node's numbers.
    pub fn is_running(&self) -> bool
        ensures running { result ≡ (node_state self.now).running }
        ensures powered { IsTrue result → (M.state (node_state self.now).memory).powered ≡ true }
        ensures restores { let node = node_state self.now in
            IsTrue result → RestoresNumbers node.standing.numbers (M.state node.memory).octets }
    {
        self.store.is_sound()
    }

    /// The number that the next telegram is sealed under, or 2^48 where all are drawn.
    pub fn next(&self) -> u64
        ensures next { result ≡ (node_state self.now).standing.next }
        ensures fits { result ≤ 2 ^ 48 }
    {
        self.store.next()
    }

    /// The mark of the lane at this place of the configuration.
    pub fn mark(&self, lane: usize) -> Number48
        requires in_range { lane < length (node_state self.now).config.lanes }
        ensures mark { result ≡ slice_index (node_state self.now).standing.numbers.marks lane }
        ensures each_lane { let node = node_state self.now in
            length node.standing.numbers.marks ≡ length node.config.lanes }
    {
        self.store.mark(lane)
    }

    /// The value of an object, or None where there is no such object.
    pub fn value(&self, object: usize) -> Option<Value>
        ensures value { result ≡ slice_get (node_state self.now).standing.values object }
        ensures none { IsNone result ↔ (length (node_state self.now).config.objects ≤ object) }
        ensures forms { let node = node_state self.now in
            KeepsForms (record { rows = node.config.objects; values = node.standing.values }) }
    {
        self.config.objects.value(object)
    }

    /// The configuration.
    pub fn config(&self) -> &Config
        ensures config { config_state result.now ≡ (node_state self.now).config }
    {
        &self.config
    }

    /// The memory as it is.
    pub fn memory(&self) -> &M
        ensures memory { result.now ≡ (node_state self.now).memory }
        ensures size { length (M.state result.now).octets ≡ store_size (length (node_state self.now).config.lanes) }
    {
        self.store.memory()
    }

    /// Gives the configuration and the memory back as they are.
    pub fn cut(self) -> (Config, M)
        ensures config { config_state result.0 ≡ (node_state self).config }
        ensures memory { result.1 ≡ (node_state self).memory }
        ensures size { length (M.state result.1).octets ≡ store_size (length (config_state result.0).lanes) }
    {
        let Node { config, store, .. } = self;
        (config, store.into_memory())
    }
}
