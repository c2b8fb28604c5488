ghost use Rattle.std.specs.Prelude.{◌≡◌, ◌<◌, length, option_map};
ghost use Rattle.std.specs.Option.{is_some};
ghost use Rattle.install_run.specs.Machine.{telegram_in, is_lost_in, node_in};
ghost use Rattle.install_run.specs.Runs.{journal_of};

use crate::World;
use crate::air::telegram_in;
use step_text::{Entry, Step};

impl World {
    /// How many nodes there are.
    pub fn nodes(&self) -> usize
        ensures nodes { result ≡ length self.now.world.nodes }
    {
        self.places.len()
    }

    /// The steps that were taken, in their order.
    pub fn history(&self) -> &[Step]
        ensures history { result.now ≡ self.now.history }
    {
        &self.steps
    }

    /// The journal of a node: the values that its own application set and the telegrams that it acted on, in their
    /// order.
    pub fn journal(&self, node: usize) -> &[Entry]
        requires in_range { node < length self.now.world.nodes }
        ensures journal { result.now ≡ journal_of node self.now.history }
    {
        self.places[node].journal()
    }

    /// The octets of the telegram with this number, lost or not. None is 0 and a number that no telegram has yet.
    pub fn telegram(&self, number: u32) -> Option<&[u8]>
        ensures telegram { option_map (λ octets. octets.now) result
            ≡ option_map (λ t. t.octets) (telegram_in self.now.world.air number) }
    {
        match telegram_in(&self.air, number) {
            Some(telegram) => Some(telegram.octets()),
            None => None,
        }
    }

    /// Whether the telegram with this number is lost.
    pub fn is_lost(&self, number: u32) -> bool
        ensures lost { result ≡ is_lost_in self.now.world.air number }
    {
        match telegram_in(&self.air, number) {
            Some(telegram) => telegram.is_lost(),
            None => false,
        }
    }

    /// The octets of a node's memory.
    pub fn image(&self, node: usize) -> &[u8]
        requires in_range { node < length self.now.world.nodes }
        ensures octets { result.now ≡ (node_in self.now.world node).octets }
    {
        self.places[node].image()
    }

    /// Whether a node is running.
    pub fn is_running(&self, node: usize) -> bool
        requires in_range { node < length self.now.world.nodes }
        ensures running { result ≡ is_some (node_in self.now.world node).standing }
    {
        self.places[node].is_running()
    }
}
