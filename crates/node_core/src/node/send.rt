ghost use Rattle.std.specs.Prelude.{◌≡◌, ◌≢◌, ◌≤◌, Some, true, length};
ghost use Rattle.std.specs.Result.{result_err};
ghost use Rattle.nvm_model.specs.Nvm.{State};
ghost use Rattle.seq_store.specs.Runs.{Runs};
ghost use Rattle.group_objects.specs.Apdus.{service_apdu};
ghost use Rattle.node_core.specs.Laws.{LeavesRaised};
ghost use Rattle.node_core.specs.Message.{message_frame, IsSendable};
ghost use Rattle.node_core.specs.Node.{node_state, send_stop, Does};
ghost use Rattle.node_core.specs.Sending.{send_transition, object_transition, group_transition, tool_transition, ask_transition, set_transition, on_channel};

use crate::message::Message;
use crate::{Node, SendFault};
use group_objects::{ObjectRow, SendService, SetFault, Value};
use key_tables::Channel;
use knx_base::{GroupAddr, IndAddr, Number48};
use nvm_model::Nvm;
use secure_apdu::FrameBuf;
use seq_store::DrawFault;

// The control field of data with tool access, encrypted.
const TOOL: u8 = 0x90;

impl<M: Nvm> Node<M> {
    /// Gives an object a value, in working memory alone. It is refused as [`group_objects::Objects::set`] refuses it.
    pub fn set(&mut self, object: usize, value: Value) -> Result<(), SetFault>
        requires running { (node_state self.old).running ≡ true }
        ensures outcome { result_err result ≡ (set_transition (node_state self.old).standing object value).outcome }
        ensures after { let old = node_state self.old in
            node_state self.new ≡ record old { standing = (set_transition old.standing object value).after } }
    {
        self.config.objects.set(object, value)
    }

    /// Seals a telegram of this service for an object into `out`, under the next number.
    ///
    /// Refused are, in this order, an object that is not there, one that sends nothing, a group without a key, and a
    /// call when all numbers are drawn. Memory comes only where the number was not reserved, as the memory answered.
    #[tactic(auto, using(crate::proofs::Raising::send_raised))]
    pub fn send(
        &mut self,
        object: usize,
        service: SendService,
        out: &mut FrameBuf,
    ) -> Result<Number48, SendFault>
        requires running { (node_state self.old).running ≡ true }
        ensures does { let old = node_state self.old in
            Does (send_transition old.config old.standing object service) (send_stop result) result
            old (node_state self.new) out.old out.new }
        ensures runs { let old = node_state self.old in let new = node_state self.new in
            Runs old.standing.numbers (send_transition old.config old.standing object service).raises (send_stop result)
            (M.state old.memory) (M.state new.memory) (M.images old.memory) (M.images new.memory) }
        ensures numbers { let old = node_state self.old in
            LeavesRaised (send_transition old.config old.standing object service) old.standing }
    {
        match (self.config.row(object), self.value(object)) {
            (Some(row), Some(value)) => self.send_object(row, value, service, out),
            _ => Err(SendFault::NoObject),
        }
    }

    fn send_object(
        &mut self,
        row: ObjectRow,
        value: Value,
        service: SendService,
        out: &mut FrameBuf,
    ) -> Result<Number48, SendFault>
        requires running { (node_state self.old).running ≡ true }
        ensures does { let old = node_state self.old in
            Does (object_transition old.config old.standing (Some row) (Some value) service) (send_stop result) result
            old (node_state self.new) out.old out.new }
        ensures runs { let old = node_state self.old in let new = node_state self.new in
            Runs old.standing.numbers (object_transition old.config old.standing (Some row) (Some value) service).raises
            (send_stop result) (M.state old.memory) (M.state new.memory) (M.images old.memory) (M.images new.memory) }
    {
        if !row.flags.transmits {
            return Err(SendFault::Flag);
        }
        self.send_value(row.group, service, value, out)
    }

    // Seals a telegram of this service with a value for a group.
    pub(crate) fn send_value(
        &mut self,
        group: GroupAddr,
        service: SendService,
        value: Value,
        out: &mut FrameBuf,
    ) -> Result<Number48, SendFault>
        requires running { (node_state self.old).running ≡ true }
        ensures does { let old = node_state self.old in
            Does (group_transition old.config old.standing group (service_apdu service value)) (send_stop result) result
            old (node_state self.new) out.old out.new }
        ensures runs { let old = node_state self.old in let new = node_state self.new in
            Runs old.standing.numbers
            (group_transition old.config old.standing group (service_apdu service value)).raises
            (send_stop result) (M.state old.memory) (M.state new.memory) (M.images old.memory) (M.images new.memory) }
    {
        let mut apdu = [0; 16];
        let size = service.write_apdu(&value, &mut apdu);
        self.send_group(group, &apdu[..size], out)
    }

    // Seals an APDU for a group.
    fn send_group(
        &mut self,
        group: GroupAddr,
        apdu: &[u8],
        out: &mut FrameBuf,
    ) -> Result<Number48, SendFault>
        requires running { (node_state self.old).running ≡ true }
        requires some { 2 ≤ length apdu.now }
        requires short { length apdu.now ≤ 242 }
        ensures does { let old = node_state self.old in
            Does (group_transition old.config old.standing group apdu.now) (send_stop result) result
            old (node_state self.new) out.old out.new }
        ensures runs { let old = node_state self.old in let new = node_state self.new in
            Runs old.standing.numbers (group_transition old.config old.standing group apdu.now).raises
            (send_stop result)
            (M.state old.memory) (M.state new.memory) (M.images old.memory) (M.images new.memory) }
    {
        let message = Message::Data {
            destination: group.0,
            group: true,
            field: self.config.group_field(group),
            apdu,
        };
        self.seal(Some(Channel::Group(group)), &message, out)
    }

    /// Seals an APDU of 2 to 16 octets for a device into `out`, with tool access and encrypted, under the next number
    /// and the key of that device or, where it has none, of the node itself. Without either it is refused as NoKey,
    /// then where all numbers are drawn. Memory comes only where the number was not reserved, as the memory answered.
    #[tactic(auto, using(crate::proofs::Raising::tool_raised))]
    pub fn send_tool(
        &mut self,
        to: IndAddr,
        apdu: &[u8],
        out: &mut FrameBuf,
    ) -> Result<Number48, SendFault>
        requires running { (node_state self.old).running ≡ true }
        requires some { 2 ≤ length apdu.now }
        requires short { length apdu.now ≤ 16 }
        ensures does { let old = node_state self.old in
            Does (tool_transition old.config old.standing to apdu.now) (send_stop result) result
            old (node_state self.new) out.old out.new }
        ensures runs { let old = node_state self.old in let new = node_state self.new in
            Runs old.standing.numbers (tool_transition old.config old.standing to apdu.now).raises (send_stop result)
            (M.state old.memory) (M.state new.memory) (M.images old.memory) (M.images new.memory) }
        ensures numbers { let old = node_state self.old in
            LeavesRaised (tool_transition old.config old.standing to apdu.now) old.standing }
    {
        let message = Message::Data {
            destination: to.0,
            group: false,
            field: TOOL,
            apdu,
        };
        let channel = self.config.device_channel(to);
        self.seal(channel, &message, out)
    }

    /// Seals a request of a synchronisation for a device into `out`, under the next number. Its challenge is then the
    /// one that is open. It is refused as [`Node::send_tool`] refuses an APDU, and then the challenge that was open
    /// stays open.
    #[tactic(auto, using(crate::proofs::Raising::ask_raised))]
    pub fn ask(
        &mut self,
        to: IndAddr,
        challenge: [u8; 6],
        out: &mut FrameBuf,
    ) -> Result<Number48, SendFault>
        requires running { (node_state self.old).running ≡ true }
        ensures does { let old = node_state self.old in
            Does (ask_transition old.config old.standing to challenge) (send_stop result) result
            old (node_state self.new) out.old out.new }
        ensures runs { let old = node_state self.old in let new = node_state self.new in
            Runs old.standing.numbers (ask_transition old.config old.standing to challenge).raises (send_stop result)
            (M.state old.memory) (M.state new.memory) (M.images old.memory) (M.images new.memory) }
        ensures numbers { let old = node_state self.old in
            LeavesRaised (ask_transition old.config old.standing to challenge) old.standing }
    {
        let channel = self.config.device_channel(to);
        let message = Message::Ask { to, challenge };
        match self.seal(channel, &message, out) {
            Ok(number) => {
                self.pending.open(to, challenge);
                Ok(number)
            }
            Err(fault) => Err(fault),
        }
    }

    // Draws a number, and seals a message under it and the key of this channel.
    pub(crate) fn seal(
        &mut self,
        channel: Option<Channel>,
        message: &Message<'_>,
        out: &mut FrameBuf,
    ) -> Result<Number48, SendFault>
        requires running { (node_state self.old).running ≡ true }
        requires sendable { IsSendable message.now }
        ensures does { let old = node_state self.old in
            Does (on_channel old.config old.standing channel (message_frame old.config.address message.now))
            (send_stop result) result
            old (node_state self.new) out.old out.new }
        ensures runs { let old = node_state self.old in let new = node_state self.new in
            Runs old.standing.numbers
            (on_channel old.config old.standing channel (message_frame old.config.address message.now)).raises
            (send_stop result)
            (M.state old.memory) (M.state new.memory) (M.images old.memory) (M.images new.memory) }
    {
        let config = &self.config;
        let Some(channel) = channel else {
            return Err(SendFault::NoKey);
        };
        let Some(key) = config.tables.expanded_key(channel) else {
            return Err(SendFault::NoKey);
        };
        let number = match self.store.draw() {
            Ok(number) => number,
            Err(DrawFault::Exhausted) => return Err(SendFault::Exhausted),
            Err(DrawFault::Memory(fault)) => return Err(SendFault::Memory(fault)),
        };
        message.seal(key, config.address, number, out);
        Ok(number)
    }
}
