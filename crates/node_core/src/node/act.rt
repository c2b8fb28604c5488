ghost use Rattle.std.specs.Prelude.{◌≡◌, ◌≢◌, ◌<◌, ◌≤◌, ℕ, Option, Some, None, Ok, true, length, slice_get};
ghost use Rattle.nvm_model.specs.Nvm.{State};
ghost use Rattle.seq_store.specs.Runs.{Runs};
ghost use Rattle.group_objects.specs.Effects.{accepted, KeepsForm};
ghost use Rattle.node_core.specs.Node.{node_state, receive_stop, Does};
ghost use Rattle.node_core.specs.Receiving.{verdict_transition, act_transition, row_transition, effect_transition, reply_transition, answer_transition, synced_transition, mark_told, told_answer};

use crate::message::Message;
use crate::outcome::Addressee;
use crate::{Act, Node, Outcome, SendFault};
use group_objects::{Effect, ObjectRow, SendService, Value};
use judge_rules::Verdict;
use key_tables::Lane;
use knx_base::{GroupAddr, IndAddr, Number48};
use nvm_model::Nvm;
use plain_apdu::Service;
use secure_apdu::FrameBuf;

impl<M: Nvm> Node<M> {
    // Does what a telegram asks for, once its number is kept.
    pub(crate) fn act_on_verdict(
        &mut self,
        source: IndAddr,
        to: Addressee,
        lane: Lane,
        verdict: Verdict,
        apdu: &[u8],
        out: &mut FrameBuf,
    ) -> Outcome
        requires running { (node_state self.old).running ≡ true }
        requires short { length apdu.now ≤ 242 }
        ensures does { let old = node_state self.old in
            Does (verdict_transition old.config old.standing source to lane apdu.now verdict)
            (receive_stop result) result
            old (node_state self.new) out.old out.new }
        ensures runs { let old = node_state self.old in let new = node_state self.new in
            Runs old.standing.numbers
            (verdict_transition old.config old.standing source to lane apdu.now verdict).raises
            (receive_stop result)
            (M.state old.memory) (M.state new.memory) (M.images old.memory) (M.images new.memory) }
    {
        match verdict {
            Verdict::Accepted { number, service } => self.act(to, lane, number, service, apdu, out),
            Verdict::SyncAsk {
                number: _,
                challenge,
            } => self.answer(source, lane, challenge, out),
            Verdict::SyncAnswer { number, kept } => self.go_on_above(number, kept),
            refused => Outcome::Refused(refused),
        }
    }

    fn act(
        &mut self,
        to: Addressee,
        lane: Lane,
        number: Number48,
        service: Service,
        apdu: &[u8],
        out: &mut FrameBuf,
    ) -> Outcome
        requires running { (node_state self.old).running ≡ true }
        requires short { length apdu.now ≤ 242 }
        ensures does { let old = node_state self.old in
            Does (act_transition old.config old.standing to lane number service apdu.now) (receive_stop result) result
            old (node_state self.new) out.old out.new }
        ensures runs { let old = node_state self.old in let new = node_state self.new in
            Runs old.standing.numbers (act_transition old.config old.standing to lane number service apdu.now).raises
            (receive_stop result)
            (M.state old.memory) (M.state new.memory) (M.images old.memory) (M.images new.memory) }
    {
        match to {
            Addressee::Device => Outcome::Acted {
                number,
                lane,
                act: Act::Tool { service },
            },
            Addressee::Object(object) => self.act_on_object(number, lane, object, apdu, out),
        }
    }

    fn act_on_object(
        &mut self,
        number: Number48,
        lane: Lane,
        object: usize,
        apdu: &[u8],
        out: &mut FrameBuf,
    ) -> Outcome
        requires running { (node_state self.old).running ≡ true }
        requires short { length apdu.now ≤ 242 }
        ensures does { let old = node_state self.old in
            Does (row_transition old.config old.standing number lane object apdu.now
            (slice_get old.config.objects object))
            (receive_stop result) result old (node_state self.new) out.old out.new }
        ensures runs { let old = node_state self.old in let new = node_state self.new in
            Runs old.standing.numbers
            (row_transition old.config old.standing number lane object apdu.now
            (slice_get old.config.objects object)).raises
            (receive_stop result)
            (M.state old.memory) (M.state new.memory) (M.images old.memory) (M.images new.memory) }
    {
        match self.config.row(object) {
            Some(row) => self.take(number, lane, object, row, apdu, out),
            None => Outcome::Ignored,
        }
    }

    // Lets an object of this row take an APDU.
    fn take(
        &mut self,
        number: Number48,
        lane: Lane,
        object: usize,
        row: ObjectRow,
        apdu: &[u8],
        out: &mut FrameBuf,
    ) -> Outcome
        requires running { (node_state self.old).running ≡ true }
        requires short { length apdu.now ≤ 242 }
        requires row { slice_get (node_state self.old).config.objects object ≡ Some row }
        ensures does { let old = node_state self.old in
            Does (effect_transition old.config old.standing number lane object row (accepted row apdu.now))
            (receive_stop result) result old (node_state self.new) out.old out.new }
        ensures runs { let old = node_state self.old in let new = node_state self.new in
            Runs old.standing.numbers
            (effect_transition old.config old.standing number lane object row (accepted row apdu.now)).raises
            (receive_stop result)
            (M.state old.memory) (M.state new.memory) (M.images old.memory) (M.images new.memory) }
    {
        match row.accepts(apdu) {
            Ok(effect) => self.take_effect(number, lane, object, row, effect, out),
            Err(bad) => Outcome::Refused(Verdict::Object(bad)),
        }
    }

    fn take_effect(
        &mut self,
        number: Number48,
        lane: Lane,
        object: usize,
        row: ObjectRow,
        effect: Effect,
        out: &mut FrameBuf,
    ) -> Outcome
        requires running { (node_state self.old).running ≡ true }
        requires row { slice_get (node_state self.old).config.objects object ≡ Some row }
        requires form { KeepsForm row.value effect }
        ensures does { let old = node_state self.old in
            Does (effect_transition old.config old.standing number lane object row (Ok effect))
            (receive_stop result) result old (node_state self.new) out.old out.new }
        ensures runs { let old = node_state self.old in let new = node_state self.new in
            Runs old.standing.numbers
            (effect_transition old.config old.standing number lane object row (Ok effect)).raises
            (receive_stop result)
            (M.state old.memory) (M.state new.memory) (M.images old.memory) (M.images new.memory) }
    {
        match effect {
            Effect::Read => self.reply(number, lane, object, row.group, out),
            Effect::Write(value) => {
                self.config.objects.put(object, value);
                Outcome::Acted {
                    number,
                    lane,
                    act: Act::Write { object, value },
                }
            }
            Effect::Response(value) => {
                self.config.objects.put(object, value);
                Outcome::Acted {
                    number,
                    lane,
                    act: Act::Response { object, value },
                }
            }
        }
    }

    // Sends the value of an object to its group, as one that was read.
    fn reply(
        &mut self,
        number: Number48,
        lane: Lane,
        object: usize,
        group: GroupAddr,
        out: &mut FrameBuf,
    ) -> Outcome
        requires running { (node_state self.old).running ≡ true }
        ensures does { let old = node_state self.old in
            Does (reply_transition old.config old.standing number lane object group
            (slice_get old.standing.values object))
            (receive_stop result) result old (node_state self.new) out.old out.new }
        ensures runs { let old = node_state self.old in let new = node_state self.new in
            Runs old.standing.numbers
            (reply_transition old.config old.standing number lane object group
            (slice_get old.standing.values object)).raises
            (receive_stop result)
            (M.state old.memory) (M.state new.memory) (M.images old.memory) (M.images new.memory) }
    {
        let Some(value) = self.value(object) else {
            return Outcome::Ignored;
        };
        let reply = match self.send_value(group, SendService::Response, value, out) {
            Ok(reply) => Some(reply),
            Err(SendFault::Memory(fault)) => return Outcome::Stopped(fault),
            Err(_) => None,
        };
        Outcome::Acted {
            number,
            lane,
            act: Act::Read { object, reply },
        }
    }

    // Answers a request of a synchronisation.
    fn answer(
        &mut self,
        source: IndAddr,
        lane: Lane,
        challenge: [u8; 6],
        out: &mut FrameBuf,
    ) -> Outcome
        requires running { (node_state self.old).running ≡ true }
        ensures does { let old = node_state self.old in
            Does (told_answer challenge (answer_transition old.config old.standing source challenge
            (mark_told old.config old.standing source lane)))
            (receive_stop result) result old (node_state self.new) out.old out.new }
        ensures runs { let old = node_state self.old in let new = node_state self.new in
            Runs old.standing.numbers
            (answer_transition old.config old.standing source challenge
            (mark_told old.config old.standing source lane)).raises (receive_stop result)
            (M.state old.memory) (M.state new.memory) (M.images old.memory) (M.images new.memory) }
    {
        let message = Message::Answer {
            to: source,
            challenge,
            kept: self.mark_told(source, lane),
        };
        let channel = self.config.device_channel(source);
        let reply = match self.seal(channel, &message, out) {
            Ok(reply) => Some(reply),
            Err(SendFault::Memory(fault)) => return Outcome::Stopped(fault),
            Err(_) => None,
        };
        Outcome::Answered { challenge, reply }
    }

    // The greater of a requester's marks, for groups and on this lane.
    fn mark_told(&self, requester: IndAddr, lane: Lane) -> Number48
        ensures mark { let node = node_state self.now in result ≡ mark_told node.config node.standing requester lane }
    {
        let group_mark = self.mark_at(self.config.place(Lane::Run(requester)));
        let lane_mark = self.mark_at(self.config.place(lane));
        group_mark.max(lane_mark)
    }

    // Takes the answer of a synchronisation: numbers go on above the one that was kept.
    fn go_on_above(&mut self, number: Number48, kept: Number48) -> Outcome
        requires running { (node_state self.old).running ≡ true }
        ensures outcome { result ≡ (synced_transition (node_state self.old).standing number kept).outcome }
        ensures after { let old = node_state self.old in
            node_state self.new ≡ record old { standing = (synced_transition old.standing number kept).after } }
    {
        self.store.raise_next(kept);
        self.pending.close();
        Outcome::Synced {
            number,
            kept,
            next: self.store.next(),
        }
    }
}
