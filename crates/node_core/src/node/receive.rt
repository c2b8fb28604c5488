ghost use Rattle.std.specs.Prelude.{◌≡◌, ◌≢◌, ◌<◌, ◌≤◌, ◌↔◌, ℕ, Option, Some, None, true, length, IfSome, IsTrue, IsOk, OnOk};
ghost use Rattle.std.specs.Option.{option_and_then};
ghost use Rattle.nvm_model.specs.Nvm.{State, fault_of};
ghost use Rattle.seq_store.specs.Runs.{Runs};
ghost use Rattle.cemi_frames.specs.Frames.{telegram};
ghost use Rattle.judge_rules.specs.Checks.{lane_in, verdict_of, kept_by, opened_by};
ghost use Rattle.judge_rules.specs.Parts.{source_of};
ghost use Rattle.sync_service.specs.Open.{asked_of};
ghost use Rattle.node_core.specs.Laws.{LeavesRaised, HasItsCause};
ghost use Rattle.node_core.specs.Node.{node_state, receive_stop, Does};
ghost use Rattle.node_core.specs.Receiving.{receive_transition, addressed_transition, telegram_transition, addressee, kept_raises};
ghost use Rattle.node_core.specs.Standing.{raised, place_in, mark_at};

use crate::outcome::Addressee;
use crate::{Node, Outcome};
use cemi_frames::{Frame, read_frame};
use judge_rules::{Entry, Judgement, Verdict};
use key_tables::Lane;
use knx_base::Number48;
use nvm_model::{Nvm, NvmFault};
use secure_apdu::{ApduBuf, FrameBuf};

// The lane of a frame, the place of its mark, and the judgement under that mark.
#[derive(Clone, Copy)]
struct Judged {
    lane: Option<Lane>,
    place: Option<usize>,
    judgement: Judgement,
}

impl<M: Nvm> Node<M> {
    /// Receives the octets of a recorded frame. A reply is sealed into `out`; without one `out` is as before.
    ///
    /// What is no frame is refused first; then a frame for others is ignored; then the checks are applied. The mark
    /// of the telegram's lane is raised before anything else is done. There are at most two operations of the memory:
    /// that raise, and the draw for a reply.
    #[tactic(auto, using(crate::proofs::Raising::receive_raised))]
    pub fn receive(&mut self, octets: &[u8], out: &mut FrameBuf) -> Outcome
        requires running { (node_state self.old).running ≡ true }
        ensures does { let old = node_state self.old in
            Does (receive_transition old.config old.standing octets.now) (receive_stop result) result
            old (node_state self.new) out.old out.new }
        ensures runs { let old = node_state self.old in let new = node_state self.new in
            Runs old.standing.numbers (receive_transition old.config old.standing octets.now).raises
            (receive_stop result)
            (M.state old.memory) (M.state new.memory) (M.images old.memory) (M.images new.memory) }
        ensures numbers { let old = node_state self.old in
            LeavesRaised (receive_transition old.config old.standing octets.now) old.standing }
        ensures cause { let old = node_state self.old in
            HasItsCause old.config old.standing.next octets.now result }
    {
        self.receive_octets(octets, out)
    }

    fn receive_octets(&mut self, octets: &[u8], out: &mut FrameBuf) -> Outcome
        requires running { (node_state self.old).running ≡ true }
        ensures does { let old = node_state self.old in
            Does (receive_transition old.config old.standing octets.now) (receive_stop result) result
            old (node_state self.new) out.old out.new }
        ensures runs { let old = node_state self.old in let new = node_state self.new in
            Runs old.standing.numbers (receive_transition old.config old.standing octets.now).raises
            (receive_stop result)
            (M.state old.memory) (M.state new.memory) (M.images old.memory) (M.images new.memory) }
    {
        match read_frame(octets) {
            Ok(frame) => self.receive_frame(&frame, out),
            Err(fault) => Outcome::Refused(Verdict::NotFrame(fault)),
        }
    }

    fn receive_frame(&mut self, frame: &Frame<'_>, out: &mut FrameBuf) -> Outcome
        requires running { (node_state self.old).running ≡ true }
        ensures does { let old = node_state self.old in
            Does (addressed_transition old.config old.standing (telegram frame.now)
            (addressee old.config (telegram frame.now)))
            (receive_stop result) result old (node_state self.new) out.old out.new }
        ensures runs { let old = node_state self.old in let new = node_state self.new in
            Runs old.standing.numbers
            (addressed_transition old.config old.standing (telegram frame.now)
            (addressee old.config (telegram frame.now))).raises
            (receive_stop result)
            (M.state old.memory) (M.state new.memory) (M.images old.memory) (M.images new.memory) }
    {
        match self.config.addressee(frame) {
            Some(to) => self.receive_addressed(frame, to, out),
            None => Outcome::Ignored,
        }
    }

    fn receive_addressed(&mut self, frame: &Frame<'_>, to: Addressee, out: &mut FrameBuf) -> Outcome
        requires running { (node_state self.old).running ≡ true }
        ensures does { let old = node_state self.old in let t = telegram frame.now in
            Does (telegram_transition old.config old.standing t to (lane_in old.config.rows t))
            (receive_stop result) result old (node_state self.new) out.old out.new }
        ensures runs { let old = node_state self.old in let new = node_state self.new in let t = telegram frame.now in
            Runs old.standing.numbers
            (telegram_transition old.config old.standing t to (lane_in old.config.rows t)).raises
            (receive_stop result)
            (M.state old.memory) (M.state new.memory) (M.images old.memory) (M.images new.memory) }
    {
        let mut apdu = ApduBuf::new();
        let Judged {
            lane,
            place,
            judgement,
        } = self.judged(frame, &mut apdu);
        let Some(lane) = lane else {
            return Outcome::Refused(judgement.verdict);
        };
        match self.keep(place, judgement.keeps) {
            Ok(()) => self.act_on_verdict(
                frame.source,
                to,
                lane,
                judgement.verdict,
                apdu.bytes(),
                out,
            ),
            Err(fault) => Outcome::Stopped(fault),
        }
    }

    fn judged(&self, frame: &Frame<'_>, apdu: &mut ApduBuf) -> Judged
        ensures lane { result.lane ≡ lane_in (node_state self.now).config.rows (telegram frame.now) }
        ensures place { result.place ≡ option_and_then (place_in (node_state self.now).config) result.lane }
        ensures in_range { IfSome result.place
            (λ place. place < length (node_state self.now).standing.numbers.marks) }
        ensures verdict { let node = node_state self.now in let t = telegram frame.now in
            result.judgement.verdict ≡ verdict_of node.config.rows (mark_at node.standing.numbers.marks result.place)
            (asked_of node.standing.pending (source_of t)) t }
        ensures keeps { let node = node_state self.now in let t = telegram frame.now in
            result.judgement.keeps ≡ kept_by node.config.rows (mark_at node.standing.numbers.marks result.place)
            (asked_of node.standing.pending (source_of t)) t }
        ensures above { IfSome result.judgement.keeps
            (λ keeps. mark_at (node_state self.now).standing.numbers.marks result.place < keeps.1) }
        ensures opened { let node = node_state self.now in let t = telegram frame.now in
            apdu.new ≡ opened_by node.config.rows (asked_of node.standing.pending (source_of t)) t }
    {
        let entry = Entry::enter(&self.config.tables, frame);
        let lane = entry.lane();
        let place = self.place(lane);
        let asked = self.pending.asked(frame.source);
        Judged {
            lane,
            place,
            judgement: entry.judge(self.mark_at(place), asked, apdu),
        }
    }

    // The place of a lane's mark.
    fn place(&self, lane: Option<Lane>) -> Option<usize>
        ensures place { result ≡ option_and_then (place_in (node_state self.now).config) lane }
        ensures in_range { IfSome result (λ place. place < length (node_state self.now).standing.numbers.marks) }
    {
        match lane {
            Some(lane) => self.config.place(lane),
            None => None,
        }
    }

    // The mark at a place, 0 where there is none.
    #[tactic(auto, unfolding(knx_base::specs::Number::number_at))]
    pub(crate) fn mark_at(&self, place: Option<usize>) -> Number48
        requires in_range { IfSome place (λ place. place < length (node_state self.now).standing.numbers.marks) }
        ensures mark { result ≡ mark_at (node_state self.now).standing.numbers.marks place }
    {
        match place {
            Some(lane) => self.store.mark(lane),
            None => Number48::from_bytes([0; 6]),
        }
    }

    // Raises the mark at this place to the number that is kept.
    fn keep(&mut self, place: Option<usize>, kept: Option<(Lane, Number48)>) -> Result<(), NvmFault>
        requires running { (node_state self.old).running ≡ true }
        requires in_range { IfSome place (λ place. place < length (node_state self.old).standing.numbers.marks) }
        requires above { IfSome kept (λ kept. mark_at (node_state self.old).standing.numbers.marks place < kept.1) }
        ensures runs { let old = node_state self.old in let new = node_state self.new in
            Runs old.standing.numbers (kept_raises place kept) (fault_of result)
            (M.state old.memory) (M.state new.memory) (M.images old.memory) (M.images new.memory) }
        ensures kept { OnOk result (let old = node_state self.old in
            (node_state self.new).standing ≡ raised (kept_raises place kept) old.standing) }
        ensures running { IsTrue (node_state self.new).running ↔ IsOk result }
        ensures config { (node_state self.new).config ≡ (node_state self.old).config }
        ensures values { (node_state self.new).standing.values ≡ (node_state self.old).standing.values }
        ensures pending { (node_state self.new).standing.pending ≡ (node_state self.old).standing.pending }
    {
        match (place, kept) {
            (Some(lane), Some((_, number))) => self.store.raise(lane, number),
            _ => Ok(()),
        }
    }
}
