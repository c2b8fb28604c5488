ghost use Rattle.std.specs.Prelude.{◌≡◌, ◌≤◌, ◌<◌, length, true, false, Some, None, IfSome, MatchOption};
ghost use Rattle.cemi_frames.specs.Frames.{telegram};
ghost use Rattle.secure_apdu.specs.Sync.{sync_values};
ghost use Rattle.key_tables.specs.Rows.{role_of, receiver_may};
ghost use Rattle.judge_rules.specs.Parts.{sync_service, source_of, service_in};
ghost use Rattle.judge_rules.specs.Checks.{check_payload, check_sender, opened_checks, last_checks, data_checks, good_verdict, verdict_or, first_failing, lane_in, verdict_on, verdict_of, kept_of, kept_on, kept_by, opened_on, opened_by, is_ask, is_good, IsEntitled};

use crate::data::service_in;
use crate::entered::{ANSWER, DATA, Entered, REQUEST};
use crate::{Entry, Judgement, Verdict};
use cemi_frames::Frame;
use key_tables::{Channel, Lane, Role, Tables};
use knx_base::{IndAddr, Number48};
use secure_apdu::{ApduBuf, open_frame, sync_values};

/// Judges a frame under the mark of its lane, and the challenge that is open or none. Where the code is right `apdu`
/// has the APDU that was opened; else it is empty.
pub fn judge(
    tables: &Tables,
    kept: Number48,
    asked: Option<[u8; 6]>,
    frame: &Frame<'_>,
    apdu: &mut ApduBuf,
) -> Judgement
    ensures verdict { result.verdict ≡ verdict_of tables.now kept asked (telegram frame.now) }
    ensures keeps { result.keeps ≡ kept_by tables.now kept asked (telegram frame.now) }
    ensures lane { IfSome result.keeps (λ keeps. lane_in tables.now (telegram frame.now) ≡ Some keeps.0) }
    ensures above { IfSome result.keeps (λ keeps. kept < keeps.1) }
    ensures ask_keeps_nothing { is_ask result.verdict ≡ true → result.keeps ≡ None }
    ensures opened { apdu.new ≡ opened_by tables.now asked (telegram frame.now) }
    ensures entitled { is_good result.verdict ≡ true → IsEntitled tables.now (telegram frame.now) }
    ensures two { is_good result.verdict ≡ true → 2 ≤ length apdu.new }
{
    Entry::enter(tables, frame).judge(kept, asked, apdu)
}

pub(crate) fn refused(verdict: Verdict) -> Judgement
    ensures verdict { result.verdict ≡ verdict }
    ensures keeps { result.keeps ≡ None }
{
    Judgement {
        verdict,
        keeps: None,
    }
}

impl Entered<'_, '_> {
    /// Judges the frame, as `Entry` does.
    #[tactic(auto, unfolding(crate::specs::Checks::verdict_of, crate::specs::Checks::kept_by, crate::specs::Checks::opened_by))]
    pub(crate) fn judge(
        &self,
        kept: Number48,
        asked: Option<[u8; 6]>,
        apdu: &mut ApduBuf,
    ) -> Judgement
        ensures verdict { result.verdict ≡ verdict_of self.now.tables.now kept asked (telegram self.now.frame) }
        ensures keeps { result.keeps ≡ kept_by self.now.tables.now kept asked (telegram self.now.frame) }
        ensures opened { apdu.new ≡ opened_by self.now.tables.now asked (telegram self.now.frame) }
        ensures entitled { is_good result.verdict ≡ true → IsEntitled self.now.tables.now (telegram self.now.frame) }
        ensures two { is_good result.verdict ≡ true → 2 ≤ length apdu.new }
    {
        apdu.clear();
        match self.number(asked) {
            Some(number) => self.judge_under(kept, number, apdu),
            None => refused(Verdict::NoPending),
        }
    }

    // The judgement of the frame as one that was sealed under this number.
    fn judge_under(&self, kept: Number48, number: Number48, apdu: &mut ApduBuf) -> Judgement
        ensures verdict { result.verdict ≡ verdict_on self.now.tables.now kept number self.now.channel
            (telegram self.now.frame) }
        ensures keeps { result.keeps ≡ kept_on self.now.tables.now kept number self.now.channel
            (telegram self.now.frame) }
        ensures opened { apdu.new ≡ opened_on self.now.tables.now number self.now.channel (telegram self.now.frame) }
        ensures sender { is_good result.verdict ≡ true → check_sender self.now.tables.now self.now.channel
            (telegram self.now.frame) ≡ None }
        ensures two { is_good result.verdict ≡ true → 2 ≤ length apdu.new }
    {
        match open_frame(self.key, &self.frame, &self.secure, number, apdu) {
            Ok(()) => self.judge_opened(kept, number, apdu.bytes()),
            Err(codes) => refused(Verdict::BadCode(codes)),
        }
    }

    // The judgement of a frame whose code is right.
    fn judge_opened(&self, kept: Number48, number: Number48, apdu: &[u8]) -> Judgement
        requires two { 2 ≤ length apdu.now }
        requires six { sync_service (telegram self.now.frame) ≡ 2 → length apdu.now ≡ 6 }
        requires twelve { (sync_service (telegram self.now.frame) ≡ 0 → ⊥)
            → (sync_service (telegram self.now.frame) ≡ 2 → ⊥) → length apdu.now ≡ 12 }
        ensures refused { (failed : Verdict) → first_failing (opened_checks self.now.tables.now number self.now.channel
            (telegram self.now.frame) apdu.now) ≡ Some failed
            → (result.verdict ≡ failed) × (result.keeps ≡ None) }
        ensures passed { first_failing (opened_checks self.now.tables.now number self.now.channel
            (telegram self.now.frame) apdu.now) ≡ None
            → (result.verdict ≡ verdict_or (good_verdict number (telegram self.now.frame) apdu.now)
            (first_failing (last_checks self.now.tables.now kept number self.now.channel (telegram self.now.frame)
            apdu.now)))
            × (result.keeps ≡ kept_of kept number self.now.channel (telegram self.now.frame)) }
        ensures sender { is_good result.verdict ≡ true → check_sender self.now.tables.now self.now.channel
            (telegram self.now.frame) ≡ None }
    {
        if let Some(verdict) = self.payload_refusal(number, apdu) {
            return refused(verdict);
        }
        match self.sender_role() {
            Some(role) => Judgement {
                verdict: self.last_verdict(kept, number, role, apdu),
                keeps: self.keeps(kept, number),
            },
            None => refused(Verdict::Sender),
        }
    }

    fn payload_refusal(&self, number: Number48, apdu: &[u8]) -> Option<Verdict>
        requires twelve { sync_service (telegram self.now.frame) ≡ 3 → length apdu.now ≡ 12 }
        ensures check { result ≡ check_payload number (telegram self.now.frame) apdu.now }
        ensures bad { IfSome result (λ verdict. is_good verdict ≡ false) }
    {
        if self.service() != ANSWER {
            return None;
        }
        let (said, _) = values_of(apdu);
        if said == number {
            return None;
        }
        Some(Verdict::BadPayload { said, number })
    }

    // The role of the source, where it may send on the channel and the destination is on it.
    fn sender_role(&self) -> Option<Role>
        ensures { MatchOption result
            (check_sender self.now.tables.now self.now.channel (telegram self.now.frame) ≡ Some Verdict.Sender)
            (λ role. (check_sender self.now.tables.now self.now.channel (telegram self.now.frame) ≡ None)
            × (role_of self.now.tables.now self.now.channel (source_of (telegram self.now.frame)) ≡ Some role)) }
    {
        let role = self.tables.role(self.channel, self.frame.source)?;
        if receiver_may(self.tables, self.frame.destination, self.channel) {
            Some(role)
        } else {
            None
        }
    }

    // The verdict on a frame that was opened and whose sender may send.
    fn last_verdict(&self, kept: Number48, number: Number48, role: Role, apdu: &[u8]) -> Verdict
        requires role { role_of self.now.tables.now self.now.channel (source_of (telegram self.now.frame)) ≡ Some role }
        requires two { 2 ≤ length apdu.now }
        requires six { sync_service (telegram self.now.frame) ≡ 2 → length apdu.now ≡ 6 }
        requires twelve { (sync_service (telegram self.now.frame) ≡ 0 → ⊥)
            → (sync_service (telegram self.now.frame) ≡ 2 → ⊥) → length apdu.now ≡ 12 }
        ensures { result ≡ verdict_or (good_verdict number (telegram self.now.frame) apdu.now)
            (first_failing (last_checks self.now.tables.now kept number self.now.channel (telegram self.now.frame)
            apdu.now)) }
    {
        match self.service() {
            DATA => self.data_verdict(kept, number, role, apdu),
            REQUEST => Verdict::SyncAsk {
                number,
                challenge: six_of(apdu),
            },
            _ => {
                let (_, kept) = values_of(apdu);
                Verdict::SyncAnswer { number, kept }
            }
        }
    }

    fn data_verdict(&self, kept: Number48, number: Number48, role: Role, apdu: &[u8]) -> Verdict
        requires role { role_of self.now.tables.now self.now.channel (source_of (telegram self.now.frame)) ≡ Some role }
        requires two { 2 ≤ length apdu.now }
        ensures { result ≡ verdict_or (Verdict.Accepted number (service_in apdu.now))
            (first_failing (data_checks self.now.tables.now kept number self.now.channel (telegram self.now.frame)
            apdu.now)) }
    {
        match self.data_refusal(kept, number, role, apdu) {
            Some(verdict) => verdict,
            None => Verdict::Accepted {
                number,
                service: service_in(apdu),
            },
        }
    }

    // The lane and the number that are kept of a frame whose code is right and whose sender may send.
    fn keeps(&self, kept: Number48, number: Number48) -> Option<(Lane, Number48)>
        ensures { result ≡ kept_of kept number self.now.channel (telegram self.now.frame) }
    {
        if self.service() == REQUEST || number <= kept {
            return None;
        }
        Some((self.lane(), number))
    }
}

// The two numbers of an answer's payload.
fn values_of(payload: &[u8]) -> (Number48, Number48)
    requires { length payload.now ≡ 12 }
    ensures { result ≡ sync_values payload.now }
{
    let mut octets = [0; 12];
    octets.copy_from_slice(payload);
    sync_values(&octets)
}

fn six_of(octets: &[u8]) -> [u8; 6]
    requires { length octets.now ≡ 6 }
    ensures { result ≡ octets.now }
{
    [
        octets[0], octets[1], octets[2], octets[3], octets[4], octets[5],
    ]
}

fn receiver_may(tables: &Tables, destination: u16, channel: Channel) -> bool
    ensures { result ≡ receiver_may tables.now destination channel }
{
    match channel {
        Channel::Group(_) => true,
        Channel::Tool(_) => {
            tables.key(Channel::Tool(IndAddr(destination))).is_some()
                || tables.role(channel, IndAddr(destination)).is_some()
        }
    }
}
