ghost use Rattle.std.specs.Prelude.{◌≡◌, ◌<◌, ◌≤◌, ◌/◌, ◌%◌, ◌==◌, [], ◌∷◌, length, true, false, Some, None, MatchResult, MatchOption, OnOk, IfSome, IfOk, IfErr};
ghost use Rattle.std.specs.Option.{option_or};
ghost use Rattle.cemi_frames.specs.Frames.{telegram};
ghost use Rattle.secure_apdu.specs.Secure.{is_secure, bad_secure, HasParts};
ghost use Rattle.key_tables.specs.Rows.{key_of, keyed};
ghost use Rattle.judge_rules.specs.Parts.{field_in, channel_in};
ghost use Rattle.judge_rules.specs.Checks.{check_control, check_plain, plain_service, secure_checks, lane_in, first_failing, verdict_of, kept_by, opened_by, is_ask, is_good, IsEntitled};
ghost use Rattle.judge_rules.specs.Entry.{Entering};
ghost use Rattle.judge_rules.specs.Seen.{seen};

use crate::entered::{Entered, Refused};
use crate::judgement::refused;
use crate::{Judgement, Verdict};
use aes_modes::Key128;
use cemi_frames::Frame;
use key_tables::{Channel, Lane, Tables};
use knx_base::{GroupAddr, IndAddr, Number48};
use plain_apdu::{Service, Tpci, service_of};
use secure_apdu::{ApduBuf, Secure, is_secure, read_secure};
use std::marker::Model;

/// What a first look at a frame found: its parts and its channel with the key, or the check that it fails. It is judged
/// under the mark of its lane without another look.
#[derive(Drop)]
pub struct Entry<'f, 't> {
    found: Result<Entered<'f, 't>, Refused<'f, 't>>,
}

impl<'f, 't> Model for Entry<'f, 't> {
    ghost use Rattle.judge_rules.specs.Entry.{Entering};
    ghost use Rattle.judge_rules.specs.Seen.{seen};

    ghost Value = { Entering };

    ghost view = { λ entry. seen entry.found };
}

impl<'f, 't> Entry<'f, 't> {
    /// Looks at a frame.
    pub fn enter(tables: &'t Tables, frame: &Frame<'f>) -> Entry<'f, 't>
        ensures rows { result.rows ≡ tables.now }
        ensures telegram { result.telegram ≡ telegram frame.now }
    {
        Entry {
            found: look(tables, frame),
        }
    }

    /// Where a receiver keeps the number of the frame: None where it is not secure, out of form, or without a key.
    #[tactic(auto, unfolding(crate::specs::Checks::lane_in))]
    pub fn lane(&self) -> Option<Lane>
        ensures lane { result ≡ lane_in self.now.rows self.now.telegram }
    {
        match &self.found {
            Ok(entered) => Some(entered.lane()),
            Err(_) => None,
        }
    }

    /// Judges the frame under the mark of its lane, and the challenge that is open or none. Where the code is right
    /// `apdu` has the APDU that was opened; else it is empty.
    #[tactic(auto, unfolding(crate::specs::Checks::verdict_of, crate::specs::Checks::kept_by, crate::specs::Checks::opened_by))]
    pub fn judge(&self, kept: Number48, asked: Option<[u8; 6]>, apdu: &mut ApduBuf) -> Judgement
        ensures verdict { result.verdict ≡ verdict_of self.now.rows kept asked self.now.telegram }
        ensures keeps { result.keeps ≡ kept_by self.now.rows kept asked self.now.telegram }
        ensures lane { IfSome result.keeps (λ keeps. lane_in self.now.rows self.now.telegram ≡ Some keeps.0) }
        ensures above { IfSome result.keeps (λ keeps. kept < keeps.1) }
        ensures ask_keeps_nothing { is_ask result.verdict ≡ true → result.keeps ≡ None }
        ensures opened { apdu.new ≡ opened_by self.now.rows asked self.now.telegram }
        ensures entitled { is_good result.verdict ≡ true → IsEntitled self.now.rows self.now.telegram }
        ensures two { is_good result.verdict ≡ true → 2 ≤ length apdu.new }
    {
        apdu.clear();
        match &self.found {
            Ok(entered) => entered.judge(kept, asked, apdu),
            Err(found) => refused(found.verdict),
        }
    }
}

/// Where a receiver keeps the number of a frame: None where it is not secure, out of form, or without a key.
pub fn lane_of(tables: &Tables, frame: &Frame<'_>) -> Option<Lane>
    ensures lane { result ≡ lane_in tables.now (telegram frame.now) }
{
    Entry::enter(tables, frame).lane()
}

fn look<'f, 't>(tables: &'t Tables, frame: &Frame<'f>) -> Result<Entered<'f, 't>, Refused<'f, 't>>
    ensures { seen result ≡ record { rows = tables.now; telegram = telegram frame.now } }
{
    let secure = match secure_parts(frame) {
        Ok(secure) => secure,
        Err(verdict) => {
            return Err(Refused {
                tables,
                frame: *frame,
                verdict,
            });
        }
    };
    match keyed_channel(tables, frame, secure.field) {
        Some((channel, key)) => Ok(Entered {
            tables,
            frame: *frame,
            secure,
            channel,
            key,
        }),
        None => Err(Refused {
            tables,
            frame: *frame,
            verdict: Verdict::NoKey,
        }),
    }
}

/// The parts of a frame that is secure and in form, or the verdict on it.
pub fn secure_parts<'a>(frame: &Frame<'a>) -> Result<Secure<'a>, Verdict>
    ensures verdict { MatchResult result
        (λ _. first_failing (secure_checks (telegram frame.now)) ≡ None)
        (λ verdict. first_failing (secure_checks (telegram frame.now)) ≡ Some verdict) }
    ensures faultless { OnOk result (bad_secure frame.now.content.now (frame.now.control2 / 128 % 2 == 1) ≡ None) }
    ensures parts { IfOk result (λ secure. HasParts frame.now.content.now secure.field secure.shown secure.body.now) }
    ensures bad { IfErr result (λ verdict. is_good verdict ≡ false) }
{
    if !is_secure(frame) {
        return Err(insecure(frame));
    }
    match read_secure(frame) {
        Ok(secure) => Ok(secure),
        Err(fault) => Err(Verdict::BadSecure(fault)),
    }
}

// The channel of a frame with this control field, and its key.
#[tactic(auto, unfolding(crate::specs::Parts::channel_in, key_tables::specs::Rows::channel_of))]
fn keyed_channel<'t>(
    tables: &'t Tables,
    frame: &Frame<'_>,
    field: u8,
) -> Option<(Channel, &'t Key128)>
    requires { field ≡ field_in (telegram frame.now) }
    ensures { MatchOption result
        (channel_in tables.now (telegram frame.now) ≡ None)
        (λ found. (channel_in tables.now (telegram frame.now) ≡ Some found.0)
        × (key_of tables.now found.0 ≡ Some found.1.now)) }
{
    match (frame.is_group(), field >> 7 == 1) {
        (true, false) => with_key(tables, Channel::Group(GroupAddr(frame.destination))),
        (false, true) => tool_channel(tables, frame.source, IndAddr(frame.destination)),
        _ => None,
    }
}

// The channel of the destination where that has a key, else the source's.
fn tool_channel<'t>(
    tables: &'t Tables,
    source: IndAddr,
    destination: IndAddr,
) -> Option<(Channel, &'t Key128)>
    ensures { MatchOption result
        (option_or (keyed tables.now (Channel.Tool destination)) (keyed tables.now (Channel.Tool source)) ≡ None)
        (λ found. (option_or (keyed tables.now (Channel.Tool destination)) (keyed tables.now (Channel.Tool source))
        ≡ Some found.0)
        × (key_of tables.now found.0 ≡ Some found.1.now)) }
{
    match with_key(tables, Channel::Tool(destination)) {
        Some(found) => Some(found),
        None => with_key(tables, Channel::Tool(source)),
    }
}

fn with_key(tables: &Tables, channel: Channel) -> Option<(Channel, &Key128)>
    ensures { MatchOption result
        (keyed tables.now channel ≡ None)
        (λ found. (keyed tables.now channel ≡ Some found.0) × (key_of tables.now found.0 ≡ Some found.1.now)) }
{
    match tables.expanded_key(channel) {
        Some(key) => Some((channel, key)),
        None => None,
    }
}

// Why a frame is not secure.
fn insecure(frame: &Frame<'_>) -> Verdict
    requires { is_secure frame.now.content.now ≡ false }
    ensures first { first_failing (check_control (telegram frame.now) ∷ check_plain (telegram frame.now) ∷ [])
        ≡ Some result }
    ensures bad { is_good result ≡ false }
{
    match Tpci::read(frame.content[0]) {
        Tpci::Data | Tpci::Connected(_) => Verdict::Plain(plain_service(frame.content)),
        _ => Verdict::Control(frame.content[0]),
    }
}

fn plain_service(content: &[u8]) -> Option<Service>
    ensures { result ≡ plain_service content.now }
{
    match content {
        [first, second, ..] => Some(service_of(u16::from_be_bytes([*first & 0x03, *second]))),
        _ => None,
    }
}
