ghost use Rattle.std.specs.Prelude.{◌≡◌, ℕ, ◌+◌, ◌*◌, ◌≤◌, ◌++◌, ◌∷◌, [], length, codes, Option};
ghost use Rattle.std.specs.Fmt.{decimal};
ghost use Rattle.hex.specs.Hex.{encode_lower};
ghost use Rattle.plain_apdu.specs.Service.{name_of};
ghost use Rattle.step_text.specs.Text.{lane_text, reply_text, object_text, act_text, air_text, synced_text, acted_text, said_text};

use crate::StepOutcome;
use group_objects::Value;
use judge_rules::put_verdict;
use key_tables::Lane;
use knx_base::{LineBuf, Number48};
use node_core::Act;
use plain_apdu::{Service, service_name};

// Adds what came of an event, but for the marks with which a node was switched on.
pub(crate) fn put_said(outcome: &StepOutcome, line: &mut LineBuf)
    requires room { length line.old + 600 ≤ 1024 }
    ensures added { line.new ≡ line.old ++ said_text outcome.now }
    ensures short { length line.new ≤ length line.old + 600 }
{
    match outcome {
        StepOutcome::Off => line.text("off"),
        StepOutcome::NoObject => line.text("no-object"),
        StepOutcome::Size => line.text("size"),
        StepOutcome::Set => line.text("set"),
        StepOutcome::Flag => line.text("flag"),
        StepOutcome::NoKey => line.text("no-key"),
        StepOutcome::Exhausted => line.text("exhausted"),
        StepOutcome::Cut => line.text("cut"),
        StepOutcome::Fault => line.text("fault"),
        StepOutcome::Air { telegram, number } => put_air(*telegram, *number, line),
        StepOutcome::Gone => line.text("gone"),
        StepOutcome::Lost => line.text("lost"),
        StepOutcome::Refused(verdict) => put_verdict(verdict, &[], line),
        StepOutcome::Ignored => line.text("ignored"),
        StepOutcome::Acted {
            number,
            lane,
            act,
            reply,
        } => put_acted(*number, *lane, act, *reply, line),
        StepOutcome::Answered { challenge, reply } => put_answered(challenge, *reply, line),
        StepOutcome::Synced { number, kept, next } => put_synced(*number, *kept, *next, line),
        StepOutcome::Down => line.text("down"),
        StepOutcome::Running => line.text("running"),
        StepOutcome::On { next, .. } => put_number("on next ", *next, line),
        StepOutcome::Armed => line.text("armed"),
    }
}

fn put_air(telegram: u32, number: Option<Number48>, line: &mut LineBuf)
    requires room { length line.old + 120 ≤ 1024 }
    ensures added { line.new ≡ line.old ++ air_text telegram number }
    ensures short { length line.new ≤ length line.old + 120 }
{
    put_number("air ", u64::from(telegram), line);
    if let Some(number) = number {
        put_number(" number ", number.get(), line);
    }
}

fn put_acted(number: Number48, lane: Lane, act: &Act, reply: Option<u32>, line: &mut LineBuf)
    requires room { length line.old + 300 ≤ 1024 }
    ensures added { line.new ≡ line.old ++ acted_text number lane act.now reply }
    ensures short { length line.new ≤ length line.old + 300 }
{
    put_number("acted number ", number.get(), line);
    line.text(" lane ");
    put_lane(lane, line);
    line.octet(b' ');
    put_act(act, reply, line);
}

fn put_answered(challenge: &[u8; 6], reply: Option<u32>, line: &mut LineBuf)
    requires room { length line.old + 120 ≤ 1024 }
    ensures added { line.new ≡ line.old ++ codes "answered challenge " ++ encode_lower challenge.now
        ++ reply_text reply }
    ensures short { length line.new ≤ length line.old + 120 }
{
    line.text("answered challenge ");
    line.hex(challenge);
    put_reply(reply, line);
}

fn put_synced(number: Number48, kept: Number48, next: u64, line: &mut LineBuf)
    requires room { length line.old + 120 ≤ 1024 }
    ensures added { line.new ≡ line.old ++ synced_text number kept next }
    ensures short { length line.new ≤ length line.old + 120 }
{
    put_number("synced number ", number.get(), line);
    put_two_numbers(" kept ", kept.get(), " next ", next, line);
}

fn put_two_numbers(first: &str, number: u64, second: &str, other: u64, line: &mut LineBuf)
    requires first { length first.now ≤ 20 }
    requires second { length second.now ≤ 20 }
    requires room { length line.old + 80 ≤ 1024 }
    ensures added { line.new ≡ line.old ++ (first.now ++ decimal number ++ second.now ++ decimal other) }
    ensures short { length line.new ≤ length line.old + 80 }
{
    put_number(first, number, line);
    put_number(second, other, line);
}

fn put_act(act: &Act, reply: Option<u32>, line: &mut LineBuf)
    requires room { length line.old + 120 ≤ 1024 }
    ensures added { line.new ≡ line.old ++ act_text act.now reply }
    ensures short { length line.new ≤ length line.old + 120 }
{
    match act {
        Act::Write { object, value } => {
            line.text(service_word(Service::GroupValueWrite));
            put_object(*object, value, line);
        }
        Act::Response { object, value } => {
            line.text(service_word(Service::GroupValueResponse));
            put_object(*object, value, line);
        }
        Act::Read { object, .. } => {
            line.text(service_word(Service::GroupValueRead));
            put_number(" object ", *object as u64, line);
            put_reply(reply, line);
        }
        Act::Tool { service } => line.text(service_word(*service)),
    }
}

fn put_object(object: usize, value: &Value, line: &mut LineBuf)
    requires room { length line.old + 90 ≤ 1024 }
    ensures added { line.new ≡ line.old ++ object_text object value.now }
    ensures short { length line.new ≤ length line.old + 90 }
{
    put_number(" object ", object as u64, line);
    line.text(" value ");
    put_value(value, line);
}

// Adds the octets of a value.
pub(crate) fn put_value(value: &Value, line: &mut LineBuf)
    requires room { length line.old + 28 ≤ 1024 }
    ensures added { line.new ≡ line.old ++ encode_lower value.now.octets }
    ensures short { length line.new ≤ length line.old + 28 }
{
    line.hex(value.as_bytes());
}

fn put_reply(reply: Option<u32>, line: &mut LineBuf)
    requires room { length line.old + 40 ≤ 1024 }
    ensures added { line.new ≡ line.old ++ reply_text reply }
    ensures short { length line.new ≤ length line.old + 40 }
{
    match reply {
        Some(telegram) => put_number(" reply ", u64::from(telegram), line),
        None => line.text(" reply none"),
    }
}

// Adds a lane as a mark line of a script names it.
pub(crate) fn put_lane(lane: Lane, line: &mut LineBuf)
    requires room { length line.old + 30 ≤ 1024 }
    ensures added { line.new ≡ line.old ++ lane_text lane }
    ensures short { length line.new ≤ length line.old + 30 }
{
    match lane {
        Lane::Run(sender) => {
            line.text("run:");
            line.individual(sender);
        }
        Lane::Tool(device, sender) => {
            line.text("tool:");
            line.individual(device);
            line.octet(b':');
            line.individual(sender);
        }
    }
}

#[tactic(auto, using(crate::proofs::Pieces::short_name))]
fn service_word(service: Service) -> &'static str
    ensures word { result.now ≡ name_of service }
    ensures short { length result.now ≤ 30 }
{
    service_name(service)
}

// Adds a word and a number.
pub(crate) fn put_number(text: &str, number: u64, line: &mut LineBuf)
    requires short { length text.now ≤ 20 }
    requires room { length line.old + 40 ≤ 1024 }
    ensures added { line.new ≡ line.old ++ (text.now ++ decimal number) }
    ensures length { length line.new ≤ length line.old + 40 }
{
    line.text(text);
    line.decimal(number);
}
