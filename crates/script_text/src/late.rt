ghost use Rattle.std.specs.Prelude.{◌≡◌, ◌-◌, ◌^◌, ◌<◌, ◌≤◌, ℕ, length, IfOk};
ghost use Rattle.script_text.specs.Script.{IsEvent, last_write};
ghost use Rattle.script_text.specs.Words.{number_named, octets_named};
ghost use Rattle.script_text.specs.Reading.{set_said, send_said, tool_send_said, ask_said, deliver_said, lose_said, inject_said, off_said, on_said, cut_said, fault_said, event_said};

use crate::event::{Event, RawFrame, ToolApdu};
use crate::fault::Refusal;
use crate::line_words::{one_settled, three_settled};
use crate::lists::Lists;
use crate::words::{read_number, read_octet, read_octets, read_service, read_value};
use hex::FromHex;
use key_tables::{read_device, two_words};
use knx_base::Cause;
use text_lines::Words;

const LAST_OBJECT: u64 = 63;

const LAST_WRITE: u64 = 1000;

const LAST_TELEGRAM: u64 = (1 << 32) - 1;

type Settled = Result<(), Refusal>;

fn read_set(lists: &Lists, settled: Settled, words: &mut Words<'_>) -> Result<Event, Refusal>
    ensures event { result ≡ set_said lists.now settled words.old }
    ensures ranges { IfOk result (IsEvent (length lists.now.nodes)) }
{
    let (name, object, value) = three_settled(settled, words)?;
    Ok(Event::Set {
        node: lists.place(name)?,
        object: read_number(object, 0, LAST_OBJECT)? as usize,
        value: read_value(value)?,
    })
}

fn read_send(lists: &Lists, settled: Settled, words: &mut Words<'_>) -> Result<Event, Refusal>
    ensures event { result ≡ send_said lists.now settled words.old }
    ensures ranges { IfOk result (IsEvent (length lists.now.nodes)) }
{
    let (name, object, service) = three_settled(settled, words)?;
    Ok(Event::Send {
        node: lists.place(name)?,
        object: read_number(object, 0, LAST_OBJECT)? as usize,
        service: read_service(service)?,
    })
}

fn read_tool_send(lists: &Lists, settled: Settled, words: &mut Words<'_>) -> Result<Event, Refusal>
    ensures event { result ≡ tool_send_said lists.now settled words.old }
    ensures ranges { IfOk result (IsEvent (length lists.now.nodes)) }
{
    let (name, to, apdu) = three_settled(settled, words)?;
    Ok(Event::ToolSend {
        node: lists.place(name)?,
        to: read_device(to)?,
        apdu: ToolApdu {
            octets: read_octets::<16>(apdu, 2, 16)?,
        },
    })
}

fn read_challenge(word: &str) -> Result<[u8; 6], Cause>
    ensures { result ≡ octets_named 6 6 word.now }
{
    match <[u8; 6] as FromHex>::from_hex(word) {
        Ok(challenge) => Ok(challenge),
        Err(_) => Err(Cause::Value),
    }
}

fn read_ask(lists: &Lists, settled: Settled, words: &mut Words<'_>) -> Result<Event, Refusal>
    ensures event { result ≡ ask_said lists.now settled words.old }
    ensures ranges { IfOk result (IsEvent (length lists.now.nodes)) }
{
    let (name, to, challenge) = three_settled(settled, words)?;
    Ok(Event::Ask {
        node: lists.place(name)?,
        to: read_device(to)?,
        challenge: read_challenge(challenge)?,
    })
}

fn read_telegram(word: &str) -> Result<u32, Cause>
    ensures telegram { result ≡ number_named 1 (2 ^ 32 - 1) word.now }
    ensures some { IfOk result (λ telegram. 0 < telegram) }
{
    Ok(read_number(word, 1, LAST_TELEGRAM)? as u32)
}

fn read_deliver(lists: &Lists, settled: Settled, words: &mut Words<'_>) -> Result<Event, Refusal>
    ensures event { result ≡ deliver_said lists.now settled words.old }
    ensures ranges { IfOk result (IsEvent (length lists.now.nodes)) }
{
    let (telegram, name) = two_words(words)?;
    settled?;
    Ok(Event::Deliver {
        telegram: read_telegram(telegram)?,
        node: lists.place(name)?,
    })
}

fn read_lose(settled: Settled, words: &mut Words<'_>) -> Result<Event, Refusal>
    ensures event { result ≡ lose_said settled words.old }
    ensures ranges { (nodes : ℕ) → IfOk result (IsEvent nodes) }
{
    let telegram = one_settled(settled, words)?;
    Ok(Event::Lose {
        telegram: read_telegram(telegram)?,
    })
}

fn read_inject(settled: Settled, words: &mut Words<'_>) -> Result<Event, Refusal>
    ensures event { result ≡ inject_said settled words.old }
    ensures ranges { (nodes : ℕ) → IfOk result (IsEvent nodes) }
{
    let frame = one_settled(settled, words)?;
    Ok(Event::Inject {
        octets: RawFrame {
            octets: read_octets::<265>(frame, 1, 265)?,
        },
    })
}

fn read_off(lists: &Lists, settled: Settled, words: &mut Words<'_>) -> Result<Event, Refusal>
    ensures event { result ≡ off_said lists.now settled words.old }
    ensures ranges { IfOk result (IsEvent (length lists.now.nodes)) }
{
    let name = one_settled(settled, words)?;
    Ok(Event::Off {
        node: lists.place(name)?,
    })
}

fn read_on(lists: &Lists, settled: Settled, words: &mut Words<'_>) -> Result<Event, Refusal>
    ensures event { result ≡ on_said lists.now settled words.old }
    ensures ranges { IfOk result (IsEvent (length lists.now.nodes)) }
{
    let name = one_settled(settled, words)?;
    Ok(Event::On {
        node: lists.place(name)?,
    })
}

fn read_write(word: &str) -> Result<u32, Cause>
    ensures write { result ≡ number_named 1 last_write word.now }
    ensures range { IfOk result (λ write. (0 < write) × (write ≤ last_write)) }
{
    Ok(read_number(word, 1, LAST_WRITE)? as u32)
}

fn read_cut(lists: &Lists, settled: Settled, words: &mut Words<'_>) -> Result<Event, Refusal>
    ensures event { result ≡ cut_said lists.now settled words.old }
    ensures ranges { IfOk result (IsEvent (length lists.now.nodes)) }
{
    let (name, write, torn) = three_settled(settled, words)?;
    Ok(Event::Cut {
        node: lists.place(name)?,
        write: read_write(write)?,
        torn: read_octet(torn)?,
    })
}

fn read_fault(lists: &Lists, settled: Settled, words: &mut Words<'_>) -> Result<Event, Refusal>
    ensures event { result ≡ fault_said lists.now settled words.old }
    ensures ranges { IfOk result (IsEvent (length lists.now.nodes)) }
{
    let (name, write, torn) = three_settled(settled, words)?;
    Ok(Event::Fault {
        node: lists.place(name)?,
        write: read_write(write)?,
        torn: read_octet(torn)?,
    })
}

// An event of this kind, once no node has too many lanes.
pub(crate) fn read_event(
    lists: &Lists,
    settled: Settled,
    kind: &str,
    words: &mut Words<'_>,
) -> Result<Event, Refusal>
    ensures event { result ≡ event_said lists.now settled kind.now words.old }
    ensures ranges { IfOk result (IsEvent (length lists.now.nodes)) }
{
    match kind {
        "set" => read_set(lists, settled, words),
        "send" => read_send(lists, settled, words),
        "tool-send" => read_tool_send(lists, settled, words),
        "ask" => read_ask(lists, settled, words),
        "deliver" => read_deliver(lists, settled, words),
        "lose" => read_lose(settled, words),
        "inject" => read_inject(settled, words),
        "off" => read_off(lists, settled, words),
        "on" => read_on(lists, settled, words),
        "cut" => read_cut(lists, settled, words),
        "fault" => read_fault(lists, settled, words),
        _ => Err(Refusal::Cause(Cause::Words)),
    }
}
