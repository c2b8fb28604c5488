ghost use Rattle.std.specs.Prelude.{◌≡◌, ℕ, ◌-◌, ◌<◌, ◌≤◌, ◌^◌, length, IfOk, MatchResult, Ok, Err};
ghost use Rattle.std.specs.List.{list_all};
ghost use Rattle.group_objects.specs.Value.{bits_value};
ghost use Rattle.script_text.specs.Parts.{IsName, is_name_octet};
ghost use Rattle.script_text.specs.Words.{number_named, octets_named, octet_named, address_named, name_named, lane_named, lane_device, tool_lane, is_flag, is_distinct, has_octet, flags_in, flags_named, bits_named, octets_value_named, size_named, value_sized, value_named, service_named};

use crate::Name;
use crate::octets::Octets;
use group_objects::{Flags, SendService, Value};
use hex::FromHex;
use key_tables::{Lane, read_device};
use knx_base::{Cause, IndAddr, Number48, read_decimal};

// A decimal in a range.
pub(crate) fn read_number(word: &str, least: u64, most: u64) -> Result<u64, Cause>
    ensures number { result ≡ number_named least most word.now }
    ensures range { IfOk result (λ n. (least ≤ n) × (n ≤ most)) }
{
    match read_decimal(word, most) {
        Some(number) if number >= least => Ok(number),
        _ => Err(Cause::Number),
    }
}

// A number of 48 bits, so many at the least.
pub(crate) fn read_number48(word: &str, least: u64) -> Result<Number48, Cause>
    ensures number { result ≡ number_named least (2 ^ 48 - 1) word.now }
    ensures range { IfOk result (λ n. (least ≤ n) × (n < 2 ^ 48)) }
{
    Number48::new(read_number(word, least, (1 << 48) - 1)?).ok_or(Cause::Number)
}

// So many octets at the least and at the most, in hexadecimal.
pub(crate) fn read_octets<const ROOM: usize>(
    word: &str,
    least: usize,
    most: usize,
) -> Result<Octets<ROOM>, Cause>
    requires room { most ≤ ROOM }
    ensures octets { result ≡ octets_named least most word.now }
    ensures range { IfOk result (λ octets. (least ≤ length octets) × (length octets ≤ most)) }
{
    let len = word.len() / 2;
    if len < least || len > most {
        return Err(Cause::Value);
    }
    let mut store = [0; ROOM];
    match hex::decode_to_slice(word, &mut store[..len]) {
        Ok(()) => Ok(Octets::new(&store[..len])),
        Err(_) => Err(Cause::Value),
    }
}

// Two hexadecimal digits.
pub(crate) fn read_octet(word: &str) -> Result<u8, Cause>
    ensures { result ≡ octet_named word.now }
{
    match <[u8; 1] as FromHex>::from_hex(word) {
        Ok(octets) => Ok(octets[0]),
        Err(_) => Err(Cause::Value),
    }
}

// An address that a node may have.
pub(crate) fn read_address(word: &str) -> Result<IndAddr, Cause>
    ensures address { result ≡ address_named word.now }
    ensures some { IfOk result (λ address. 0 < address.0) }
{
    let address = read_device(word)?;
    if address.0 == 0 {
        return Err(Cause::Address);
    }
    Ok(address)
}

pub(crate) fn read_name(word: &str) -> Result<Name, Cause>
    ensures name { result ≡ name_named word.now }
    ensures is_name { IfOk result IsName }
{
    match word.len() {
        1..=16 if is_name_text(word.as_bytes()) => Ok(Name {
            octets: Octets::new(word.as_bytes()),
        }),
        _ => Err(Cause::Name),
    }
}

fn is_name_text(octets: &[u8]) -> bool
    ensures { result ≡ list_all is_name_octet octets.now }
{
    octets.iter().all(|octet| is_name_octet(*octet))
}

fn is_name_octet(octet: u8) -> bool
    ensures { result ≡ is_name_octet octet }
{
    matches!(octet, b'a'..=b'z' | b'0'..=b'9' | b'_')
}

pub(crate) fn read_lane(word: &str) -> Result<Lane, Cause>
    ensures { result ≡ lane_named word.now }
{
    if let Some(sender) = word.strip_prefix("run:") {
        return Ok(Lane::Run(read_lane_device(sender)?));
    }
    match word.strip_prefix("tool:") {
        Some(two) => read_tool_lane(two),
        None => Err(Cause::Lane),
    }
}

fn read_lane_device(word: &str) -> Result<IndAddr, Cause>
    ensures { result ≡ lane_device word.now }
{
    IndAddr::read(word).ok_or(Cause::Lane)
}

fn read_tool_lane(two: &str) -> Result<Lane, Cause>
    ensures { result ≡ tool_lane two.now }
{
    match two.split_once(':') {
        Some((device, sender)) => Ok(Lane::Tool(
            read_lane_device(device)?,
            read_lane_device(sender)?,
        )),
        None => Err(Cause::Lane),
    }
}

pub(crate) fn read_flags(word: &str) -> Result<Flags, Cause>
    ensures { result ≡ flags_named word.now }
{
    if word == "-" {
        return Ok(flags_in(b""));
    }
    let letters = word.as_bytes();
    if are_flags(letters) && is_distinct(letters) {
        Ok(flags_in(letters))
    } else {
        Err(Cause::Flags)
    }
}

fn flags_in(letters: &[u8]) -> Flags
    ensures { result ≡ flags_in letters.now }
{
    Flags {
        reads: has_octet(b'r', letters),
        writes: has_octet(b'w', letters),
        updates: has_octet(b'u', letters),
        transmits: has_octet(b't', letters),
    }
}

fn are_flags(letters: &[u8]) -> bool
    ensures { result ≡ list_all is_flag letters.now }
{
    letters.iter().all(|letter| is_flag(*letter))
}

fn is_flag(letter: u8) -> bool
    ensures { result ≡ is_flag letter }
{
    matches!(letter, b'r' | b'w' | b'u' | b't')
}

fn is_distinct(letters: &[u8]) -> bool
    ensures { result ≡ is_distinct letters.now }
{
    match letters {
        [first, rest @ ..] => !has_octet(*first, rest) && is_distinct(rest),
        [] => true,
    }
}

fn has_octet(octet: u8, letters: &[u8]) -> bool
    ensures { result ≡ has_octet octet letters.now }
{
    letters.iter().any(|other| *other == octet)
}

// The number of octets of a value, or 0 for six bits.
pub(crate) fn read_size(word: &str) -> Result<usize, Cause>
    ensures size { result ≡ size_named word.now }
    ensures most { IfOk result (λ size. size ≤ 14) }
{
    if word == "bits" {
        return Ok(0);
    }
    match read_decimal(word, 14) {
        Some(size) if size > 0 => Ok(size as usize),
        _ => Err(Cause::Size),
    }
}

pub(crate) fn read_sized_value(word: &str, size: usize) -> Result<Value, Cause>
    requires most { size ≤ 14 }
    ensures { result ≡ value_sized size word.now }
{
    if size == 0 {
        return read_bits(word);
    }
    read_octets_value(word, size, size)
}

fn read_octets_value(word: &str, least: usize, most: usize) -> Result<Value, Cause>
    requires some { 0 < least }
    requires most { most ≤ 14 }
    ensures { result ≡ octets_value_named least most word.now }
{
    let octets = read_octets::<14>(word, least, most)?;
    Value::octets(octets.bytes()).ok_or(Cause::Value)
}

fn read_bits(word: &str) -> Result<Value, Cause>
    ensures { result ≡ bits_named word.now }
{
    Value::bits(read_octet(word)?).ok_or(Cause::Value)
}

pub(crate) fn read_value(word: &str) -> Result<Value, Cause>
    ensures { result ≡ value_named word.now }
{
    match word.strip_prefix("bits:") {
        Some(bits) => read_bits(bits),
        None => read_octets_value(word, 1, 14),
    }
}

pub(crate) fn read_service(word: &str) -> Result<SendService, Cause>
    ensures { result ≡ service_named word.now }
{
    match word {
        "read" => Ok(SendService::Read),
        "write" => Ok(SendService::Write),
        "response" => Ok(SendService::Response),
        _ => Err(Cause::Service),
    }
}
