//! The values of attributes.

ghost use Rattle.std.specs.Prelude.{◌≡◌, ◌+◌, ◌<◌, ◌≤◌, [], ◌∷◌, ◌++◌, length, take_while, not, IfSome, IfNone, IfOk, OnOk, string_bytes};
ghost use Rattle.std.specs.Option.{option_map};
ghost use Rattle.std.specs.List.{slice_split, list_any};
ghost use Rattle.tag_text.specs.Octets.{is_octet, BeginsOther};
ghost use Rattle.tag_text.specs.Values.{is_break, spaced, number_of, character_of, reference_of, reference_at, value_of, value_at, quoted_at, is_quote, parts_left, octets_left};

use crate::octets::{after_mark, cut_at, first_octet};
use crate::text::Text;
use knx_base::NoMemory;
use std::alloc::Global;

// One more than the last character.
const TOO_GREAT: u32 = 0x11_0000;

fn is_break(octet: u8) -> bool
    ensures break_ { result ≡ is_break octet }
{
    matches!(octet, b'\t' | b'\n' | b'\r')
}

fn plain_octets(text: &str) -> usize
    ensures count { result ≡ length (take_while (λ octet. not (is_break octet)) text.now) }
{
    text.as_bytes()
        .iter()
        .take_while(|octet| !is_break(**octet))
        .count()
}

// The octets before the first break, and what follows.
fn cut_at_break(text: &str) -> (&str, &str)
    ensures plain { spaced text.now ≡ result.0.now ++ spaced result.1.now }
    ensures rest { length result.1.now ≤ length text.now }
    ensures end { BeginsOther is_break result.1.now → result.1.now ≡ [] }
{
    text.split_at(plain_octets(text))
}

// What follows the break at the front, of which CR with LF is one.
fn after_break(text: &str) -> Option<&str>
    ensures after { IfSome result (λ after. spaced text.now ≡ 32 ∷ spaced after.now) }
    ensures less { IfSome result (λ after. length after.now < length text.now) }
    ensures none { IfNone result (BeginsOther is_break text.now) }
{
    if let Some(after) = after_mark("\r\n", text) {
        return Some(after);
    }
    let Some((octet, after)) = first_octet(text) else {
        return None;
    };
    if is_break(octet) { Some(after) } else { None }
}

// Appends the text with a space for each break.
fn push_spaced(value: &mut String, text: &str) -> Result<(), NoMemory>
    ensures ok { OnOk result (string_bytes value.new ≡ string_bytes value.old ++ spaced text.now) }
{
    let mut rest = text;
    'breaks: loop {
        let (plain, more) = cut_at_break(rest);
        value.push_str(plain)?;
        let Some(after) = after_break(more) else {
            return Ok(());
        };
        value.push_str(" ")?;
        rest = after;
    }
}

// The character with the number that these digits write.
fn character_of(digits: &[u8], base: u32) -> Option<char>
    requires low { 2 ≤ base }
    requires high { base ≤ 16 }
    ensures character { result ≡ character_of (number_of base digits.now) }
{
    if digits.is_empty() {
        return None;
    }
    let mut number = 0;
    'digits: for digit in digits {
        let value = char::from(*digit).to_digit(base)?;
        number = (number * base + value).min(TOO_GREAT);
    }
    match char::from_u32(number) {
        Some('\0') | None => None,
        found => found,
    }
}

// The character that a reference names, by what stands between `&` and `;`.
#[tactic(auto, unfolding(crate::specs::Values::reference_of))]
fn reference_of(name: &str) -> Option<char>
    ensures character { result ≡ reference_of name.now }
{
    match name.as_bytes() {
        b"lt" => Some('<'),
        b"gt" => Some('>'),
        b"amp" => Some('&'),
        b"quot" => Some('"'),
        b"apos" => Some('\''),
        [b'#', b'x', digits @ ..] => character_of(digits, 16),
        [b'#', digits @ ..] => character_of(digits, 10),
        _ => None,
    }
}

// The character of the reference that a `&` began, up to its `;`, and what follows.
#[tactic(auto, unfolding(crate::specs::Values::reference_at))]
fn reference_at(part: &str) -> Option<(char, &str)>
    ensures reference { option_map (λ reference. (reference.0, reference.1.now)) result ≡ reference_at part.now }
{
    let Some((name, after)) = cut_at(b';', part) else {
        return None;
    };
    let Some(character) = reference_of(name) else {
        return None;
    };
    Some((character, after))
}

// What stands before the first `&`, and what follows it.
fn cut_at_reference(text: &str) -> (&str, Option<&str>)
    ensures parts { slice_split (is_octet 38) text.now ≡ result.0.now
        ∷ parts_left (option_map (λ rest. rest.now) result.1) }
    ensures less { octets_left (option_map (λ rest. rest.now) result.1) < length text.now + 1 }
{
    match cut_at(b'&', text) {
        Some((front, rest)) => (front, Some(rest)),
        None => (text, None),
    }
}

// The value that is written so, or None where a `&` begins no reference.
fn value_of(alloc: Global, raw: &str) -> Result<Option<Text>, NoMemory>
    ensures value { IfOk result (λ value. value ≡ value_of raw.now) }
{
    let mut value = String::new(alloc);
    let (front, mut rest) = cut_at_reference(raw);
    push_spaced(&mut value, front)?;
    'parts: while let Some(parts) = rest {
        let (part, more) = cut_at_reference(parts);
        let Some((character, after)) = reference_at(part) else {
            return Ok(None);
        };
        value.push(character)?;
        push_spaced(&mut value, after)?;
        rest = more;
    }
    Ok(Some(Text::new(value)))
}

fn is_quote(octet: u8) -> bool
    ensures quote { result ≡ is_quote octet }
{
    octet == b'"' || octet == b'\''
}

fn has_tag_open(text: &str) -> bool
    ensures has { result ≡ list_any (is_octet 60) text.now }
{
    text.as_bytes().contains(&b'<')
}

// What stands in the quotes at the front, and what follows.
#[tactic(auto, unfolding(crate::specs::Values::quoted_at))]
fn quoted_at(text: &str) -> Option<(&str, &str)>
    ensures quoted { option_map (λ quoted. (quoted.0.now, quoted.1.now)) result ≡ quoted_at text.now }
{
    let Some((quote, content)) = first_octet(text) else {
        return None;
    };
    if !is_quote(quote) {
        return None;
    }
    let Some((raw, after)) = cut_at(quote, content) else {
        return None;
    };
    if has_tag_open(raw) {
        None
    } else {
        Some((raw, after))
    }
}

/// The value in quotes at the front and what follows, or None where there is none.
#[tactic(auto, unfolding(crate::specs::Values::value_at))]
pub(crate) fn value_at(alloc: Global, text: &str) -> Result<Option<(Text, &str)>, NoMemory>
    ensures value { IfOk result (λ found. option_map (λ value. (value.0, value.1.now)) found ≡ value_at text.now) }
{
    let Some((raw, after)) = quoted_at(text) else {
        return Ok(None);
    };
    match value_of(alloc, raw) {
        Ok(Some(value)) => Ok(Some((value, after))),
        Ok(None) => Ok(None),
        Err(NoMemory) => Err(NoMemory),
    }
}
