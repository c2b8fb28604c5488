//! What stands at the front of a text: blanks, marks and names.

ghost use Rattle.std.specs.Prelude.{◌≡◌, ◌≢◌, ℕ, ◌<◌, List, ◌∷◌, length, take_while, IfSome, IfNone};
ghost use Rattle.std.specs.Option.{option_map};
ghost use Rattle.std.specs.Str.{IsAscii};
ghost use Rattle.tag_text.specs.Pieces.{begins_blank, begins_text, is_text_octet};
ghost use Rattle.tag_text.specs.Octets.{drop_while, is_blank, is_name_start, is_name_octet, begins_name, after_blanks, after_mark, after_first_mark, cut_at, name_at};

fn is_blank(octet: u8) -> bool
    ensures blank { result ≡ is_blank octet }
{
    matches!(octet, b' ' | b'\t' | b'\r' | b'\n')
}

fn is_name_start(octet: u8) -> bool
    ensures start { result ≡ is_name_start octet }
{
    matches!(octet, b'A'..=b'Z' | b'a'..=b'z' | b'_' | b':' | 128..)
}

fn is_name_octet(octet: u8) -> bool
    ensures octet { result ≡ is_name_octet octet }
{
    is_name_start(octet) || matches!(octet, b'0'..=b'9' | b'-' | b'.')
}

fn blank_octets(octets: &[u8]) -> usize
    ensures count { result ≡ length (take_while is_blank octets.now) }
{
    octets.iter().take_while(|octet| is_blank(**octet)).count()
}

fn name_octets(octets: &[u8]) -> usize
    ensures count { result ≡ length (take_while is_name_octet octets.now) }
{
    octets
        .iter()
        .take_while(|octet| is_name_octet(**octet))
        .count()
}

fn begins_name(octets: &[u8]) -> bool
    ensures begins { result ≡ begins_name octets.now }
{
    octets.first().is_some_and(|octet| is_name_start(*octet))
}

pub(crate) fn begins_blank(text: &str) -> bool
    ensures begins { result ≡ begins_blank text.now }
{
    text.as_bytes()
        .first()
        .is_some_and(|octet| is_blank(*octet))
}

/// What follows the blanks at the front.
#[tactic(auto, unfolding(crate::specs::Octets::after_blanks))]
pub(crate) fn after_blanks(text: &str) -> &str
    ensures after { result.now ≡ after_blanks text.now }
{
    let (_, after) = text.split_at(blank_octets(text.as_bytes()));
    after
}

/// The text begins with something other than `<`.
pub(crate) fn begins_text(text: &str) -> bool
    ensures begins { result ≡ begins_text text.now }
{
    text.as_bytes().first().is_some_and(|octet| *octet != b'<')
}

fn text_octets(octets: &[u8]) -> usize
    ensures count { result ≡ length (take_while is_text_octet octets.now) }
{
    octets.iter().take_while(|octet| **octet != b'<').count()
}

/// What follows the longest front without `<`.
pub(crate) fn after_text(text: &str) -> &str
    ensures after { result.now ≡ drop_while is_text_octet text.now }
{
    let (_, after) = text.split_at(text_octets(text.as_bytes()));
    after
}

/// What follows this mark, where the text begins with it.
pub(crate) fn after_mark<'a>(mark: &str, text: &'a str) -> Option<&'a str>
    ensures after { option_map (λ after. after.now) result ≡ after_mark mark.now text.now }
{
    text.strip_prefix(mark)
}

/// What follows the first occurrence of this mark.
pub(crate) fn after_first_mark<'a>(mark: &str, text: &'a str) -> Option<&'a str>
    requires some { 0 < length mark.now }
    ensures after { option_map (λ after. after.now) result ≡ after_first_mark mark.now text.now }
{
    match text.split_once(mark) {
        Some((_, after)) => Some(after),
        None => None,
    }
}

/// What stands before the first occurrence of this ASCII octet, and what follows it.
pub(crate) fn cut_at(octet: u8, text: &str) -> Option<(&str, &str)>
    requires ascii { octet < 128 }
    ensures parts { option_map (λ parts. (parts.0.now, parts.1.now)) result ≡ cut_at octet text.now }
{
    text.split_once(char::from(octet))
}

/// The ASCII octet at the front and what follows it.
pub(crate) fn first_octet(text: &str) -> Option<(u8, &str)>
    ensures some { IfSome result (λ first. text.now ≡ first.0 ∷ first.1.now) }
    ensures ascii { IfSome result (λ first. first.0 < 128) }
    ensures none { IfNone result ((octet : ℕ) (after : List ℕ) → octet < 128 → text.now ≢ octet ∷ after) }
{
    let octets = text.as_bytes();
    if octets.is_empty() || octets[0] >= 128 {
        return None;
    }
    Some((octets[0], &text[1..]))
}

/// The name at the front and what follows it.
#[tactic(auto, unfolding(crate::specs::Octets::name_at))]
pub(crate) fn name_at(text: &str) -> Option<(&str, &str)>
    ensures name { option_map (λ parts. (parts.0.now, parts.1.now)) result ≡ name_at text.now }
{
    if begins_name(text.as_bytes()) {
        Some(text.split_at(name_octets(text.as_bytes())))
    } else {
        None
    }
}
