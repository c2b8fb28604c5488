ghost use Rattle.std.specs.Prelude.{◌≡◌, ℕ, ◌+◌, ◌<◌, ◌≤◌, ◌^◌, List, [], ◌∷◌, length, Bool, true, MatchOption, Option, Some, None, IfSome, ◌==◌, position, not};
ghost use Rattle.std.specs.List.{list_all};
ghost use Rattle.std.specs.Str.Lines.{lines, strip_carriage_return};
ghost use Rattle.text_lines.specs.Lines.{is_blank, is_text, words_of, is_comment, Says, line_of, LinesState};

use knx_base::Cause;
use memchr::memchr;
use std::marker::Model;

#[cfg(test)]
mod tests;

/// The most octets that a line of a text may have, without its end.
pub const MOST_OCTETS: usize = 1024;

/// The lines of a text, from the first to the last. A line ends with a line feed, or a carriage return and a line feed;
/// the last may end with the text.
#[derive(Drop)]
pub struct Lines<'a> {
    given: u64,
    rest: &'a [u8],
}

impl<'a> Model for Lines<'a> {
    ghost Value = { LinesState };

    ghost view = { λ l. record { given = l.given; left = lines l.rest.now } };

    ghost invariant = { λ l. l.given + length l.rest.now < 2 ^ 64 };
}

impl<'a> Lines<'a> {
    /// All lines of the text.
    pub fn new(text: &'a [u8]) -> Lines<'a>
        ensures all { result ≡ record { given = 0; left = lines text.now } }
    {
        Lines {
            given: 0,
            rest: text,
        }
    }

    /// The next line without its end, and its number, counted from 1.
    pub fn next(&mut self) -> Option<(u64, &'a [u8])>
        ensures line { MatchOption result (self.old.left ≡ []) (λ line. self.old.left ≡ line.1.now ∷ self.new.left) }
        ensures number { MatchOption result (self.new ≡ self.old)
            (λ line. (line.0 ≡ self.old.given + 1) × (self.new.given ≡ line.0)) }
    {
        let (line, rest) = first_line(self.rest)?;
        self.rest = rest;
        self.given += 1;
        Some((self.given, line))
    }
}

// The first line, and what comes after its end.
fn first_line(text: &[u8]) -> Option<(&[u8], &[u8])>
    ensures cut { MatchOption result (lines text.now ≡ []) (λ cut. (lines text.now ≡ cut.0.now ∷ lines cut.1.now)
        × (length cut.1.now < length text.now)) }
{
    if text.is_empty() {
        return None;
    }
    match place_of_line_feed(text) {
        Some(end) => Some((without_carriage_return(&text[..end]), &text[end + 1..])),
        None => Some((text, b"")),
    }
}

pub(crate) fn place_of_line_feed(text: &[u8]) -> Option<usize>
    ensures place { result ≡ position (λ octet. octet == 10) text.now }
    ensures within { IfSome result (λ place. place < length text.now) }
{
    memchr(b'\n', text)
}

pub(crate) fn without_carriage_return(line: &[u8]) -> &[u8]
    ensures stripped { result.now ≡ strip_carriage_return line.now }
{
    match line {
        [front @ .., b'\r'] => front,
        _ => line,
    }
}

/// The words of a line, from the first to the last. A contract sees those that are still to be given.
#[derive(Drop)]
pub struct Words<'a> {
    rest: &'a [u8],
}

impl<'a> Model for Words<'a> {
    ghost Value = { List (List ℕ) };

    ghost view = { λ w. words_of w.rest.now };

    ghost invariant = { λ w. list_all is_text w.rest.now ≡ true };
}

impl<'a> Words<'a> {
    /// The next word.
    pub fn next(&mut self) -> Option<&'a str>
        ensures word { MatchOption result ((self.old ≡ []) × (self.new ≡ [])) (λ word. self.old ≡ word.now ∷ self.new) }
    {
        let (word, rest) = first_word(self.rest)?;
        self.rest = rest;
        Some(text_of(word))
    }
}

// Such octets are ASCII, so they are a text.
fn text_of(word: &[u8]) -> &str
    requires text { list_all is_text word.now ≡ true }
    ensures same { result.now ≡ word.now }
{
    // safe: printable ASCII is UTF-8
    unsafe { str::from_utf8_unchecked(word) }
}

// The first word, and what comes after it.
fn first_word(text: &[u8]) -> Option<(&[u8], &[u8])>
    ensures cut { MatchOption result (words_of text.now ≡ [])
        (λ cut. words_of text.now ≡ cut.0.now ∷ words_of cut.1.now) }
    ensures text { IfSome result (λ cut. list_all is_text text.now ≡ true → (list_all is_text cut.0.now ≡ true)
        × (list_all is_text cut.1.now ≡ true)) }
{
    let Some(begin) = place_of_word(text) else {
        return None;
    };
    let (_, text) = text.split_at(begin);
    let end = place_of_blank(text).unwrap_or(text.len());
    Some(text.split_at(end))
}

fn place_of_word(text: &[u8]) -> Option<usize>
    ensures place { result ≡ position (λ octet. not (is_blank octet)) text.now }
    ensures within { IfSome result (λ place. place < length text.now) }
{
    text.iter().position(|octet| !is_blank(*octet))
}

fn place_of_blank(text: &[u8]) -> Option<usize>
    ensures place { result ≡ position is_blank text.now }
    ensures within { IfSome result (λ place. place < length text.now) }
{
    text.iter().position(|octet| is_blank(*octet))
}

fn is_blank(octet: u8) -> bool
    ensures blank { result ≡ is_blank octet }
{
    matches!(octet, b' ' | b'\t')
}

fn is_text(octet: u8) -> bool
    ensures text { result ≡ is_text octet }
{
    matches!(octet, b'\t' | b' '..=b'~')
}

/// What a line says, given without its end: nothing where it has no word or its first word begins with `#`, else its
/// words. `Long` where the line has more than 1,024 octets, before anything else; `Words` where it has an octet that is
/// not printable ASCII, space or tab.
pub fn judge_line(line: &[u8]) -> Result<Option<Words<'_>>, Cause>
    ensures line { result ≡ line_of line.now }
    ensures says { Says line.now result }
{
    if line.len() > MOST_OCTETS {
        Err(Cause::Long)
    } else if is_comment(line) {
        Ok(None)
    } else if is_printable(line) {
        Ok(Some(Words { rest: line }))
    } else {
        Err(Cause::Words)
    }
}

fn is_printable(line: &[u8]) -> bool
    ensures printable { result ≡ list_all is_text line.now }
{
    // Without an early end, so that the octets of a line are looked at side by side.
    let mut printable = true;
    'octets: for octet in line {
        printable &= is_text(*octet);
    }
    printable
}

fn is_comment(line: &[u8]) -> bool
    ensures comment { result ≡ is_comment (words_of line.now) }
{
    match place_of_word(line) {
        Some(begin) => line[begin] == b'#',
        None => true,
    }
}
