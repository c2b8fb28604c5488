//! The pieces of a document.

ghost use Rattle.std.specs.Prelude.{◌≡◌, IfOk};
ghost use Rattle.std.specs.Option.{option_map};
ghost use Rattle.tag_text.specs.Pieces.{attribute_at, attributes_at, tag_end_at, start_tag_at, tag_with, end_tag_at, instruction_at, comment_at, text_at, piece_at, begins_blank};
ghost use Rattle.tag_text.specs.PieceView.{piece_of};

use crate::octets::{
    after_blanks, after_first_mark, after_mark, after_text, begins_blank, begins_text, name_at,
};
use crate::text::{Attributes, Text};
use crate::value::value_at;
use knx_base::NoMemory;
use std::alloc::Global;

/// What one piece says.
#[derive(Debug, Drop)]
pub(crate) enum Piece<'a> {
    Start {
        name: &'a str,
        attributes: Attributes,
    },
    Empty {
        name: &'a str,
        attributes: Attributes,
    },
    End {
        name: &'a str,
    },
    Skipped,
}

// An attribute, with the blanks before it, and what follows.
#[tactic(auto, unfolding(crate::specs::Pieces::attribute_at))]
fn attribute_at(alloc: Global, text: &str) -> Result<Option<(Text, Text, &str)>, NoMemory>
    ensures attribute { IfOk result (λ found. option_map (λ parts. ((parts.0, parts.1), parts.2.now)) found
        ≡ attribute_at text.now) }
{
    if !begins_blank(text) {
        return Ok(None);
    }
    let Some((name, after_name)) = name_at(after_blanks(text)) else {
        return Ok(None);
    };
    let Some(after_equals) = after_mark("=", after_blanks(after_name)) else {
        return Ok(None);
    };
    match value_at(alloc, after_blanks(after_equals)) {
        Ok(Some((value, after))) => Ok(Some((Text::copy(alloc, name)?, value, after))),
        Ok(None) => Ok(None),
        Err(NoMemory) => Err(NoMemory),
    }
}

// The attributes at the front, and what follows.
fn attributes_at(alloc: Global, text: &str) -> Result<(Attributes, &str), NoMemory>
    ensures attributes { IfOk result (λ found. (found.0, found.1.now) ≡ attributes_at text.now) }
{
    let mut attributes = Attributes::new(alloc);
    let mut rest = text;
    'attributes: loop {
        match attribute_at(alloc, rest) {
            Ok(Some((name, value, after))) => {
                attributes.push(name, value)?;
                rest = after;
            }
            Ok(None) => return Ok((attributes, rest)),
            Err(NoMemory) => return Err(NoMemory),
        }
    }
}

// The end of a tag that may have attributes, whether its element is empty, and what follows.
#[tactic(auto, unfolding(crate::specs::Pieces::tag_end_at))]
fn tag_end_at(text: &str) -> Option<(bool, &str)>
    ensures end { option_map (λ end. (end.0, end.1.now)) result ≡ tag_end_at text.now }
{
    let end = after_blanks(text);
    if let Some(after) = after_mark("/>", end) {
        return Some((true, after));
    }
    match after_mark(">", end) {
        Some(after) => Some((false, after)),
        None => None,
    }
}

// A start tag or an empty-element tag, and what follows.
#[tactic(auto, unfolding(crate::specs::Pieces::start_tag_at))]
fn start_tag_at(alloc: Global, text: &str) -> Result<Option<(Piece<'_>, &str)>, NoMemory>
    ensures tag { IfOk result (λ found. option_map (λ piece. (piece_of piece.0, piece.1.now)) found
        ≡ start_tag_at text.now) }
{
    let Some(opened) = after_mark("<", text) else {
        return Ok(None);
    };
    let Some((name, after_name)) = name_at(opened) else {
        return Ok(None);
    };
    match attributes_at(alloc, after_name) {
        Ok((attributes, rest)) => tag_with(alloc, name, attributes, rest),
        Err(NoMemory) => Err(NoMemory),
    }
}

// The tag with this name and these attributes, where it ends here and no attribute is repeated; and what follows.
fn tag_with<'a>(
    alloc: Global,
    name: &'a str,
    attributes: Attributes,
    rest: &'a str,
) -> Result<Option<(Piece<'a>, &'a str)>, NoMemory>
    ensures tag { IfOk result (λ found. option_map (λ piece. (piece_of piece.0, piece.1.now)) found
        ≡ tag_with name.now attributes rest.now) }
{
    let Some((is_empty, after)) = tag_end_at(rest) else {
        return Ok(None);
    };
    if !attributes.are_distinct(alloc)? {
        return Ok(None);
    }
    let tag = if is_empty {
        Piece::Empty { name, attributes }
    } else {
        Piece::Start { name, attributes }
    };
    Ok(Some((tag, after)))
}

// An end tag, and what follows.
#[tactic(auto, unfolding(crate::specs::Pieces::end_tag_at))]
fn end_tag_at(text: &str) -> Option<(Piece<'_>, &str)>
    ensures tag { option_map (λ piece. (piece_of piece.0, piece.1.now)) result ≡ end_tag_at text.now }
{
    let Some(opened) = after_mark("</", text) else {
        return None;
    };
    let Some((name, after_name)) = name_at(opened) else {
        return None;
    };
    match after_mark(">", after_blanks(after_name)) {
        Some(after) => Some((Piece::End { name }, after)),
        None => None,
    }
}

// What follows a processing instruction.
#[tactic(auto, unfolding(crate::specs::Pieces::instruction_at))]
fn instruction_at(text: &str) -> Option<&str>
    ensures after { option_map (λ after. after.now) result ≡ instruction_at text.now }
{
    match after_mark("<?", text) {
        Some(opened) => after_first_mark("?>", opened),
        None => None,
    }
}

// What follows a comment.
#[tactic(auto, unfolding(crate::specs::Pieces::comment_at))]
fn comment_at(text: &str) -> Option<&str>
    ensures after { option_map (λ after. after.now) result ≡ comment_at text.now }
{
    match after_mark("<!--", text) {
        Some(opened) => after_first_mark("-->", opened),
        None => None,
    }
}

// What follows the longest text without `<`, or outside the root element the longest run of blanks.
#[tactic(auto, unfolding(crate::specs::Pieces::text_at))]
fn text_at(inside: bool, text: &str) -> Option<&str>
    ensures after { option_map (λ after. after.now) result ≡ text_at inside text.now }
{
    if inside {
        if begins_text(text) {
            Some(after_text(text))
        } else {
            None
        }
    } else if begins_blank(text) {
        Some(after_blanks(text))
    } else {
        None
    }
}

/// The piece at the front, inside the root element or outside it, and what follows.
#[tactic(auto, unfolding(crate::specs::Pieces::piece_at))]
pub(crate) fn piece_at(
    alloc: Global,
    inside: bool,
    text: &str,
) -> Result<Option<(Piece<'_>, &str)>, NoMemory>
    ensures piece { IfOk result (λ found. option_map (λ piece. (piece_of piece.0, piece.1.now)) found
        ≡ piece_at inside text.now) }
{
    if let Some(after) = instruction_at(text) {
        return Ok(Some((Piece::Skipped, after)));
    }
    if let Some(after) = comment_at(text) {
        return Ok(Some((Piece::Skipped, after)));
    }
    if let Some(after) = text_at(inside, text) {
        return Ok(Some((Piece::Skipped, after)));
    }
    if let Some(found) = end_tag_at(text) {
        return Ok(Some(found));
    }
    start_tag_at(alloc, text)
}
