ghost use Rattle.std.specs.Prelude.{◌≡◌, ◌≤◌, length};
ghost use Rattle.tag_text.specs.Document.{after_order_mark};

use crate::octets::after_mark;
use crate::open::{MOST, Open};
use crate::piece::{Piece, piece_at};
use crate::tag::{Tag, TagFault};
use crate::text::{Attributes, Text};
use knx_base::NoMemory;
use std::alloc::Global;

const BYTE_ORDER_MARK: &str = "\u{feff}";

/// Where in a document a reader stands.
#[derive(Drop)]
pub(crate) struct Scan<'a> {
    total: usize,
    rest: &'a str,
    begun: bool,
    elements: Open<'a>,
    ghost within: { length rest.now ≤ total },
}

// What follows a byte order mark, if there is one.
fn after_order_mark(text: &str) -> &str
    ensures after { result.now ≡ after_order_mark text.now }
    ensures less { length result.now ≤ length text.now }
{
    match after_mark(BYTE_ORDER_MARK, text) {
        Some(after) => after,
        None => text,
    }
}

/// A tag that a piece gives, and the place of an end that comes right after it.
#[derive(Drop)]
pub(crate) struct Given {
    pub(crate) tag: Tag,
    pub(crate) ended: Option<usize>,
}

impl<'a> Scan<'a> {
    ghost use Rattle.std.specs.Prelude.{◌≡◌, ◌≤◌, ◌<◌, length, true};
    ghost use Rattle.tag_text.specs.Document.{step, left_of, judged, place_of, start_of, is_inside, is_whole, may_begin, has_room};
    ghost use Rattle.tag_text.specs.PieceView.{piece_of};
    ghost use Rattle.tag_text.specs.Scan.{state_of, Answers, BeginsElement, GivesLeft};

    fn place(&self) -> usize
        ensures place { result ≡ place_of (state_of self.now) }
    {
        self.total - self.rest.len()
    }

    // Inside the root element.
    fn is_inside(&self) -> bool
        ensures inside { result ≡ is_inside (state_of self.now) }
    {
        self.elements.depth() > 0
    }

    // The document may end here.
    fn is_whole(&self) -> bool
        ensures whole { result ≡ is_whole (state_of self.now) }
    {
        self.rest.is_empty() && self.begun && !self.is_inside()
    }

    // A tag may begin an element here.
    fn may_begin(&self) -> bool
        ensures may { result ≡ may_begin (state_of self.now) }
    {
        self.is_inside() || !self.begun
    }

    // One more element may be open.
    fn has_room(&self) -> bool
        ensures room { result ≡ has_room (state_of self.now) }
        ensures below { result ≡ true → length self.now.elements < 32 }
    {
        self.elements.depth() < MOST
    }

    /// Before the first piece of this document.
    pub(crate) fn new(text: &'a str) -> Scan<'a>
        ensures start { state_of result ≡ start_of text.now }
    {
        Scan {
            total: text.len(),
            rest: after_order_mark(text),
            begun: false,
            elements: Open::new(),
        }
    }

    /// Reads up to the next piece that gives something.
    pub(crate) fn next(&mut self, alloc: Global) -> Result<Given, TagFault>
        ensures left { GivesLeft (left_of (state_of self.old)) (left_of (state_of self.new)) result }
    {
        'pieces: loop {
            match self.advance(alloc) {
                Ok(Some(given)) => return Ok(given),
                Ok(None) => {}
                Err(fault) => return Err(fault),
            }
        }
    }

    // Reads the next piece. After any refusal, and at the end, all is as it was.
    #[tactic(auto, unfolding(crate::specs::Document::step))]
    fn advance(&mut self, alloc: Global) -> Result<Option<Given>, TagFault>
        ensures answer { Answers (step (state_of self.old)) (state_of self.old) (state_of self.new) result }
    {
        if self.is_whole() {
            return Ok(Some(Given {
                tag: Tag::Finish,
                ended: None,
            }));
        }
        match piece_at(alloc, self.is_inside(), self.rest) {
            Ok(Some((piece, after))) => self.judge(alloc, piece, after),
            Ok(None) => Err(TagFault::Bad(self.place())),
            Err(NoMemory) => Err(TagFault::NoMemory),
        }
    }

    // Takes it that an element begins here, if one may.
    fn begin(&mut self, alloc: Global, name: &str, attributes: Attributes) -> Result<Tag, TagFault>
        ensures begins { BeginsElement (state_of self.old) (state_of self.new) name.now attributes result }
    {
        if !self.may_begin() {
            return Err(TagFault::Bad(self.place()));
        }
        if !self.has_room() {
            return Err(TagFault::Deep(self.place()));
        }
        match Text::copy(alloc, name) {
            Ok(name) => {
                self.begun = true;
                Ok(Tag::Start {
                    name,
                    attributes,
                    place: self.place(),
                })
            }
            Err(NoMemory) => Err(TagFault::NoMemory),
        }
    }

    fn judge(
        &mut self,
        alloc: Global,
        piece: Piece<'a>,
        after: &'a str,
    ) -> Result<Option<Given>, TagFault>
        requires less { length after.now ≤ length self.old.rest.now }
        ensures answer { Answers (judged (state_of self.old) (piece_of piece.entry) after.entry.now) (state_of self.old)
            (state_of self.new) result }
    {
        let place = self.place();
        match piece {
            Piece::Start { name, attributes } => {
                let tag = self.begin(alloc, name, attributes)?;
                self.elements.push(name);
                self.rest = after;
                Ok(Some(Given { tag, ended: None }))
            }
            Piece::Empty { name, attributes } => {
                let tag = self.begin(alloc, name, attributes)?;
                self.rest = after;
                Ok(Some(Given {
                    tag,
                    ended: Some(place),
                }))
            }
            Piece::End { name } => {
                if self.elements.depth() == 0 || self.elements.last() != name {
                    return Err(TagFault::Bad(place));
                }
                self.elements.pop();
                self.rest = after;
                Ok(Some(Given {
                    tag: Tag::End { place },
                    ended: None,
                }))
            }
            Piece::Skipped => {
                self.rest = after;
                Ok(None)
            }
        }
    }
}
