use crate::scan::Scan;
use crate::tag::{Tag, TagFault};
use std::alloc::Global;
use std::marker::Model;

/// A reader of an element document, which gives the starts and ends of its elements in order.
///
/// A contract sees it as what is still to be given: the tags that are left, and the fault after them, if there is one.
#[derive(Drop)]
pub struct TagReader<'a> {
    scan: Scan<'a>,
    // the place of an empty-element tag whose end is still to be given
    ended: Option<usize>,
    // the place of the first octets that are not UTF-8
    ill_formed: Option<usize>,
}

impl<'a> Model for TagReader<'a> {
    ghost use Rattle.tag_text.specs.Document.{Left};

    ghost Value = { Left };

    ghost use Rattle.tag_text.specs.Reader.{left_by};

    ghost view = { left_by };
}

impl<'a> TagReader<'a> {
    ghost use Rattle.std.specs.Prelude.{◌≡◌, IfOk};
    ghost use Rattle.tag_text.specs.Document.{outcome_of};
    ghost use Rattle.tag_text.specs.Grammar.{IsDocument};
    ghost use Rattle.tag_text.specs.Names.{NamesOnce};
    ghost use Rattle.tag_text.specs.Giving.{Gives};

    /// A reader before the first tag of the document with these octets.
    pub fn new(bytes: &'a [u8]) -> TagReader<'a>
        ensures document { IsDocument bytes.now result }
        ensures all { result ≡ outcome_of bytes.now }
    {
        match str::from_utf8(bytes) {
            Ok(text) => TagReader {
                scan: Scan::new(text),
                ended: None,
                ill_formed: None,
            },
            Err(error) => TagReader {
                scan: Scan::new(""),
                ended: None,
                ill_formed: Some(error.valid_up_to()),
            },
        }
    }

    /// The next tag. Without memory the reader is as it was. After another fault it answers that fault again, and after
    /// Finish it answers Finish again.
    pub fn next(&mut self, alloc: Global) -> Result<Tag, TagFault>
        ensures tag { Gives self.old self.new result }
        ensures names { IfOk result NamesOnce }
    {
        if let Some(place) = self.ill_formed {
            return Err(TagFault::Utf8(place));
        }
        if let Some(place) = self.ended {
            self.ended = None;
            return Ok(Tag::End { place });
        }
        match self.scan.next(alloc) {
            Ok(given) => {
                self.ended = given.ended;
                Ok(given.tag)
            }
            Err(fault) => Err(fault),
        }
    }
}
