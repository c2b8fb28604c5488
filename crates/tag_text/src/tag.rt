use crate::text::{Attributes, Text};
use std::error::Error;
use std::fmt;

/// What is read of a document: the start of an element, the end of one, or that the document is read to its end.
///
/// The place of a start or an end is the place of its tag's `<` in the document. The start and the end of an
/// empty-element tag have one place.
#[derive(Debug, Drop)]
pub enum Tag {
    Start {
        name: Text,
        attributes: Attributes,
        place: usize,
    },
    End {
        place: usize,
    },
    Finish,
}

/// Why no tag is read.
#[derive(Clone, Copy, Debug, PartialEq, Eq)]
pub enum TagFault {
    /// No piece that may stand at this place does, or the document ends too early.
    Bad(usize),
    /// The octets from this place on are not UTF-8.
    Utf8(usize),
    /// The tag at this place would open the thirty-third element in depth.
    Deep(usize),
    NoMemory,
}

impl fmt::Display for TagFault {
    fn fmt<W: fmt::Write>(&self, f: &mut fmt::Formatter<W>) -> fmt::Result {
        match self {
            TagFault::Bad(place) => write!(f, "no piece of a document at {place}"),
            TagFault::Utf8(place) => write!(f, "no UTF-8 at {place}"),
            TagFault::Deep(place) => write!(f, "too many open elements at {place}"),
            TagFault::NoMemory => f.write_str("out of memory"),
        }
    }
}

impl Error for TagFault {}
