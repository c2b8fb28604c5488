ghost use Rattle.std.specs.Prelude.{◌≡◌, ℕ, ◌+◌, ◌<◌, ◌≤◌, ◌↔◌, List, [], ◌∷◌, ◌++◌, length, take, IsTrue};
ghost use Rattle.std.specs.Str.Lines.{strip_carriage_return};

use std::marker::Model;

// One more octet than a line may have: the carriage return of the longest line, or what shows that a line is longer.
const ROOM: usize = text_lines::MOST_OCTETS + 1;

/// The front of a line. A contract sees it as its octets.
#[derive(Drop)]
pub(crate) struct Part {
    store: [u8; ROOM],
    len: usize,
}

impl Model for Part {
    ghost Value = { List ℕ };

    ghost view = { λ part. take part.len part.store };

    ghost invariant = { λ part. part.len ≤ 1025 };
}

impl Part {
    pub(crate) fn new() -> Part
        ensures empty { result ≡ [] }
    {
        Part {
            store: [0; ROOM],
            len: 0,
        }
    }

    pub(crate) fn bytes(&self) -> &[u8]
        ensures octets { result.now ≡ self.now }
    {
        &self.store[..self.len]
    }

    pub(crate) fn is_empty(&self) -> bool
        ensures empty { IsTrue result ↔ (self.now ≡ []) }
    {
        self.len == 0
    }

    pub(crate) fn is_full(&self) -> bool
        ensures full { IsTrue result ↔ (length self.now ≡ 1025) }
        ensures room { length self.now ≤ 1025 }
    {
        self.len == ROOM
    }

    pub(crate) fn push(&mut self, octet: u8)
        requires room { length self.old < 1025 }
        ensures added { self.new ≡ self.old ++ octet ∷ [] }
    {
        self.store[self.len] = octet;
        self.len += 1;
    }

    pub(crate) fn clear(&mut self)
        ensures empty { self.new ≡ [] }
    {
        self.len = 0;
    }

    /// The line that a line feed ends here.
    pub(crate) fn line(&self) -> &[u8]
        ensures line { result.now ≡ strip_carriage_return self.now }
    {
        match self.bytes() {
            [front @ .., b'\r'] => front,
            line => line,
        }
    }
}
