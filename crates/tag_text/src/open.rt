ghost use Rattle.std.specs.Prelude.{◌≡◌, ◌<◌, ◌≤◌, ◌∷◌, [], List, ℕ, length, drop};
ghost use Rattle.std.specs.Option.{option_map};

use std::marker::Model;

pub(crate) const MOST: usize = 32;

/// The names of the open elements. A contract sees them as a list, the innermost first.
#[derive(Drop)]
pub(crate) struct Open<'a> {
    names: [&'a str; MOST],
    depth: usize,
}

impl<'a> Model for Open<'a> {
    ghost use Rattle.std.specs.Prelude.{List, ℕ, ◌≤◌, map, reverse, take};

    ghost Value = { List (List ℕ) };

    ghost view = { λ o. reverse (map (λ name. name.now) (take o.depth o.names)) };

    ghost invariant = { λ o. o.depth ≤ 32 };
}

impl<'a> Open<'a> {
    pub(crate) fn new() -> Open<'a>
        ensures none { result ≡ [] }
    {
        Open {
            names: [""; MOST],
            depth: 0,
        }
    }

    pub(crate) fn depth(&self) -> usize
        ensures depth { result ≡ length self.now }
    {
        self.depth
    }

    pub(crate) fn push(&mut self, name: &'a str)
        requires room { length self.old < 32 }
        ensures pushed { self.new ≡ name.now ∷ self.old }
    {
        self.names[self.depth] = name;
        self.depth += 1;
    }

    pub(crate) fn last(&self) -> &'a str
        requires some { 0 < length self.now }
        ensures last { (more : List (List ℕ)) × (self.now ≡ result.now ∷ more) }
    {
        self.names[self.depth - 1]
    }

    pub(crate) fn pop(&mut self)
        requires some { 0 < length self.old }
        ensures popped { self.new ≡ drop 1 self.old }
    {
        self.depth -= 1;
    }
}
