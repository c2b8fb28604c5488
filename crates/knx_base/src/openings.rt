ghost use Rattle.std.specs.Prelude.{◌≡◌, [], ◌∷◌, ◌++◌};
ghost use Rattle.std.specs.String.{string_bytes};

use std::marker::Model;
use std::snapshot::Snapshot;

// The names that were opened, in their order, for contracts alone: it has no octet of any name.
#[derive(Drop)]
#[cycle(openings)]
pub(crate) struct Openings {
    last: Last,
}

#[derive(Drop)]
#[cycle(openings)]
enum Last {
    Nothing,
    Name(Snapshot<Openings>, Snapshot<String>),
}

impl Model for Openings {
    ghost use Rattle.std.specs.Prelude.{List, ℕ, length};

    ghost Value = { List (List ℕ) };

    ghost use Rattle.knx_base.specs.Openings.{names_to};

    ghost view = { λ o. names_to o.last };

    ghost size = { length };

    ghost use Rattle.std.proofs.Common.{arith, length-append};

    ghost size_decreases = { λ o h. Prim.grind (arith, length-append) };
}

impl Openings {
    pub(crate) fn new() -> Openings
        ensures none { result ≡ [] }
    {
        Openings {
            last: Last::Nothing,
        }
    }

    pub(crate) fn note(&mut self, name: &String)
        ensures noted { self.new ≡ self.old ++ string_bytes name.now ∷ [] }
    {
        let before = Snapshot::of(&*self);
        self.last = Last::Name(before, Snapshot::of(name));
    }
}
