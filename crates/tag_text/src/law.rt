ghost use Rattle.std.specs.Prelude.{◌≡◌, ℕ, List, None, All};
ghost use Rattle.tag_text.specs.declared.tag.Tag.{Tag};
ghost use Rattle.tag_text.specs.Document.{Left, outcome_of, events_of};
ghost use Rattle.tag_text.specs.Elements.{IsWhole};
ghost use Rattle.tag_text.specs.Grammar.{IsDocument};
ghost use Rattle.tag_text.specs.Names.{NamesOnce};

/// Every list of octets is a document of the grammar with one outcome and no other, and that is the one that readers
/// give.
pub fn one_outcome()
    ensures there { (octets : List ℕ) → IsDocument octets (outcome_of octets) }
    ensures only { (octets : List ℕ) (left : Left) → IsDocument octets left → left ≡ outcome_of octets }
{}

/// A document is read to its end exactly where it is one element in the recursive sense, with nothing but margins
/// around it, and the tags are those of that element: each start with its end, one in another no deeper than
/// thirty-two.
pub fn one_element()
    ensures read { (octets : List ℕ) (tags : List Tag) → IsWhole octets tags
        → outcome_of octets ≡ record { tags = tags; fault = None } }
    ensures only { (octets : List ℕ) (tags : List Tag) → outcome_of octets ≡ record { tags = tags; fault = None }
        → IsWhole octets tags }
{}

/// No tag of a document, whole or not, names an attribute twice.
pub fn names_once()
    ensures { (octets : List ℕ) → All NamesOnce (events_of octets) }
{}
