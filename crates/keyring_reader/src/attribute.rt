ghost use Rattle.std.specs.Prelude.{◌≡◌};
ghost use Rattle.keyring_reader.specs.Attributes.{name_of};

use std::fmt;

/// An attribute that an element of a keyring must have.
#[derive(Clone, Copy, Debug, PartialEq, Eq)]
pub enum Attribute {
    Created,
    Signature,
    Address,
    Key,
    IndividualAddress,
}

impl Attribute {
    /// The attribute's name, as a document has it.
    pub fn name(self) -> &'static str
        ensures { result.now ≡ name_of self }
    {
        match self {
            Attribute::Created => "Created",
            Attribute::Signature => "Signature",
            Attribute::Address => "Address",
            Attribute::Key => "Key",
            Attribute::IndividualAddress => "IndividualAddress",
        }
    }
}

impl fmt::Display for Attribute {
    fn fmt<W: fmt::Write>(&self, f: &mut fmt::Formatter<W>) -> fmt::Result {
        f.write_str(self.name())
    }
}
