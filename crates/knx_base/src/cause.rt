ghost use Rattle.std.specs.Prelude.{◌≡◌, List, ℕ, Some};
ghost use Rattle.knx_base.specs.Cause.{cause_word};

use std::fmt;

/// Why a line of a text was refused.
#[derive(Clone, Copy, Debug, PartialEq, Eq)]
pub enum Cause {
    /// An unknown first word, a wrong number of words, or an octet that no line may have.
    Words,
    Address,
    Key,
    Level,
    Role,
    Any,
    Name,
    Lane,
    Number,
    Flags,
    Size,
    Value,
    Service,
    Digits,
    /// The line has more octets than any may have.
    Long,
}

impl Cause {
    /// The word that a refusal prints.
    pub fn word(&self) -> &'static str
        ensures word { result.now ≡ cause_word self.now }
    {
        match self {
            Cause::Words => "words",
            Cause::Address => "address",
            Cause::Key => "key",
            Cause::Level => "level",
            Cause::Role => "role",
            Cause::Any => "any",
            Cause::Name => "name",
            Cause::Lane => "lane",
            Cause::Number => "number",
            Cause::Flags => "flags",
            Cause::Size => "size",
            Cause::Value => "value",
            Cause::Service => "service",
            Cause::Digits => "digits",
            Cause::Long => "long",
        }
    }
}

impl fmt::Display for Cause {
    ghost output = { λ cause. Some (cause_word cause) };

    fn fmt<W: fmt::Write>(&self, f: &mut fmt::Formatter<W>) -> fmt::Result {
        f.write_str(self.word())
    }
}
