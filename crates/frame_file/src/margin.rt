ghost use Rattle.std.specs.Prelude.{◌≡◌, Bool, true, false};
ghost use Rattle.tag_text.specs.Octets as octets;
ghost use Rattle.frame_file.specs.Lead.{may_begin, is_over, margin_after};

/// What the octets of a file so far are: a margin, that is a byte order mark and white space, or more than that.
#[derive(Clone, Copy)]
pub(crate) enum Margin {
    Nothing,
    /// The first octet of a byte order mark.
    OneOctet,
    /// The first two.
    TwoOctets,
    /// White space, or after a byte order mark.
    Blanks(bool),
    Over,
}

impl Margin {
    /// A `<` that comes next begins a log.
    pub(crate) fn may_begin(self) -> bool
        ensures begin { result ≡ may_begin self }
    {
        matches!(self, Margin::Nothing | Margin::Blanks(_))
    }

    pub(crate) fn is_over(self) -> bool
        ensures over { result ≡ is_over self }
    {
        matches!(self, Margin::Over)
    }

    /// The margin with one more octet.
    pub(crate) fn after(self, octet: u8) -> Margin
        ensures after { result ≡ margin_after self octet }
    {
        match self {
            Margin::Nothing if octet == 0xef => Margin::OneOctet,
            Margin::OneOctet if octet == 0xbb => Margin::TwoOctets,
            Margin::TwoOctets if octet == 0xbf => Margin::Blanks(true),
            Margin::Nothing if is_blank(octet) => Margin::Blanks(false),
            Margin::Blanks(marked) if is_blank(octet) => Margin::Blanks(marked),
            _ => Margin::Over,
        }
    }
}

fn is_blank(octet: u8) -> bool
    ensures blank { result ≡ octets.is_blank octet }
{
    matches!(octet, b' ' | b'\t' | b'\r' | b'\n')
}
