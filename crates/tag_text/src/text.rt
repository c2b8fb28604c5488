ghost use Rattle.std.specs.Prelude.{◌≡◌, ◌≢◌, ◌≤◌, ℕ, List, [], ◌∷◌, ◌++◌, length, slice_get, IfNone, IfOk, OnErr, OnOk, All};
ghost use Rattle.std.specs.Option.{option_map};
ghost use Rattle.std.specs.String.{string_bytes};
ghost use Rattle.tag_text.specs.Attributes.{value_named, are_distinct};

use knx_base::NoMemory;
use std::alloc::Global;
use std::collections::BTreeSet;
use std::marker::Model;

/// A name or a value. A contract sees it as its octets.
#[derive(Debug, Drop)]
pub struct Text {
    text: String,
}

impl Model for Text {
    ghost Value = { List ℕ };

    ghost view = { λ t. string_bytes t.text };
}

impl Text {
    pub(crate) fn new(text: String) -> Text
        ensures octets { result ≡ string_bytes text }
    {
        Text { text }
    }

    pub(crate) fn copy(alloc: Global, text: &str) -> Result<Text, NoMemory>
        ensures octets { IfOk result (λ copy. copy ≡ text.now) }
    {
        Ok(Text::new(String::from_str(alloc, text)?))
    }

    pub fn as_str(&self) -> &str
        ensures octets { result.now ≡ self.now }
    {
        self.text.as_str()
    }
}

/// The attributes of a start tag in order of appearance, with no name twice. A contract sees them as pairs of a name
/// and a value, in which references are resolved and line ends are spaces.
#[derive(Debug, Drop)]
pub struct Attributes {
    pairs: Vec<(Text, Text)>,
}

impl Model for Attributes {
    ghost Value = { List (List ℕ × List ℕ) };

    ghost view = { λ a. a.pairs.items };
}

impl Attributes {
    pub(crate) fn new(alloc: Global) -> Attributes
        ensures none { result ≡ [] }
    {
        Attributes {
            pairs: Vec::new(alloc),
        }
    }

    pub(crate) fn push(&mut self, name: Text, value: Text) -> Result<(), NoMemory>
        ensures ok { OnOk result (self.new ≡ self.old ++ (name, value) ∷ []) }
        ensures err { OnErr result (self.new ≡ self.old) }
    {
        self.pairs.push((name, value))?;
        Ok(())
    }

    /// No two attributes have one name.
    pub(crate) fn are_distinct(&self, alloc: Global) -> Result<bool, NoMemory>
        ensures distinct { IfOk result (λ distinct. distinct ≡ are_distinct self.now) }
    {
        are_distinct(alloc, &self.pairs)
    }

    fn named(&self, name: &str) -> Option<&str>
        ensures value { option_map (λ value. value.now) result ≡ value_named self.now name.now }
    {
        let attribute = self.pairs.iter().find(|pair| pair.0.as_str() == name);
        attribute.map(|pair| pair.1.as_str())
    }

    /// The value of the attribute of this name, or None where there is none.
    pub fn get(&self, name: &str) -> Option<&str>
        ensures value { option_map (λ value. value.now) result ≡ value_named self.now name.now }
        ensures none { IfNone result (All (λ attribute. attribute.0 ≢ name.now) self.now) }
    {
        self.named(name)
    }

    /// How many attributes there are.
    pub fn len(&self) -> usize
        ensures len { result ≡ length self.now }
    {
        self.pairs.len()
    }

    /// The name and the value of the attribute at this place, counted from 0, or None where there are no more than
    /// `index`.
    pub fn pair(&self, index: usize) -> Option<(&str, &str)>
        ensures pair { option_map (λ pair. (pair.0.now, pair.1.now)) result ≡ slice_get self.now index }
        ensures none { IfNone result (length self.now ≤ index) }
    {
        let (name, value) = self.pairs.get(index)?;
        Some((name.as_str(), value.as_str()))
    }
}

// From the last on, since each name is told from those after it.
fn are_distinct(alloc: Global, pairs: &[(Text, Text)]) -> Result<bool, NoMemory>
    ensures distinct { IfOk result (λ distinct. distinct ≡ are_distinct pairs.now) }
{
    let mut names = BTreeSet::new(alloc);
    let mut left = pairs.len();
    'names: while left > 0 {
        left -= 1;
        let pair = &pairs[left];
        if !names.insert(pair.0.as_str())? {
            return Ok(false);
        }
    }
    Ok(true)
}
