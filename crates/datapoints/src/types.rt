ghost use Rattle.std.specs.Prelude.{◌≡◌, ◌∷◌, [], ◌++◌, None, Ok, IfOk, IfErr, IsOk, OnOk};
ghost use Rattle.std.specs.Option.{option_to_list};
ghost use Rattle.std.specs.List.{list_any};
ghost use Rattle.datapoints.specs.declared.types.TypesFault.TheVariants.{NoMemory};
ghost use Rattle.datapoints.specs.Types.{is_of, dpt_named, type_row, row_of, line_says, row_said, row_fault, refusal, types_of, IsRefusal, IsTextFault, NoneTwice};

use crate::Dpt;
use key_tables::{read_group, two_words};
use knx_base::{Cause, GroupAddr};
use std::alloc::{AllocFailed, Global};
use std::marker::Model;
use text_lines::{Lines, Words, judge_line};

// So many groups may have a type.
const MOST_ROWS: usize = 4096;

/// Why a text is no types. Lines are counted from 1.
#[derive(Clone, Copy, Debug, PartialEq, Eq)]
pub enum TypesFault {
    Line(u64, Cause),
    /// An earlier line is of the same group.
    Twice(u64),
    /// As many lines as there may be stand before this one.
    TooMany(u64),
    NoMemory,
}

impl<T: Drop> From<AllocFailed<T>> for TypesFault {
    ghost from_gives = { λ _ fault. fault ≡ NoMemory };

    fn from(_error: AllocFailed<T>) -> TypesFault {
        TypesFault::NoMemory
    }
}

/// The datapoint types of groups. A contract sees them as their rows, in the order of their lines.
#[derive(Drop)]
pub struct Types {
    rows: Vec<(GroupAddr, Dpt)>,
}

impl Model for Types {
    ghost use Rattle.std.specs.Prelude.{List};
    ghost use Rattle.knx_base.specs.declared.address.GroupAddr.{GroupAddr};
    ghost use Rattle.datapoints.specs.declared.dpt.Dpt.{Dpt};

    ghost Value = { List (GroupAddr × Dpt) };

    ghost view = { λ types. types.rows.items };
}

impl Types {
    ghost use Rattle.datapoints.specs.Types.{dpt_of};

    /// The type of a group, if a line names the group.
    pub fn of(&self, group: GroupAddr) -> Option<Dpt>
        ensures { result ≡ dpt_of self.now group }
    {
        self.rows
            .iter()
            .find(|row| row.0.0 == group.0)
            .map(|row| row.1)
    }

    fn names(&self, group: GroupAddr) -> bool
        ensures { result ≡ list_any (is_of group) self.now }
    {
        self.rows.iter().any(|row| row.0.0 == group.0)
    }

    fn add(&mut self, number: u64, row: (GroupAddr, Dpt)) -> Result<(), TypesFault>
        ensures added { OnOk result (self.new ≡ self.old ++ row ∷ []) }
        ensures right { IsOk result → row_fault number self.old row ≡ None }
        ensures fault { IfErr result (λ fault. IsRefusal fault (row_fault number self.old row)) }
    {
        if self.names(row.0) {
            return Err(TypesFault::Twice(number));
        }
        if self.rows.len() >= MOST_ROWS {
            return Err(TypesFault::TooMany(number));
        }
        self.rows.push(row)?;
        Ok(())
    }

    // Adds the row that the line says, if it says one.
    fn take_line(&mut self, number: u64, line: &[u8]) -> Result<(), TypesFault>
        ensures taken { OnOk result (self.new ≡ self.old ++ option_to_list (row_said (line_says line.now))) }
        ensures right { IsOk result → refusal number self.old (line_says line.now) ≡ None }
        ensures fault { IfErr result (λ fault. IsRefusal fault (refusal number self.old (line_says line.now))) }
    {
        match read_line(line) {
            Ok(Some(row)) => self.add(number, row),
            Ok(None) => Ok(()),
            Err(cause) => Err(TypesFault::Line(number, cause)),
        }
    }
}

/// The types of a text of lines `type GROUP TYPE`, or the fault of its first refused line.
///
/// A line is refused as a line of text, then for an unknown first word or a wrong number of words, then for its first
/// bad word from left to right, then because its group has a type, then because there are 4,096 types.
pub fn read_types(alloc: Global, bytes: &[u8]) -> Result<Types, TypesFault>
    ensures rows { IfOk result (λ types. types_of bytes.now ≡ Ok types) }
    ensures fault { IfErr result (λ fault. IsTextFault fault (types_of bytes.now)) }
    ensures once { IfOk result (λ types. NoneTwice types) }
{
    let mut types = Types {
        rows: Vec::new(alloc),
    };
    let mut lines = Lines::new(bytes);
    'lines: while let Some((number, line)) = lines.next() {
        types.take_line(number, line)?;
    }
    Ok(types)
}

fn read_dpt(word: &str) -> Result<Dpt, Cause>
    ensures { result ≡ dpt_named word.now }
{
    Dpt::read(word).ok_or(Cause::Value)
}

fn type_row(words: &mut Words<'_>) -> Result<(GroupAddr, Dpt), Cause>
    ensures { result ≡ type_row words.old }
{
    let (group, dpt) = two_words(words)?;
    Ok((read_group(group)?, read_dpt(dpt)?))
}

fn read_row(words: &mut Words<'_>) -> Result<(GroupAddr, Dpt), Cause>
    ensures { result ≡ row_of words.old }
{
    match words.next() {
        Some("type") => type_row(words),
        _ => Err(Cause::Words),
    }
}

#[tactic(auto, unfolding(crate::specs::Types::line_says))]
fn read_line(line: &[u8]) -> Result<Option<(GroupAddr, Dpt)>, Cause>
    ensures { result ≡ line_says line.now }
{
    match judge_line(line)? {
        Some(mut words) => Ok(Some(read_row(&mut words)?)),
        None => Ok(None),
    }
}
