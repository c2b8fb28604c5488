ghost use Rattle.std.specs.Prelude.{◌≡◌, ◌∷◌, [], Some, None, Ok, IfOk, IfErr, ◌++◌, IsOk, OnOk, MatchResult, Err};
ghost use Rattle.std.specs.Option.{option_to_list};
ghost use Rattle.key_tables.specs.Text.{group_named, device_named, key_named, level_named, role_named, channel_named, sender_named};
ghost use Rattle.key_tables.specs.Text.{two_words, three_words, group_row, tool_row, role_row, row_of, line_says, row_said, at_line, refusal, tables_of, IsRefusal, IsTextFault, SaysNothingTwice};

use crate::{BuildFault, Channel, Level, Role, Row, RowList, TablesFault};
use hex::FromHex;
use knx_base::{Cause, GroupAddr, IndAddr};
use std::alloc::Global;
use text_lines::{Lines, Words, judge_line};

/// The group address of a word, which is not 0.
pub fn read_group(word: &str) -> Result<GroupAddr, Cause>
    ensures { result ≡ group_named word.now }
{
    match GroupAddr::read(word) {
        Some(group) if group.0 != 0 => Ok(group),
        _ => Err(Cause::Address),
    }
}

/// The device address of a word.
pub fn read_device(word: &str) -> Result<IndAddr, Cause>
    ensures { result ≡ device_named word.now }
{
    IndAddr::read(word).ok_or(Cause::Address)
}

fn read_key(word: &str) -> Result<[u8; 16], Cause>
    ensures { result ≡ key_named word.now }
{
    match <[u8; 16] as FromHex>::from_hex(word) {
        Ok(key) => Ok(key),
        Err(_) => Err(Cause::Key),
    }
}

fn read_level(word: &str) -> Result<Level, Cause>
    ensures { result ≡ level_named word.now }
{
    match word {
        "auth" => Ok(Level::Auth),
        "conf" => Ok(Level::Conf),
        _ => Err(Cause::Level),
    }
}

fn read_role(word: &str) -> Result<Role, Cause>
    ensures { result ≡ role_named word.now }
{
    match word {
        "observe" => Ok(Role::Observe),
        "command" => Ok(Role::Command),
        "manage" => Ok(Role::Manage),
        _ => Err(Cause::Role),
    }
}

/// The channel of a word: a group, or `tool:` and a device.
pub fn read_channel(word: &str) -> Result<Channel, Cause>
    ensures { result ≡ channel_named word.now }
{
    match word.strip_prefix("tool:") {
        Some(device) => Ok(Channel::Tool(read_device(device)?)),
        None => Ok(Channel::Group(read_group(word)?)),
    }
}

fn read_sender(word: &str) -> Result<Option<IndAddr>, Cause>
    ensures { result ≡ sender_named word.now }
{
    match word {
        "any" => Ok(None),
        _ => Ok(Some(read_device(word)?)),
    }
}

/// The words that are left, where they are three.
pub fn three_words<'a>(words: &mut Words<'a>) -> Result<(&'a str, &'a str, &'a str), Cause>
    ensures { MatchResult result (λ three. three_words words.old ≡ Ok (three.0.now, three.1.now, three.2.now))
        (λ why. three_words words.old ≡ Err why) }
{
    match (words.next(), words.next(), words.next(), words.next()) {
        (Some(first), Some(second), Some(third), None) => Ok((first, second, third)),
        _ => Err(Cause::Words),
    }
}

/// The words that are left, where they are two.
pub fn two_words<'a>(words: &mut Words<'a>) -> Result<(&'a str, &'a str), Cause>
    ensures { MatchResult result (λ two. two_words words.old ≡ Ok (two.0.now, two.1.now))
        (λ why. two_words words.old ≡ Err why) }
{
    match (words.next(), words.next(), words.next()) {
        (Some(first), Some(second), None) => Ok((first, second)),
        _ => Err(Cause::Words),
    }
}

fn group_row(words: &mut Words<'_>) -> Result<Row, Cause>
    ensures { result ≡ group_row words.old }
{
    let (address, key, level) = three_words(words)?;
    Ok(Row::Group {
        address: read_group(address)?,
        key: read_key(key)?,
        level: read_level(level)?,
    })
}

fn tool_row(words: &mut Words<'_>) -> Result<Row, Cause>
    ensures { result ≡ tool_row words.old }
{
    let (device, key) = two_words(words)?;
    Ok(Row::Tool {
        device: read_device(device)?,
        key: read_key(key)?,
    })
}

fn role_row(words: &mut Words<'_>) -> Result<Row, Cause>
    ensures { result ≡ role_row words.old }
{
    let (channel, sender, role) = three_words(words)?;
    Ok(Row::Role {
        channel: read_channel(channel)?,
        sender: read_sender(sender)?,
        role: read_role(role)?,
    })
}

fn read_row(words: &mut Words<'_>) -> Result<Row, Cause>
    ensures { result ≡ row_of words.old }
{
    match words.next() {
        Some("group") => group_row(words),
        Some("tool") => tool_row(words),
        Some("role") => role_row(words),
        _ => Err(Cause::Words),
    }
}

/// What a line of a tables text says: nothing, or a row.
#[tactic(auto, unfolding(crate::specs::Text::line_says))]
pub fn read_line(line: &[u8]) -> Result<Option<Row>, Cause>
    ensures { result ≡ line_says line.now }
{
    match judge_line(line)? {
        Some(mut words) => Ok(Some(read_row(&mut words)?)),
        None => Ok(None),
    }
}

/// The rows of a tables text, in the order of their lines, or the fault of its first refused line.
///
/// A line is refused as a line of text, then for an unknown first word or a wrong number of words, then for its first
/// bad word from left to right, then because its row may not stand after the rows before it.
pub fn read_tables(alloc: Global, bytes: &[u8]) -> Result<RowList, TablesFault>
    ensures rows { IfOk result (λ rows. tables_of bytes.now ≡ Ok rows) }
    ensures fault { IfErr result (λ fault. IsTextFault fault (tables_of bytes.now)) }
    ensures once { SaysNothingTwice bytes.now }
{
    let mut list = RowList::new(alloc);
    let mut lines = Lines::new(bytes);
    'lines: while let Some((number, line)) = lines.next() {
        take_line(&mut list, number, line)?;
    }
    Ok(list)
}

// Adds the row that the line says, if it says one.
fn take_line(list: &mut RowList, number: u64, line: &[u8]) -> Result<(), TablesFault>
    ensures taken { OnOk result (list.new ≡ list.old ++ option_to_list (row_said (line_says line.now))) }
    ensures right { IsOk result → refusal number list.old (line_says line.now) ≡ None }
    ensures fault { IfErr result (λ fault. IsRefusal fault (refusal number list.old (line_says line.now))) }
    ensures memory { IfErr result (λ fault. fault ≡ TablesFault.NoMemory
        → refusal number list.old (line_says line.now) ≡ None) }
{
    match read_line(line) {
        Ok(Some(row)) => list.add(row).map_err(|fault| at_line(number, fault)),
        Ok(None) => Ok(()),
        Err(cause) => Err(TablesFault::Line(number, cause)),
    }
}

fn at_line(number: u64, fault: BuildFault) -> TablesFault
    ensures { result ≡ at_line number fault }
{
    match fault {
        BuildFault::Twice(_) => TablesFault::Twice(number),
        BuildFault::TooMany(_) => TablesFault::TooMany(number),
        BuildFault::NoMemory => TablesFault::NoMemory,
    }
}
