ghost use Rattle.std.specs.Prelude.{◌≡◌, ℕ, ◌<◌, ◌≤◌, [], ◌∷◌, ◌++◌, length, take, drop, MatchOption, IfSome, IfNone, Some, option_map};
ghost use Rattle.knx_base.specs.Decimal.{decimal_up_to};
ghost use Rattle.knx_base.specs.Address.{IsIndividual, IsGroup, pieces_of, individual_value, individual_of, two_level_value, three_level_value, group_of, parts_text, individual_text, group_text};

use crate::decimal::{put_decimal, put_octet, read_decimal};

#[cfg(test)]
mod tests;

/// The address of a device: four bits of area, four of line, eight of device.
#[derive(Clone, Copy, Debug, PartialEq, Eq, PartialOrd, Ord)]
pub struct IndAddr(pub u16);

/// The address of a group: five bits of main group, three of middle group, eight of subgroup.
#[derive(Clone, Copy, Debug, PartialEq, Eq, PartialOrd, Ord)]
pub struct GroupAddr(pub u16);

impl IndAddr {
    /// The address of a text `area.line.device`: three decimals up to 15, 15 and 255.
    pub fn read(text: &str) -> Option<IndAddr>
        ensures value { option_map (λ address. address.0) result ≡ individual_of text.now }
        ensures found { IfSome result (λ address. IsIndividual text.now address.0) }
        ensures none { IfNone result ((value : ℕ) → IsIndividual text.now value → ⊥) }
    {
        read_individual(text).map(IndAddr)
    }

    /// Writes the text of the address to the front of `out`, and returns its length.
    pub fn write_text(&self, out: &mut [u8; 12]) -> usize
        ensures length { result ≡ length (individual_text self.now.0) }
        ensures text { take result out.new ≡ individual_text self.now.0 }
        ensures rest { drop result out.new ≡ drop result out.old }
        ensures reads_back { individual_of (individual_text self.now.0) ≡ Some self.now.0 }
    {
        write_parts(b'.', self.0 >> 12, self.0 >> 8 & 15, self.0 & 255, out)
    }
}

impl GroupAddr {
    /// The address of a text `main/middle/sub`, three decimals up to 31, 7 and 255, or `main/sub`, up to 31 and 2047,
    /// or one decimal up to 65535.
    pub fn read(text: &str) -> Option<GroupAddr>
        ensures value { option_map (λ address. address.0) result ≡ group_of text.now }
        ensures found { IfSome result (λ address. IsGroup text.now address.0) }
        ensures none { IfNone result ((value : ℕ) → IsGroup text.now value → ⊥) }
    {
        read_group(text).map(GroupAddr)
    }

    /// Writes the text of the address in its form with three parts to the front of `out`, and returns its length.
    pub fn write_text(&self, out: &mut [u8; 12]) -> usize
        ensures length { result ≡ length (group_text self.now.0) }
        ensures text { take result out.new ≡ group_text self.now.0 }
        ensures rest { drop result out.new ≡ drop result out.old }
        ensures reads_back { group_of (group_text self.now.0) ≡ Some self.now.0 }
    {
        write_parts(b'/', self.0 >> 11, self.0 >> 8 & 7, self.0 & 255, out)
    }
}

fn write_parts(separator: u8, first: u16, second: u16, third: u16, out: &mut [u8; 12]) -> usize
    requires first { first < 100 }
    requires second { second < 100 }
    requires third { third < 1000 }
    ensures length { result ≡ length (parts_text separator first second third) }
    ensures text { take result out.new ≡ parts_text separator first second third }
    ensures rest { drop result out.new ≡ drop result out.old }
{
    let after = put_decimal(out, 0, first as u64);
    let after = put_octet(out, after, separator);
    let after = put_decimal(out, after, second as u64);
    let after = put_octet(out, after, separator);
    put_decimal(out, after, third as u64)
}

fn read_individual(text: &str) -> Option<u16>
    ensures { result ≡ individual_of text.now }
{
    let (area, rest) = cut_at(text, '.')?;
    let (line, device) = cut_at(rest, '.')?;
    individual(area, line, device)
}

fn individual(area: &str, line: &str, device: &str) -> Option<u16>
    ensures { result ≡ individual_value (decimal_up_to 15 area.now) (decimal_up_to 15 line.now)
        (decimal_up_to 255 device.now) }
{
    Some(part(area, 15)? * 4096 + part(line, 15)? * 256 + part(device, 255)?)
}

fn read_group(text: &str) -> Option<u16>
    ensures { result ≡ group_of text.now }
{
    let Some((main, rest)) = cut_at(text, '/') else {
        return part(text, 65535);
    };
    match cut_at(rest, '/') {
        None => two_level(main, rest),
        Some((middle, sub)) => three_level(main, middle, sub),
    }
}

fn two_level(main: &str, sub: &str) -> Option<u16>
    ensures { result ≡ two_level_value (decimal_up_to 31 main.now) (decimal_up_to 2047 sub.now) }
{
    Some(part(main, 31)? * 2048 + part(sub, 2047)?)
}

fn three_level(main: &str, middle: &str, sub: &str) -> Option<u16>
    ensures { result ≡ three_level_value (decimal_up_to 31 main.now) (decimal_up_to 7 middle.now)
        (decimal_up_to 255 sub.now) }
{
    Some(part(main, 31)? * 2048 + part(middle, 7)? * 256 + part(sub, 255)?)
}

fn part(text: &str, most: u16) -> Option<u16>
    ensures number { result ≡ decimal_up_to most text.now }
    ensures bound { IfSome result (λ n. n ≤ most) }
{
    let number = read_decimal(text, most as u64)?;
    Some(number as u16)
}

// What stands before the first separator, and what stands after it.
fn cut_at(text: &str, separator: char) -> Option<(&str, &str)>
    requires ascii { separator < 128 }
    ensures cut { MatchOption result (pieces_of separator text.now ≡ text.now ∷ [])
        (λ parts. pieces_of separator text.now ≡ parts.0.now ∷ pieces_of separator parts.1.now) }
{
    text.split_once(separator)
}
