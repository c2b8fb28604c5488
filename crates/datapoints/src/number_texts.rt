ghost use Rattle.std.specs.Prelude.{◌≡◌, ◌≢◌, ℕ, [], ◌∷◌, ◌*◌, ◌/◌, ◌^◌, ◌<◌, ◌≤◌, ◌++◌, MatchOption, IfSome, option_map};
ghost use Rattle.std.specs.Fmt.{sign_text};
ghost use Rattle.datapoints.specs.Values.{two_digits, hundredths, scaling_text, signed_text, float_text, exponent_of};
ghost use Rattle.datapoints.specs.Parsing.{NamesNumber, IsOnly, CutsPoint, IsOnlySign, IsLeastOf, IsFormAt};

use knx_base::read_decimal;

const MOST_WHOLE: u64 = 999_999;

/// The number of which the two octets are the digits.
pub(crate) fn read_two_digits(tens: u8, ones: u8) -> Option<u8>
    ensures { NamesNumber 100 two_digits (tens ∷ ones ∷ []) result }
{
    if tens.is_ascii_digit() && ones.is_ascii_digit() {
        return Some((tens - b'0') * 10 + (ones - b'0'));
    }
    None
}

// So many hundredths, up to 999,999.99.
fn read_hundredths(text: &str) -> Option<u64>
    ensures number { NamesNumber (10 ^ 8) hundredths text.now result }
    ensures only { IfSome result (IsOnly (10 ^ 8) hundredths text.now) }
{
    let (whole, part) = cut_at_point(text)?;
    let [tens, ones] = part.as_bytes() else {
        return None;
    };
    let whole = read_decimal(whole, MOST_WHOLE)?;
    let part = read_two_digits(*tens, *ones)?;
    Some(whole * 100 + u64::from(part))
}

fn cut_at_point(text: &str) -> Option<(&str, &str)>
    ensures { CutsPoint text.now (option_map (λ cut. (cut.0.now, cut.1.now)) result) }
{
    text.split_once('.')
}

/// The octet of a part of 255 whose text this is.
pub(crate) fn read_scaling(text: &str) -> Option<u64>
    ensures { NamesNumber (2 ^ 8) scaling_text text.now result }
{
    scaling_of(read_hundredths(text)?)
}

// The part of 255 that is so many hundredths of a percent, rounded down.
fn scaling_of(hundredths: u64) -> Option<u64>
    requires { hundredths < 10 ^ 8 }
    ensures { MatchOption result ((n : ℕ) → n < 2 ^ 8 → n * 10000 / 255 ≢ hundredths)
        (λ n. (n < 2 ^ 8) × (n * 10000 / 255 ≡ hundredths)) }
{
    let number = (hundredths * 255).div_ceil(10_000);
    if number > 255 {
        return None;
    }
    if number * 10_000 / 255 != hundredths {
        return None;
    }
    Some(number)
}

// Whether a minus stands in front, and what comes after it.
fn cut_sign(text: &str) -> (bool, &str)
    ensures whole { text.now ≡ sign_text result.0 ++ result.1.now }
    ensures only { IsOnlySign text.now result.0 result.1.now }
{
    match text.strip_prefix('-') {
        Some(rest) => (true, rest),
        None => (false, text),
    }
}

/// The number in two's complement whose text this is. From `half` of all numbers on, it is negative.
pub(crate) fn read_signed(text: &str, half: u64) -> Option<u64>
    requires least { 1 ≤ half }
    requires most { half ≤ 2 ^ 31 }
    ensures { NamesNumber (2 * half) (signed_text half) text.now result }
{
    let (negative, digits) = cut_sign(text);
    if !negative {
        return read_decimal(digits, half - 1);
    }
    match read_decimal(digits, half)? {
        0 => None,
        below_zero => Some(2 * half - below_zero),
    }
}

/// The number with an exponent whose text this is, in the form with the least exponent.
pub(crate) fn read_float(text: &str) -> Option<u64>
    ensures number { MatchOption result ((n : ℕ) → n < 2 ^ 16 → n ≢ 0x7fff → text.now ≢ float_text n)
        (λ n. (n < 2 ^ 16) × (n ≢ 0x7fff) × (text.now ≡ float_text n)) }
    ensures least { MatchOption result (Unit {0}) (λ n. (other : ℕ) → other < 2 ^ 16 → other ≢ 0x7fff
        → text.now ≡ float_text other → exponent_of n ≤ exponent_of other) }
{
    let (negative, digits) = cut_sign(text);
    least_form(negative, read_hundredths(digits)?)
}

fn least_form(negative: bool, magnitude: u64) -> Option<u64>
    requires { magnitude < 10 ^ 8 }
    ensures { IsLeastOf negative magnitude result }
{
    for exponent in 0..16 {
        if let Some(number) = form_with(exponent, negative, magnitude) {
            return Some(number);
        }
    }
    None
}

fn form_with(exponent: u64, negative: bool, magnitude: u64) -> Option<u64>
    requires exponent { exponent < 16 }
    requires bound { magnitude < 10 ^ 8 }
    ensures { IsFormAt exponent negative magnitude result }
{
    let step = 1 << exponent;
    let steps = magnitude / step;
    if steps * step != magnitude {
        return None;
    }
    if negative {
        if steps == 0 || steps > 2048 {
            return None;
        }
        return Some(0x8000 + exponent * 2048 + (2048 - steps));
    }
    if steps > 2047 || (exponent == 15 && steps == 2047) {
        return None;
    }
    Some(exponent * 2048 + steps)
}
