ghost use Rattle.std.specs.Prelude.{◌≡◌, ℕ, ◌+◌, ◌-◌, ◌^◌, ◌<◌, ◌≤◌, ◌↔◌, ◌⊎◌, [], ◌∷◌, ◌++◌, length, take, drop, slice_index, IsTrue, IfSome, IfNone};
ghost use Rattle.std.specs.Fmt.{decimal};
ghost use Rattle.knx_base.specs.Decimal.{IsDecimal, at_most, decimal_up_to};

/// The number that the text is the decimal of, up to `most`. A decimal has one or more digits, no sign, and no
/// leading zero but in `0` itself.
pub fn read_decimal(text: &str, most: u64) -> Option<u64>
    ensures number { result ≡ decimal_up_to most text.now }
    ensures found { IfSome result (λ n. (n ≤ most) × IsDecimal text.now n) }
    ensures none { IfNone result ((n : ℕ) → n ≤ most → IsDecimal text.now n → ⊥) }
{
    within(most, parse_decimal(text))
}

fn within(most: u64, number: Option<u64>) -> Option<u64>
    ensures { result ≡ at_most most number }
{
    match number {
        Some(number) if number <= most => Some(number),
        _ => None,
    }
}

fn parse_decimal(text: &str) -> Option<u64>
    ensures { result ≡ decimal_up_to (2 ^ 64 - 1) text.now }
{
    if is_padded(text) {
        return None;
    }
    text.parse().ok()
}

// A plus stands in front, or a zero before something else.
fn is_padded(text: &str) -> bool
    ensures { IsTrue result ↔ (slice_index text.now 0 ≡ 43) ⊎ ((slice_index text.now 0 ≡ 48) × (1 < length text.now)) }
{
    match text.as_bytes() {
        [b'+', ..] | [b'0', _, ..] => true,
        _ => false,
    }
}

/// Writes the octet at the place `at`, and returns the place after it.
pub fn put_octet(out: &mut [u8], at: usize, octet: u8) -> usize
    requires room { at < length out.old }
    ensures next { result ≡ at + 1 }
    ensures front { take result out.new ≡ take at out.old ++ octet ∷ [] }
    ensures rest { drop result out.new ≡ drop result out.old }
{
    out[at] = octet;
    at + 1
}

/// Writes the decimal of the number from the place `at` on, and returns the place after it.
pub fn put_decimal(out: &mut [u8], at: usize, number: u64) -> usize
    requires room { at + length (decimal number) ≤ length out.old }
    ensures next { result ≡ at + length (decimal number) }
    ensures front { take result out.new ≡ take at out.old ++ decimal number }
    ensures rest { drop result out.new ≡ drop result out.old }
{
    if number < 10 {
        return put_octet(out, at, b'0' + number as u8);
    }
    let after = put_decimal(out, at, number / 10);
    put_octet(out, after, b'0' + (number % 10) as u8)
}
