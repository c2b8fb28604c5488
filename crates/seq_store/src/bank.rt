//! A ring of records in two banks, as octets. It knows no memory.
//!
//! A bank has a gate, a generation of 8 octets, a number of 6 octets for each value, and sixteen records of gate, index
//! of one octet and number. It is open where its gate is and its generation is at most the sum of its numbers.
ghost use Rattle.std.specs.Prelude.{◌≡◌, ℕ, ◌+◌, ◌*◌, ◌^◌, ◌<◌, ◌≤◌, max, List, length, replicate, IfSome};
ghost use Rattle.seq_store.specs.Layout.{width};
ghost use Rattle.seq_store.specs.Ring.{six_at, generation_at, numbers_sum, open_generation, record_number, bank_size, bank_value, records_place, first_shut, banks_of, replaced, bank_body};

use knx_base::Number48;
use nvm_model::OPEN;

// The octets of a record: gate, index and number.
const RECORD_SIZE: usize = 8;

const RECORDS: usize = 16;

// The octets of a generation, and of gate and generation.
const GENERATION_SIZE: usize = 8;

const HEAD_SIZE: usize = 9;

const NUMBER_SIZE: usize = 6;

/// The places of the bank that is current and of the other one.
#[derive(Clone, Copy)]
pub struct Banks {
    pub current: usize,
    pub other: usize,
}

/// The number of octets of a bank of so many values.
pub fn bank_size(values: usize) -> usize
    requires values_fit { values ≤ 65 }
    ensures { result ≡ bank_size width values }
{
    HEAD_SIZE + NUMBER_SIZE * values + RECORDS * RECORD_SIZE
}

// The number of six octets at this place.
fn six_at(octets: &[u8], at: usize) -> Number48
    requires inside { at + 6 ≤ length octets.now }
    ensures { result ≡ six_at octets.now at }
{
    let mut bytes = [0; 6];
    bytes.copy_from_slice(&octets[at..at + NUMBER_SIZE]);
    Number48::from_bytes(bytes)
}

// The generation of eight octets at this place.
fn generation_at(octets: &[u8], at: usize) -> u64
    requires inside { at + 8 ≤ length octets.now }
    ensures { result ≡ generation_at octets.now at }
{
    u64::from_be_bytes([
        octets[at],
        octets[at + 1],
        octets[at + 2],
        octets[at + 3],
        octets[at + 4],
        octets[at + 5],
        octets[at + 6],
        octets[at + 7],
    ])
}

// The sum of the numbers of a bank.
fn numbers_sum(octets: &[u8], at: usize, values: usize) -> u64
    requires inside { at + 9 + 6 * values ≤ length octets.now }
    requires values_fit { values ≤ 65 }
    ensures { result ≡ numbers_sum octets.now at values }
{
    let mut sum = 0;
    for v in 0..values {
        sum += six_at(octets, at + HEAD_SIZE + NUMBER_SIZE * v).get();
    }
    sum
}

// The generation of a bank that is open.
#[tactic(auto, unfolding(crate::specs::Ring::open_generation))]
fn open_generation(octets: &[u8], at: usize, values: usize) -> Option<u64>
    requires inside { at + bank_size width values ≤ length octets.now }
    requires values_fit { values ≤ 65 }
    ensures { result ≡ open_generation values octets.now at }
{
    if octets[at] != OPEN {
        return None;
    }
    let generation = generation_at(octets, at + 1);
    if generation <= numbers_sum(octets, at, values) {
        Some(generation)
    } else {
        None
    }
}

/// The banks of a ring, where one is open: current is the open one with the greater generation, and the first where
/// both are equal.
#[tactic(auto, unfolding(crate::specs::Ring::banks_of))]
pub fn banks_of(octets: &[u8], values: usize) -> Option<Banks>
    requires inside { 2 * bank_size width values ≤ length octets.now }
    requires values_fit { values ≤ 65 }
    ensures banks { result ≡ banks_of width values 0 octets.now }
    ensures current_inside { IfSome result (λ banks. banks.current + bank_size width values ≤ length octets.now) }
    ensures other_inside { IfSome result (λ banks. banks.other + bank_size width values ≤ length octets.now) }
{
    let second = bank_size(values);
    let first_current = Banks {
        current: 0,
        other: second,
    };
    let second_current = Banks {
        current: second,
        other: 0,
    };
    match (
        open_generation(octets, 0, values),
        open_generation(octets, second, values),
    ) {
        (Some(a), Some(b)) => Some(if b <= a {
            first_current
        } else {
            second_current
        }),
        (Some(_), None) => Some(first_current),
        (None, Some(_)) => Some(second_current),
        (None, None) => None,
    }
}

// The greater of a number and that of a record, where it is one of this value.
fn with_record(octets: &[u8], place: usize, value: usize, least: Number48) -> Number48
    requires inside { place + 8 ≤ length octets.now }
    ensures { result ≡ max least (record_number width octets.now place value) }
{
    if octets[place] != OPEN {
        return least;
    }
    if usize::from(octets[place + 1]) != value {
        return least;
    }
    let number = six_at(octets, place + 2);
    if least < number { number } else { least }
}

/// This value of a bank: the greatest of its number and of those of its records.
pub fn bank_value(octets: &[u8], values: usize, at: usize, value: usize) -> Number48
    requires inside { at + bank_size width values ≤ length octets.now }
    requires values_fit { values ≤ 65 }
    requires in_range { value < values }
    ensures { result ≡ bank_value width values octets.now at value }
{
    let records = at + HEAD_SIZE + NUMBER_SIZE * values;
    let mut number = six_at(octets, at + HEAD_SIZE + NUMBER_SIZE * value);
    for k in 0..RECORDS {
        number = with_record(octets, records + RECORD_SIZE * k, value, number);
    }
    number
}

/// The place of the first record of a bank that is not open.
pub fn first_shut(octets: &[u8], values: usize, at: usize) -> Option<usize>
    requires inside { at + bank_size width values ≤ length octets.now }
    requires values_fit { values ≤ 65 }
    ensures { result ≡ first_shut width octets.now 16 (records_place values at) }
{
    let records = at + HEAD_SIZE + NUMBER_SIZE * values;
    for k in 0..RECORDS {
        let place = records + RECORD_SIZE * k;
        if octets[place] != OPEN {
            return Some(place);
        }
    }
    None
}

// Value w of a bank, with one value replaced.
fn replaced(
    octets: &[u8],
    values: usize,
    current: usize,
    value: usize,
    number: Number48,
    w: usize,
) -> Number48
    requires inside { current + bank_size width values ≤ length octets.now }
    requires values_fit { values ≤ 65 }
    requires in_range { w < values }
    ensures { result ≡ replaced width values octets.now current value number w }
{
    if w == value {
        number
    } else {
        bank_value(octets, values, current, w)
    }
}

/// Makes of zeros what stands behind the gate of the next bank: the next generation, all values with one replaced, and
/// no record.
pub fn next_body(
    body: &mut [u8],
    octets: &[u8],
    values: usize,
    current: usize,
    value: usize,
    number: Number48,
)
    requires zeros { body.old ≡ replicate (8 + 6 * values + 128) 0 }
    requires inside { current + bank_size width values ≤ length octets.now }
    requires values_fit { values ≤ 65 }
    requires small { generation_at octets.now (current + 1) + 1 < 2 ^ 64 }
    ensures { body.new ≡ bank_body width values (generation_at octets.now (current + 1) + 1)
        (replaced width values octets.now current value number) }
{
    let generation = generation_at(octets, current + 1) + 1;
    body[..GENERATION_SIZE].copy_from_slice(&generation.to_be_bytes());
    for w in 0..values {
        let start = GENERATION_SIZE + NUMBER_SIZE * w;
        let each = replaced(octets, values, current, value, number, w);
        body[start..start + NUMBER_SIZE].copy_from_slice(&each.to_bytes());
    }
}
