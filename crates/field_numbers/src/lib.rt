// field_numbers: the lowest layer's numbers. It reads digits, sums bytes for a CheckSum, and writes digits.
// It knows nothing of fields, and it demands nothing of its callers.
#![tactic(auto)]

ghost use Rattle.std.specs.Prelude.{◌≡◌, ◌*◌, ◌%◌, ◌^◌, ◌≤◌, length, nat_le};
ghost use Rattle.field_rules.specs.Choice.{pick};
ghost use Rattle.field_rules.specs.Number.{number_in};
ghost use Rattle.field_rules.specs.CheckSum.{sum_of, checksum_of, checksum_digits};
ghost use Rattle.field_rules.specs.Decimal.{decimal, written_at, answer_at};
ghost use Rattle.field_numbers.specs.Fraction.{Ahead};

// A number as an index.
pub fn wide(n: u32) -> usize
    ensures { result ≡ n }
{
    n as usize
}

// One or more digits, leading zeros allowed. However long the text, nothing overflows.
pub fn number_of(text: &[u8]) -> Option<u32>
    ensures { result ≡ number_in text.now }
{
    if text.is_empty() {
        return None;
    }
    let mut n: u64 = 0;
    for &byte in text {
        if !byte.is_ascii_digit() {
            return None;
        }
        n = n * 10 + u64::from(byte - b'0');
        if 4294967295 < n {
            return None;
        }
    }
    Some(n as u32)
}

// A CheckSum value that is to be compared: exactly three digits.
pub fn checksum_of(value: &[u8]) -> Option<u32>
    ensures { result ≡ checksum_of value.now }
{
    if value.len() != 3 {
        return None;
    }
    number_of(value)
}

// The sum of the bytes, mod 256.
pub fn sum_of(bytes: &[u8]) -> u8
    ensures { result ≡ sum_of bytes.now % 256 }
{
    let mut sum: u8 = 0;
    for &byte in bytes {
        sum = sum.wrapping_add(byte);
    }
    sum
}

// The three digits of a CheckSum.
pub fn checksum_digits(sum: u8) -> [u8; 3]
    ensures { result ≡ checksum_digits sum }
{
    [b'0' + sum / 100, b'0' + sum / 10 % 10, b'0' + sum % 10]
}

// 1 where a number reaches a bound, else 0.
fn reaches(n: u32, bound: u32) -> usize
    ensures value { result ≡ pick (nat_le bound n) 1 0 }
    ensures small { result ≤ 1 }
{
    usize::from(bound <= n)
}

// How many digits a tag or a length has: one, and one more for each power of ten that it reaches.
// With neither loop nor division, a caller's loop over many numbers can be compiled to vector code.
pub fn digit_count(n: u32) -> usize
    ensures { result ≡ length (decimal n) }
{
    1 + reaches(n, 10)
        + reaches(n, 100)
        + reaches(n, 1000)
        + reaches(n, 10000)
        + reaches(n, 100000)
        + reaches(n, 1000000)
        + reaches(n, 10000000)
        + reaches(n, 100000000)
        + reaches(n, 1000000000)
}

// What one is in a fraction: its whole part is a digit, and the digits after that one stand behind its point.
const ONE: u64 = 4294967296;

// A number's digits, to be taken from the highest down: how many there are, and the number as a fraction.
#[derive(Clone, Copy)]
struct Digits {
    count: usize,
    fraction: u64,
}

// The point stands behind the highest digit, which counts `power`. Rounding up adds less than the lowest digit can show,
// since `power` is below ONE; rounded down, 12 would be written as 11.
fn pointed(n: u32, count: usize, power: u64) -> Digits
    requires count_value { count ≡ length (decimal n) }
    requires power_value { power * 10 ≡ 10 ^ count }
    ensures { (result.count ≡ length (decimal n)) × Ahead n result.count result.fraction }
{
    Digits {
        count,
        fraction: u64::from(n) * ONE / power + 1,
    }
}

// A range to each count of digits: so the compiler knows each divisor, and makes the division a product.
fn digits_of(n: u32) -> Digits
    ensures { (result.count ≡ length (decimal n)) × Ahead n result.count result.fraction }
{
    match n {
        0..=9 => pointed(n, 1, 1),
        10..=99 => pointed(n, 2, 10),
        100..=999 => pointed(n, 3, 100),
        1000..=9999 => pointed(n, 4, 1000),
        10000..=99999 => pointed(n, 5, 10000),
        100000..=999999 => pointed(n, 6, 100000),
        1000000..=9999999 => pointed(n, 7, 1000000),
        10000000..=99999999 => pointed(n, 8, 10000000),
        100000000..=999999999 => pointed(n, 9, 100000000),
        _ => pointed(n, 10, 1000000000),
    }
}

// The digits of a tag or a length, from a place of the output on. The highest comes first.
pub fn write_number(output: &mut [u8], at: usize, n: u32) -> Option<usize>
    ensures value { result ≡ answer_at at (decimal n) output.old }
    ensures output_after { output.new ≡ written_at at (decimal n) output.old }
{
    let digits = digits_of(n);
    let count = digits.count;
    if output.len() < at || output.len() - at < count {
        return None;
    }
    let mut fraction = digits.fraction;
    for place in at..at + count {
        output[place] = b'0' + (fraction / ONE) as u8;
        fraction = fraction % ONE * 10;
    }
    Some(at + count)
}
