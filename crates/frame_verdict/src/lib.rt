// frame_verdict: what is known of a place from the bytes that stand there: a frame starts, none can start, or neither yet. It can be asked of any
// bytes. It may not judge more than a frame: what stands between `35=` and the CheckSum is no concern of it.
#![tactic(auto)]

ghost use Rattle.std.specs.Prelude.{◌≡◌, ◌-◌, ◌≤◌, length, take, drop};
ghost use Rattle.frame_verdict_rules.specs.Readers.{literal, begin_string, may_become, body_length};
ghost use Rattle.frame_verdict_rules.specs.Verdict.{body_reader, stage_of, length_of, as_verdict, verdict_of};

use frame_verdict_rules::{Length, Stage, Verdict};

const SEPARATOR: u8 = 1;

const FRAME_MOST: usize = 8192;

// From the place `at`: exactly these bytes.
fn literal_at(bytes: &[u8], at: usize, wanted: &[u8]) -> Stage
    requires { at ≤ length bytes.now }
    ensures { result ≡ stage_of bytes.now (literal wanted.now (drop at bytes.now)) }
{
    for (i, &byte) in wanted.iter().enumerate() {
        let place = at + i;
        if place == bytes.len() {
            return Stage::Short;
        }
        if bytes[place] != byte {
            return Stage::Bad;
        }
    }
    Stage::On(at + wanted.len())
}

// From the place `at`: "1 to 16 bytes without separator, separator".
fn begin_string_at(bytes: &[u8], at: usize) -> Stage
    requires { at ≤ length bytes.now }
    ensures { result ≡ stage_of bytes.now (begin_string (drop at bytes.now)) }
{
    for place in at..bytes.len() {
        let read = place - at;
        if bytes[place] == SEPARATOR {
            if read == 0 {
                return Stage::Bad;
            }
            return Stage::On(place + 1);
        }
        if read == 16 {
            return Stage::Bad;
        }
    }
    Stage::Short
}

// N can still be at least 4 and within the room: digits worth n were read, and at most `left` follow.
fn may_become(left: usize, room: usize, n: usize) -> bool
    ensures { result ≡ may_become left room n }
{
    if n < 4 { 0 < left } else { n <= room }
}

// From the place `at`: "one to five digits of value N, separator", refused as soon as N cannot be at least 4 and within the room.
fn body_length_at(bytes: &[u8], at: usize, allowed: usize) -> Length
    requires { (at ≤ length bytes.now) × (1005 ≤ allowed) × (allowed ≤ 8192) }
    ensures { result ≡ length_of 0 bytes.now (body_length 5 allowed 0 (drop at bytes.now)) }
{
    let mut n: usize = 0;
    for place in at..bytes.len() {
        let byte = bytes[place];
        let read = place - at;
        if byte == SEPARATOR {
            if n < 4 {
                return Length::BadLength;
            }
            return Length::Announced(n, place + 1);
        }
        if !byte.is_ascii_digit() || read == 5 {
            return Length::BadLength;
        }
        n = n * 10 + usize::from(byte - b'0');
        if !may_become(4 - read, allowed - read - 1, n) {
            return Length::BadLength;
        }
    }
    Length::ShortLength
}

// The verdict where the last stage, or one that refused, ended so.
fn verdict_from(stage: Stage) -> Verdict
    ensures { result ≡ as_verdict stage }
{
    match stage {
        Stage::On(end) => Verdict::Frame(end),
        Stage::Bad => Verdict::Never,
        Stage::Short => Verdict::Wait,
    }
}

// "N bytes that start `35=` and end with a separator, `10=`, three digits equal to the sum mod 256 of all before `10=`, separator".
// A place that waits for its body costs only its head: the sum is taken once `10=` stands where it should.
fn verdict_of_body(bytes: &[u8], body: usize, n: usize) -> Verdict
    requires { (body ≤ length bytes.now) × (body ≤ 8192) × (4 ≤ n) × (n ≤ 8192) }
    ensures { result ≡ as_verdict (stage_of bytes.now (body_reader (take body bytes.now) n (drop body bytes.now))) }
{
    let typed = literal_at(bytes, body, b"35=");
    let Stage::On(_) = typed else {
        return verdict_from(typed);
    };
    let last = body + n - 1;
    if bytes.len() < last {
        return Verdict::Wait;
    }
    let ended = literal_at(bytes, last, b"\x01");
    let Stage::On(tag) = ended else {
        return verdict_from(ended);
    };
    let tagged = literal_at(bytes, tag, b"10=");
    let Stage::On(sum) = tagged else {
        return verdict_from(tagged);
    };
    let digits = field_numbers::checksum_digits(field_numbers::sum_of(&bytes[..tag]));
    let summed = literal_at(bytes, sum, &digits);
    let Stage::On(end) = summed else {
        return verdict_from(summed);
    };
    verdict_from(literal_at(bytes, end, b"\x01"))
}

// The verdict on the place where these bytes stand, whosever they are. A separator and the CheckSum field, 8 bytes, follow the digits.
pub fn verdict_of(bytes: &[u8]) -> Verdict
    ensures { result ≡ verdict_of bytes.now }
{
    let opened = literal_at(bytes, 0, b"8=");
    let Stage::On(begin) = opened else {
        return verdict_from(opened);
    };
    let begun = begin_string_at(bytes, begin);
    let Stage::On(tag) = begun else {
        return verdict_from(begun);
    };
    let numbered = literal_at(bytes, tag, b"9=");
    let Stage::On(digits) = numbered else {
        return verdict_from(numbered);
    };
    let announced = body_length_at(bytes, digits, FRAME_MOST - 8 - digits);
    match announced {
        Length::Announced(n, body) => verdict_of_body(bytes, body, n),
        Length::BadLength => Verdict::Never,
        Length::ShortLength => Verdict::Wait,
    }
}
