// message_lent: whether what a caller lends is a message, and how many fields it stores. It changes nothing and demands nothing of what is lent.
// Fields are counted in one pass over the rows; where a head's own fields don't come first, in one from the back.
#![tactic(auto)]

ghost use Rattle.std.specs.Prelude.{◌≡◌, ◌+◌, ◌-◌, ◌≤◌, ◌<◌, length, get_or, ltb};
ghost use Rattle.message_maps.specs.Rows.{row_at, rows_from, end_from, message_words, message_rows};
ghost use Rattle.message_lent_rules.specs.Lent.{is_part, next_part, parts_from, is_own, own_below, weight, fields_in, row_count, is_laid, is_message};
ghost use Rattle.message_lent_rules.specs.Standing.{is_standing, laid_standing, message_standing};
ghost use Rattle.message_lent.specs.Counted.{Ended, Told};

use message_lent_rules::Standing;

// What `quick_weight` answers where the next row can't tell what a head weighs.
const UNTOLD: usize = 2;

#[tactic(auto, unfolding(message_maps::specs::Rows::row_at, message_lent_rules::specs::Lent::is_part, message_lent_rules::specs::Lent::delimiter_is))]
fn is_part(words: &[u32], row: usize, part: u32) -> bool
    requires { (row < message_rows) × (length words.now ≡ message_words) }
    ensures { result ≡ is_part part (row_at words.now row) }
{
    message_maps::is_row(words, row, 2, 0, part) && message_maps::extra_of(words, row) == 0
}

// The part that must come next after a row, or 0 where the row is no part and should be one.
fn next_part(words: &[u32], row: usize, part: u32) -> u32
    requires { (row < message_rows) × (length words.now ≡ message_words) × (part ≤ message_rows) }
    ensures value { result ≡ next_part part (row_at words.now row) }
    ensures upper_bound { result ≤ part + 1 }
{
    if message_maps::level_of(words, row) != 0 {
        return part;
    }
    if is_part(words, row, part) {
        return part + 1;
    }
    0
}

fn has_parts(words: &[u32], to: usize) -> bool
    requires { (to ≤ message_rows) × (length words.now ≡ message_words) }
    ensures { result ≡ parts_from 1 (rows_from (to - 0) 0 words.now) }
{
    let mut part: u32 = 1;
    for i in 0..to {
        let next = next_part(words, i, part);
        if next == 0 {
            return false;
        }
        part = next;
    }
    part == 4
}

#[tactic(auto, unfolding(message_maps::specs::Rows::row_at, message_maps::specs::Rows::level_of, message_lent_rules::specs::Lent::is_own))]
fn is_own(words: &[u32], row: usize, level: usize) -> bool
    requires { (row < message_rows) × (length words.now ≡ message_words) }
    ensures { result ≡ is_own level (row_at words.now row) }
{
    message_maps::kind_of(words, row) == 1 && message_maps::level_of(words, row) as usize == level
}

// What a row weighs, as far as the row itself and the next one tell: a head has nothing below it, or a field of its own comes first.
fn quick_weight(words: &[u32], floor: u32, row: usize, to: usize) -> usize
    requires { (row < to) × (to ≤ message_rows) × (length words.now ≡ message_words) }
    ensures { Told words.now floor row to result }
{
    if message_maps::kind_of(words, row) == 1 {
        return 1;
    }
    let level = message_maps::level_of(words, row);
    if level < floor {
        return 0;
    }
    let next = row + 1;
    if next == to {
        return 1;
    }
    if message_maps::level_of(words, next) <= level {
        return 1;
    }
    if is_own(words, next, level as usize + 1) {
        return 0;
    }
    UNTOLD
}

// Whether a head has a field of its own; its rows start at `from`. Rows deeper than those are passed over.
fn own_below(words: &[u32], ends: &[u16], level: u32, from: usize, to: usize) -> bool
    requires { (from ≤ to) × (to ≤ message_rows) × (length words.now ≡ message_words) × (length ends.now ≡ message_rows) × Ended words.now from to ends.now }
    ensures { result ≡ own_below level (rows_from (to - from) from words.now) }
{
    let below = level as usize + 1;
    let mut i = from;
    // No `for`: a turn goes on at the place that `ends` holds.
    while i < to {
        if message_maps::level_of(words, i) <= level {
            return false;
        }
        if is_own(words, i, below) {
            return true;
        }
        i = ends[i] as usize;
    }
    false
}

// Where the rows below a level end.
fn end_below(words: &[u32], ends: &[u16], level: u32, from: usize, to: usize) -> usize
    requires { (from ≤ to) × (to ≤ message_rows) × (length words.now ≡ message_words) × (length ends.now ≡ message_rows) × Ended words.now from to ends.now }
    ensures value { result ≡ end_from level from (rows_from (to - from) from words.now) }
    ensures upper_bound { result ≤ to }
{
    let mut i = from;
    // No `for`: a turn goes on at the place that `ends` holds.
    while i < to {
        if message_maps::level_of(words, i) <= level {
            return i;
        }
        i = ends[i] as usize;
    }
    i
}

fn weight_of(words: &[u32], ends: &[u16], floor: u32, row: usize, to: usize) -> usize
    requires { (row < to) × (to ≤ message_rows) × (length words.now ≡ message_words) × (length ends.now ≡ message_rows) × Ended words.now (row + 1) to ends.now }
    ensures value { result ≡ weight floor (row_at words.now row) (rows_from (to - (row + 1)) (row + 1) words.now) }
    ensures upper_bound { result ≤ 1 }
{
    let quick = quick_weight(words, floor, row, to);
    if quick != UNTOLD {
        return quick;
    }
    if own_below(words, ends, message_maps::level_of(words, row), row + 1, to) {
        return 0;
    }
    1
}

// The number of stored fields of rows, whatever they hold, from the last row to the first: where the rows below each row end is kept, and
// the rows before it pass over them at once.
fn fields_from_behind(words: &[u32], floor: u32, from: usize, to: usize) -> usize
    requires { (from ≤ to) × (to ≤ message_rows) × (length words.now ≡ message_words) }
    ensures { result ≡ fields_in floor (rows_from (to - from) from words.now) }
{
    let mut scratch = [0u16; message_maps::ROWS];
    let ends = &mut scratch[..];
    let mut fields: usize = 0;
    for i in (from..to).rev() {
        fields += weight_of(words, ends, floor, i, to);
        let end = end_below(words, ends, message_maps::level_of(words, i), i + 1, to);
        ends[i] = end as u16;
    }
    fields
}

// The number of stored fields of rows. Only where the next row can't tell of a head is an array kept, and cleared, to count them.
pub fn fields_in(words: &[u32], floor: u32, from: usize, to: usize) -> usize
    requires { (from ≤ to) × (to ≤ message_rows) × (length words.now ≡ message_words) }
    ensures { result ≡ fields_in floor (rows_from (to - from) from words.now) }
{
    let mut fields: usize = 0;
    for i in from..to {
        let weight = quick_weight(words, floor, i, to);
        if weight == UNTOLD {
            return fields_from_behind(words, floor, from, to);
        }
        fields += weight;
    }
    fields
}

// How many rows are lent, as their first word says.
#[tactic(auto, unfolding(message_lent_rules::specs::Lent::row_count))]
pub fn row_count(words: &[u32]) -> usize
    requires { length words.now ≡ message_words }
    ensures { result ≡ row_count words.now }
{
    words[0] as usize
}

// Whether rows store so many fields that with some more they pass the limit. No row stores more than one, so few rows needn't be counted.
pub fn passes_limit(words: &[u32], count: usize, more: usize) -> bool
    requires { (count ≤ message_rows) × (more ≤ 2) × (length words.now ≡ message_words) }
    ensures { result ≡ ltb 1024 (fields_in 1 (rows_from (count - 0) 0 words.now) + more) }
{
    if count + more <= 1024 {
        return false;
    }
    1024 < fields_in(words, 1, 0, count) + more
}

fn is_standing(standing: Standing) -> bool
    ensures { result ≡ is_standing standing }
{
    match standing {
        Standing::Refused => false,
        Standing::Uncounted => true,
        Standing::Counted => true,
    }
}

// How the rows stand that are lent, refused where they are no layout. Their sizes are the cheaper test, and come first.
pub fn laid_standing(words: &[u32], values: &[u8]) -> Standing
    ensures { result ≡ laid_standing words.now values.now }
{
    if words.len() != message_maps::WORDS {
        return Standing::Refused;
    }
    if values.len() != 8192 {
        return Standing::Refused;
    }
    let count = row_count(words);
    if message_maps::ROWS < count {
        return Standing::Refused;
    }
    if 8192 < message_maps::size_between(words, 0, count) {
        return Standing::Refused;
    }
    message_allowed::standing(words, count)
}

pub fn is_laid(words: &[u32], values: &[u8]) -> bool
    ensures { result ≡ is_laid words.now values.now }
{
    is_standing(laid_standing(words, values))
}

// The same of a message, refused where none is lent.
pub fn message_standing(words: &[u32], values: &[u8]) -> Standing
    ensures { result ≡ message_standing words.now values.now }
{
    let standing = laid_standing(words, values);
    if !is_standing(standing) {
        return Standing::Refused;
    }
    let count = row_count(words);
    if !has_parts(words, count) {
        return Standing::Refused;
    }
    if passes_limit(words, count, 0) {
        return Standing::Refused;
    }
    standing
}

pub fn is_message(words: &[u32], values: &[u8]) -> bool
    ensures { result ≡ is_message words.now values.now }
{
    is_standing(message_standing(words, values))
}
