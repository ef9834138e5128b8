// message_look_ups: what a message made by calls holds. A map of it, a part's or an entry's, is named by the row of its head, which a look-up
// gives and takes by value; any other number names no map. Nothing is changed, and nothing is demanded of what is lent.
#![tactic(auto)]

ghost use Rattle.std.specs.Prelude.{◌≡◌, ◌+◌, ◌-◌, ◌≤◌, ◌<◌, length};
ghost use Rattle.message_maps.specs.Rows.{rows_from, sizes, message_words, message_rows};
ghost use Rattle.message_rules.specs.RowChanges.{place_of};
ghost use Rattle.message_rules.specs.LookUps.{part_found, field_found, entry_found};
ghost use Rattle.message_look_ups.specs.Opening.{opened_at, value_from, entry_from};

use message_rules::{FoundMap, FoundValue, Value};

// The own rows of a map, and their level.
#[derive(Clone, Copy)]
pub struct Rows {
    pub level: u32,
    pub from: usize,
    pub to: usize,
}

#[derive(Clone, Copy)]
pub enum Opened {
    NoMessage,
    Absent,
    Within(Rows),
}

fn open_map(words: &[u32], values: &[u8], map: usize) -> Opened
    ensures { result ≡ opened_at map words.now values.now }
{
    if !message_lent::is_message(words, values) {
        return Opened::NoMessage;
    }
    let count = message_lent::row_count(words);
    if count <= map {
        return Opened::Absent;
    }
    if message_maps::kind_of(words, map) != 2 {
        return Opened::Absent;
    }
    let level = message_maps::level_of(words, map);
    let from = map + 1;
    let to = message_maps::end_of(words, level, from, count);
    Opened::Within(Rows {
        level: level + 1,
        from,
        to,
    })
}

fn value_from(words: &[u32], rows: Rows, tag: u32) -> FoundValue
    requires { (rows.from ≤ rows.to) × (rows.to ≤ message_rows) × (length words.now ≡ message_words) × (place_of words.now rows.from ≤ 8192) }
    ensures { result ≡ value_from rows.level tag (place_of words.now rows.from) (rows_from (rows.to - rows.from) rows.from words.now) }
{
    let Rows { level, from, to } = rows;
    let mut place = message_maps::size_between(words, 0, from);
    for i in from..to {
        let size = message_maps::size_of(words, i);
        if message_maps::is_row(words, i, 1, level, tag) {
            return FoundValue::At(Value { place, size });
        }
        place += size;
    }
    FoundValue::Absent
}

fn entry_from(words: &[u32], rows: Rows, start: u32, number: usize) -> FoundMap
    requires { (rows.from ≤ rows.to) × (rows.to ≤ message_rows) × (length words.now ≡ message_words) }
    ensures { result ≡ entry_from rows.level start number rows.from (rows_from (rows.to - rows.from) rows.from words.now) }
{
    let Rows { level, from, to } = rows;
    let mut left = number;
    for i in from..to {
        if message_maps::is_row(words, i, 2, level, start) {
            if left == 0 {
                return FoundMap::At(i);
            }
            left -= 1;
        }
    }
    FoundMap::Absent
}

// The map of a part.
pub fn part_map(words: &[u32], values: &[u8], part: message_rules::Part) -> FoundMap
    ensures { result ≡ part_found part words.now values.now }
{
    let Some(span) = message::locate(words, values, part) else {
        return FoundMap::NoMessage;
    };
    let from = span.from;
    FoundMap::At(from - 1)
}

// The value of a field in a map.
pub fn field_in(words: &[u32], values: &[u8], map: usize, tag: u32) -> FoundValue
    ensures { result ≡ field_found map tag words.now values.now }
{
    match open_map(words, values, map) {
        Opened::NoMessage => {
            return FoundValue::NoMessage;
        }
        Opened::Absent => {
            return FoundValue::Absent;
        }
        Opened::Within(rows) => {
            return value_from(words, rows, tag);
        }
    }
}

// The map of an entry in a run that hangs in a map; entries are numbered from 0.
pub fn entry_in(words: &[u32], values: &[u8], map: usize, start: u32, number: usize) -> FoundMap
    ensures { result ≡ entry_found map start number words.now values.now }
{
    match open_map(words, values, map) {
        Opened::NoMessage => {
            return FoundMap::NoMessage;
        }
        Opened::Absent => {
            return FoundMap::Absent;
        }
        Opened::Within(rows) => {
            return entry_from(words, rows, start, number);
        }
    }
}
