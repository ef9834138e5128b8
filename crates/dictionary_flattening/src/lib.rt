// dictionary_flattening: the layout of a message, written from a dictionary's bytes into a lent table.
// It trusts the index that the dictionary's check left, but no content of bytes, index or table makes it fail: it then says so.
#![tactic(auto)]

pub mod empty;
pub mod tags;

ghost use Rattle.std.specs.Prelude.{◌≡◌, ◌≤◌, ◌<◌, length, replicate, Some};
ghost use Rattle.dictionary_rules.specs.Index.{component_at};
ghost use Rattle.dictionary_meaning_rules.specs.Laying.{laying, put_row, lay_items, stands_at};
ghost use Rattle.dictionary_meaning_rules.specs.MsgType.{name_of};
ghost use Rattle.dictionary_meaning_rules.specs.MessageTable.{tabling, place_of, placed_table};
ghost use Rattle.dictionary_chains.specs.Chain.{index_words};
ghost use Rattle.dictionary_flattening.specs.Leaps.{Leaps, leap_words};

use dictionary_meaning_rules::MessageTable;
use dictionary_rules::{Record, RecordRead};

// Laying goes down at most once for each of 1,024 items and for each of four groups that nest, below a message that holds a component only.
const MOST_CALLS: usize = 1030;

// An empty component is skipped, and one that only stands for another is passed through, so that each step down adds an item.
fn stands_at(index: &[u16], number: u16) -> Option<usize>
    requires { length index.now ≡ index_words }
    ensures { result ≡ stands_at (component_at index.now) number }
{
    let Some(component) = dictionary_names::component_of(index, number) else {
        return None;
    };
    if component.items == 0 {
        return None;
    }
    let Some(standing) = dictionary_names::component_of(index, component.stands) else {
        return None;
    };
    Some(usize::from(standing.place) + 3)
}

// One row of the table: the low and the high half of the tag, the marks, and the row where what belongs to it ends.
fn put_row(
    table: &mut [u16; 4096],
    row: usize,
    tag: u32,
    required: bool,
    is_group: bool,
    link: usize,
)
    requires { (row < 1024) × (link ≤ 1024) }
    ensures { table.new ≡ put_row table.old row tag required is_group link }
{
    let words = &mut table[..];
    let at = 4 * row;
    words[at] = (tag % 65536) as u16;
    words[at + 1] = (tag / 65536) as u16;
    words[at + 2] = required as u16 + 2 * is_group as u16;
    words[at + 3] = link as u16;
}

// The items from a place on up to their close. A group's entries and a component's items are laid by the same function, the open
// depth falling. A component that adds no row breaks off: else forged content could make the work double with each level. So does a
// group without one: else its table could take more words to an item than any that passes the check. Items that stand for nothing are
// leapt over where they were passed before, so the work grows with the rows.
fn lay_items(
    bytes: &[u8],
    index: &[u16],
    table: &mut [u16; 4096],
    leaps: &mut [u16],
    from: usize,
    first: usize,
    depth: usize,
) -> Option<(usize, usize)>
    requires { (length index.now ≡ index_words) × (first ≤ 1024) × Leaps bytes.now (component_at index.now) leaps.old }
    ensures table_after { laying result table.new ≡ lay_items depth bytes.now (component_at index.now) from first table.old }
    ensures leaps { Leaps bytes.now (component_at index.now) leaps.new }
{
    if depth == 0 {
        return None;
    }
    let mut at = from;
    let mut row = first;
    loop {
        let RecordRead::Whole(record, next) = dictionary_records::record_at(bytes, at) else {
            return None;
        };
        match record {
            Record::FieldItem(tag, required) => {
                if 1024 <= row {
                    return None;
                }
                put_row(table, row, tag, required, false, row + 1);
                at = next;
                row = row + 1;
            }
            Record::OpensGroup(tag, required) => {
                if 1024 <= row {
                    return None;
                }
                let Some((after, end)) = lay_items(
                    bytes,
                    index,
                    table,
                    leaps,
                    next,
                    row + 1,
                    depth - 1,
                ) else {
                    return None;
                };
                // "group closes empty after flattening" is refused by the check, so only forged content has such a group.
                if end <= row + 1 {
                    return None;
                }
                put_row(table, row, tag, required, true, end);
                at = after;
                row = end;
            }
            Record::ComponentItem(_, number) => {
                match stands_at(index, number) {
                    Some(place) => {
                        let Some((_, end)) = lay_items(
                            bytes,
                            index,
                            table,
                            leaps,
                            place,
                            row,
                            depth - 1,
                        ) else {
                            return None;
                        };
                        if end <= row {
                            return None;
                        }
                        at = next;
                        row = end;
                    }
                    None => {
                        at = empty::pass(bytes, index, leaps, next);
                    }
                }
            }
            Record::Closes => {
                return Some((next, row));
            }
            _ => {
                return None;
            }
        }
    }
}

pub fn name_of(msgtype: &[u8]) -> Option<u64>
    ensures { result ≡ name_of msgtype.now }
{
    if msgtype.is_empty() || 8 < msgtype.len() {
        return None;
    }
    let mut number: u64 = 0;
    for &byte in msgtype.iter().rev() {
        if byte == 0 {
            return None;
        }
        number = number * 256 + u64::from(byte);
    }
    Some(number)
}

// Where the record stands that opens the message of a MsgType.
pub fn place_of(index: &[u16], msgtype: &[u8]) -> Option<u16>
    requires { length index.now ≡ index_words }
    ensures { result ≡ place_of index.now msgtype.now }
{
    let Some(number) = name_of(msgtype) else {
        return None;
    };
    dictionary_names::message_of(index, number)
}

// The layout of the message whose record stands at a place, as a table, from a dictionary that passed its check and the index that the
// check left. The words of leaps are used on the way.
pub fn placed_table(
    dictionary: &[u8],
    index: &[u16],
    opening: u16,
    table: &mut [u16; 4096],
    leaps: &mut [u16],
) -> MessageTable
    requires { (length index.now ≡ index_words) × (leaps.old ≡ replicate leap_words 0) }
    ensures { tabling result table.new ≡ placed_table dictionary.now index.now (Some opening) table.old }
{
    // Called here too, it stays a function by itself, and its locals out of the recursion's frames.
    let items = empty::pass(dictionary, index, leaps, usize::from(opening) + 9);
    let Some((_, count)) = lay_items(dictionary, index, table, leaps, items, 0, MOST_CALLS) else {
        return MessageTable::Unprepared;
    };
    MessageTable::Rows(count)
}
