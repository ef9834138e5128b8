// message_take_over: what a build answered, taken over into a lent message, so that reading, changing and writing are one path. It lays the records out
// as rows and lets `message_lent` judge them; it demands nothing of what it is given: what is no message is refused with 27.
#![tactic(auto)]

ghost use Rattle.std.specs.Prelude.{◌≡◌, true, false, [], ◌∷◌, ◌+◌, ◌-◌, ◌*◌, ◌/◌, ◌≤◌, ◌<◌, length, replicate, set};
ghost use Rattle.message_maps.specs.Rows.{row, padded, message_words, message_rows};
ghost use Rattle.field_rules.specs.Decimal.{written_at};
ghost use Rattle.build_records.specs.Records.{records_of, record_at, between, stride};
ghost use Rattle.message_take_over.specs.Taking.{records_before, nearest_in, joins_in_run, joins_of, is_joined, has_room, are_next, part_heads, record_rows, values_at, after, taking_over};
ghost use Rattle.message_take_over.specs.Laying.{Adds, Ready, stepped_by, adds_rows, RowsLaid};
ghost use Rattle.message_take_over.specs.Newest.{Newest};
ghost use Rattle.message_take_over.specs.Written.{BlankBehind};

use build_records::Record;

// What taking over answers: 0 or 27.
#[derive(Clone, Copy)]
pub enum Taken {
    Made,
    NoMessage,
}

// Where a record belongs: in the map that is open, first in a new entry of the run on a start tag, or nowhere.
#[derive(Clone, Copy)]
pub enum Joins {
    Open,
    Entry(u32),
    Nowhere,
}

// The part that is open, how many rows are laid, and how many bytes their values take.
#[derive(Clone, Copy)]
pub struct Laying {
    pub part: u32,
    pub rows: usize,
    pub used: usize,
}

// The nearest record before another that stands no deeper than a depth. `last` has the newest for each depth down to the record before.
fn nearest_before(records: &[u32], last: &[u16], to: usize, depth: u32) -> Option<Record>
    requires { Newest (records_of records.now) to last.now }
    ensures { result ≡ nearest_in depth (records_before to (records_of records.now)) }
{
    if to == 0 {
        return None;
    }
    let before = build_records::record_at(records, to - 1);
    if before.depth <= depth {
        return Some(before);
    }
    Some(build_records::record_at(records, last[depth as usize] as usize))
}

// Enters a record as the newest of its depth. What `last` has of deeper ones stays, and is written over before it is asked again.
fn enter(records: &[u32], last: &mut [u16], at: usize)
    requires { (at < 1024) × ((record_at at (records_of records.now)).depth < length last.old) }
    ensures { last.new ≡ set last.old (record_at at (records_of records.now)).depth at }
{
    let entered = build_records::record_at(records, at);
    last[entered.depth as usize] = at as u16;
}

// A record behind one of the same run: in the same entry, or first in the next.
fn joins_run(records: &[u32], last: &[u16], to: usize, number: u32, taken: Record) -> Joins
    requires { (0 < taken.depth) × Newest (records_of records.now) to last.now }
    ensures { result ≡ joins_in_run (records_before to (records_of records.now)) number taken }
{
    if taken.number == number {
        return Joins::Open;
    }
    if taken.number as usize != number as usize + 1 {
        return Joins::Nowhere;
    }
    let Some(count) = nearest_before(records, last, to, taken.depth - 1) else {
        return Joins::Nowhere;
    };
    Joins::Entry(count.tag)
}

fn joins_of(records: &[u32], last: &[u16], to: usize, taken: Record) -> Joins
    requires { Newest (records_of records.now) to last.now }
    ensures { result ≡ joins_of (records_before to (records_of records.now)) taken }
{
    if taken.depth == 0 {
        if taken.number == 0 {
            return Joins::Open;
        }
        return Joins::Nowhere;
    }
    let Some(before) = nearest_before(records, last, to, taken.depth) else {
        return Joins::Nowhere;
    };
    if before.part != taken.part {
        return Joins::Nowhere;
    }
    if before.depth == taken.depth {
        return joins_run(records, last, to, before.number, taken);
    }
    if taken.depth as usize != before.depth as usize + 1 {
        return Joins::Nowhere;
    }
    if taken.number != 1 {
        return Joins::Nowhere;
    }
    Joins::Entry(before.tag)
}

// Whether a value lies in the bytes and has room behind those that are laid.
fn has_room(size: usize, used: usize, taken: Record) -> bool
    requires { used ≤ 8192 }
    ensures { result ≡ has_room size used taken }
{
    if size < taken.place as usize + taken.length as usize {
        return false;
    }
    used + taken.length as usize <= 8192
}

fn put_row(words: &mut [u32], rows: usize, kind: u32, level: u32, tag: u32, extra: u32) -> usize
    requires { (rows < message_rows) × (length words.old ≡ message_words) }
    ensures { Adds words.old words.new rows result (row kind level tag extra ∷ []) }
{
    let four = [kind, level, tag, extra];
    words[4 * rows + 1..4 * rows + 5].copy_from_slice(&four);
    rows + 1
}

// The heads of the parts behind one, up to another.
fn open_parts(words: &mut [u32], rows: usize, part: u32, to: u32) -> usize
    requires { (part ≤ to) × (to ≤ 3) × (rows + (to - part) ≤ message_rows) × (length words.old ≡ message_words) }
    ensures adds { Adds words.old words.new rows result (part_heads (to - part) part) }
    ensures value { result ≡ rows + (to - part) }
{
    let mut next = rows;
    for before in part..to {
        next = put_row(words, next, 2, 0, before + 1, 0);
    }
    next
}

// The rows of a record: its part's head and its entry's, where they are new, and its own.
fn lay_rows(words: &mut [u32], rows: usize, part: u32, joined: Joins, taken: Record) -> usize
    requires { (part ≤ taken.part) × (taken.part ≤ 3) × (rows + (taken.part - part) + 2 ≤ message_rows) × (taken.depth ≤ 1024) × (length words.old ≡ message_words) }
    ensures { Adds words.old words.new rows result (record_rows part joined taken) }
{
    let opened = open_parts(words, rows, part, taken.part);
    let level = taken.depth + 1;
    match joined {
        Joins::Open => {
            return put_row(words, opened, 1, level, taken.tag, taken.length);
        }
        Joins::Entry(start) => {
            let headed = put_row(words, opened, 2, taken.depth, start, taken.tag);
            return put_row(words, headed, 1, level, taken.tag, taken.length);
        }
        Joins::Nowhere => {
            return opened;
        }
    }
}

fn is_joined(joined: Joins) -> bool
    ensures { result ≡ is_joined joined }
{
    match joined {
        Joins::Open => true,
        Joins::Entry(_) => true,
        Joins::Nowhere => false,
    }
}

// One record behind those that are laid. `size`: how many bytes there are for the values to lie in.
fn lay_record(
    records: &[u32],
    last: &[u16],
    at: usize,
    size: usize,
    words: &mut [u32],
    laying: Laying,
) -> Option<Laying>
    requires { Ready (records_before at (records_of records.now)) words.old laying × Newest (records_of records.now) at last.now }
    ensures value { result ≡ stepped_by size (records_before at (records_of records.now)) laying (record_at at (records_of records.now)) }
    ensures adds_rows { adds_rows (records_before at (records_of records.now)) laying (record_at at (records_of records.now)) result words.old words.new }
{
    let taken = build_records::record_at(records, at);
    if taken.part < laying.part {
        return None;
    }
    if 3 < taken.part {
        return None;
    }
    if !has_room(size, laying.used, taken) {
        return None;
    }
    let joined = joins_of(records, last, at, taken);
    if !is_joined(joined) {
        return None;
    }
    let rows = lay_rows(words, laying.rows, laying.part, joined, taken);
    Some(Laying {
        part: taken.part,
        rows,
        used: laying.used + taken.length as usize,
    })
}

// Lays the rows of records out in words that are zero; whether each record has its place, and its value room. The newest record of each depth
// is kept on the way: looking back over all the deeper ones would cost the square of their number.
fn lay_records(records: &[u32], count: usize, size: usize, words: &mut [u32]) -> bool
    requires { (count ≤ length records.now / stride) × (count ≤ 1024) × (words.old ≡ replicate message_words 0) }
    ensures { RowsLaid size (between 0 count (records_of records.now)) result words.new }
{
    let rows = put_row(words, 0, 2, 0, build_records::HEADER, 0);
    let mut laying = Laying {
        part: build_records::HEADER,
        rows,
        used: 0,
    };
    let mut newest = [0u16; 1024];
    let last = &mut newest[..];
    for i in 0..count {
        let Some(next) = lay_record(records, last, i, size, words, laying) else {
            return false;
        };
        enter(records, last, i);
        laying = next;
    }
    let all = open_parts(words, laying.rows, laying.part, build_records::TRAILER);
    words[0] = all as u32;
    true
}

// Copies laid words: as many as their rows take, for those behind them are zero.
fn put_rows(words: &mut [u32], laid: &[u32])
    requires { BlankBehind laid.now × (length words.old ≡ message_words) }
    ensures { words.new ≡ laid.now }
{
    let used = 4 * laid[0] as usize + 1;
    words[..used].copy_from_slice(&laid[..used]);
    words[used..].fill(0);
}

// Writes the values of records one behind the other, and zeros behind them. That they lie in the bytes and have room was tested with the rows.
fn put_values(records: &[u32], count: usize, bytes: &[u8], values: &mut [u8])
    requires { (count ≤ length records.now / stride) × (are_next (length bytes.now) 1 0 [] (between 0 count (records_of records.now)) ≡ true) × (length values.old ≡ 8192) }
    ensures { values.new ≡ padded 8192 (values_at bytes.now (between 0 count (records_of records.now))) }
{
    let mut used: usize = 0;
    for i in 0..count {
        let taken = build_records::record_at(records, i);
        let place = taken.place as usize;
        let size = taken.length as usize;
        values[used..used + size].copy_from_slice(&bytes[place..place + size]);
        used += size;
    }
    values[used..].fill(0);
}

// Takes a build's records and the bytes that they point into over into a lent message. Only the rows tell whether they are one, so they are laid
// apart, and what is lent is written once they are known to be.
pub fn take_over(
    records: &[u32],
    count: usize,
    bytes: &[u8],
    words: &mut [u32],
    values: &mut [u8],
) -> Taken
    ensures { after result words.new values.new ≡ taking_over records.now count bytes.now words.old values.old }
{
    if words.len() != message_maps::WORDS {
        return Taken::NoMessage;
    }
    if values.len() != 8192 {
        return Taken::NoMessage;
    }
    if records.len() / build_records::STRIDE < count {
        return Taken::NoMessage;
    }
    if 1024 < count {
        return Taken::NoMessage;
    }
    let mut laid_words = [0u32; message_maps::WORDS];
    let new_words = &mut laid_words[..];
    if !lay_records(records, count, bytes.len(), new_words) {
        return Taken::NoMessage;
    }
    if !message_lent::is_message(new_words, values) {
        return Taken::NoMessage;
    }
    put_rows(words, new_words);
    put_values(records, count, bytes, values);
    Taken::Made
}
