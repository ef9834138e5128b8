// message: FIX messages made and changed by calls. It says what a message means in no other words than maps; `message_lent` says what may be lent,
// `message_maps` moves rows and bytes. No operation demands anything of what is lent: where it is no message the answer is 27.
#![tactic(auto)]

ghost use Rattle.std.specs.Prelude.{◌≡◌, true, false, ◌+◌, ◌-◌, ◌*◌, ◌≤◌, ◌<◌, length, leb};
ghost use Rattle.message_maps.specs.Rows.{message_words, message_rows};
ghost use Rattle.message_lent_rules.specs.Lent.{is_message};
ghost use Rattle.message_lent_rules.specs.Meaning.{message_in};
ghost use Rattle.message_rules.specs.Changes.{after, emptying, making, storing, removing};
ghost use Rattle.message_rules.specs.RowChanges.{body_head, trailer_head, span_of, located_in, held_rows, place_of, Cuttable, BlankFrom, Blank, changed_at, Ready, put_at, counted_fields};

use message_rules::{Change, Cut, Part, Span};

// The row of the body's head in a message that is lent: behind the rows of the header.
fn body_head(words: &[u32], values: &[u8]) -> usize
    requires { is_message words.now values.now ≡ true }
    ensures { result ≡ body_head (message_in words.now values.now) }
{
    message_maps::end_of(words, 0, 1, message_lent::row_count(words))
}

// The row of the trailer's head: behind the rows of the body.
fn trailer_head(words: &[u32], values: &[u8]) -> usize
    requires { is_message words.now values.now ≡ true }
    ensures { result ≡ trailer_head (message_in words.now values.now) }
{
    let body = body_head(words, values) + 1;
    message_maps::end_of(words, 0, body, message_lent::row_count(words))
}

// Where a part of a message stands that was found to be one.
pub fn span_of(words: &[u32], values: &[u8], part: Part) -> Span
    requires { is_message words.now values.now ≡ true }
    ensures { result ≡ span_of part (message_in words.now values.now) }
{
    let count = message_lent::row_count(words);
    match part {
        Part::Header => {
            return Span {
                from: 1,
                to: body_head(words, values),
                count,
            };
        }
        Part::Body => {
            return Span {
                from: body_head(words, values) + 1,
                to: trailer_head(words, values),
                count,
            };
        }
        Part::Trailer => {
            return Span {
                from: trailer_head(words, values) + 1,
                to: count,
                count,
            };
        }
    }
}

// Where a part of the message stands that is lent, if it is one.
pub fn locate(words: &[u32], values: &[u8], part: Part) -> Option<Span>
    ensures { result ≡ located_in part words.now values.now }
{
    if !message_lent::is_message(words, values) {
        return None;
    }
    Some(span_of(words, values, part))
}

// Whether values of a size have room beside others.
fn fits(left: usize, more: usize) -> bool
    ensures { result ≡ leb (left + more) 8192 }
{
    left <= 8192 && more <= 8192 - left
}

// Where the values of a cut's rows stand, in the order of its rows.
#[derive(Clone, Copy)]
pub struct Places {
    pub from: usize,
    pub kept: usize,
    pub to: usize,
    pub until: usize,
    pub used: usize,
}

// The sizes of all rows are summed up once.
fn places_of(words: &[u32], cut: Cut) -> Places
    requires { (cut.from ≤ cut.kept) × (cut.kept ≤ cut.to) × (cut.to ≤ cut.until) × (cut.until ≤ cut.count) × (cut.count ≤ message_rows) × (length words.now ≡ message_words) × (place_of words.now cut.count ≤ 8192) }
    ensures { (result.from ≡ place_of words.now cut.from) × (result.kept ≡ place_of words.now cut.kept) × (result.to ≡ place_of words.now cut.to) × (result.until ≡ place_of words.now cut.until) × (result.used ≡ place_of words.now cut.count) }
{
    let from = message_maps::size_between(words, 0, cut.from);
    let kept = from + message_maps::size_between(words, cut.from, cut.kept);
    let to = kept + message_maps::size_between(words, cut.kept, cut.to);
    let until = to + message_maps::size_between(words, cut.to, cut.until);
    let used = until + message_maps::size_between(words, cut.until, cut.count);
    Places {
        from,
        kept,
        to,
        until,
        used,
    }
}

// Cuts, moves and inserts rows with their values, unless that is refused: 41, 42, 21. Where zeros are known to stand behind the rows and behind
// the values, only what was used is cleared.
pub fn cut_rows(
    words: &mut [u32],
    values: &mut [u8],
    cut: Cut,
    rows: &[u32],
    added: usize,
    bytes: &[u8],
    whole: bool,
    fields: usize,
    blank: bool,
) -> Change
    requires cuttable { Cuttable words.old values.old cut rows.now added fields }
    requires blank_from { BlankFrom blank cut.count words.old values.old }
    ensures { after result words.new values.new ≡ changed_at cut rows.now added bytes.now whole fields words.old values.old }
{
    let Cut {
        from,
        to,
        kept,
        until,
        count,
    } = cut;
    let places = places_of(words, cut);
    let first = places.from;
    let third = places.kept;
    let second = places.to;
    let fourth = places.until;
    let used = places.used;
    if !fits(
        first + (fourth - second) + (second - third) + (used - fourth),
        bytes.len(),
    ) {
        return Change::NotStorable;
    }
    if !whole {
        return Change::NoRun;
    }
    if 1024 < fields {
        return Change::TooManyFields;
    }
    let left = from + (until - to) + (to - kept) + (count - until);
    message_maps::splice_words(
        words,
        4 * from + 1,
        4 * to + 1,
        4 * kept + 1,
        4 * until + 1,
        4 * count + 1,
        rows,
        blank,
    );
    words[0] = (left + added) as u32;
    message_maps::splice_bytes(values, first, second, third, fourth, used, bytes, blank);
    Change::Made
}

// Stores a field in the map whose rows stand from `from` to `to`: in its place, or last and in front of the run that waited for it.
pub fn put_field(
    words: &mut [u32],
    values: &mut [u8],
    span: Span,
    tag: u32,
    value: &[u8],
    fields: usize,
    blank: bool,
) -> Change
    requires ready { Ready words.old values.old span tag value.now fields }
    requires blank_from { BlankFrom blank span.count words.old values.old }
    ensures { after result words.new values.new ≡ put_at span tag value.now fields words.old values.old }
{
    let Span { from, to, count } = span;
    let row = [1u32, 1, tag, value.len() as u32];
    let at = message_maps::find_row(words, 1, 1, tag, from, to);
    if at < to {
        let place = Cut {
            from: at,
            to: at + 1,
            kept: at + 1,
            until: at + 1,
            count,
        };
        return cut_rows(words, values, place, &row, 1, value, true, fields, blank);
    }
    let first = message_maps::find_row(words, 2, 1, tag, from, to);
    let last = message_maps::run_end(words, 1, tag, first, to);
    let run = Cut {
        from: first,
        to: last,
        kept: first,
        until: to,
        count,
    };
    cut_rows(words, values, run, &row, 1, value, true, fields + 1, blank)
}

// Makes what is lent an empty message.
pub fn empty(words: &mut [u32], values: &mut [u8]) -> Change
    ensures { after result words.new values.new ≡ emptying words.old values.old }
{
    if words.len() != message_maps::WORDS {
        return Change::NoMessage;
    }
    if values.len() != 8192 {
        return Change::NoMessage;
    }
    let heads = [2u32, 0, 1, 0, 2, 0, 2, 0, 2, 0, 3, 0];
    message_maps::splice_words(words, 1, 1, 1, 1, 1, &heads, false);
    words[0] = 3;
    message_maps::splice_bytes(values, 0, 0, 0, 0, 0, &[], false);
    Change::Made
}

// The number of fields that a change is judged by.
fn counted_fields(words: &[u32], count: usize) -> usize
    requires { (count ≤ message_rows) × (length words.now ≡ message_words) }
    ensures { result ≡ counted_fields words.now count }
{
    if count < 1024 {
        return 0;
    }
    message_lent::fields_in(words, 1, 0, count)
}

// Stores a field in a part of a message that was found to be one.
pub fn store_in(
    words: &mut [u32],
    values: &mut [u8],
    part: Part,
    tag: u32,
    value: &[u8],
    blank: bool,
) -> Change
    requires values_value { is_message words.old values.old ≡ true }
    requires blank { Blank blank words.old values.old }
    ensures { after result words.new values.new ≡ storing part tag value.now words.old values.old }
{
    if tag == 0 {
        return Change::NotStorable;
    }
    if 8192 < value.len() {
        return Change::NotStorable;
    }
    let span = span_of(words, values, part);
    let fields = counted_fields(words, span.count);
    put_field(words, values, span, tag, value, fields, blank)
}

// Stores a field in a part of a message.
pub fn store(words: &mut [u32], values: &mut [u8], part: Part, tag: u32, value: &[u8]) -> Change
    ensures { after result words.new values.new ≡ storing part tag value.now words.old values.old }
{
    if !message_lent::is_message(words, values) {
        return Change::NoMessage;
    }
    store_in(words, values, part, tag, value, false)
}

// Makes what is lent a new message, with a BeginString and a MsgType. What both don't fit is refused before anything is changed.
pub fn new(words: &mut [u32], values: &mut [u8], begin_string: &[u8], message_type: &[u8]) -> Change
    ensures { after result words.new values.new ≡ making begin_string.now message_type.now words.old values.old }
{
    if words.len() != message_maps::WORDS {
        return Change::NoMessage;
    }
    if values.len() != 8192 {
        return Change::NoMessage;
    }
    if !fits(begin_string.len(), message_type.len()) {
        return Change::NotStorable;
    }
    empty(words, values);
    store(words, values, Part::Header, 8, begin_string);
    store(words, values, Part::Header, 35, message_type)
}

// How many rows a field has that was found before an end: none where it was not.
fn held_rows(found: usize, end: usize) -> usize
    ensures { result ≡ held_rows found end }
{
    if found < end {
        return 1;
    }
    0
}

// Removes a field from a part of a message that was found to be one. No field comes to it, so none is counted.
pub fn remove_in(words: &mut [u32], values: &mut [u8], part: Part, tag: u32) -> Change
    requires { is_message words.old values.old ≡ true }
    ensures { after result words.new values.new ≡ removing part tag words.old values.old }
{
    let span = span_of(words, values, part);
    let Span { from, to, count } = span;
    let at = message_maps::find_row(words, 1, 1, tag, from, to);
    let held = held_rows(at, to);
    let place = Cut {
        from: at,
        to: at + held,
        kept: at + held,
        until: at + held,
        count,
    };
    cut_rows(words, values, place, &[], 0, &[], true, 0, false)
}

// Removes a field from a part of a message; a run that hung on it stays. Where it is not held, what stood behind the message goes all the same.
pub fn remove(words: &mut [u32], values: &mut [u8], part: Part, tag: u32) -> Change
    ensures { after result words.new values.new ≡ removing part tag words.old values.old }
{
    if !message_lent::is_message(words, values) {
        return Change::NoMessage;
    }
    remove_in(words, values, part, tag)
}
