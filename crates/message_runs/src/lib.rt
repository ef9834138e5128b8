// message_runs: repeating groups made by calls. An entry is made before it is hung, as in the Rust: a run is handed over as a draft in a message's
// own layout and spliced in. No operation demands anything of what is lent: where it is no message or no draft the answer is 27.
#![tactic(auto)]

ghost use Rattle.std.specs.Prelude.{◌≡◌, ◌+◌, ◌-◌, ◌*◌, ◌≤◌, ◌<◌, length};
ghost use Rattle.message_maps.specs.Rows.{rows_from, message_words, message_rows};
ghost use Rattle.message_rules.specs.Changes.{after};
ghost use Rattle.message_rules.specs.Runs.{is_draft, last_from, starting, entering, storing_last, hanging_last, hanging};

fn is_draft(words: &[u32], values: &[u8]) -> bool
    ensures { result ≡ is_draft words.now values.now }
{
    message_lent::is_laid(words, values)
        && message_lent::fields_in(words, 0, 0, message_lent::row_count(words)) <= 1024
}

// Where the own rows of the last entry start, or 0 where there is none.
fn last_start(words: &[u32], count: usize) -> usize
    requires { (count ≤ message_rows) × (length words.now ≡ message_words) }
    ensures { result ≡ last_from 0 0 (rows_from (count - 0) 0 words.now) }
{
    let mut start: usize = 0;
    for i in 0..count {
        if message_maps::level_of(words, i) == 0 {
            start = i + 1;
        }
    }
    start
}

// Makes what is lent a run without any entry.
pub fn empty(words: &mut [u32], values: &mut [u8]) -> message_rules::Change
    ensures { after result words.new values.new ≡ starting words.old values.old }
{
    if words.len() != message_maps::WORDS {
        return message_rules::Change::NoMessage;
    }
    if values.len() != 8192 {
        return message_rules::Change::NoMessage;
    }
    message_maps::splice_words(words, 1, 1, 1, 1, 1, &[], false);
    words[0] = 0;
    message_maps::splice_bytes(values, 0, 0, 0, 0, 0, &[], false);
    message_rules::Change::Made
}

// Adds an entry, without any field, behind the last.
pub fn add_entry(
    words: &mut [u32],
    values: &mut [u8],
    start: u32,
    delimiter: u32,
) -> message_rules::Change
    ensures { after result words.new values.new ≡ entering start delimiter words.old values.old }
{
    if !is_draft(words, values) {
        return message_rules::Change::NoMessage;
    }
    let count = message_lent::row_count(words);
    let fields = message_lent::fields_in(words, 0, 0, count);
    let head = [2u32, 0, start, delimiter];
    let last = message_rules::Cut {
        from: count,
        to: count,
        kept: count,
        until: count,
        count,
    };
    message::cut_rows(words, values, last, &head, 1, &[], true, fields + 1, false)
}

// Stores a field in the last entry.
pub fn store_last(
    words: &mut [u32],
    values: &mut [u8],
    tag: u32,
    value: &[u8],
) -> message_rules::Change
    ensures { after result words.new values.new ≡ storing_last tag value.now words.old values.old }
{
    if !is_draft(words, values) {
        return message_rules::Change::NoMessage;
    }
    if tag == 0 {
        return message_rules::Change::NotStorable;
    }
    if 8192 < value.len() {
        return message_rules::Change::NotStorable;
    }
    let count = message_lent::row_count(words);
    let from = last_start(words, count);
    if from == 0 {
        return message_rules::Change::NoRun;
    }
    let others = message_lent::fields_in(words, 0, 0, from - 1);
    let own = message_lent::fields_in(words, 1, from, count);
    let span = message_rules::Span {
        from,
        to: count,
        count,
    };
    message::put_field(words, values, span, tag, value, others + own, false)
}

// Hangs a run in the last entry of another; it takes the place of the run that hung on its start tag.
pub fn hang_last(
    words: &mut [u32],
    values: &mut [u8],
    run_words: &[u32],
    run_values: &[u8],
) -> message_rules::Change
    ensures { after result words.new values.new ≡ hanging_last run_words.now run_values.now words.old values.old }
{
    if !is_draft(words, values) {
        return message_rules::Change::NoMessage;
    }
    if !is_draft(run_words, run_values) {
        return message_rules::Change::NoMessage;
    }
    if message_hung_rows::has_untagged(run_words, message_lent::row_count(run_words)) {
        return message_rules::Change::NotStorable;
    }
    let count = message_lent::row_count(words);
    let from = last_start(words, count);
    if from == 0 {
        return message_rules::Change::NoRun;
    }
    let fields = message_lent::fields_in(words, 0, 0, count);
    let span = message_rules::Span {
        from,
        to: count,
        count,
    };
    message_hung_rows::hang_in(words, values, span, run_words, run_values, fields)
}

// Hangs a run on a part of a message; it takes the place of the run that hung on its start tag.
pub fn hang(
    words: &mut [u32],
    values: &mut [u8],
    part: message_rules::Part,
    run_words: &[u32],
    run_values: &[u8],
) -> message_rules::Change
    ensures { after result words.new values.new ≡ hanging part run_words.now run_values.now words.old values.old }
{
    let Some(span) = message::locate(words, values, part) else {
        return message_rules::Change::NoMessage;
    };
    if !is_draft(run_words, run_values) {
        return message_rules::Change::NoMessage;
    }
    if message_hung_rows::has_untagged(run_words, message_lent::row_count(run_words)) {
        return message_rules::Change::NotStorable;
    }
    let count = span.count;
    let fields = message_lent::fields_in(words, 1, 0, count);
    message_hung_rows::hang_in(words, values, span, run_words, run_values, fields)
}
