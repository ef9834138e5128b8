// dictionary_check: the check of a flat dictionary's bytes, 30 to 37, and the index that it leaves for look-ups.
// It knows nothing of messages, and of a dictionary's meaning only what the check needs: what is named, how often and how deep.
#![tactic(auto)]

ghost use Rattle.std.specs.Prelude.{◌≡◌, ◌≢◌, true, ◌+◌, ◌≤◌, ◌<◌, length, get_or, take, drop, eqb, IfSome};
ghost use Rattle.dictionary_rules.specs.Record.{low_first, record_at};
ghost use Rattle.dictionary_rules.specs.Records.{records_from};
ghost use Rattle.dictionary_rules.specs.Index.{looks_at, noted};
ghost use Rattle.dictionary_rules.specs.Check.{outcome, walked, check_of, prepared_of, number_of_check, values_of_check};
ghost use Rattle.dictionary_rules.specs.Passing.{Passed, with_field};
ghost use Rattle.dictionary_chains.specs.Chain.{index_words};

use dictionary_rules::{Checked, Open, Record, RecordRead, State};

// The number that an answer returns.
pub fn number_of(checked: Checked) -> u32
    ensures { result ≡ number_of_check checked }
{
    match checked {
        Checked::Passes => 0,
        Checked::TooLong => 30,
        Checked::BadRecord(_) => 31,
        Checked::NoComponent(_) => 32,
        Checked::UnknownTag(_) => 33,
        Checked::EmptyGroup(_) => 34,
        Checked::TooDeep(_) => 35,
        Checked::Twice(_) => 36,
        Checked::TooManyItems(_) => 37,
    }
}

// The value that an answer returns, and 0 where it returns none.
pub fn value_of(checked: Checked) -> u32
    ensures { result ≡ get_or (values_of_check checked) 0 0 }
{
    match checked {
        Checked::Passes => 0,
        Checked::TooLong => 60000,
        Checked::BadRecord(place) => u32::from(place),
        Checked::NoComponent(number) => u32::from(number),
        Checked::UnknownTag(tag) => tag,
        Checked::EmptyGroup(tag) => tag,
        Checked::TooDeep(place) => u32::from(place),
        Checked::Twice(place) => u32::from(place),
        Checked::TooManyItems(place) => u32::from(place),
    }
}

// The tag behind the kind of a record, if it is one: 0 is none.
fn tag_behind(dictionary: &[u8], place: usize) -> Option<u32>
    requires { place + 5 ≤ length dictionary.now }
    ensures { IfSome result (λ tag. (tag ≡ low_first (take 4 (drop (place + 1) dictionary.now))) × (tag ≢ 0)) }
{
    let tag = dictionary_records::four(dictionary, place + 1);
    if tag == 0 {
        return None;
    }
    Some(tag)
}

// The tag that a record at a place makes known. None says nothing of the record: it is then left to a step of its own.
fn known_tag_at(dictionary: &[u8], place: usize) -> Option<u32>
    requires { place ≤ length dictionary.now }
    ensures { IfSome result (λ tag. record_at dictionary.now place ≡ RecordRead.Whole (Record.KnownTag tag) (place + 5)) }
{
    if dictionary.len() - place < 5 {
        return None;
    }
    if dictionary[place] != 1 {
        return None;
    }
    tag_behind(dictionary, place)
}

// The tag of the field item at a place. None says nothing of the record, here too.
fn field_item_at(dictionary: &[u8], place: usize) -> Option<u32>
    requires { place ≤ length dictionary.now }
    ensures { IfSome result (λ tag.
        record_at dictionary.now place ≡ RecordRead.Whole (Record.FieldItem tag (eqb (get_or dictionary.now (place + 5) 0) 1)) (place + 6)) }
{
    if dictionary.len() - place < 6 {
        return None;
    }
    if dictionary[place] != 4 {
        return None;
    }
    if 1 < dictionary[place + 5] {
        return None;
    }
    tag_behind(dictionary, place)
}

// Where a walk has come: a place of the dictionary, and what the records before it left open.
#[derive(Clone, Copy)]
struct Reached {
    at: usize,
    state: State,
}

// Passes the known tags that stand in a row.
fn pass_tags(dictionary: &[u8], index: &mut [u16], from: usize) -> usize
    requires { (from ≤ length dictionary.now) × (length dictionary.now ≤ 60000) × (length index.old ≡ index_words) }
    ensures { Passed dictionary.now from State.TopLevel index.old result State.TopLevel index.new }
{
    let mut at = from;
    while let Some(tag) = known_tag_at(dictionary, at) {
        dictionary_names::know_tag(index, at as u16, tag);
        at += 5;
    }
    at
}

// Whether a field item starts at a place that nothing refuses there.
fn field_counts(dictionary: &[u8], index: &[u16], at: usize, thing: Open) -> bool
    requires { (at ≤ length dictionary.now) × (length index.now ≡ index_words) }
    ensures { result ≡ true → (thing.items < 1024)
        × Passed dictionary.now at (State.Inside thing) index.now (at + 6) (State.Inside (with_field thing)) index.now }
{
    if 1024 <= thing.items {
        return false;
    }
    match field_item_at(dictionary, at) {
        Some(tag) => dictionary_names::tag_known(index, tag),
        None => false,
    }
}

// Passes the field items that stand in a row, up to one that is refused.
fn pass_fields(dictionary: &[u8], index: &[u16], from: usize, thing: Open) -> Reached
    requires { (from ≤ length dictionary.now) × (length index.now ≡ index_words) }
    ensures { Passed dictionary.now from (State.Inside thing) index.now result.at result.state index.now }
{
    let mut at = from;
    let mut counted = thing;
    while field_counts(dictionary, index, at, counted) {
        counted = dictionary_steps::count_field(counted);
        at += 6;
    }
    Reached {
        at,
        state: State::Inside(counted),
    }
}

// Passes the records that stand in a row. Most of a dictionary's do.
fn pass(dictionary: &[u8], index: &mut [u16], from: usize, state: State) -> Reached
    requires { (from ≤ length dictionary.now) × (length dictionary.now ≤ 60000) × (length index.old ≡ index_words) }
    ensures { Passed dictionary.now from state index.old result.at result.state index.new }
{
    match state {
        State::TopLevel => {
            let at = pass_tags(dictionary, index, from);
            Reached { at, state }
        }
        State::Inside(thing) => pass_fields(dictionary, index, from, thing),
    }
}

// Record by record, but for those that stand in a row.
fn walk(dictionary: &[u8], index: &mut [u16]) -> Checked
    requires { (length dictionary.now ≤ 60000) × (length index.old ≡ index_words) }
    ensures { outcome result index.new ≡ walked looks_at noted (records_from dictionary.now 0) State.TopLevel index.old }
{
    let mut state = State::TopLevel;
    let mut next: usize = 0;
    loop {
        let reached = pass(dictionary, index, next, state);
        let at = reached.at;
        let here = reached.state;
        match dictionary_records::record_at(dictionary, at) {
            RecordRead::End => {
                return dictionary_steps::at_end(index, here, dictionary.len() as u16);
            }
            RecordRead::Bad => {
                return Checked::BadRecord(at as u16);
            }
            RecordRead::Whole(read, behind) => match dictionary_steps::step_of(
                index, here, at as u16, read,
            ) {
                Err(checked) => {
                    return checked;
                }
                Ok((after, note)) => {
                    dictionary_names::take_note(index, note);
                    state = after;
                    next = behind;
                }
            },
        }
    }
}

// Checks a dictionary and leaves in the index what it names, whatever the index held.
pub fn prepare(dictionary: &[u8], index: &mut [u16; dictionary_chains::WORDS]) -> Checked
    ensures index_after { outcome result index.new ≡ prepared_of dictionary.now index.old }
    ensures value { result ≡ check_of dictionary.now }
{
    // Only where the array is made a slice does the proof learn its length.
    let words = &mut index[..];
    if 60000 < dictionary.len() {
        return Checked::TooLong;
    }
    dictionary_chains::clear(words);
    walk(dictionary, words)
}

// Checks a dictionary.
pub fn check(dictionary: &[u8]) -> Checked
    ensures { result ≡ check_of dictionary.now }
{
    let mut index = [0u16; dictionary_chains::WORDS];
    prepare(dictionary, &mut index)
}
