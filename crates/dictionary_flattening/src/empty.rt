// Rows of component items that stand for nothing. A component may hold thousands of them and be used a thousand times in one message; how far
// such a row reaches is kept in lent words, so that a row is read once and leapt over from then on. No answer depends on it.
ghost use Rattle.std.specs.Prelude.{◌≡◌, length};
ghost use Rattle.dictionary_rules.specs.Index.{component_at};
ghost use Rattle.dictionary_chains.specs.Chain.{index_words};
ghost use Rattle.dictionary_flattening.specs.Leaps.{Leads, Leaps, leap_words, leap_word, leap_from, leap_kept, reached_leaps, reached_since, leaping_since};

use crate::stands_at;
use dictionary_rules::{Record, RecordRead};

// Words of leaps: for each of four ways in which items of four bytes can follow each other, one to every sixteenth place.
pub const LEAPS: usize = 4096;

// The word of a place, and none of them where the place has none.
fn word_of(at: usize) -> usize
    ensures { result ≡ leap_word at }
{
    if 65536 <= at || 4 <= at % 64 {
        return LEAPS;
    }
    1024 * (at % 64) + at / 64
}

// How far one may go from a place.
fn known_from(leaps: &[u16], at: usize) -> usize
    requires { length leaps.now ≡ leap_words }
    ensures { result ≡ leap_from leaps.now at }
{
    let word = word_of(at);
    if LEAPS <= word {
        return 0;
    }
    usize::from(leaps[word])
}

// From one place one may go to another.
fn keep(leaps: &mut [u16], from: usize, to: usize)
    requires { length leaps.old ≡ leap_words }
    ensures { leaps.new ≡ leap_kept leaps.old from to }
{
    let word = word_of(from);
    if LEAPS <= word {
        return;
    }
    if 65536 <= to {
        return;
    }
    leaps[word] = to as u16;
}

// At a place that has a word, what was read since the one before is kept, and from there on it is counted anew.
fn keep_reached(leaps: &mut [u16], since: usize, at: usize) -> usize
    requires { length leaps.old ≡ leap_words }
    ensures { (leaps.new ≡ reached_leaps leaps.old since at) × (result ≡ reached_since since at) }
{
    if LEAPS <= word_of(at) {
        return since;
    }
    keep(leaps, since, at);
    at
}

// Leaps one after the other become one, from the first place on that has a word.
fn leaping_since(since: usize, at: usize) -> usize
    ensures { result ≡ leaping_since since at }
{
    if LEAPS <= word_of(since) {
        return at;
    }
    since
}

// Behind an item that stands for nothing, or where it is where anything else stands.
fn past_item(bytes: &[u8], index: &[u16], at: usize) -> usize
    requires { length index.now ≡ index_words }
    ensures { Leads bytes.now (component_at index.now) at result }
{
    let RecordRead::Whole(record, next) = dictionary_records::record_at(bytes, at) else {
        return at;
    };
    let Record::ComponentItem(_, number) = record else {
        return at;
    };
    match stands_at(index, number) {
        None => next,
        Some(_) => at,
    }
}

// From a place to the end of the row of items that stand for nothing there. What is read on the way is kept from word to word, and all that was leapt
// over as one leap.
pub fn pass(bytes: &[u8], index: &[u16], leaps: &mut [u16], from: usize) -> usize
    requires { (length index.now ≡ index_words) × Leaps bytes.now (component_at index.now) leaps.old }
    ensures leads { Leads bytes.now (component_at index.now) from result }
    ensures leaps { Leaps bytes.now (component_at index.now) leaps.new }
{
    let mut at = from;
    let mut since = from;
    loop {
        let known = known_from(leaps, at);
        if at < known {
            since = leaping_since(since, at);
            at = known;
        } else {
            since = keep_reached(leaps, since, at);
            let next = past_item(bytes, index, at);
            if next <= at {
                keep(leaps, since, at);
                return at;
            }
            at = next;
        }
    }
}
