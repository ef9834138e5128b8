// build_records: a built message's records as words in one lent slice, and the ways in which maps change them: in at a place, over, out, found.
// Header, body, groups and trailer keep their maps through these functions alone. It judges nothing, and it demands nothing of its callers.
#![tactic(auto)]

ghost use Rattle.std.specs.Prelude.{◌≡◌};
ghost use Rattle.build_records.specs.Records.{records_of, on_records, record_at, replaced, inserted, removed, between, held_from, stored_between};

// Words to a record.
pub const STRIDE: usize = 6;

// The most records that reading may make: 1,024 fields, and the field that is one too many.
pub const ROOM: usize = 1025;

// Words for all of them.
pub const WORDS: usize = STRIDE * ROOM;

// The parts of a message.
pub const HEADER: u32 = 1;

pub const BODY: u32 = 2;

pub const TRAILER: u32 = 3;

// One field of a built message. Depth and entry number are 0 outside groups, else they start from 1.
#[derive(Clone, Copy)]
pub struct Record {
    pub part: u32,
    pub depth: u32,
    pub number: u32,
    pub tag: u32,
    pub place: u32,
    pub length: u32,
}

// The record at an index; behind the lent words there are only blank ones.
pub fn record_at(words: &[u32], i: usize) -> Record
    ensures { result ≡ record_at i (records_of words.now) }
{
    if words.len() / STRIDE <= i {
        return Record {
            part: 0,
            depth: 0,
            number: 0,
            tag: 0,
            place: 0,
            length: 0,
        };
    }
    let at = STRIDE * i;
    Record {
        part: words[at],
        depth: words[at + 1],
        number: words[at + 2],
        tag: words[at + 3],
        place: words[at + 4],
        length: words[at + 5],
    }
}

// Puts a record in the place of the one that stands there.
pub fn replace(words: &mut [u32], i: usize, stored: Record)
    ensures { words.new ≡ on_records (replaced i stored) words.old }
{
    if words.len() / STRIDE <= i {
        return;
    }
    let at = STRIDE * i;
    words[at] = stored.part;
    words[at + 1] = stored.depth;
    words[at + 2] = stored.number;
    words[at + 3] = stored.tag;
    words[at + 4] = stored.place;
    words[at + 5] = stored.length;
}

// Puts a record in before record i of n; the others from there on move one to the right. Without room nothing happens.
pub fn insert(words: &mut [u32], n: usize, i: usize, stored: Record)
    ensures { words.new ≡ on_records (inserted n i stored) words.old }
{
    if n < i {
        return;
    }
    if words.len() / STRIDE <= n {
        return;
    }
    let mut carried = stored;
    for at in i..n {
        let moved = record_at(words, at);
        replace(words, at, carried);
        carried = moved;
    }
    replace(words, n, carried);
}

// Takes k records out from record i of n on; those behind them move to the left, and what lies past them stays as it was.
pub fn remove(words: &mut [u32], n: usize, i: usize, k: usize)
    ensures { words.new ≡ on_records (removed n i k) words.old }
{
    if words.len() / STRIDE < n {
        return;
    }
    if n < k {
        return;
    }
    for at in i..n - k {
        let moved = record_at(words, at + k);
        replace(words, at, moved);
    }
}

// The first of the records from one to another that has this depth and tag.
pub fn held(words: &[u32], from: usize, to: usize, depth: u32, tag: u32) -> Option<usize>
    ensures { result ≡ held_from from depth tag (between from to (records_of words.now)) }
{
    for at in from..to.min(words.len() / STRIDE) {
        let found = record_at(words, at);
        if found.depth == depth && found.tag == tag {
            return Some(at);
        }
    }
    None
}

// Stores a record in the map whose records stand from one index to another, of n. Where its tag was held it takes that place.
pub fn store(words: &mut [u32], n: usize, from: usize, to: usize, stored: Record) -> Option<usize>
    ensures value { result ≡ held_from from stored.depth stored.tag (between from to (records_of words.old)) }
    ensures words_after { words.new ≡ on_records (stored_between n from to stored) words.old }
{
    let standing = held(words, from, to, stored.depth, stored.tag);
    match standing {
        Some(i) => replace(words, i, stored),
        None => insert(words, n, to, stored),
    }
    standing
}
