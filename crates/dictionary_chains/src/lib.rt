// dictionary_chains: what a dictionary is looked up by. Three tables (known tags, closed components, MsgTypes) share the entries of one lent
// array, in trees that branch by the bits of a key. It reads no dictionary bytes, and demands nothing of the array: only links that rise are
// followed, and no look-up follows more than the bits of its key allow: 6 for a component, 22 for a tag, 54 for a MsgType, whatever the array
// holds.
#![tactic(auto)]

ghost use Rattle.std.specs.Prelude.{◌≡◌, ◌++◌, ◌<◌, length, drop, replicate};
ghost use Rattle.dictionary_chains.specs.Chain.{entry_room, head_words, index_words, key_room, most_turns, key_of, head_of, entry_at, link_at, way_of, found, written, entered};

// Words of heads, 2,048 to each table.
const HEAD_WORDS: usize = 6144;

// The numbers of entries are below this.
const ENTRY_ROOM: usize = 60004;

// Words of an index: it ends behind the entry of the last number.
pub const WORDS: usize = HEAD_WORDS + 3 * ENTRY_ROOM / 2 + 4;

#[derive(Clone, Copy)]
pub enum Table {
    Tags,
    Components,
    MsgTypes,
}

// What an entry holds: the place of its record, and four words that are the table's own.
#[derive(Clone, Copy)]
pub struct Entry {
    pub place: u16,
    pub first: u16,
    pub second: u16,
    pub third: u16,
    pub fourth: u16,
}

// Where a way ends: the word that leads on from there, and the number of the entry with the key, 0 where there is none.
#[derive(Clone, Copy)]
struct Way {
    cell: usize,
    number: usize,
}

pub fn key_of(table: Table, entry: Entry) -> u64
    ensures { result ≡ key_of table entry }
{
    let low = u64::from(entry.first);
    match table {
        Table::Components => low,
        Table::Tags => low + 65536 * u64::from(entry.second),
        Table::MsgTypes => {
            let high = u64::from(entry.third) + 65536 * u64::from(entry.fourth);
            low + 65536 * u64::from(entry.second) + 4294967296 * high
        }
    }
}

// Where the tree of the keys that share a head starts.
fn head_of(table: Table, key: u64) -> usize
    ensures { result ≡ head_of table key }
{
    let slot = (key % 2048) as usize;
    match table {
        Table::Tags => slot,
        Table::Components => 2048 + slot,
        Table::MsgTypes => 4096 + slot,
    }
}

// The turns of a way: a tag has 32 bits, a component's number 16, a MsgType 64, and eleven of them choose its head.
fn most_turns(table: Table) -> usize
    ensures { result ≡ most_turns table }
{
    match table {
        Table::Tags => 21,
        Table::Components => 5,
        Table::MsgTypes => 53,
    }
}

pub fn entry_at(index: &[u16], number: usize) -> Entry
    requires { (length index.now ≡ index_words) × (number < entry_room) }
    ensures { result ≡ entry_at index.now number }
{
    let at = HEAD_WORDS + number + number / 2;
    Entry {
        place: number.saturating_sub(4) as u16,
        first: index[at + 2],
        second: index[at + 3],
        third: index[at + 4],
        fourth: index[at + 5],
    }
}

// The entry that a word leads to, ENTRY_ROOM where it leads to none: its link must rise above the entry that the word belongs to, or 0 for a head.
fn link_at(index: &[u16], low: usize, cell: usize) -> usize
    requires { (length index.now ≡ index_words) × (cell < index_words) }
    ensures { result ≡ link_at index.now low cell }
{
    let link = usize::from(index[cell]);
    if link <= low {
        return ENTRY_ROOM;
    }
    link
}

fn way_of(index: &[u16], table: Table, key: u64) -> Way
    requires { (length index.now ≡ index_words) × (key < key_room table) }
    ensures { result ≡ way_of table index.now key }
{
    let most = most_turns(table);
    let mut cell = head_of(table, key);
    let mut rest = key / 2048;
    let mut turns: usize = 0;
    let mut link = link_at(index, 0, cell);
    while link < ENTRY_ROOM {
        if key_of(table, entry_at(index, link)) == key {
            return Way { cell, number: link };
        }
        // The keys share a head and every turn: had this one been entered here, it would be the same.
        if turns >= most {
            return Way { cell, number: 0 };
        }
        turns += 1;
        cell = HEAD_WORDS + link + link / 2 + (rest % 2) as usize;
        rest = rest / 2;
        link = link_at(index, link, cell);
    }
    Way { cell, number: 0 }
}

// The number of the entry with this key, and 0 where there is none.
pub fn find(index: &[u16], table: Table, key: u64) -> usize
    requires { (length index.now ≡ index_words) × (key < key_room table) }
    ensures { result ≡ found table index.now key }
{
    way_of(index, table, key).number
}

// Writes the four words of an entry that are its table's. Its branches stay.
fn write(index: &mut [u16], number: usize, entry: Entry)
    requires { (length index.old ≡ index_words) × (number < entry_room) }
    ensures { index.new ≡ written index.old number entry }
{
    let at = HEAD_WORDS + number + number / 2;
    index[at + 2] = entry.first;
    index[at + 3] = entry.second;
    index[at + 4] = entry.third;
    index[at + 5] = entry.fourth;
}

// Enters what a top-level record makes known, unless its key was entered before. The number says the place, so newer entries have higher numbers.
pub fn enter(index: &mut [u16], table: Table, entry: Entry)
    requires { length index.old ≡ index_words }
    ensures { index.new ≡ entered table index.old entry }
{
    let place = usize::from(entry.place);
    if 60000 <= place {
        return;
    }
    let way = way_of(index, table, key_of(table, entry));
    if way.number != 0 {
        return;
    }
    let number = place + 4;
    let at = HEAD_WORDS + number + number / 2;
    let cell = way.cell;
    index[at] = 0;
    index[at + 1] = 0;
    index[cell] = number as u16;
    write(index, number, entry);
}

// Forgets every entry.
pub fn clear(index: &mut [u16])
    requires { length index.old ≡ index_words }
    ensures { index.new ≡ replicate head_words 0 ++ drop head_words index.old }
{
    index[..HEAD_WORDS].fill(0);
}
