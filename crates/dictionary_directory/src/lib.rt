// dictionary_directory: the tables of a dictionary's messages and of the tags of its header and trailer, laid once into lent words behind a directory
// that leads to them. What stands in the words is never trusted: whatever they hold, what the directory leads to lies in them and says whose table it is.
#![tactic(auto)]

ghost use Rattle.std.specs.Prelude.{◌≡◌, ◌++◌, ◌+◌, ◌/◌, ◌≤◌, ◌<◌, length, take, drop, replicate, Some};
ghost use Rattle.dictionary_chains.specs.Chain.{index_words};
ghost use Rattle.dictionary_layout_rules.specs.RowsLayout.{layout_in};
ghost use Rattle.dictionary_tables_rules.specs.Laid.{part_size, table_size, table_of};
ghost use Rattle.dictionary_tables_rules.specs.Tags.{fields_of};
ghost use Rattle.dictionary_meaning_rules.specs.LaidLayout.{LaidAs};
ghost use Rattle.dictionary_meaning_rules.specs.MessageTable.{placed_table};
ghost use Rattle.dictionary_directory.specs.Directory.{longest, directory_words, block_stride, tags_slot, tags_place, block_at, kept_in, kept_at, tags_at, filling, next_block, room_for, put_block, tags_listed, lay_listed, lay_message, clear_directory, lay_tables, tag_words, table_words, laid_alone, LaidFirst};
ghost use Rattle.dictionary_directory.specs.LayingLaws.{headed};

use dictionary_flattening::{empty, tags};
use dictionary_meaning_rules::MessageTable;
use dictionary_rules::{Record, RecordRead};

// Words of the directory: one to each four bytes of a dictionary, and behind them those that lead to tags.
const DIRECTORY: usize = 15008;

// The word that leads to the header's tags. The next one leads to the trailer's.
const TAGS: usize = 15000;

// Bytes of the longest dictionary.
const LONGEST: usize = 60000;

// Words of the largest table: nine, and 14 to each of 1,024 items.
pub const TABLE_WORDS: usize = 14345;

// Words of the largest table of tags.
pub const TAG_WORDS: usize = 5249;

// Blocks start at each so many words.
const STRIDE: usize = 8;

// The table of the block that a word of the directory leads to, if the block says the place and lies in the words.
fn kept_in(tables: &[u16], place: usize, slot: usize) -> Option<(usize, usize)>
    requires { slot < length tables.now }
    ensures { result ≡ kept_in tables.now place (block_at tables.now slot) }
{
    let block = STRIDE * usize::from(tables[slot]);
    if block == 0 {
        return None;
    }
    if tables.len() < block + 2 {
        return None;
    }
    if usize::from(tables[block + 1]) != place {
        return None;
    }
    let size = usize::from(tables[block]);
    if tables.len() < block + 2 + size {
        return None;
    }
    Some((block + 2, size))
}

// The table of the message whose record stands at a place.
pub fn table_at(tables: &[u16], place: usize) -> Option<(usize, usize)>
    ensures { result ≡ kept_at tables.now place }
{
    if tables.len() < DIRECTORY {
        return None;
    }
    if LONGEST <= place {
        return None;
    }
    kept_in(tables, place, place / 4)
}

// The table of the header's tags (0) or of the trailer's (1).
pub fn tags_at(tables: &[u16], number: usize) -> Option<(usize, usize)>
    ensures { result ≡ tags_at tables.now number }
{
    if tables.len() < DIRECTORY {
        return None;
    }
    if 1 < number {
        return None;
    }
    kept_in(tables, LONGEST + number, TAGS + number)
}

// The directory leads nowhere.
fn clear_directory(tables: &mut [u16])
    requires { directory_words ≤ length tables.old }
    ensures { tables.new ≡ clear_directory tables.old }
{
    tables[..DIRECTORY].fill(0);
}

// Whether a table of so many words has room behind the others, and a word of the directory can lead to its block.
fn has_room(words: usize, free: usize, size: usize) -> bool
    requires { size < 65536 }
    ensures { result ≡ room_for words free size }
{
    free / STRIDE < 65536 && free + 2 + size <= words
}

// The two words of a block in front of its table, and the one of the directory that leads to it. The next block starts where the answer says.
fn put_head(tables: &mut [u16], slot: usize, place: usize, size: usize, free: usize) -> usize
    requires { (free + 2 ≤ length tables.old) × (slot < length tables.old) × (place < 65536) × (size < 65536) × (free / block_stride < 65536) }
    ensures { (tables.new ≡ headed tables.old slot place size free) × (result ≡ next_block (free + 2 + size)) }
{
    tables[free] = size as u16;
    tables[free + 1] = place as u16;
    tables[slot] = (free / STRIDE) as u16;
    STRIDE * ((free + 2 + size + 7) / STRIDE)
}

// Writes the block of a message whose layout the first rows hold, if it has room.
fn put_block(
    tables: &mut [u16],
    made: &[u16; 4096],
    count: usize,
    place: usize,
    free: usize,
) -> usize
    requires { (directory_words ≤ length tables.old) × (place < longest) × LaidAs made.now count }
    ensures { filling tables.new result ≡ put_block (place / 4) place (layout_in made.now count) tables.old free }
{
    // Only where the array is made a slice does the proof learn its length.
    let rows = &made[..];
    let size = dictionary_pressing::table_size(rows, count);
    if !has_room(tables.len(), free, size) {
        return free;
    }
    dictionary_pressing::press(rows, count, &mut tables[free + 2..]);
    put_head(tables, place / 4, place, size, free)
}

// Lays the table of the message whose record stands at a place. One that can't be laid is left out.
fn lay_message(
    dictionary: &[u8],
    index: &[u16],
    tables: &mut [u16],
    place: usize,
    free: usize,
) -> usize
    requires { (length index.now ≡ index_words) × (directory_words ≤ length tables.old) }
    ensures { filling tables.new result ≡ lay_message dictionary.now index.now place (filling tables.old free) }
{
    if LONGEST <= place {
        return free;
    }
    let mut rows = [0u16; 4096];
    let mut leaps = [0u16; empty::LEAPS];
    let MessageTable::Rows(count) = dictionary_flattening::placed_table(
        dictionary,
        index,
        place as u16,
        &mut rows,
        &mut leaps[..],
    ) else {
        return free;
    };
    put_block(tables, &rows, count, place, free)
}

// The tags of the header (0) or of the trailer (1), listed from the records; answers how many there are.
fn tags_of(dictionary: &[u8], index: &[u16], number: u16, list: &mut [u32; 1024]) -> usize
    requires { (length index.now ≡ index_words) × (list.old ≡ replicate 1024 0) }
    ensures { (take result list.new ≡ tags_listed dictionary.now index.now number) × (result ≤ length list.new) }
{
    match tags::plain_tags(dictionary, index, number, list) {
        Some(count) => count,
        None => 0,
    }
}

// Writes the block of the tags of the header (0) or of the trailer (1), which stand first in a list, if it has room.
fn put_tags(
    tables: &mut [u16],
    list: &[u32; 1024],
    count: usize,
    number: usize,
    free: usize,
) -> usize
    requires { (directory_words ≤ length tables.old) × (count ≤ length list.now) × (number ≤ 1) }
    ensures { filling tables.new result ≡ put_block (tags_slot number) (tags_place number) (fields_of (take count list.now)) tables.old free }
{
    // As a slice it has a length that the proof knows: so the tags are few.
    let tags = &list[..];
    let size = dictionary_pressing::part_size(count);
    if !has_room(tables.len(), free, size) {
        return free;
    }
    dictionary_pressing::press_tags(&tags[..count], &mut tables[free + 2..]);
    put_head(tables, TAGS + number, LONGEST + number, size, free)
}

// Lays the table of the tags of the header (0) or of the trailer (1), if it has room.
fn lay_listed(
    dictionary: &[u8],
    index: &[u16],
    tables: &mut [u16],
    number: u16,
    free: usize,
) -> usize
    requires { (length index.now ≡ index_words) × (directory_words ≤ length tables.old) × (number ≤ 1) }
    ensures { filling tables.new result ≡ lay_listed dictionary.now index.now number (filling tables.old free) }
{
    let mut list = [0u32; 1024];
    let count = tags_of(dictionary, index, number, &mut list);
    put_tags(tables, &list, count, usize::from(number), free)
}

// Lays the tables of the header's tags, of the trailer's, and of all messages of a dictionary in the order of their records, as many as have room.
pub fn lay_tables(dictionary: &[u8], index: &[u16], tables: &mut [u16])
    requires { length index.now ≡ index_words }
    ensures { tables.new ≡ lay_tables dictionary.now index.now tables.old }
{
    if tables.len() < DIRECTORY {
        return;
    }
    clear_directory(tables);
    let header = lay_listed(dictionary, index, tables, 0, DIRECTORY);
    let mut free = lay_listed(dictionary, index, tables, 1, header);
    let mut at: usize = 0;
    loop {
        let RecordRead::Whole(read, next) = dictionary_records::record_at(dictionary, at) else {
            return;
        };
        if let Record::OpensMessage(_) = read {
            free = lay_message(dictionary, index, tables, at, free);
        }
        at = next;
    }
}

// Lays the table of the message whose record stands at a place by itself, over the first words. They are blank, and are used on the way.
pub fn lay_table(
    dictionary: &[u8],
    index: &[u16],
    opening: u16,
    table: &mut [u16; TABLE_WORDS],
) -> Option<(usize, usize)>
    requires { (length index.now ≡ index_words) × (table.old ≡ replicate table_words 0) }
    ensures value { result ≡ laid_alone (placed_table dictionary.now index.now (Some opening) (replicate 4096 0)) }
    ensures laid_first { LaidFirst (placed_table dictionary.now index.now (Some opening) (replicate 4096 0)) table.new }
{
    let words = &mut table[..];
    let mut made = [0u16; 4096];
    let MessageTable::Rows(count) = dictionary_flattening::placed_table(
        dictionary,
        index,
        opening,
        &mut made,
        &mut words[..empty::LEAPS],
    ) else {
        return None;
    };
    let rows = &made[..];
    dictionary_pressing::press(rows, count, words);
    Some((0, dictionary_pressing::table_size(rows, count)))
}

// Writes the table of the tags that stand first in a list over the first words, and answers how many it has.
fn press_listed(list: &[u32; 1024], count: usize, table: &mut [u16]) -> usize
    requires { (count ≤ length list.now) × (tag_words ≤ length table.old) }
    ensures { (table.new ≡ table_of (fields_of (take count list.now)) ++ drop result table.old) × (result ≡ table_size (fields_of (take count list.now))) × (result ≤ tag_words) }
{
    // As a slice it has a length that the proof knows: so the tags fit.
    let tags = &list[..];
    dictionary_pressing::press_tags(&tags[..count], table)
}

// Lays the table of the tags of a component by itself, over the first words, and answers how many it has.
pub fn lay_tags(
    dictionary: &[u8],
    index: &[u16],
    number: u16,
    table: &mut [u16; TAG_WORDS],
) -> usize
    requires { length index.now ≡ index_words }
    ensures table_after { (table.new ≡ table_of (fields_of (tags_listed dictionary.now index.now number)) ++ drop result table.old) × (result ≡ table_size (fields_of (tags_listed dictionary.now index.now number))) }
    ensures upper_bound { result ≤ tag_words }
{
    let words = &mut table[..];
    let mut list = [0u32; 1024];
    let count = tags_of(dictionary, index, number, &mut list);
    press_listed(&list, count, words)
}
