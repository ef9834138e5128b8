// dictionary_tables: the tables that reading uses, looked up and written. What a tag is at a level is found by one probe, and what is required
// by the marks alone. Look-ups have an answer for every content, and never look at a dictionary's bytes.
#![tactic(auto)]

ghost use Rattle.std.specs.Prelude.{◌≡◌, ◌+◌, ◌*◌, ◌≤◌, ◌<◌, length};
ghost use Rattle.dictionary_layout_rules.specs.Tree.{holds_tag};
ghost use Rattle.dictionary_tables_rules.specs.Table.{heads_at, tag_at, item_of, delimiter_at, marked_behind, mark_from};
ghost use Rattle.dictionary_tables_rules.specs.Tags.{tags_found};

// Words to an item.
const STRIDE: usize = 5;

// How many heads the level has that starts at a word of the table.
fn heads_at(table: &[u16], level: usize) -> usize
    requires { level < length table.now }
    ensures { result ≡ heads_at table.now level }
{
    if 16 < table[level] {
        return 128;
    }
    8
}

fn tag_at(table: &[u16], at: usize) -> u32
    requires { at + 5 ≤ length table.now }
    ensures { result ≡ tag_at table.now at }
{
    u32::from(table[at]) + 65536 * u32::from(table[at + 1])
}

// What a tag is at the level that starts at a word of the table.
pub fn item_of(table: &[u16], level: usize, tag: u32) -> Option<(usize, usize)>
    ensures { result ≡ item_of table.now level tag }
{
    if table.len() <= level {
        return None;
    }
    let heads = heads_at(table, level);
    let head = level + 1 + tag as usize % heads;
    if table.len() <= head {
        return None;
    }
    let from = level + 1 + heads;
    let mut link = usize::from(table[head]);
    while 0 < link {
        let at = from + STRIDE * (link - 1);
        if table.len() < at + STRIDE {
            return None;
        }
        if tag_at(table, at) == tag {
            return Some((link - 1, usize::from(table[at + 2])));
        }
        let later = usize::from(table[at + 4]);
        if later <= link {
            return None;
        }
        link = later;
    }
    None
}

// A tag is among those that a table stands for.
pub fn holds(table: &[u16], tag: u32) -> bool
    ensures { result ≡ holds_tag tag (tags_found table.now) }
{
    match item_of(table, 0, tag) {
        Some((_, _)) => true,
        None => false,
    }
}

// The tag that opens each entry of a group.
pub fn delimiter(table: &[u16], level: usize) -> Option<u32>
    ensures { result ≡ delimiter_at table.now level }
{
    if table.len() <= level {
        return None;
    }
    if table[level] == 0 {
        return None;
    }
    let from = level + 1 + heads_at(table, level);
    if table.len() < from + STRIDE {
        return None;
    }
    Some(tag_at(table, from))
}

// Where the marks go on behind an item: a link that doesn't rise ends them.
fn marked_behind(link: usize, word: usize) -> usize
    ensures { result ≡ marked_behind link word }
{
    let behind = word / 2;
    if behind <= link {
        return 0;
    }
    behind
}

// The first required tag of a level from a link on, and the link behind it.
pub fn next_required(table: &[u16], level: usize, first: usize) -> Option<(u32, usize)>
    ensures { result ≡ mark_from table.now level first }
{
    if table.len() <= level {
        return None;
    }
    if table[level] == 0 {
        return None;
    }
    let from = level + 1 + heads_at(table, level);
    if table.len() < from {
        return None;
    }
    // A link may be any number: it is multiplied only where the table has room for its item.
    let room = (table.len() - from) / STRIDE;
    let mut link = first;
    while 0 < link {
        if room < link {
            return None;
        }
        let at = from + STRIDE * (link - 1);
        let word = usize::from(table[at + 3]);
        let behind = marked_behind(link, word);
        if word % 2 == 1 {
            return Some((tag_at(table, at), behind));
        }
        link = behind;
    }
    None
}
