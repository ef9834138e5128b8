// dictionary_pressing: the table that reading uses, written from the rows of a layout, level by level: a level's items first, each group's level
// behind them, and the items linked once all of them stand there. What the words are is said by `dictionary_tables_rules`.
#![tactic(auto)]

ghost use Rattle.std.specs.Prelude.{◌≡◌, ◌+◌, ◌*◌, ◌/◌, ◌≤◌, ◌<◌, ◌++◌, length, drop};
ghost use Rattle.dictionary_layout_rules.specs.Layout.{Layout, items};
ghost use Rattle.dictionary_layout_rules.specs.Tabled.{Tabled};
ghost use Rattle.dictionary_layout_rules.specs.Table.{next_sibling, siblings_from};
ghost use Rattle.dictionary_tables_rules.specs.Table.{heads_for, tag_at};
ghost use Rattle.dictionary_tables_rules.specs.Laid.{part_size, table_size, last_group, table_of};
ghost use Rattle.dictionary_tables_rules.specs.Tags.{fields_of};
ghost use Rattle.dictionary_pressing.specs.Linking.{cleared, linked, links_put, Chain};
ghost use Rattle.dictionary_pressing.specs.Pressing.{put_item, Pressing, Pressed, Pressable};

// Words to a row.
const ROW: usize = 4;

// More words than a table of 1,024 items takes.
const TOO_MANY: usize = 65536;

// Words to an item.
const STRIDE: usize = 5;

// How many heads a level of so many items has. What reads tables counts them too: neither crate stands on the other, and a third would be no plainer.
fn heads_for(count: usize) -> usize
    ensures { result ≡ heads_for count }
{
    if 16 < count {
        return 128;
    }
    8
}

// How many items the level has, none of them linked.
fn clear_heads(table: &mut [u16], level: usize, count: usize)
    requires { (level + part_size count ≤ length table.old) × (count < 65536) }
    ensures { table.new ≡ cleared table.old level count }
{
    table[level] = count as u16;
    let first = level + 1;
    table[first..first + heads_for(count)].fill(0);
}

// The tag of an item, as a number to divide by heads: what reads tables compares it as a tag, so that one function for both would be no plainer.
fn tag_at(table: &[u16], at: usize) -> usize
    requires { at + 5 ≤ length table.now }
    ensures { result ≡ tag_at table.now at }
{
    usize::from(table[at]) + 65536 * usize::from(table[at + 1])
}

// "Its group the last": that of the first item of the tag among those linked, or else the one so far.
fn last_group(table: &[u16], start: usize, tag: usize, link: usize, sofar: u16) -> u16
    requires { Chain table.now start tag link }
    ensures { (x : Chain table.now start tag link) → result ≡ last_group sofar tag x.owns }
{
    let mut next = link;
    while 0 < next {
        let at = start + STRIDE * (next - 1);
        if tag_at(table, at) == tag {
            if table[at + 2] == 0 {
                return sofar;
            }
            return table[at + 2];
        }
        next = usize::from(table[at + 4]);
    }
    sofar
}

// The four words that link an item: its group, its marks, the item behind it under its head, and the head, which is now the item.
fn put_links(
    table: &mut [u16],
    at: usize,
    head: usize,
    group: u16,
    marks: usize,
    link: u16,
    item: usize,
)
    requires { (at + 5 ≤ length table.old) × (head < length table.old) × (marks < 65536) × (item < 65536) }
    ensures { table.new ≡ links_put table.old at head group marks link item }
{
    table[at + 2] = group;
    table[at + 3] = marks as u16;
    table[at + 4] = link;
    table[head] = item as u16;
}

// Links a level's items, from the last to the first.
fn link_items(table: &mut [u16], level: usize, count: usize)
    requires { (level + part_size count ≤ length table.old) × (count < 32768) }
    ensures { table.new ≡ linked table.old level count }
{
    clear_heads(table, level, count);
    let heads = heads_for(count);
    let start = level + 1 + heads;
    let mut marked: usize = 0;
    for i in (0..count).rev() {
        let at = start + STRIDE * i;
        let tag = tag_at(table, at);
        let head = level + 1 + tag % heads;
        let link = table[head];
        let required = table[at + 3] == 1;
        let group = last_group(table, start, tag, usize::from(link), table[at + 2]);
        put_links(
            table,
            at,
            head,
            group,
            2 * marked + required as usize,
            link,
            i + 1,
        );
        if required {
            marked = i + 1;
        }
    }
}

// The next row of the same level. A link that doesn't rise ends the level.
fn next_sibling(rows: &[u16], at: usize, stop: usize) -> usize
    requires { at < length rows.now / 4 }
    ensures { result ≡ next_sibling rows.now at stop }
{
    let link = usize::from(rows[ROW * at + 3]);
    if at < link {
        return link;
    }
    stop
}

// A level's own items.
fn own_count(rows: &[u16], first: usize, stop: usize) -> usize
    requires { stop ≤ length rows.now / 4 }
    ensures { result ≡ length (siblings_from rows.now first stop) }
{
    let mut count: usize = 0;
    let mut at = first;
    while at < stop {
        at = next_sibling(rows, at, stop);
        count += 1;
    }
    count
}

// Words of a level's own part.
pub fn part_size(count: usize) -> usize
    requires { count ≤ 65536 }
    ensures { result ≡ part_size count }
{
    1 + heads_for(count) + STRIDE * count
}

// An item, not linked yet. Its tag is told by its low and its high half.
fn put_item(table: &mut [u16], at: usize, low: u16, high: u16, group: usize, required: bool)
    requires { (at + 5 ≤ length table.old) × (group < 65536) }
    ensures { table.new ≡ put_item table.old at (low + 65536 * high) group required }
{
    table[at] = low;
    table[at + 1] = high;
    table[at + 2] = group as u16;
    table[at + 3] = required as u16;
    table[at + 4] = 0;
}

// A level with all that is within, from a word of the table on. The words behind it start where the answer says.
fn press_level(rows: &[u16], first: usize, stop: usize, table: &mut [u16], level: usize) -> usize
    requires { Pressing rows.now first stop (length table.old) level }
    ensures { (x : Pressing rows.now first stop (length table.old) level) → Pressed level x.layout table.old table.new result }
{
    let count = own_count(rows, first, stop);
    let mut slot = level + 1 + heads_for(count);
    let mut free = level + part_size(count);
    let mut at = first;
    while at < stop {
        let low = rows[ROW * at];
        let high = rows[ROW * at + 1];
        let required = rows[ROW * at + 2] % 2 == 1;
        let next = usize::from(rows[ROW * at + 3]);
        let place = slot;
        slot += STRIDE;
        if rows[ROW * at + 2] / 2 == 1 {
            put_item(table, place, low, high, free, required);
            free = press_level(rows, at + 1, next, table, free);
        } else {
            put_item(table, place, low, high, 0, required);
        }
        at = next;
    }
    link_items(table, level, count);
    free
}

// How many words the table of the first rows takes, if they hold a layout: the part of its own level, and that of each group.
pub fn table_size(rows: &[u16], count: usize) -> usize
    ensures { (layout : Layout) → Tabled rows.now (record { first = 0; end = count }) layout → items layout ≤ 1024 → result ≡ table_size layout }
{
    if 1024 < count {
        return TOO_MANY;
    }
    if rows.len() / ROW < count {
        return TOO_MANY;
    }
    let mut size = part_size(own_count(rows, 0, count));
    for row in 0..count {
        if rows[ROW * row + 2] / 2 == 1 {
            let stop = usize::from(rows[ROW * row + 3]).min(count);
            size += part_size(own_count(rows, row + 1, stop));
        }
    }
    size
}

// Writes the table of the layout that the first rows hold over the first words; the others stay.
pub fn press(rows: &[u16], count: usize, table: &mut [u16])
    requires { Pressable rows.now count (length table.old) }
    ensures { (layout : Layout) → Tabled rows.now (record { first = 0; end = count }) layout → table.new ≡ table_of layout ++ drop (table_size layout) table.old }
{
    press_level(rows, 0, count, table, 0);
}

// Writes the table of a list of tags over the first words, and answers how many it has; the others stay.
pub fn press_tags(tags: &[u32], table: &mut [u16]) -> usize
    requires { (length tags.now ≤ 1024) × (table_size (fields_of tags.now) ≤ length table.old) }
    ensures { (table.new ≡ table_of (fields_of tags.now) ++ drop result table.old) × (result ≡ table_size (fields_of tags.now)) }
{
    let count = tags.len();
    let mut slot = 1 + heads_for(count);
    for next in 0..count {
        let tag = tags[next];
        put_item(
            table,
            slot,
            (tag % 65536) as u16,
            (tag / 65536) as u16,
            0,
            false,
        );
        slot += STRIDE;
    }
    link_items(table, 0, count);
    part_size(count)
}
