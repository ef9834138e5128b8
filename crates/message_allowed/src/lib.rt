// message_allowed: whether rows that are lent are allowed, and whether each run among them has its count, in one pass. A table finds, of the rows
// passed, the newest of each level and tag, and the newest above each level. It demands nothing of what the rows hold.
#![tactic(auto)]

ghost use Rattle.std.specs.Prelude.{◌≡◌, true, false, ◌+◌, ◌-◌, ◌*◌, ◌≤◌, ◌<◌, length, replicate};
ghost use Rattle.field_rules.specs.Choice.{pick};
ghost use Rattle.message_maps.specs.Rows.{row_at, rows_from, rows_before, level_of, message_words, message_rows};
ghost use Rattle.message_lent_rules.specs.Lent.{continues, follows_on, deepest, field_allowed, head_allowed, row_allowed};
ghost use Rattle.message_lent_rules.specs.Standing.{standing_of};
ghost use Rattle.message_lent_rules.specs.declared.Standing.TheVariants.{Uncounted, Counted};
ghost use Rattle.message_allowed.specs.Distinct.{held, tagged, latest, reach, starts_run};
ghost use Rattle.message_allowed.specs.Branch.{bucket_of, rest_of, cell_of, Tree, tag_of, Known, grown, Sized};

use message_lent_rules::Standing;

// How rows stand that are allowed.
fn standing_of(loose: bool) -> Standing
    ensures { result ≡ pick loose Uncounted Counted }
{
    if loose {
        return Standing::Uncounted;
    }
    Standing::Counted
}

#[tactic(auto, unfolding(crate::specs::Branch::bucket_of))]
fn bucket_of(level: u32, tag: u32) -> usize
    ensures value { result ≡ bucket_of level tag }
    ensures upper_bound { result < 1024 }
{
    (tag as usize + 509 * level as usize) % 1024
}

#[tactic(auto, unfolding(message_maps::specs::Rows::row_at, message_maps::specs::Rows::level_of, crate::specs::Distinct::tagged))]
fn is_tagged(words: &[u32], row: usize, level: u32, tag: u32) -> bool
    requires { (row < message_rows) × (length words.now ≡ message_words) }
    ensures { result ≡ tagged level tag (row_at words.now row) }
{
    if message_maps::tag_of(words, row) != tag || message_maps::level_of(words, row) != level {
        return false;
    }
    let kind = message_maps::kind_of(words, row);
    kind == 1 || kind == 2
}

#[tactic(auto, unfolding(crate::specs::Branch::rest_of))]
fn rest_of(level: u32, tag: u32) -> usize
    ensures { result ≡ rest_of level tag }
{
    tag as usize / 1024 + 4194304 * level as usize
}

// The word of the table that holds, or is to hold, the newest row of a level and tag. As the tree branches by their bits, a way to it has no
// more turns than they have.
fn cell_of(words: &[u32], table: &[u16], row: usize, level: u32, tag: u32) -> usize
    requires { (row < message_rows) × (length words.now ≡ message_words) × (1024 + 3 * row ≤ length table.now) × Tree table.now row }
    ensures value { result ≡ cell_of table.now words.now level tag }
    ensures upper_bound { result < 1024 + 3 * row }
{
    let mut cell = bucket_of(level, tag);
    let mut rest = rest_of(level, tag);
    let mut link = table[cell] as usize;
    // No `for`: a turn goes on along the links of the tree.
    while link != 0 {
        if is_tagged(words, link - 1, level, tag) {
            return 1023 + 3 * link;
        }
        cell = 1021 + 3 * link + rest % 2;
        rest = rest / 2;
        link = table[cell] as usize;
    }
    cell
}

// Whether the map that is open at a level holds a tag: its newest row is newer than the newest above the level.
fn is_held(
    words: &[u32],
    table: &[u16],
    tops: usize,
    row: usize,
    level: u32,
    tag: u32,
    newest: usize,
) -> bool
    requires { (row < message_rows) × (length words.now ≡ message_words) × Sized table.now tops row × Known words.now row tops table.now × (level ≤ reach (rows_before row words.now)) × (newest ≡ latest level tag (rows_before row words.now)) }
    ensures { result ≡ held level tag (rows_before row words.now) }
{
    (table[tops + level as usize] as usize) < newest
}

#[tactic(auto, unfolding(message_maps::specs::Rows::row_at, message_lent_rules::specs::Lent::continues, message_lent_rules::specs::Lent::delimiter_is))]
fn continues_run(words: &[u32], row: usize, level: u32, start: u32, delimiter: u32) -> bool
    requires { (row < message_rows) × (length words.now ≡ message_words) }
    ensures { result ≡ continues level start delimiter (row_at words.now row) }
{
    message_maps::is_row(words, row, 1, level, start)
        || message_maps::is_row(words, row, 2, level, start)
            && message_maps::extra_of(words, row) == delimiter
}

// Whether a run of the map that is open goes on: the newest row that is no deeper is its count or an entry of it.
fn follows_on(
    words: &[u32],
    table: &[u16],
    tops: usize,
    row: usize,
    level: u32,
    start: u32,
    delimiter: u32,
) -> bool
    requires { (row < message_rows) × (length words.now ≡ message_words) × Sized table.now tops row × Known words.now row tops table.now × (level < reach (rows_before row words.now)) }
    ensures { result ≡ follows_on level start delimiter (rows_before row words.now) }
{
    let last = table[tops + (level as usize + 1)] as usize;
    last != 0 && continues_run(words, last - 1, level, start, delimiter)
}

// How deep a row may stand: as deep as the row before it, and one level deeper behind a head.
fn deepest_at(words: &[u32], row: usize) -> usize
    requires { (row < message_rows) × (length words.now ≡ message_words) }
    ensures { result ≡ deepest (rows_before row words.now) }
{
    if row == 0 {
        return 0;
    }
    let outer = message_maps::level_of(words, row - 1) as usize;
    if message_maps::kind_of(words, row - 1) == 2 {
        return outer + 1;
    }
    outer
}

fn field_allowed(
    words: &[u32],
    table: &[u16],
    tops: usize,
    row: usize,
    level: u32,
    tag: u32,
    newest: usize,
) -> bool
    requires { (row < message_rows) × (length words.now ≡ message_words) × Sized table.now tops row × Known words.now row tops table.now × (level ≤ reach (rows_before row words.now)) × (newest ≡ latest level tag (rows_before row words.now)) }
    ensures { result ≡ field_allowed (rows_before row words.now) level tag }
{
    if level == 0 {
        return false;
    }
    if tag == 0 {
        return false;
    }
    !is_held(words, table, tops, row, level, tag, newest)
}

fn head_allowed(
    words: &[u32],
    table: &[u16],
    tops: usize,
    row: usize,
    level: u32,
    start: u32,
    delimiter: u32,
    newest: usize,
) -> bool
    requires { (row < message_rows) × (length words.now ≡ message_words) × Sized table.now tops row × Known words.now row tops table.now × (level ≤ reach (rows_before row words.now)) × (newest ≡ latest level start (rows_before row words.now)) }
    ensures { result ≡ head_allowed (rows_before row words.now) level start delimiter }
{
    if level == 0 {
        return true;
    }
    if start == 0 {
        return false;
    }
    if delimiter == 0 {
        return false;
    }
    if is_held(words, table, tops, row, level, start, newest) {
        return follows_on(words, table, tops, row, level, start, delimiter);
    }
    true
}

fn row_allowed(words: &[u32], table: &[u16], tops: usize, row: usize, newest: usize) -> bool
    requires { (row < message_rows) × (length words.now ≡ message_words) × Sized table.now tops row × Known words.now row tops table.now × (newest ≡ latest (level_of (row_at words.now row)) (tag_of (row_at words.now row)) (rows_before row words.now)) }
    ensures { result ≡ row_allowed (rows_before row words.now) (row_at words.now row) }
{
    let level = message_maps::level_of(words, row);
    if deepest_at(words, row) < level as usize {
        return false;
    }
    let kind = message_maps::kind_of(words, row);
    let tag = message_maps::tag_of(words, row);
    if kind == 1 {
        return field_allowed(words, table, tops, row, level, tag, newest);
    }
    if kind == 2 {
        return head_allowed(
            words,
            table,
            tops,
            row,
            level,
            tag,
            message_maps::extra_of(words, row),
            newest,
        );
    }
    false
}

// Whether a row that is allowed is the head of an entry in front of which its map holds neither the count nor another entry.
fn starts_run(words: &[u32], table: &[u16], tops: usize, row: usize, newest: usize) -> bool
    requires { (row < message_rows) × (length words.now ≡ message_words) × Sized table.now tops row × Known words.now row tops table.now × (level_of (row_at words.now row) ≤ reach (rows_before row words.now)) × (newest ≡ latest (level_of (row_at words.now row)) (tag_of (row_at words.now row)) (rows_before row words.now)) }
    ensures { result ≡ starts_run (rows_before row words.now) (row_at words.now row) }
{
    if message_maps::kind_of(words, row) != 2 {
        return false;
    }
    let level = message_maps::level_of(words, row);
    if level == 0 {
        return false;
    }
    let tag = message_maps::tag_of(words, row);
    !is_held(words, table, tops, row, level, tag, newest)
}

// Enters a row that is allowed, and so no deeper than its number, at the word of its level and tag.
fn enter(words: &[u32], table: &mut [u16], tops: usize, row: usize, cell: usize)
    requires { (row < message_rows) × (length words.now ≡ message_words) × Sized table.old tops row × (level_of (row_at words.now row) ≤ row) × (cell < 1024 + 3 * row) }
    ensures { table.new ≡ grown words.now row tops cell table.old }
{
    let place = 1024 + 3 * row;
    let top = tops + 1 + message_maps::level_of(words, row) as usize;
    table[cell] = (row + 1) as u16;
    table[place] = 0;
    table[place + 1] = 0;
    table[place + 2] = (row + 1) as u16;
    table[top] = (row + 1) as u16;
}

// How rows stand, over a table of zeros that has room for them.
fn judge(words: &[u32], table: &mut [u16], tops: usize, to: usize) -> Standing
    requires { (to ≤ message_rows) × (length words.now ≡ message_words) × (1024 + 3 * to ≤ tops) × (tops ≤ 10000) × (tops + to + 2 ≤ length table.old) × (table.old ≡ replicate (length table.old) 0) }
    ensures { result ≡ standing_of (rows_from (to - 0) 0 words.now) }
{
    let mut loose = false;
    for i in 0..to {
        let cell = cell_of(
            words,
            table,
            i,
            message_maps::level_of(words, i),
            message_maps::tag_of(words, i),
        );
        let newest = table[cell] as usize;
        if !row_allowed(words, table, tops, i, newest) {
            return Standing::Refused;
        }
        // Asked of every row, so that no jump hangs on what the rows before it were.
        let starts = starts_run(words, table, tops, i, newest);
        loose = loose || starts;
        enter(words, table, tops, i, cell);
    }
    standing_of(loose)
}

// A message of few rows needs a small table, which is cleared in a tenth of the time.
pub fn standing(words: &[u32], to: usize) -> Standing
    requires { (to ≤ message_rows) × (length words.now ≡ message_words) }
    ensures { result ≡ standing_of (rows_from (to - 0) 0 words.now) }
{
    if to <= 128 {
        let mut few = [0u16; 1538];
        return judge(words, &mut few[..], 1408, to);
    }
    let mut many = [0u16; 9230];
    judge(words, &mut many[..], 7177, to)
}
