// message_maps: field maps in lent words and bytes. It finds rows and cuts, moves and inserts them; it knows no tag's meaning and refuses nothing
// by number. Only `message_lent`, `message`, `encode_rows` and `message_take_over` call it: its functions may ask that the words are whole.
#![tactic(auto)]

ghost use Rattle.std.specs.Prelude.{◌≡◌, ◌++◌, [], true, false, ◌+◌, ◌-◌, ◌*◌, ◌≤◌, ◌<◌, length, get_or, take, drop, replicate};
ghost use Rattle.std.specs.List.{copy_within};
ghost use Rattle.field_rules.specs.Decimal.{written_at};
ghost use Rattle.message_maps.specs.Rows.{row_at, rows_from, rows_before, level_of, size_of, matches, find_from, end_from, in_run, run_end_from, sizes, padded, part, spliced, message_words, message_rows};

// Rows to a message: one for each field and entry, of which there are 1,024 each, and one for each part.
pub const ROWS: usize = 2051;

// Words to a message: how many rows there are, and four to a row.
pub const WORDS: usize = 1 + 4 * ROWS;

// Value bytes to a message.
const BYTES: usize = 8192;

pub fn kind_of(words: &[u32], row: usize) -> u32
    requires { (row < message_rows) × (length words.now ≡ message_words) }
    ensures { result ≡ get_or words.now (4 * row + 1) 0 }
{
    words[4 * row + 1]
}

#[tactic(auto, unfolding(crate::specs::Rows::row_at, crate::specs::Rows::level_of))]
pub fn level_of(words: &[u32], row: usize) -> u32
    requires { (row < message_rows) × (length words.now ≡ message_words) }
    ensures { result ≡ level_of (row_at words.now row) }
{
    words[4 * row + 2]
}

pub fn tag_of(words: &[u32], row: usize) -> u32
    requires { (row < message_rows) × (length words.now ≡ message_words) }
    ensures { result ≡ get_or words.now (4 * row + 3) 0 }
{
    words[4 * row + 3]
}

pub fn extra_of(words: &[u32], row: usize) -> u32
    requires { (row < message_rows) × (length words.now ≡ message_words) }
    ensures { result ≡ get_or words.now (4 * row + 4) 0 }
{
    words[4 * row + 4]
}

// How many bytes the value of a row has.
#[tactic(auto, unfolding(crate::specs::Rows::row_at, crate::specs::Rows::size_of))]
pub fn size_of(words: &[u32], row: usize) -> usize
    requires { (row < message_rows) × (length words.now ≡ message_words) }
    ensures value { result ≡ size_of (row_at words.now row) }
    ensures upper_bound { result < 4294967296 }
{
    if kind_of(words, row) == 1 {
        return extra_of(words, row) as usize;
    }
    0
}

#[tactic(auto, unfolding(crate::specs::Rows::row_at, crate::specs::Rows::level_of, crate::specs::Rows::matches))]
pub fn is_row(words: &[u32], row: usize, kind: u32, level: u32, tag: u32) -> bool
    requires { (row < message_rows) × (length words.now ≡ message_words) }
    ensures { result ≡ matches kind level tag (row_at words.now row) }
{
    kind_of(words, row) == kind && level_of(words, row) == level && tag_of(words, row) == tag
}

pub fn find_row(words: &[u32], kind: u32, level: u32, tag: u32, from: usize, to: usize) -> usize
    requires { (from ≤ to) × (to ≤ message_rows) × (length words.now ≡ message_words) }
    ensures { result ≡ find_from kind level tag from (rows_from (to - from) from words.now) }
{
    for i in from..to {
        if is_row(words, i, kind, level, tag) {
            return i;
        }
    }
    to
}

pub fn end_of(words: &[u32], level: u32, from: usize, to: usize) -> usize
    requires { (from ≤ to) × (to ≤ message_rows) × (length words.now ≡ message_words) }
    ensures { result ≡ end_from level from (rows_from (to - from) from words.now) }
{
    for i in from..to {
        if level_of(words, i) <= level {
            return i;
        }
    }
    to
}

#[tactic(auto, unfolding(crate::specs::Rows::in_run))]
fn in_run(words: &[u32], row: usize, level: u32, start: u32) -> bool
    requires { (row < message_rows) × (length words.now ≡ message_words) }
    ensures { result ≡ in_run level start (row_at words.now row) }
{
    level < level_of(words, row) || is_row(words, row, 2, level, start)
}

pub fn run_end(words: &[u32], level: u32, start: u32, from: usize, to: usize) -> usize
    requires { (from ≤ to) × (to ≤ message_rows) × (length words.now ≡ message_words) }
    ensures { result ≡ run_end_from level start from (rows_from (to - from) from words.now) }
{
    for i in from..to {
        if !in_run(words, i, level, start) {
            return i;
        }
    }
    to
}

// How many bytes the values of the rows have.
pub fn size_between(words: &[u32], from: usize, to: usize) -> usize
    requires { (from ≤ to) × (to ≤ message_rows) × (length words.now ≡ message_words) }
    ensures { result ≡ sizes (rows_from (to - from) from words.now) }
{
    let mut size: usize = 0;
    for i in from..to {
        size += size_of(words, i);
    }
    size
}

// Up to where zeros are written behind `all`: where all behind the used ones is zero already, over no more than is left of those.
fn clear_end(blank: bool, all: usize, used: usize, limit: usize) -> usize
    requires { (all ≤ limit) × (used ≤ limit) }
    ensures { (all ≤ result) × (result ≤ limit) × (blank ≡ true → used ≤ result) × (blank ≡ false → result ≡ limit) }
{
    if !blank {
        return limit;
    }
    all.max(used)
}

// Moves a part to a place that may overlap it. One that stands there already stays: copied onto itself, it would cost as much as moved.
fn move_part<T: Copy>(cells: &mut [T], from: usize, to: usize, at: usize)
    requires { (from ≤ to) × (to ≤ length cells.old) × (at + (to - from) ≤ length cells.old) }
    ensures { cells.new ≡ copy_within cells.old from to at }
{
    if at != from {
        cells.copy_within(from..to, at);
    }
}

// The cells from `from` to `to` are taken out; what stood from there to `end` moves up, then come the new ones and those taken out from `kept`
// on. All past the used ones is `zero`. `blank`: whether all behind the used cells is known to be `zero`, and needn't be cleared again.
fn splice<T: Copy, const N: usize>(
    cells: &mut [T],
    from: usize,
    to: usize,
    kept: usize,
    end: usize,
    used: usize,
    new: &[T],
    zero: T,
    blank: bool,
)
    requires plain { T.is_infallible zero × ((y : T) → T.is_clone zero y → y ≡ zero) }
    requires from_le_to { (from ≤ to) × (kept ≤ to) × (to ≤ end) × (end ≤ used) × (used ≤ N) × (length cells.old ≡ N) × (from + (end - to) + length new.now + (to - kept) + (used - end) ≤ N) }
    requires cells_value { blank ≡ true → drop used cells.old ≡ replicate (N - used) zero }
    ensures { cells.new ≡ spliced from to kept end used new.now cells.old ++ replicate (N - length (spliced from to kept end used new.now cells.old)) zero }
{
    // What comes back changes places with what followed it. What is kept from before `from` stays there, and comes a second time.
    let back = kept.max(from);
    cells[back..end].rotate_left(to - back);
    let middle = back + (end - to);
    let next = from + (end - to);
    let again = next + new.len();
    let behind = again + (back - kept);
    let all = behind + (used - middle);
    // Moved first, the middle is out of the way of the rest; the new ones come last, into the gap between the two.
    move_part(cells, back, middle, from);
    move_part(cells, middle, used, behind);
    cells[next..again].copy_from_slice(new);
    cells.copy_within(kept..back, again);
    let stop = clear_end(blank, all, used, N);
    cells[all..stop].fill(zero);
}

// `splice` for the words of a message. These two names stay, so that callers and their proofs needn't give types, sizes and zeros.
#[tactic(auto, unfolding(crate::specs::Rows::padded))]
pub fn splice_words(
    words: &mut [u32],
    from: usize,
    to: usize,
    kept: usize,
    end: usize,
    used: usize,
    new: &[u32],
    blank: bool,
)
    requires from_le_to { (from ≤ to) × (kept ≤ to) × (to ≤ end) × (end ≤ used) × (used ≤ message_words) × (length words.old ≡ message_words) × (from + (end - to) + length new.now + (to - kept) + (used - end) ≤ message_words) }
    requires words_value { blank ≡ true → drop used words.old ≡ replicate (message_words - used) 0 }
    ensures { words.new ≡ padded message_words (spliced from to kept end used new.now words.old) }
{
    splice::<u32, WORDS>(words, from, to, kept, end, used, new, 0, blank);
}

// The same for the value bytes.
#[tactic(auto, unfolding(crate::specs::Rows::padded))]
pub fn splice_bytes(
    values: &mut [u8],
    from: usize,
    to: usize,
    kept: usize,
    end: usize,
    used: usize,
    new: &[u8],
    blank: bool,
)
    requires from_le_to { (from ≤ to) × (kept ≤ to) × (to ≤ end) × (end ≤ used) × (used ≤ 8192) × (length values.old ≡ 8192) × (from + (end - to) + length new.now + (to - kept) + (used - end) ≤ 8192) }
    requires values_value { blank ≡ true → drop used values.old ≡ replicate (8192 - used) 0 }
    ensures { values.new ≡ padded 8192 (spliced from to kept end used new.now values.old) }
{
    splice::<u8, BYTES>(values, from, to, kept, end, used, new, 0, blank);
}
