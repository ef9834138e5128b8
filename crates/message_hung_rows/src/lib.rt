// message_hung_rows: the rows of a run are spliced into a map, one level deeper. It knows rows only; `message_runs` says what they mean and asks first. Only
// `message_runs` calls it: its functions may ask that what is lent is whole.
#![tactic(auto)]

ghost use Rattle.std.specs.Prelude.{◌≡◌, ℕ, ◌+◌, ◌-◌, ◌*◌, ◌≤◌, ◌<◌, length, get_or, take};
ghost use Rattle.message_maps.specs.Rows.{flat, row_at, rows_from, sizes, message_words, message_rows};
ghost use Rattle.message_lent_rules.specs.Lent.{row_count, rows_of};
ghost use Rattle.message_rules.specs.Changes.{after};
ghost use Rattle.message_rules.specs.RowChanges.{Cuttable, changed_at};
ghost use Rattle.message_hung_rows.specs.Hanging.{raised, raised_from, is_untagged, untagged_in, is_of, all_of, hung_place, Lent, Hangable, hang_at};

#[tactic(auto, unfolding(message_maps::specs::Rows::row_at, message_maps::specs::Rows::level_of, crate::specs::Hanging::is_untagged))]
fn is_untagged(words: &[u32], row: usize) -> bool
    requires { (row < message_rows) × (length words.now ≡ message_words) }
    ensures { result ≡ is_untagged (row_at words.now row) }
{
    message_maps::level_of(words, row) == 0
        && (message_maps::tag_of(words, row) == 0 || message_maps::extra_of(words, row) == 0)
}

// Whether an entry at the top level has a tag 0.
pub fn has_untagged(words: &[u32], count: usize) -> bool
    requires { (count ≤ message_rows) × (length words.now ≡ message_words) }
    ensures { result ≡ untagged_in (rows_from (count - 0) 0 words.now) }
{
    for row in 0..count {
        if is_untagged(words, row) {
            return true;
        }
    }
    false
}

#[tactic(auto, unfolding(message_maps::specs::Rows::row_at, message_maps::specs::Rows::level_of, crate::specs::Hanging::is_of))]
fn is_of(words: &[u32], row: usize, start: u32, delimiter: u32) -> bool
    requires { (row < message_rows) × (length words.now ≡ message_words) }
    ensures { result ≡ is_of start delimiter (row_at words.now row) }
{
    message_maps::level_of(words, row) != 0
        || message_maps::tag_of(words, row) == start
            && message_maps::extra_of(words, row) == delimiter
}

// Whether all entries at the top level have the same tags.
fn all_of(words: &[u32], count: usize, start: u32, delimiter: u32) -> bool
    requires { (count ≤ message_rows) × (length words.now ≡ message_words) }
    ensures { result ≡ all_of start delimiter (rows_from (count - 0) 0 words.now) }
{
    for row in 0..count {
        if !is_of(words, row, start, delimiter) {
            return false;
        }
    }
    true
}

fn raise_rows(words: &mut [u32], from: usize, to: usize)
    requires { (from ≤ to) × (to ≤ message_rows) × (length words.old ≡ message_words) × ((i : ℕ) → from ≤ i → i < to → get_or words.old (4 * i + 2) 0 ≤ message_rows) }
    ensures { words.new ≡ raised_from (to - from) from words.old }
{
    for row in from..to {
        words[4 * row + 2] += 1;
    }
}

// Inserts the rows of a run, one level deeper. They are raised where they stand, so that no second copy is needed.
fn insert_run(
    words: &mut [u32],
    values: &mut [u8],
    cut: message_rules::Cut,
    run_words: &[u32],
    run_values: &[u8],
    whole: bool,
    fields: usize,
) -> message_rules::Change
    requires { Lent run_words.now run_values.now × (cut.kept ≡ cut.to) × (cut.until ≡ cut.to) × Cuttable words.old values.old cut (flat (raised (rows_of run_words.now))) (row_count run_words.now) fields }
    ensures { after result words.new values.new ≡ changed_at cut (flat (raised (rows_of run_words.now))) (row_count run_words.now) (take (sizes (rows_of run_words.now)) run_values.now) whole fields words.old values.old }
{
    let from = cut.from;
    let count = message_lent::row_count(run_words);
    let size = message_maps::size_between(run_words, 0, count);
    let end = 4 * count + 1;
    let change = message::cut_rows(
        words,
        values,
        cut,
        &run_words[1..end],
        count,
        &run_values[..size],
        whole,
        fields,
        false,
    );
    match change {
        message_rules::Change::Made => {
            raise_rows(words, from, from + count);
            return message_rules::Change::Made;
        }
        message_rules::Change::NoMessage => {
            return message_rules::Change::NoMessage;
        }
        message_rules::Change::NotStorable => {
            return message_rules::Change::NotStorable;
        }
        message_rules::Change::NoRun => {
            return message_rules::Change::NoRun;
        }
        message_rules::Change::TooManyFields => {
            return message_rules::Change::TooManyFields;
        }
    }
}

// Where a run on a start tag hangs: behind its count, or where a run on it stands, or last.
fn hung_place(words: &[u32], span: message_rules::Span, start: u32) -> usize
    requires { (span.from ≤ span.to) × (span.to ≤ message_rows) × (length words.now ≡ message_words) }
    ensures { result ≡ hung_place span start words.now }
{
    let from = span.from;
    let to = span.to;
    let at = message_maps::find_row(words, 1, 1, start, from, to);
    if at < to {
        return at + 1;
    }
    message_maps::find_row(words, 2, 1, start, from, to)
}

// Hangs a run in the map whose rows a span has; it takes the place of the run on its start tag.
pub fn hang_in(
    words: &mut [u32],
    values: &mut [u8],
    span: message_rules::Span,
    run_words: &[u32],
    run_values: &[u8],
    fields: usize,
) -> message_rules::Change
    requires { Hangable words.old values.old span run_words.now run_values.now fields }
    ensures { after result words.new values.new ≡ hang_at span fields run_words.now run_values.now words.old values.old }
{
    let run_count = message_lent::row_count(run_words);
    if run_count == 0 {
        return message_rules::Change::NoRun;
    }
    let start = message_maps::tag_of(run_words, 0);
    let delimiter = message_maps::extra_of(run_words, 0);
    let whole = all_of(run_words, run_count, start, delimiter);
    let last = span.to;
    let count = span.count;
    let from = hung_place(words, span, start);
    let to = message_maps::run_end(words, 1, start, from, last);
    let replaced = message_lent::fields_in(words, 1, from, to);
    let added = message_lent::fields_in(run_words, 0, 0, run_count);
    let cut = message_rules::Cut {
        from,
        to,
        kept: to,
        until: to,
        count,
    };
    insert_run(
        words,
        values,
        cut,
        run_words,
        run_values,
        whole,
        fields - replaced + added,
    )
}
