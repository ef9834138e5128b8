// Runs made by calls, from rows `f.LEVEL.TAG.VALUE` and `h.LEVEL.START.DELIMITER` with commas between: each entry is added and its fields are
// stored; heads one level deeper that have one start tag and follow each other are a run of their own, made first and hung in the entry.
ghost use Rattle.std.specs.Prelude.{◌≤◌, length};

use crate::hexadecimal;

fn tag_of(row: &[u8]) -> u32 {
    sample_texts::number_at(row, b'.', 2)
}

// By how many levels a row lies deeper.
fn deeper(row: &[u8], level: u32) -> u32 {
    sample_texts::number_at(row, b'.', 1).saturating_sub(level)
}

// The start tag of the nested run that a row starts, 0 where it starts none.
fn nested_start(row: &[u8], level: u32) -> u32 {
    if row.starts_with(b"h") && deeper(row, level) == 1 {
        return tag_of(row);
    }
    0
}

// Whether a row goes on with the nested run of a start tag.
fn goes_on(row: &[u8], level: u32, start: u32) -> bool {
    start != 0 && (1 < deeper(row, level) || nested_start(row, level) == start)
}

// Where what starts at a place ends: with its row, or with the nested run that the row starts.
fn piece_end(rows: &[u8], from: usize, level: u32) -> usize
    requires { from ≤ length rows.now }
    ensures { (from ≤ result) × (result ≤ length rows.now) }
{
    let mut end = sample_texts::end_of(rows, from, b',');
    let start = nested_start(&rows[from..end], level);
    // No index is counted: it goes from the end of one row to that of the next, as long as they belong together.
    while end < rows.len() {
        let next = end + 1;
        let next_end = sample_texts::end_of(rows, next, b',');
        if !goes_on(&rows[next..next_end], level, start) {
            return end;
        }
        end = next_end;
    }
    end
}

fn add(words: &mut [u32], values: &mut [u8], row: &[u8]) -> u32 {
    let mut space = [0u8; 2000];
    let tag = tag_of(row);
    let last = sample_texts::piece(row, b'.', 3);
    if row.starts_with(b"h") {
        return message_answers::change_number(message_runs::add_entry(
            words,
            values,
            tag,
            sample_texts::number(last),
        ));
    }
    let size = hexadecimal::read(&mut space, last);
    message_answers::change_number(message_runs::store_last(
        words,
        values,
        tag,
        sample_texts::first(&space, size),
    ))
}

// A row of the draft's own, or a nested run.
#[cycle(draft_piece)]
fn piece(words: &mut [u32], values: &mut [u8], text: &[u8], level: u32) -> u32 {
    if nested_start(text, level) == 0 {
        return add(words, values, text);
    }
    if 7 < level {
        return 42;
    }
    let mut run_words = [0u32; message_maps::WORDS];
    let mut run_values = [0u8; 8192];
    let made = draft(&mut run_words, &mut run_values, text, level + 1);
    if 0 < made {
        return made;
    }
    message_answers::change_number(message_runs::hang_last(words, values, &run_words, &run_values))
}

// Makes a draft of rows, `-` for none; the number of the first call that refuses.
#[cycle(draft_piece)]
pub fn draft(words: &mut [u32], values: &mut [u8], rows: &[u8], level: u32) -> u32 {
    let mut number = message_answers::change_number(message_runs::empty(words, values));
    if rows.starts_with(b"-") {
        return number;
    }
    // No index is counted, and no split does it: some commas part the rows of one piece.
    let mut from: usize = 0;
    while from < rows.len() {
        let end = piece_end(rows, from, level);
        number = piece(words, values, &rows[from..end], level);
        if 0 < number {
            return number;
        }
        from = end + 1;
    }
    number
}
