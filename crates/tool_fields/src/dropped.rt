// What the framer dropped: runs of bytes between messages, shown as far as they can be read.
use crate::{fields, integrity, saying};
use std::io;

// A run goes from its first byte that is no line break to its last one. `leading` line breaks stand before it and `trailing` behind it so far.
// Of its bytes, and those behind it, the first `kept` are in the lent memory.
#[derive(Clone, Copy, Default)]
pub struct Run {
    pub first: u64,
    pub length: u64,
    pub leading: u64,
    pub trailing: u64,
    pub kept: usize,
}

// How far a text is read as one message, and the place of its CheckSum field; the end, where there is none.
#[derive(Clone, Copy)]
struct Extent {
    last: usize,
    end: usize,
}

// No byte yet; the next one stands at this place.
pub fn none(place: u64) -> Run {
    Run {
        first: place,
        ..Run::default()
    }
}

fn is_line_break(byte: u8) -> bool {
    matches!(byte, b'\r' | b'\n')
}

fn with_line_break(run: Run, kept: usize) -> Run {
    if run.length == 0 {
        return Run {
            first: run.first.wrapping_add(1),
            leading: run.leading.wrapping_add(1),
            ..Run::default()
        };
    }
    Run {
        trailing: run.trailing.wrapping_add(1),
        kept,
        ..run
    }
}

fn with_byte(run: Run, byte: u8, kept: usize) -> Run {
    if is_line_break(byte) {
        return with_line_break(run, kept);
    }
    Run {
        length: run.length.wrapping_add(run.trailing).wrapping_add(1),
        trailing: 0,
        kept,
        ..run
    }
}

// The run with further bytes, kept as far as there is room.
pub fn more(run: Run, bytes: &[u8], memory: &mut [u8]) -> Run {
    let mut longer = run;
    for &byte in bytes {
        let kept = sample_texts::put(memory, longer.kept, byte);
        longer = with_byte(longer, byte, kept);
    }
    longer
}

// Whether `8=` stands at a place and is not the end of a longer tag; on a new line, if that is asked for.
fn may_start(bytes: &[u8], place: usize, on_new_line: bool) -> bool {
    if !sample_texts::from(bytes, place).starts_with(b"8=") {
        return false;
    }
    if place == 0 {
        return true;
    }
    let before = sample_texts::at(bytes, place - 1);
    if on_new_line {
        return is_line_break(before);
    }
    !before.is_ascii_digit()
}

// The first place behind the first byte at which a message may start, or the end.
fn next_start(bytes: &[u8], on_new_line: bool) -> usize {
    (1..bytes.len())
        .find(|&place| may_start(bytes, place, on_new_line))
        .unwrap_or(bytes.len())
}

// A text that starts with `8=` is read up to its first 10, up to the next 8, or to its end.
fn fields_extent(bytes: &[u8]) -> Extent {
    let mut at: usize = 0;
    for _ in 0..8192 {
        if bytes.len() <= at {
            break;
        }
        let field = fields::field_at(bytes, at);
        let end = fields::next_of(field);
        if field.tag == 10 {
            return Extent { last: at, end };
        }
        if may_start(bytes, end, false) {
            return Extent { last: end, end };
        }
        at = end;
    }
    Extent {
        last: bytes.len(),
        end: bytes.len(),
    }
}

// Where separators are missing a field would go on into the next message: `8=` on a new line ends it too.
fn extent_of(bytes: &[u8]) -> Extent {
    fields_extent(sample_texts::first(bytes, next_start(bytes, true)))
}

fn heading(rt: &impl Print, place: u64, size: usize) -> io::Result<()> {
    print!(rt; "  at {place}, ")?;
    saying::counted(rt, size as u64, " byte", " bytes")
}

// Shows a text that starts with `8=`, and answers where it ends. `whole`: it was kept to its end.
fn damaged(rt: &impl Print, bytes: &[u8], place: u64, whole: bool) -> io::Result<usize> {
    let extent = extent_of(bytes);
    let message = sample_texts::first(bytes, extent.end);
    heading(rt, place, message.len())?;
    println!(rt; ", read as a message:")?;
    let ends = whole || extent.last < bytes.len();
    let repeated = fields::listed(rt, message, place, ends)?;
    integrity::judged(rt, message, extent.last, ends)?;
    fields::repeats(rt, repeated)?;
    Ok(extent.end)
}

// Shows the piece at the start of the bytes, and answers where it ends.
fn piece(rt: &impl Print, bytes: &[u8], place: u64, whole: bool) -> io::Result<usize> {
    if is_line_break(sample_texts::at(bytes, 0)) {
        return Ok(1);
    }
    if may_start(bytes, 0, false) {
        return damaged(rt, bytes, place, whole);
    }
    let end = next_start(bytes, false);
    heading(rt, place, end)?;
    print!(rt; ", where no message starts: ")?;
    saying::excerpt(rt, sample_texts::first(bytes, end))?;
    println!(rt;)?;
    Ok(end)
}

fn pieces(rt: &impl Print, bytes: &[u8], first: u64, whole: bool) -> io::Result<()> {
    let mut at: usize = 0;
    for _ in 0..8192 {
        if bytes.len() <= at {
            return Ok(());
        }
        let place = first.wrapping_add(at as u64);
        at = at.wrapping_add(piece(rt, sample_texts::from(bytes, at), place, whole)?);
    }
    Ok(())
}

// Shows a run that has ended.
pub fn show(rt: &impl Print, run: Run, memory: &[u8]) -> io::Result<()> {
    if run.length == 0 {
        return Ok(());
    }
    print!(rt; "dropped at {}, ", run.first)?;
    saying::counted(rt, run.length, " byte\n", " bytes\n")?;
    if run.length <= run.kept as u64 {
        let kept = sample_texts::first(memory, run.length as usize);
        return pieces(rt, kept, run.first, true);
    }
    pieces(rt, sample_texts::first(memory, run.kept), run.first, false)?;
    print!(rt; "  and ")?;
    saying::counted(rt, run.length - run.kept as u64, " byte", " bytes")?;
    println!(rt; " more, which were not kept")
}
