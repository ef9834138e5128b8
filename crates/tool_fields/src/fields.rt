// The fields of a message, one to a line, each with its place in the input.
ghost use Rattle.std.specs.Prelude.{◌≤◌, length};

use crate::saying;
use field_rules::Field;
use std::io;

const SEPARATOR: u8 = 1;

// How often a tag was read before, and where first.
#[derive(Clone, Copy)]
struct Standing {
    times: usize,
    first: usize,
}

// The tag of a line, 0 where it is no field, and where it stands.
#[derive(Clone, Copy)]
struct Row {
    tag: u32,
    place: usize,
}

// How many tags stand more than once: of those that may stand in a repeating group, and of those that stand in none.
#[derive(Clone, Copy, Default)]
pub struct Repeated {
    pub grouped: u64,
    pub ungrouped: u64,
}

fn behind(message: &[u8], end: usize) -> usize {
    if end < message.len() {
        return end + 1;
    }
    end
}

// A text that is no field: its tag is 0, and it goes up to the next separator, or to the end.
fn text_at(message: &[u8], at: usize) -> Field
    requires { at ≤ length message.now }
{
    let end = sample_texts::end_of(message, at, SEPARATOR);
    let next = field_tagvalue::start_at(behind(message, end));
    Field {
        first: at,
        tag: 0,
        place: at,
        length: end - at,
        next,
    }
}

// The field at a place, or the text there that is none, so that reading goes on behind it.
pub fn field_at(message: &[u8], at: usize) -> Field {
    let mode = field_tagvalue::separated_by(SEPARATOR);
    let read = field_tagvalue::next_field(field_tagvalue::start_at(at), message, mode);
    if let Ok(field) = read {
        return field;
    }
    if message.len() < at {
        return text_at(message, message.len());
    }
    text_at(message, at)
}

// Where the field behind a field starts.
pub fn next_of(field: Field) -> usize {
    field.next.at
}

// A field as it is written, without its separator. No separator stands before its `=`.
pub fn text_of(message: &[u8], field: Field) -> &[u8] {
    sample_texts::before(sample_texts::from(message, field.first), SEPARATOR)
}

fn met(before: Standing, place: usize) -> Standing {
    if before.times == 0 {
        return Standing {
            times: 1,
            first: place,
        };
    }
    Standing {
        times: before.times.wrapping_add(1),
        first: before.first,
    }
}

// A tag among those of the lines above.
fn stood_before(rows: &[Row], tag: u32) -> Standing {
    let mut before = Standing { times: 0, first: 0 };
    if tag == 0 {
        return before;
    }
    for row in rows {
        if row.tag == tag {
            before = met(before, row.place);
        }
    }
    before
}

// FIX has these in no repeating group.
fn stands_in_no_group(tag: u32) -> bool {
    matches!(tag, 8 | 9 | 10 | 35)
}

// What can be known of a tag that was read before.
fn again(rt: &impl Print, tag: u32, place: u64) -> io::Result<()> {
    print!(rt; "   <- {tag} again, first at {place}")?;
    if stands_in_no_group(tag) {
        print!(rt; ": a repeat, for FIX has it in no group")?;
    }
    Ok(())
}

// Why a text is no field. Where the message was not kept to its end, a text that reaches there may go on.
fn unreadable(rt: &impl Print, message: &[u8], field: Field, whole: bool) -> io::Result<()> {
    let text = text_of(message, field);
    saying::excerpt(rt, text)?;
    let rest = sample_texts::from(message, field.first);
    if text.len() < rest.len() {
        return match field_tagvalue::find(text, b'=') {
            None => print!(rt; "   <- no field: no `=`"),
            Some(_) => print!(rt; "   <- no field: what stands before `=` is no tag"),
        };
    }
    if whole {
        print!(rt; "   <- no field: no separator behind it")
    } else {
        print!(rt; "   <- not kept to its end")
    }
}

fn line(
    rt: &impl Print,
    message: &[u8],
    field: Field,
    place: u64,
    before: Standing,
    whole: bool,
) -> io::Result<()> {
    // Places up to 999,999 stand in a column.
    print!(rt; "  {:6}  ", place.wrapping_add(field.first as u64))?;
    if field.tag == 0 {
        unreadable(rt, message, field, whole)?;
        return println!(rt;);
    }
    saying::escaped(rt, text_of(message, field))?;
    if 0 < before.times {
        again(rt, field.tag, place.wrapping_add(before.first as u64))?;
    }
    println!(rt;)
}

// A tag is counted when it is read for the second time.
fn with_line(repeated: Repeated, tag: u32, before: Standing) -> Repeated {
    if before.times != 1 {
        return repeated;
    }
    if stands_in_no_group(tag) {
        return Repeated {
            ungrouped: repeated.ungrouped.wrapping_add(1),
            ..repeated
        };
    }
    Repeated {
        grouped: repeated.grouped.wrapping_add(1),
        ..repeated
    }
}

fn more_follows(rt: &impl Print) -> io::Result<()> {
    print!(rt; "  more follows: the first 1,024 fields are listed, and tags that stand again")?;
    println!(rt; " are marked among them")
}

// Lists the fields of the message at a place of the input, and answers which tags stand there more than once.
pub fn listed(rt: &impl Print, message: &[u8], place: u64, whole: bool) -> io::Result<Repeated> {
    let mut rows = [Row { tag: 0, place: 0 }; 1024];
    let mut repeated = Repeated::default();
    let mut at: usize = 0;
    for i in 0..1024 {
        if message.len() <= at {
            return Ok(repeated);
        }
        let field = field_at(message, at);
        let before = stood_before(&rows[..i], field.tag);
        line(rt, message, field, place, before, whole)?;
        rows[i] = Row {
            tag: field.tag,
            place: at,
        };
        repeated = with_line(repeated, field.tag, before);
        at = next_of(field);
    }
    if at < message.len() {
        more_follows(rt)?;
    }
    Ok(repeated)
}

pub fn is_repeating(repeated: Repeated) -> bool {
    0 < repeated.grouped || 0 < repeated.ungrouped
}

// What can be known of tags that may stand in a group.
pub fn repeats(rt: &impl Print, repeated: Repeated) -> io::Result<()> {
    if repeated.grouped == 0 {
        return Ok(());
    }
    print!(rt; "  ")?;
    saying::counted(rt, repeated.grouped, " tag stands", " tags stand")?;
    print!(rt; " more than once: each entry of a repeating group may have its own, elsewhere")?;
    println!(rt; " the later value takes the place of the earlier. A dictionary tells which")
}
