// An encoding, and the whole message after it as rows.
ghost use Rattle.std.specs.Prelude.{◌<◌};

use crate::hexadecimal;
use std::io;

// A row: `h.LEVEL.START.DELIMITER`, or `f.LEVEL.TAG.VALUE` with the value that starts at a place. Where the next value starts.
fn row(
    rt: &impl Print,
    words: &[u32],
    values: &[u8],
    from: usize,
    place: usize,
) -> io::Result<usize>
    requires { from < 100000 }
{
    let level = sample_texts::at(words, from + 1);
    let tag = sample_texts::at(words, from + 2);
    let extra = sample_texts::at(words, from + 3);
    if sample_texts::at(words, from) == 2 {
        print!(rt; "h.{level}.{tag}.{extra}")?;
        return Ok(place);
    }
    print!(rt; "f.{level}.{tag}.")?;
    hexadecimal::say(rt, sample_texts::part(values, place, extra as usize))?;
    Ok(place % 100000 + extra as usize)
}

fn row_count(words: &[u32]) -> usize
    ensures { result < 3000 }
{
    (sample_texts::at(words, 0) % 3000) as usize
}

fn rows(rt: &impl Print, words: &[u32], values: &[u8]) -> io::Result<()> {
    let mut place: usize = 0;
    for i in 0..row_count(words) {
        if 0 < i {
            print!(rt; ",")?;
        }
        place = row(rt, words, values, i * 4 + 1, place)?;
    }
    Ok(())
}

pub fn encode(
    rt: &impl Print,
    words: &mut [u32],
    values: &mut [u8],
    separator: u8,
) -> io::Result<()> {
    let mut output = [0u8; 2000];
    let encoding = encoder::encode(words, values, &mut output, separator);
    let number = message_answers::encoding_number(encoding);
    print!(rt; "{number}")?;
    if number == 0 {
        let length = message_answers::encoding_length(encoding);
        print!(rt; ":")?;
        hexadecimal::say(rt, sample_texts::first(&output, length))?;
        print!(rt; ":")?;
        rows(rt, words, values)?;
    }
    Ok(())
}
