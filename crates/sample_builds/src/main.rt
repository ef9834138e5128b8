// sample_builds: builds messages and writes a line for each: the answer's number, how many records are shown, the two values, what became
// of the lent words behind the shown records, and the records as part/depth/entry/tag/value. The lines of `stdout` were written from 01.
// Its script (see sample_kit) has these words:
//   s47  v  r1023   the separator is byte 47; validation is off; so many records are lent; for this case
//   q               the records are not shown
//   m8=F|9=..       builds the message of these bytes
//   f35=D|38=1|     builds the message of these fields, with a right BodyLength before and a right CheckSum behind them
//   p pc pw pl      prepares the dictionary in a copy of 62 bytes, 61 with `c`, 60,001 with `l`, and the least memory, a word less with `w`, and builds no
//                   byte over them
// Each message is built over prepared memory too, and a line says so only where that is answered otherwise.
#![tactic(auto)]

mod telling;

use sample_kit::{dictionaries, saying, scripts};
use sample_texts::messages;
use std::io;

// The size of the dictionary, and what a case sets.
#[derive(Clone, Copy)]
struct Case {
    dictionary: usize,
    separator: u8,
    settings: u32,
    lent: usize,
    shown: bool,
}

fn usual(dictionary: usize) -> Case {
    Case {
        dictionary,
        separator: 1,
        settings: 1,
        lent: 1024,
        shown: true,
    }
}

fn message(out: &mut [u8], separator: u8, piece: &[u8]) -> usize {
    let mut fields = [0u8; 8300];
    let text = sample_texts::from(piece, 1);
    if sample_texts::first_byte(piece) == b'm' {
        return messages::spell(out, 0, text, separator);
    }
    let size = messages::spell(&mut fields, 0, text, separator);
    messages::frame(out, sample_texts::first(&fields, size), separator)
}

fn build(rt: &impl Print, case: Case, dictionary: &[u8], piece: &[u8]) -> io::Result<()> {
    let mut space = [0u8; 8300];
    let separator = case.separator;
    let config = build_config::config_of(case.settings, separator);
    let size = message(&mut space, separator, piece);
    telling::told(
        rt,
        sample_texts::first(&space, size),
        config,
        dictionary,
        case.lent,
        case.shown,
    )
}

// A word that sets something.
fn set(rt: &impl Print, case: Case, piece: &[u8]) -> io::Result<Case> {
    let n = sample_texts::number(sample_texts::from(piece, 1));
    let mut changed = case;
    match sample_texts::first_byte(piece) {
        b's' => changed.separator = (n % 256) as u8,
        b'v' => changed.settings = 0,
        b'r' => changed.lent = n as usize,
        b'q' => changed.shown = false,
        _ => saying::piece(rt, piece, b":")?,
    }
    Ok(changed)
}

fn step(rt: &impl Print, case: Case, dictionary: &mut [u8], piece: &[u8]) -> io::Result<Case> {
    let size = case.dictionary;
    match sample_texts::first_byte(piece) {
        b'*' => Ok(usual(dictionaries::spell(dictionary, size, piece))),
        b'.' => {
            saying::piece(rt, piece, b":")?;
            Ok(usual(size))
        }
        b'p' => {
            let config = build_config::config_of(case.settings, case.separator);
            let lent = sample_texts::first(dictionary, size);
            telling::prepared(rt, config, lent, case.lent, sample_texts::at(piece, 1))?;
            Ok(case)
        }
        b'm' | b'f' => {
            build(rt, case, sample_texts::first(dictionary, size), piece)?;
            Ok(case)
        }
        _ => set(rt, case, piece),
    }
}

fn play(rt: &impl Print, script: &[u8], dictionary: &mut [u8]) -> io::Result<()> {
    let mut case = usual(0);
    for piece in script.split(|&byte| byte == b'\n') {
        case = step(rt, case, dictionary, piece)?;
    }
    Ok(())
}

fn main(rt: HostRuntime) -> io::Result<()> {
    let mut script = scripts::room();
    let mut dictionary = dictionaries::room();
    let size = scripts::read(&mut rt.stdin(), &mut script)?;
    play(&rt, sample_texts::first(&script, size), &mut dictionary)
}
