// sample_dictionaries: checks dictionaries at the edges of every answer, and writes the number and the value of each. Its script (see sample_kit) has
// nothing but dictionaries, each checked as it stands. The lines of `stdout` were written from the rules.
#![tactic(auto)]

use sample_kit::{dictionaries, scripts};
use std::io;

fn show(rt: &impl Print, dictionary: &[u8]) -> io::Result<()> {
    let checked = dictionary_check::check(dictionary);
    let value = dictionary_check::value_of(checked);
    println!(rt; "{} {value}", dictionary_check::number_of(checked))
}

fn check(rt: &impl Print, dictionary: &mut [u8], piece: &[u8]) -> io::Result<()> {
    let size = dictionaries::spell(dictionary, 0, piece);
    show(rt, sample_texts::first(dictionary, size))
}

fn play(rt: &impl Print, script: &[u8], dictionary: &mut [u8]) -> io::Result<()> {
    for line in script.split_inclusive(|&byte| byte == b'\n') {
        check(rt, dictionary, sample_texts::before(line, b'\n'))?;
    }
    Ok(())
}

fn main(rt: HostRuntime) -> io::Result<()> {
    let mut script = scripts::room();
    let mut dictionary = dictionaries::room();
    let size = scripts::read(&mut rt.stdin(), &mut script)?;
    play(&rt, sample_texts::first(&script, size), &mut dictionary)
}
