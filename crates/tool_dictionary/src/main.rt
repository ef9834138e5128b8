// tool_dictionary: checks the flat dictionary on standard input and says the answer's number and value. It checks once more for each
// word of its command line, which is what the check is timed with.
#![tactic(auto)]

use sample_kit::reading;
use std::{env, io};

fn answered(dictionary: &[u8], n: usize) -> dictionary_rules::Checked {
    dictionary_check::check(&dictionary[..n.min(dictionary.len())])
}

// The byte that changes between two checks lies behind the dictionary: no check can be taken for the one before.
fn again(dictionary: &mut [u8; 60001], n: usize, times: usize) -> u32 {
    let mut sum: u32 = 0;
    for i in 0..times {
        dictionary[60000] = (i % 256) as u8;
        sum = sum.wrapping_add(dictionary_check::number_of(answered(dictionary, n)));
    }
    sum
}

fn main(rt: HostRuntime) -> io::Result<()> {
    let mut dictionary = [0u8; 60001];
    let n = reading::full(&mut rt.stdin(), &mut dictionary)?;
    let checked = answered(&dictionary, n);
    let value = dictionary_check::value_of(checked);
    println!(rt; "{} {value}", dictionary_check::number_of(checked))?;
    let times = env::args(&rt)?.count();
    if 0 < again(&mut dictionary, n, times) {
        println!(rt; "refused each time")?;
    }
    Ok(())
}
