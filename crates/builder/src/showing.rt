// Which records are shown, and blank ones behind them.
ghost use Rattle.std.specs.Prelude.{◌≡◌, List, ◌++◌, ℕ, ◌-◌, ◌*◌, ◌≤◌, length, take, replicate};
ghost use Rattle.build_records.specs.Records.{record_words, record_room, stride};
ghost use Rattle.build_parts.specs.Parts.{part_of};
ghost use Rattle.build_rules.specs.Message.{refusal};
ghost use Rattle.builder.specs.Reading.{shown_count, read_told};

use crate::Read;
use build_answers::Answer;

// "1 to 4 also header records": how many of them are shown with a refusal.
fn shown_with(answer: Answer, header: usize) -> usize
    ensures { result ≡ shown_count answer header }
{
    match build_answers::number_of(answer) {
        1..=4 => header,
        _ => 0,
    }
}

// A refusal behind so many records of the header.
pub fn refused(answer: Answer, header: usize) -> Read
    ensures { ((words : List ℕ) → read_told result words ≡ refusal answer (part_of 0 header words)) × (result.records ≤ header) }
{
    Read {
        answer,
        stop: None,
        records: shown_with(answer, header),
    }
}

// "all lent past them are zero"
pub fn blank(words: &mut [u32], records: usize)
    requires { (length words.old ≡ record_words) × (records ≤ record_room) }
    ensures { words.new ≡ take (stride * records) words.old ++ replicate (record_words - stride * records) 0 }
{
    words[build_records::STRIDE * records..].fill(0);
}
