// Looks fields up.
use crate::calls;
use message_rules::{FoundMap, FoundValue};
use std::io;

fn found(rt: &impl Print, values: &[u8], found: FoundValue) -> io::Result<()> {
    match found {
        FoundValue::NoMessage => print!(rt; " 27"),
        FoundValue::Absent => print!(rt; " none"),
        FoundValue::At(place) => {
            print!(rt; " =")?;
            rt.write_all(sample_texts::part(values, place.place, place.size))
        }
    }
}

fn in_map(
    rt: &impl Print,
    words: &[u32],
    values: &[u8],
    map: FoundMap,
    tag: u32,
) -> io::Result<()> {
    match map {
        FoundMap::NoMessage => print!(rt; " 27"),
        FoundMap::Absent => print!(rt; " none"),
        FoundMap::At(head) => found(
            rt,
            values,
            message_look_ups::field_in(words, values, head, tag),
        ),
    }
}

// `b58`
pub fn field(rt: &impl Print, words: &[u32], values: &[u8], text: &[u8]) -> io::Result<()> {
    let part = message_look_ups::part_map(
        words,
        values,
        calls::part_of(sample_texts::first_byte(text)),
    );
    in_map(
        rt,
        words,
        values,
        part,
        sample_texts::number(sample_texts::from(text, 1)),
    )
}

// `b78,0,79`
pub fn entry(rt: &impl Print, words: &[u32], values: &[u8], text: &[u8]) -> io::Result<()> {
    let part = message_look_ups::part_map(
        words,
        values,
        calls::part_of(sample_texts::first_byte(text)),
    );
    let FoundMap::At(head) = part else {
        return print!(rt; " 27");
    };
    let numbers = sample_texts::from(text, 1);
    let start = sample_texts::number_at(numbers, b',', 0);
    let number = sample_texts::number_at(numbers, b',', 1) as usize;
    let map = message_look_ups::entry_in(words, values, head, start, number);
    in_map(
        rt,
        words,
        values,
        map,
        sample_texts::number_at(numbers, b',', 2),
    )
}
