// What a lent message holds. A map of it, a part's or an entry's, is named by the row of its head; nothing is changed.
ghost use Rattle.std.specs.Prelude.{◌≡◌};
ghost use Rattle.message_rules.specs.LookUps.{number_of_value, number_of_map, part_found, field_found, entry_found};
ghost use Rattle.face_told.specs.Told.{part_numbered, told_map, told_value};

// The map of a part: how many were found, 1, and its row as the first value.
#[unsafe(no_mangle)]
pub extern "C" fn gateway_find_part(
    words: &[u32],
    values: &[u8],
    part: u8,
    out: &mut [u32; 4],
) -> u32
    ensures value { result ≡ number_of_map (part_found (part_numbered part) words.now values.now) }
    ensures out_after { out.new ≡ told_map (part_found (part_numbered part) words.now values.now) }
{
    gateway::finding::gateway_find_part(words, values, part, out)
}

// The value of a field in a map: how many were found, and its place and length in the values.
#[unsafe(no_mangle)]
pub extern "C" fn gateway_find_field(
    words: &[u32],
    values: &[u8],
    map: usize,
    tag: u32,
    out: &mut [u32; 4],
) -> u32
    ensures value { result ≡ number_of_value (field_found map tag words.now values.now) }
    ensures out_after { out.new ≡ told_value (field_found map tag words.now values.now) }
{
    gateway::finding::gateway_find_field(words, values, map, tag, out)
}

// The map of an entry in a run that hangs in a map; entries are numbered from 0.
#[unsafe(no_mangle)]
pub extern "C" fn gateway_find_entry(
    words: &[u32],
    values: &[u8],
    map: usize,
    start: u32,
    number: usize,
    out: &mut [u32; 4],
) -> u32
    ensures value { result ≡ number_of_map (entry_found map start number words.now values.now) }
    ensures out_after { out.new ≡ told_map (entry_found map start number words.now values.now) }
{
    gateway::finding::gateway_find_entry(words, values, map, start, number, out)
}
