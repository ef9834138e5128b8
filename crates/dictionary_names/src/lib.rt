// dictionary_names: what a dictionary names, kept in the lent index: known tags, closed components and MsgTypes, each looked up by one search.
// It reads no dictionary bytes, and decides nothing: whether a record may name what it names is decided above it.
#![tactic(auto)]

ghost use Rattle.std.specs.Prelude.{◌≡◌, length};
ghost use Rattle.dictionary_rules.specs.Index.{tag_at, component_at, message_at, tag_entry, component_entry, message_entry, noted};
ghost use Rattle.dictionary_chains.specs.Chain.{index_words};

use dictionary_chains::{Entry, Table};
use dictionary_rules::{Component, Note};

// Whether a tag is known. It needs no byte of the dictionary.
pub fn tag_known(index: &[u16], tag: u32) -> bool
    requires { length index.now ≡ index_words }
    ensures { result ≡ tag_at index.now tag }
{
    dictionary_chains::find(index, Table::Tags, u64::from(tag)) != 0
}

// The closed component of a number.
pub fn component_of(index: &[u16], number: u16) -> Option<Component>
    requires { length index.now ≡ index_words }
    ensures { result ≡ component_at index.now number }
{
    let at = dictionary_chains::find(index, Table::Components, u64::from(number));
    if at == 0 {
        return None;
    }
    let entry = dictionary_chains::entry_at(index, at);
    Some(Component {
        number: entry.first,
        place: entry.place,
        items: entry.second,
        depth: entry.third,
        stands: entry.fourth,
    })
}

// The place of the record that opens the message of a MsgType.
pub fn message_of(index: &[u16], msgtype: u64) -> Option<u16>
    requires { length index.now ≡ index_words }
    ensures { result ≡ message_at index.now msgtype }
{
    let at = dictionary_chains::find(index, Table::MsgTypes, msgtype);
    if at == 0 {
        return None;
    }
    let entry = dictionary_chains::entry_at(index, at);
    Some(entry.place)
}

fn tag_entry(place: u16, tag: u32) -> Entry
    ensures { result ≡ tag_entry place tag }
{
    Entry {
        place,
        first: (tag % 65536) as u16,
        second: (tag / 65536) as u16,
        third: 0,
        fourth: 0,
    }
}

fn component_entry(component: Component) -> Entry
    ensures { result ≡ component_entry component }
{
    Entry {
        place: component.place,
        first: component.number,
        second: component.items,
        third: component.depth,
        fourth: component.stands,
    }
}

fn message_entry(place: u16, msgtype: u64) -> Entry
    ensures { result ≡ message_entry place msgtype }
{
    Entry {
        place,
        first: (msgtype % 65536) as u16,
        second: (msgtype / 65536 % 65536) as u16,
        third: (msgtype / 4294967296 % 65536) as u16,
        fourth: (msgtype / 281474976710656) as u16,
    }
}

// Makes a tag known, unless it is.
pub fn know_tag(index: &mut [u16], place: u16, tag: u32)
    requires { length index.old ≡ index_words }
    ensures { index.new ≡ noted index.old (Note.KnowsTag place tag) }
{
    dictionary_chains::enter(index, Table::Tags, tag_entry(place, tag));
}

pub fn take_note(index: &mut [u16], note: Note)
    requires { length index.old ≡ index_words }
    ensures { index.new ≡ noted index.old note }
{
    match note {
        Note::Unchanged => {}
        Note::KnowsTag(place, tag) => {
            know_tag(index, place, tag);
        }
        Note::ClosesComponent(component) => {
            dictionary_chains::enter(index, Table::Components, component_entry(component));
        }
        Note::NamesMessage(place, msgtype) => {
            dictionary_chains::enter(index, Table::MsgTypes, message_entry(place, msgtype));
        }
    }
}
