// dictionary_steps: what one record of a dictionary does to what the records before it left, 31 to 37 in number order.
// It looks names up in the lent index and changes nothing there: what a record makes known is handed back as a note.
#![tactic(auto)]

ghost use Rattle.std.specs.Prelude.{◌≡◌, ◌<◌, length};
ghost use Rattle.dictionary_rules.specs.Index.{looks_at};
ghost use Rattle.dictionary_rules.specs.Step.{step_of, at_end, depth_of, opened, opens, grown, held_with, stands_for, on_tag, on_component, on_message, on_field, on_item, on_group, on_close, closes_owner, closes_group};
ghost use Rattle.dictionary_rules.specs.Passing.{with_field};
ghost use Rattle.dictionary_chains.specs.Chain.{index_words};

use dictionary_rules::{Checked, Component, Group, Groups, Held, Note, Open, Owner, Record, State};

fn depth_of(groups: Groups) -> u64
    ensures { result ≡ depth_of groups }
{
    match groups {
        Groups::NoGroup => 0,
        Groups::OneGroup(_) => 1,
        Groups::TwoGroups(_, _) => 2,
        Groups::ThreeGroups(_, _, _) => 3,
        Groups::FourGroups(_, _, _, _) => 4,
    }
}

fn open_group(group: Group, groups: Groups) -> Groups
    ensures { result ≡ opened group groups }
{
    match groups {
        Groups::NoGroup => Groups::OneGroup(group),
        Groups::OneGroup(a) => Groups::TwoGroups(group, a),
        Groups::TwoGroups(a, b) => Groups::ThreeGroups(group, a, b),
        Groups::ThreeGroups(a, b, c) => Groups::FourGroups(group, a, b, c),
        Groups::FourGroups(a, b, c, d) => Groups::FourGroups(a, b, c, d),
    }
}

fn grow(thing: Open, items: u16, depth: u16, held: Held, groups: Groups) -> Open
    ensures { result ≡ grown thing items depth held groups }
{
    Open {
        items,
        depth,
        held,
        groups,
        ..thing
    }
}

fn hold(held: Held, component: Component) -> Held
    ensures { result ≡ held_with held component }
{
    if component.items == 0 {
        return held;
    }
    match held {
        Held::Empty => Held::Only(component.stands),
        Held::Only(_) => Held::Several,
        Held::Several => Held::Several,
    }
}

fn stands_for(number: u16, held: Held) -> u16
    ensures { result ≡ stands_for number held }
{
    match held {
        Held::Only(other) => other,
        Held::Empty => number,
        Held::Several => number,
    }
}

fn on_tag(index: &[u16], state: State, place: u16, tag: u32) -> Result<(State, Note), Checked>
    requires { length index.now ≡ index_words }
    ensures { result ≡ on_tag (looks_at index.now) state place tag }
{
    let State::TopLevel = state else {
        return Err(Checked::BadRecord(place));
    };
    if dictionary_names::tag_known(index, tag) {
        return Ok((State::TopLevel, Note::Unchanged));
    }
    Ok((State::TopLevel, Note::KnowsTag(place, tag)))
}

fn fresh(owner: Owner, place: u16) -> Open
    ensures { result ≡ opens owner place }
{
    Open {
        owner,
        place,
        items: 0,
        depth: 0,
        held: Held::Empty,
        groups: Groups::NoGroup,
    }
}

fn on_component(
    index: &[u16],
    state: State,
    place: u16,
    number: u16,
) -> Result<(State, Note), Checked>
    requires { length index.now ≡ index_words }
    ensures { result ≡ on_component (looks_at index.now) state place number }
{
    let State::TopLevel = state else {
        return Err(Checked::BadRecord(place));
    };
    let None = dictionary_names::component_of(index, number) else {
        return Err(Checked::Twice(place));
    };
    Ok((
        State::Inside(fresh(Owner::OfComponent(number), place)),
        Note::Unchanged,
    ))
}

fn on_message(
    index: &[u16],
    state: State,
    place: u16,
    msgtype: u64,
) -> Result<(State, Note), Checked>
    requires { length index.now ≡ index_words }
    ensures { result ≡ on_message (looks_at index.now) state place msgtype }
{
    let State::TopLevel = state else {
        return Err(Checked::BadRecord(place));
    };
    let None = dictionary_names::message_of(index, msgtype) else {
        return Err(Checked::Twice(place));
    };
    Ok((
        State::Inside(fresh(Owner::OfMessage, place)),
        Note::NamesMessage(place, msgtype),
    ))
}

// What is open, with one field item more.
pub fn count_field(thing: Open) -> Open
    requires { thing.items < 1024 }
    ensures { result ≡ with_field thing }
{
    grow(
        thing,
        thing.items + 1,
        thing.depth,
        Held::Several,
        thing.groups,
    )
}

fn on_field(index: &[u16], state: State, place: u16, tag: u32) -> Result<(State, Note), Checked>
    requires { length index.now ≡ index_words }
    ensures { result ≡ on_field (looks_at index.now) state place tag }
{
    let State::Inside(thing) = state else {
        return Err(Checked::BadRecord(place));
    };
    if !dictionary_names::tag_known(index, tag) {
        return Err(Checked::UnknownTag(tag));
    }
    if 1024 <= thing.items {
        return Err(Checked::TooManyItems(place));
    }
    Ok((State::Inside(count_field(thing)), Note::Unchanged))
}

fn on_item(index: &[u16], state: State, place: u16, number: u16) -> Result<(State, Note), Checked>
    requires { length index.now ≡ index_words }
    ensures { result ≡ on_item (looks_at index.now) state place number }
{
    let State::Inside(thing) = state else {
        return Err(Checked::BadRecord(place));
    };
    let Some(component) = dictionary_names::component_of(index, number) else {
        return Err(Checked::NoComponent(number));
    };
    let depth = depth_of(thing.groups) + u64::from(component.depth);
    if 4 < depth {
        return Err(Checked::TooDeep(place));
    }
    let items = u64::from(thing.items) + u64::from(component.items);
    if 1024 < items {
        return Err(Checked::TooManyItems(place));
    }
    let deepest = thing.depth.max(depth as u16);
    let holds = hold(thing.held, component);
    Ok((
        State::Inside(grow(thing, items as u16, deepest, holds, thing.groups)),
        Note::Unchanged,
    ))
}

fn on_group(index: &[u16], state: State, place: u16, tag: u32) -> Result<(State, Note), Checked>
    requires { length index.now ≡ index_words }
    ensures { result ≡ on_group (looks_at index.now) state place tag }
{
    let State::Inside(thing) = state else {
        return Err(Checked::BadRecord(place));
    };
    if !dictionary_names::tag_known(index, tag) {
        return Err(Checked::UnknownTag(tag));
    }
    let depth = depth_of(thing.groups) + 1;
    if 4 < depth {
        return Err(Checked::TooDeep(place));
    }
    if 1024 <= thing.items {
        return Err(Checked::TooManyItems(place));
    }
    let items = thing.items + 1;
    let deepest = thing.depth.max(depth as u16);
    let inner = open_group(Group { tag, since: items }, thing.groups);
    Ok((
        State::Inside(grow(thing, items, deepest, Held::Several, inner)),
        Note::Unchanged,
    ))
}

fn close_owner(thing: Open) -> Result<(State, Note), Checked>
    ensures { result ≡ closes_owner thing thing.owner }
{
    let Owner::OfComponent(number) = thing.owner else {
        return Ok((State::TopLevel, Note::Unchanged));
    };
    let component = Component {
        number,
        place: thing.place,
        items: thing.items,
        depth: thing.depth,
        stands: stands_for(number, thing.held),
    };
    Ok((State::TopLevel, Note::ClosesComponent(component)))
}

fn close_group(thing: Open, group: Group, groups: Groups) -> Result<(State, Note), Checked>
    ensures { result ≡ closes_group thing group groups }
{
    if thing.items == group.since {
        return Err(Checked::EmptyGroup(group.tag));
    }
    Ok((
        State::Inside(grow(thing, thing.items, thing.depth, thing.held, groups)),
        Note::Unchanged,
    ))
}

fn on_close(state: State, place: u16) -> Result<(State, Note), Checked>
    ensures { result ≡ on_close state place }
{
    let State::Inside(thing) = state else {
        return Err(Checked::BadRecord(place));
    };
    match thing.groups {
        Groups::NoGroup => close_owner(thing),
        Groups::OneGroup(a) => close_group(thing, a, Groups::NoGroup),
        Groups::TwoGroups(a, b) => close_group(thing, a, Groups::OneGroup(b)),
        Groups::ThreeGroups(a, b, c) => close_group(thing, a, Groups::TwoGroups(b, c)),
        Groups::FourGroups(a, b, c, d) => close_group(thing, a, Groups::ThreeGroups(b, c, d)),
    }
}

// What a record does in the state that the records before it left.
pub fn step_of(
    index: &[u16],
    state: State,
    place: u16,
    read: Record,
) -> Result<(State, Note), Checked>
    requires { length index.now ≡ index_words }
    ensures { result ≡ step_of (looks_at index.now) state place read }
{
    match read {
        Record::KnownTag(tag) => on_tag(index, state, place, tag),
        Record::OpensComponent(number) => on_component(index, state, place, number),
        Record::OpensMessage(msgtype) => on_message(index, state, place, msgtype),
        Record::FieldItem(tag, _) => on_field(index, state, place, tag),
        Record::ComponentItem(_, number) => on_item(index, state, place, number),
        Record::OpensGroup(tag, _) => on_group(index, state, place, tag),
        Record::Closes => on_close(state, place),
    }
}

pub fn at_end(index: &[u16], state: State, size: u16) -> Checked
    requires { length index.now ≡ index_words }
    ensures { result ≡ at_end (looks_at index.now) state size }
{
    let State::TopLevel = state else {
        return Checked::BadRecord(size);
    };
    let Some(_) = dictionary_names::component_of(index, 0) else {
        return Checked::NoComponent(0);
    };
    let Some(_) = dictionary_names::component_of(index, 1) else {
        return Checked::NoComponent(1);
    };
    Checked::Passes
}
