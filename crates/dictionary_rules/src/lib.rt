// dictionary_rules: definitions and worked examples alone. What the records of a flat dictionary are, what they name, and how the whole is
// answered, whatever code checks it: `dictionary_records`, `dictionary_names`, `dictionary_steps` and `dictionary_check` are proved against it. No function stands here, so
// that a wrong definition is refused in seconds.
#![tactic(auto)]

// A component item has its mark first: no variant then has a byte where another has part of a number, and a record is handed on in whole words.
#[derive(Clone, Copy)]
pub enum Record {
    KnownTag(u32),
    OpensComponent(u16),
    OpensMessage(u64),
    FieldItem(u32, bool),
    ComponentItem(bool, u16),
    OpensGroup(u32, bool),
    Closes,
}

// A whole record and the place of the next one; none that can be read; or the end of the dictionary.
#[derive(Clone, Copy)]
pub enum RecordRead {
    Whole(Record, usize),
    Bad,
    End,
}

// A closed component: where it opened, what it holds after flattening, and the component that it stands for.
#[derive(Clone, Copy)]
pub struct Component {
    pub number: u16,
    pub place: u16,
    pub items: u16,
    pub depth: u16,
    pub stands: u16,
}

// What a record makes known.
#[derive(Clone, Copy)]
pub enum Note {
    Unchanged,
    KnowsTag(u16, u32),
    ClosesComponent(Component),
    NamesMessage(u16, u64),
}

// The answer to a dictionary. A place is that of a record's first byte, or the dictionary's length.
#[derive(Clone, Copy)]
pub enum Checked {
    Passes,
    TooLong,
    BadRecord(u16),
    NoComponent(u16),
    UnknownTag(u32),
    EmptyGroup(u32),
    TooDeep(u16),
    Twice(u16),
    TooManyItems(u16),
}

// An open group, and how many items had been counted when it opened, itself included.
#[derive(Clone, Copy)]
pub struct Group {
    pub tag: u32,
    pub since: u16,
}

// The open groups, the innermost first.
#[derive(Clone, Copy)]
pub enum Groups {
    NoGroup,
    OneGroup(Group),
    TwoGroups(Group, Group),
    ThreeGroups(Group, Group, Group),
    FourGroups(Group, Group, Group, Group),
}

// What a component holds that is not empty: nothing, one component only, or something else.
#[derive(Clone, Copy)]
pub enum Held {
    Empty,
    Only(u16),
    Several,
}

// No Option: what is open is a component or a message, and None would say nothing of the message.
#[derive(Clone, Copy)]
pub enum Owner {
    OfComponent(u16),
    OfMessage,
}

// What is open, counted so far.
#[derive(Clone, Copy)]
pub struct Open {
    pub owner: Owner,
    pub place: u16,
    pub items: u16,
    pub depth: u16,
    pub held: Held,
    pub groups: Groups,
}

// No Option: the top level is a place where records stand, and not the want of one.
#[derive(Clone, Copy)]
pub enum State {
    TopLevel,
    Inside(Open),
}
