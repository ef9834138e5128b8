// build_required: whether the entries of a body group that was read hold their required fields (4).
// The run check and the entry check call each other, and the depth that is left falls. It only looks at records and tables.
#![tactic(auto)]

ghost use Rattle.std.specs.Prelude.{◌≡◌, ◌/◌, ◌≤◌, ◌-◌, length};
ghost use Rattle.build_records.specs.Records.{records_of, between, stride};
ghost use Rattle.build_required_rules.specs.Required.{shallow};
ghost use Rattle.build_required_rules.specs.Checking.{starts_at, count_at, end_from, lack_of_fields, lack_of_entry, lack_of_run};

use build_group_rules::Group;
use build_records::Record;
use build_required_rules::Lack;

// The record opens an entry of the group.
fn starts(table: &[u16], group: Group, found: Record) -> bool
    ensures { result ≡ starts_at table.now group found }
{
    found.depth == group.depth && build_groups::opens(table, group.level, found.tag)
}

// Where the level of the run starts that hangs on a record of an entry's own fields, 0 where none does.
fn count_at(table: &[u16], group: Group, found: Record) -> usize
    ensures { result ≡ count_at table.now group found }
{
    if found.depth != group.depth {
        return 0;
    }
    match dictionary_tables::item_of(table, group.level, found.tag) {
        Some((_, inner)) => inner,
        None => 0,
    }
}

// Where the next entry of the group starts.
fn entry_end(words: &[u32], table: &[u16], group: Group, from: usize, to: usize) -> usize
    requires { to ≤ length words.now / stride }
    ensures { result ≡ end_from (starts_at table.now group) from (between from to (records_of words.now)) }
{
    for at in from..to {
        if starts(table, group, build_records::record_at(words, at)) {
            return at;
        }
    }
    from.max(to)
}

// Where the records of the run end that hangs on the record before.
fn run_end(words: &[u32], depth: u32, from: usize, to: usize) -> usize
    requires { to ≤ length words.now / stride }
    ensures { result ≡ end_from (shallow depth) from (between from to (records_of words.now)) }
{
    for at in from..to {
        if build_records::record_at(words, at).depth <= depth {
            return at;
        }
    }
    from.max(to)
}

// "Its required fields in layout order."
fn check_fields(words: &[u32], table: &[u16], group: Group, from: usize, to: usize) -> Lack
    ensures { result ≡ lack_of_fields table.now group (between from to (records_of words.now)) }
{
    let mut link: usize = 1;
    loop {
        let Some((tag, behind)) = dictionary_tables::next_required(table, group.level, link) else {
            return Lack::Complete;
        };
        let Some(_) = build_records::held(words, from, to, group.depth, tag) else {
            return Lack::Missing(tag, group.tag);
        };
        link = behind;
    }
}

// "For each entry": the run's records stand from one index to another.
#[cycle(checking)]
pub fn check_run(words: &[u32], table: &[u16], group: Group, from: usize, to: usize) -> Lack
    requires { to ≤ length words.now / stride }
    ensures { result ≡ lack_of_run table.now group (between from to (records_of words.now)) }
{
    if build_group_rules::LEVELS < group.depth {
        return Lack::Complete;
    }
    let mut at = entry_end(words, table, group, from, to);
    while at < to {
        let first = at;
        at = entry_end(words, table, group, first + 1, to);
        let lack = check_entry(words, table, group, first, at);
        let Lack::Complete = lack else {
            return lack;
        };
    }
    Lack::Complete
}

// "Its required fields in layout order, then its nested runs."
#[cycle(checking)]
pub fn check_entry(words: &[u32], table: &[u16], group: Group, from: usize, to: usize) -> Lack
    requires { (to ≤ length words.now / stride) × (group.depth ≤ 4) }
    ensures { result ≡ lack_of_entry table.now group (between from to (records_of words.now)) }
{
    let own = check_fields(words, table, group, from, to);
    let Lack::Complete = own else {
        return own;
    };
    let mut at = from;
    while at < to {
        let count = at;
        at = run_end(words, group.depth, count + 1, to);
        // A run without records lacks nothing, so the table need not be asked for most fields.
        if at == count + 1 {
            continue;
        }
        let found = build_records::record_at(words, count);
        let level = count_at(table, group, found);
        if level == 0 {
            continue;
        }
        let nested = Group {
            level,
            tag: found.tag,
            depth: group.depth + 1,
        };
        let lack = check_run(words, table, nested, count + 1, at);
        let Lack::Complete = lack else {
            return lack;
        };
    }
    Lack::Complete
}
