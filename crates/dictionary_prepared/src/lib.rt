// dictionary_prepared: a dictionary that is checked once for many messages. Its records are copied into bytes that the caller lends; what they name
// and the tables of its messages are left in words that the caller lends, behind a stamp. It reads no message; and it trusts no memory: what was not
// prepared is told.
#![tactic(auto)]

ghost use Rattle.std.specs.Prelude.{◌≡◌, ◌+◌, ◌≤◌, ◌++◌, length, drop};
ghost use Rattle.dictionary_prepared.specs.Memory.{is_prepared, preparation, prepared, head_for, number_of_preparing, value_of_preparing};
ghost use Rattle.dictionary_chains.specs.Chain.{index_words};

use dictionary_rules::Checked;

// The words that say that memory was prepared.
const FIRST_STAMP: u16 = 18758;

const SECOND_STAMP: u16 = 12888;

// In front of the index: the stamp, and the dictionary's length.
pub const FRONT: usize = 3;

// Words of memory at the least: what stands in front of the index, and the index.
pub const HEAD: usize = FRONT + dictionary_chains::WORDS;

// A dictionary was prepared; what is lent is too small for it; or the dictionary is refused.
#[derive(Clone, Copy)]
pub enum Preparing {
    Ready,
    NoRoom,
    Refused(Checked),
}

// The number that an answer returns.
pub fn number_of(preparing: Preparing) -> u32
    ensures { result ≡ number_of_preparing preparing }
{
    match preparing {
        Preparing::Ready => 0,
        Preparing::NoRoom => 23,
        Preparing::Refused(checked) => dictionary_check::number_of(checked),
    }
}

// The value that an answer returns, and 0 where it returns none.
pub fn value_of(preparing: Preparing) -> u32
    ensures { result ≡ value_of_preparing preparing }
{
    match preparing {
        Preparing::Ready => 0,
        Preparing::NoRoom => 0,
        Preparing::Refused(checked) => dictionary_check::value_of(checked),
    }
}

// Whether a dictionary was prepared in the copy and the memory, as far as the stamp and the lengths tell.
pub fn is_prepared(copy: &[u8], memory: &[u16]) -> bool
    ensures { result ≡ is_prepared copy.now memory.now }
{
    memory.len() >= HEAD
        && memory[0] == FIRST_STAMP
        && memory[1] == SECOND_STAMP
        && usize::from(memory[2]) <= copy.len()
}

// The head of prepared memory: the stamp, the dictionary's length, and the index that its check left.
fn put_head(size: u16, index: &[u16], memory: &mut [u16])
    requires { (length index.now ≡ index_words) × (3 + index_words ≤ length memory.old) }
    ensures { memory.new ≡ head_for size index.now ++ drop (3 + index_words) memory.old }
{
    memory[0] = FIRST_STAMP;
    memory[1] = SECOND_STAMP;
    memory[2] = size;
    memory[FRONT..HEAD].copy_from_slice(index);
}

// Checks a dictionary and prepares it: its records in the copy, what they name in the memory, and behind that as many tables as have room. On a refusal
// both are as they were.
pub fn prepare(dictionary: &[u8], copy: &mut [u8], memory: &mut [u16]) -> Preparing
    ensures { prepared result copy.new memory.new ≡ preparation dictionary.now copy.old memory.old }
{
    if memory.len() < HEAD {
        return Preparing::NoRoom;
    }
    if copy.len() < dictionary.len() {
        return Preparing::NoRoom;
    }
    let mut index = [0u16; dictionary_chains::WORDS];
    let checked = dictionary_check::prepare(dictionary, &mut index);
    if dictionary_check::number_of(checked) != 0 {
        return Preparing::Refused(checked);
    }
    copies::copy(dictionary, copy);
    put_head(dictionary.len() as u16, &index[..], memory);
    dictionary_directory::lay_tables(dictionary, &index[..], &mut memory[HEAD..]);
    Preparing::Ready
}
