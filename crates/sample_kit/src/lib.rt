// sample_kit: what the programs share. It reads a program's script from standard input, spells flat dictionaries, and writes what a program
// says. It is for programs alone: no library of the gateway may stand on it. But for how many bytes were read its functions have no contract:
// each is proved to be safe and to end, and what a program writes is held to its file `stdout`. A read or write that fails ends the program.
//
// A script has a line for each case.
//   # TEXT         a remark
//   - TEXT         a heading, shown as it is
//   * RECORDS      the dictionary from here on; `*+ RECORDS` puts more behind it
//   NAME: WORDS    a case: words with spaces between, each a letter or a sign with what belongs to it; a program says at its top which it has
//     WORDS        a case without a name, its line starting with a space
// In words and records `{FIRST..LAST:TEXT}` is the text for each number from the first to the last, where `@` is the number and `<` the one
// before it. In messages `|` is the separator, and `\` with two hexadecimal digits is any byte.
// A dictionary's records: t8 known tag, c0 component, mD message of that MsgType, f38 field, g78 group, i5 component item, . close; F, G and I
// are required; b7 is any byte, and z60001 so many zeros.
//
// A program gets its script in pieces, each ended by a line break: a heading and a dictionary as their lines, of a case `:NAME`, then its
// words, then `.`. Where a word starts is told by nothing but its first byte, so no word starts with `-`, `*`, `:` or `.`.
#![tactic(auto)]

pub mod dictionaries;
pub mod reading;
pub mod saying;
pub mod scripts;
