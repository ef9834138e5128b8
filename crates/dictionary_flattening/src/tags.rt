// Header and trailer tags: the plain field items directly in a component, as a list.
ghost use Rattle.std.specs.Prelude.{◌≡◌, ◌≤◌, length};
ghost use Rattle.dictionary_meaning_rules.specs.PlainTags.{listing, tags_from, plain_tags};
ghost use Rattle.dictionary_chains.specs.Chain.{index_words};

use dictionary_rules::{Record, RecordRead};

// Lists from a place on, up to the close. What lies in a group is passed over, up to its own close.
fn list_tags(dictionary: &[u8], from: usize, tags: &mut [u32]) -> Option<usize>
    requires { 1024 ≤ length tags.old }
    ensures { listing result tags.new ≡ tags_from dictionary.now from 0 0 tags.old }
{
    let mut at = from;
    let mut groups: usize = 0;
    let mut count: usize = 0;
    loop {
        let RecordRead::Whole(record, next) = dictionary_records::record_at(dictionary, at) else {
            return None;
        };
        match record {
            Record::FieldItem(tag, _) => {
                at = next;
                if groups == 0 {
                    if 1024 <= count {
                        return None;
                    }
                    tags[count] = tag;
                    count += 1;
                }
            }
            Record::ComponentItem(_, _) => {
                at = next;
            }
            Record::OpensGroup(_, _) => {
                at = next;
                groups += 1;
            }
            Record::Closes => {
                at = next;
                if groups == 0 {
                    return Some(count);
                }
                groups -= 1;
            }
            _ => {
                return None;
            }
        }
    }
}

// The tags of a component, from a dictionary that passed its check and the index that the check left: 0 is the header, 1 the trailer.
pub fn plain_tags(
    dictionary: &[u8],
    index: &[u16],
    number: u16,
    tags: &mut [u32; 1024],
) -> Option<usize>
    requires { length index.now ≡ index_words }
    ensures { listing result tags.new ≡ plain_tags dictionary.now index.now number tags.old }
{
    let list = &mut tags[..];
    let Some(component) = dictionary_names::component_of(index, number) else {
        return None;
    };
    list_tags(dictionary, usize::from(component.place) + 3, list)
}
