//! Whether entries are so short that their messages can be told by four octets.
ghost use Rattle.std.specs.Prelude.{◌≡◌, ℕ, ◌-◌, ◌^◌, min, List};
ghost use Rattle.sd_dial.specs.Rooms.{text_room, texts_room, attribute_room, attributes_room, is_short, are_short};

use sd_base::Text;
use sd_ldap::{Attribute, DirEntry};

fn text_room(text: &Text) -> u64
    ensures { result ≡ min (text_room text.now) (2 ^ 64 - 1) }
{
    (text.bytes().len() as u64).saturating_add(6)
}

fn texts_room(texts: &[Text]) -> u64
    ensures { result ≡ min (texts_room texts.now) (2 ^ 64 - 1) }
{
    let mut room = 0u64;
    for place in (0..texts.len()).rev() {
        room = room.saturating_add(text_room(&texts[place]));
    }
    room
}

fn attribute_room(attribute: &Attribute) -> u64
    ensures { result ≡ min (attribute_room attribute.now) (2 ^ 64 - 1) }
{
    text_room(&attribute.name)
        .saturating_add(texts_room(attribute.values.items()))
        .saturating_add(12)
}

fn attributes_room(attributes: &[Attribute]) -> u64
    ensures { result ≡ min (attributes_room attributes.now) (2 ^ 64 - 1) }
{
    let mut room = 0u64;
    for place in (0..attributes.len()).rev() {
        room = room.saturating_add(attribute_room(&attributes[place]));
    }
    room
}

/// Whether an entry takes less than 4 GiB in a message, whatever is asked of it.
pub fn is_short(entry: &DirEntry) -> bool
    ensures { result ≡ is_short entry.now }
{
    let room = text_room(&entry.dn)
        .saturating_add(attributes_room(entry.attributes.items()))
        .saturating_add(6);
    room < (1 << 32) - 64
}

/// Whether each entry does.
#[tactic(auto, unfolding(sd_dial::specs::Rooms::are_short))]
pub fn are_short(entries: &[DirEntry]) -> bool
    ensures { result ≡ are_short entries.now }
{
    entries.iter().all(|entry| is_short(entry))
}
