// The four names of a store: compared, looked up and written.
ghost use Rattle.std.specs.Prelude.{◌≡◌, ◌<◌};
ghost use Rattle.general.specs.Parts.{over};
ghost use Rattle.entries.specs.Entries.{entry_count, name_start, same_name, is_named, first_named, place_for};

use crate::copies::STORE_LENGTH;
use numbers::bytes::bytes_at;

pub const ENTRIES: usize = 4;

pub const NAME_LENGTH: usize = 8;

// Whether eight bytes are the name: the library's `==` by the name that the definitions have for it. `store` asks it of a lent name too.
#[tactic(auto, unfolding(crate::specs::Entries::same_name))]
pub fn same_name(part: [u8; 8], name: [u8; 8]) -> bool
    ensures { result ≡ same_name part name }
{
    part == name
}

// Whether the entry bears the name.
#[tactic(auto, unfolding(crate::specs::Entries::is_named, crate::specs::Entries::name_at))]
fn is_named(store: &[u8; STORE_LENGTH], entry: usize, name: [u8; 8]) -> bool
    requires { entry < entry_count }
    ensures { result ≡ is_named store.now name entry }
{
    same_name(bytes_at(store, NAME_LENGTH * entry), name)
}

// The first entry that bears the name; of eight zero bytes, the first empty entry.
pub fn find(store: &[u8; STORE_LENGTH], name: [u8; 8]) -> Option<usize>
    ensures { result ≡ first_named store.now name }
{
    (0..ENTRIES).find(|&entry| is_named(store, entry, name))
}

// The entry that a save writes: the first with the name, else the first empty one.
#[tactic(auto, unfolding(crate::specs::Entries::place_for, crate::specs::Entries::or_first))]
pub fn place_for(store: &[u8; STORE_LENGTH], name: [u8; 8]) -> Option<usize>
    ensures { result ≡ place_for store.now name }
{
    find(store, name).or_else(|| find(store, [0; 8]))
}

pub fn write_name(store: &mut [u8; STORE_LENGTH], entry: usize, name: [u8; 8])
    requires { entry < entry_count }
    ensures { store.new ≡ over store.old (name_start entry) name }
{
    let start = NAME_LENGTH * entry;
    store[start..start + NAME_LENGTH].copy_from_slice(&name);
}
