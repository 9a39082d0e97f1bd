// The search for a map's marker by an asked name: refusals 10 and 11.
ghost use Rattle.std.specs.Prelude.{◌≡◌, ◌*◌, ◌≤◌, length};
ghost use Rattle.refusal.specs.declared.Refusal.TheVariants.{MapName};
ghost use Rattle.refusal.specs.Checks.{unless, ◌and_then◌};
ghost use Rattle.name.specs.Names.{map_name_ok};
ghost use Rattle.wad.specs.Entries.{file_check};
ghost use Rattle.wad.specs.Map.{find_marker, counted, marker_answer, search_answer};

use crate::entries::{directory_of, entry_count, judge_file};
use crate::parts::part;
use refusal::Refusal;

// What the search for it answers: the marker, and how many names were compared.
#[derive(Clone, Copy)]
pub struct MarkerSearch {
    pub marker: Result<usize, Refusal>,
    pub compared: usize,
}

// The last entry of the name, from the end on. A directory comes with its count here and in `entries`: what is judged of each differs.
pub fn last_named(dir: &[u8], count: usize, name: &[u8]) -> MarkerSearch
    requires { (16 * count ≤ length dir.now) × (length name.now ≡ 8) }
    ensures { result ≡ counted count (find_marker dir.now name.now count) }
{
    for i in (0..count).rev() {
        if name::same_name(part(dir, 16 * i + 8, 8), name) {
            return MarkerSearch {
                marker: Ok(i),
                compared: count - i,
            };
        }
    }
    MarkerSearch {
        marker: Err(Refusal::EntryMissing),
        compared: count,
    }
}

// The marker's entry number, by the map's name: 1 to 6, 10 and 11; and how many names were compared.
pub fn search_map(wad: &[u8], name: &[u8]) -> MarkerSearch
    ensures { result ≡ search_answer wad.now name.now }
{
    match judge_name(wad, name) {
        Ok(()) => last_named(directory_of(wad), entry_count(wad), name),
        Err(r) => MarkerSearch {
            marker: Err(r),
            compared: 0,
        },
    }
}

// The file, and the asked name: 1 to 6, then 10.
fn judge_name(wad: &[u8], name: &[u8]) -> Result<(), Refusal>
    ensures { result ≡ (file_check wad.now and_then unless (map_name_ok name.now) MapName) }
{
    judge_file(wad)?;
    refusal::pass_if(name::map_name_ok(name), Refusal::MapName)
}

// The marker alone.
pub fn find_map(wad: &[u8], name: &[u8]) -> Result<usize, Refusal>
    ensures { result ≡ marker_answer wad.now name.now }
{
    search_map(wad, name).marker
}
