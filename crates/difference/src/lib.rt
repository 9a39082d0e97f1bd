// What changed between two maps (W-213): the numbers of the records that the new one has otherwise, lump by lump. The
// definitions are in specs/.
#![tactic(auto)]

mod change;
mod places;

ghost use Rattle.std.specs.Prelude.{◌≡◌, ◌<◌, ◌^◌, sum};
ghost use Rattle.difference.specs.Differences.{game_in, lumps_in, Differ};
ghost use Rattle.difference.specs.Inner.Lumps.{Numbered, Compared};

use places::Map;
use refusal::Refusal;

// Why two maps are not compared: what is refused of the old one, of the new one, or of both together.
#[derive(Clone, Copy)]
pub enum CompareError {
    Old(Refusal),
    New(Refusal),
    Both(Refusal),
}

// The maps of two names, the old one and the new one: what the map check refuses of the old one, then of the new one, both over the
// same words, then 76 and 75. How many records of each of the eight lumps are listed. A refusal leaves the list as it was.
pub fn compare_maps(
    old_wad: &[u8],
    old_name: &[u8],
    new_wad: &[u8],
    new_name: &[u8],
    words: &mut [u16],
    list: &mut [u16],
) -> Result<[usize; 8], CompareError>
    ensures { Differ old_wad.now old_name.now new_wad.now
        new_name.now words.old list.old result words.new list.new }
{
    let old = map_check::judge_map(old_wad, old_name, words).map_err(CompareError::Old)?;
    let new = map_check::judge_map(new_wad, new_name, words).map_err(CompareError::New)?;
    let old = Map {
        wad: old_wad,
        marker: old.marker,
    };
    let new = Map {
        wad: new_wad,
        marker: new.marker,
    };
    // `map_err` was tried here too, and the proof did not close
    match list_changes(&old, &new, list) {
        Ok(counts) => Ok(counts),
        Err(r) => Err(CompareError::Both(r)),
    }
}

// Both are accepted: 76, 75, and the list.
fn list_changes(old: &Map, new: &Map, list: &mut [u16]) -> Result<[usize; 8], Refusal>
    requires { Numbered (game_in new.now.wad.now new.now.marker) (lumps_in new.now.wad.now new.now.marker) }
    ensures { Compared old.now.wad.now old.now.marker new.now.wad.now new.now.marker list.old result list.new }
{
    refusal::pass_if(old.is_hexen() == new.is_hexen(), Refusal::DifferenceGames)?;
    let counts = places::count_all(old, new);
    refusal::pass_if(total(&counts) <= list.len(), Refusal::DifferenceRoom)?;
    places::write_all(old, new, list);
    Ok(counts)
}

fn total(counts: &[usize]) -> usize
    requires { sum counts.now < 2 ^ 64 }
    ensures { result ≡ sum counts.now }
{
    counts.iter().sum()
}
