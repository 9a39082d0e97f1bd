// The eight lumps of records of two accepted maps, by their places: first what is listed of each is counted, then it is written.
ghost use Rattle.std.specs.Prelude.{◌≡◌, ◌+◌, ◌≤◌, length};
ghost use Rattle.record_table.specs.Lumps.{record_size};
ghost use Rattle.map_lumps.specs.Lumps.{map_lump};
ghost use Rattle.difference.specs.Differences.{game_in, lumps_in, changes_in, change_counts};
ghost use Rattle.difference.specs.Inner.Changes.{begun_with};
ghost use Rattle.difference.specs.Inner.Lumps.{MapIn, Numbered};

use crate::change::Versions;
use map_lumps::{MapLumps, Marker};

// A map whose ten lumps are there: a file that passes, and the entry of the marker.
#[derive(Clone, Copy)]
pub struct Map<'a> {
    pub wad: &'a [u8],
    pub marker: usize,
    ghost has_lumps: { MapIn wad.now marker },
}

impl<'a> Map<'a> {
    // Whether it is Hexen's, else Doom's.
    pub fn is_hexen(&self) -> bool
        ensures { result ≡ game_in self.now.wad.now self.now.marker }
    {
        let marker = Marker {
            dir: wad::directory_of(self.wad),
            count: wad::entry_count(self.wad),
            entry: self.marker,
        };
        marker.is_hexen()
    }

    // The lump at a place.
    fn lump(&self, place: usize) -> &'a [u8]
        requires { (1 ≤ place) × (place ≤ 10) }
        ensures { result.now ≡ map_lump (lumps_in self.now.wad.now self.now.marker) place }
    {
        let lumps = MapLumps {
            wad: self.wad,
            dir: wad::directory_of(self.wad),
            marker: self.marker,
        };
        lumps.lump(place)
    }
}

// The lumps at a place, of the old map and of the new one.
fn versions<'a, 'b>(old: &Map<'a>, new: &Map<'b>, place: usize) -> Versions<'a, 'b>
    requires { (1 ≤ place) × (place ≤ 8) }
    ensures old { result.old.now ≡ map_lump (lumps_in old.now.wad.now old.now.marker) place }
    ensures new { result.new.now ≡ map_lump (lumps_in new.now.wad.now new.now.marker) place }
    ensures size { result.size ≡ record_size (game_in old.now.wad.now old.now.marker) place }
{
    let size = record_table::record_size(old.is_hexen(), place);
    Versions {
        old: old.lump(place),
        new: new.lump(place),
        size,
    }
}

// How many records of each are listed.
pub fn count_all(old: &Map, new: &Map) -> [usize; 8]
    ensures { result ≡ change_counts (game_in old.now.wad.now old.now.marker)
        (lumps_in old.now.wad.now old.now.marker) (lumps_in new.now.wad.now new.now.marker) }
{
    // `array::from_fn` was tried, and its proof did not close
    let mut counts = [0; 8];
    for i in 0..8 {
        counts[i] = versions(old, new, i + 1).count_changes();
    }
    counts
}

// The numbers of all, lump after lump, into the front of the list.
pub fn write_all(old: &Map, new: &Map, list: &mut [u16])
    requires numbered { Numbered (game_in old.now.wad.now old.now.marker) (lumps_in new.now.wad.now new.now.marker) }
    requires room { length (changes_in (game_in old.now.wad.now old.now.marker)
        (lumps_in old.now.wad.now old.now.marker) (lumps_in new.now.wad.now new.now.marker)) ≤ length list.old }
    ensures { list.new ≡ begun_with (changes_in (game_in old.now.wad.now old.now.marker)
        (lumps_in old.now.wad.now old.now.marker) (lumps_in new.now.wad.now new.now.marker)) list.old }
{
    let mut count = 0;
    for i in 0..8 {
        count += versions(old, new, i + 1).write_changes(&mut list[count..]);
    }
}
