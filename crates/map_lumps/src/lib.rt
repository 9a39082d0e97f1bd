// The ten lumps of a map as parts of the file; their names and the map's game (`run`); their sizes and counts (`size`). The
// definitions are in specs/.
#![tactic(auto)]

mod run;
mod size;

ghost use Rattle.std.specs.Prelude.{◌≡◌, ◌+◌, ◌*◌, ◌<◌, ◌≤◌, length};
ghost use Rattle.map_lumps.specs.Lumps.{map_lumps, map_lump, record_count};

pub use run::{Game, Marker, map_game};
pub use size::judge_reject;

// A place is a number, 1 to 10: refusals name it so, and C's answers have it.

// A map's ten lumps: the entries behind its marker in a file's directory.
#[derive(Clone, Copy)]
pub struct MapLumps<'a, 'd> {
    pub wad: &'a [u8],
    pub dir: &'d [u8],
    pub marker: usize,
    pub ghost present: { 16 * (marker + 11) ≤ length dir.now },
}

impl<'a> MapLumps<'a, '_> {
    // The lump at a place.
    pub fn lump(&self, place: usize) -> &'a [u8]
        requires { (1 ≤ place) × (place ≤ 10) }
        ensures { result.now ≡ map_lump (map_lumps self.now.wad.now self.now.dir.now self.now.marker) place }
    {
        wad::lump_at(self.wad, self.dir, self.marker + place)
    }

    // How many records of a size the lump at a place has.
    pub fn record_count(&self, place: usize, size: usize) -> usize
        requires { (1 ≤ place) × (place ≤ 10) × (0 < size) }
        ensures { result ≡ record_count (map_lumps self.now.wad.now self.now.dir.now self.now.marker) place size }
    {
        self.lump(place).len() / size
    }
}
