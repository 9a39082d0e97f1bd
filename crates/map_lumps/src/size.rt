// Sizes and counts of the eight lumps of records, by the game, and the length of REJECT: refusals 20 to 22.
ghost use Rattle.std.specs.Prelude.{◌≡◌, ◌+◌, ◌*◌, ◌/◌, ◌<◌, ◌≤◌, length, eqb};
ghost use Rattle.refusal.specs.declared.Refusal.TheVariants.{RejectLength};
ghost use Rattle.refusal.specs.Checks.{unless};
ghost use Rattle.map_lumps.specs.Lumps.{map_lumps, map_lump, record_count, each_place};
ghost use Rattle.map_lumps.specs.Sizes.{whole_ok, alone_ok, record_count_ok, size_check, reject_size};

use crate::MapLumps;
use record::{Node, Subsector};
use refusal::Refusal;

impl MapLumps<'_, '_> {
    fn whole_ok(&self, hexen: bool, place: usize) -> bool
        requires { (1 ≤ place) × (place ≤ 8) }
        ensures { result ≡ whole_ok hexen (map_lumps self.now.wad.now self.now.dir.now self.now.marker) place }
    {
        self.lump(place).len() % record_table::record_size(hexen, place) == 0
    }

    // Without nodes the count of subsectors must be 1.
    fn alone_ok(&self, place: usize) -> bool
        ensures { result ≡ alone_ok (map_lumps self.now.wad.now self.now.dir.now self.now.marker) place }
    {
        !(place == Node::PLACE)
            | (0 < self.record_count(Node::PLACE, Node::SIZE))
            | (self.record_count(Subsector::PLACE, Subsector::SIZE) == 1)
    }

    fn record_count_ok(&self, hexen: bool, place: usize) -> bool
        requires { (1 ≤ place) × (place ≤ 8) }
        ensures { result ≡ record_count_ok hexen (map_lumps self.now.wad.now self.now.dir.now self.now.marker) place }
    {
        let count = self.record_count(place, record_table::record_size(hexen, place));
        (record_table::least_count(place) <= count)
            & (count <= record_table::most_count(place))
            & self.alone_ok(place)
    }

    fn judge_size(&self, hexen: bool, place: usize) -> Result<(), Refusal>
        requires { (1 ≤ place) × (place ≤ 8) }
        ensures { result ≡ size_check hexen (map_lumps self.now.wad.now self.now.dir.now self.now.marker) place }
    {
        refusal::pass_if(self.whole_ok(hexen, place), Refusal::RecordSize(place))?;
        refusal::pass_if(
            self.record_count_ok(hexen, place),
            Refusal::RecordCount(place),
        )
    }

    // 20 and 21, lump by lump, by the game's sizes.
    pub fn judge_sizes(&self, hexen: bool) -> Result<(), Refusal>
        ensures { result ≡ each_place (size_check hexen (map_lumps self.now.wad.now self.now.dir.now self.now.marker)) 8 }
    {
        refusal::judge_each(8, |i| self.judge_size(hexen, i + 1))
    }
}

// 22. The counts have passed, so that the square fits.
pub fn judge_reject(reject: usize, sectors: usize) -> Result<(), Refusal>
    requires { sectors ≤ 65535 }
    ensures { result ≡ unless (eqb reject (reject_size sectors)) RejectLength }
{
    refusal::pass_if(reject == (sectors * sectors + 7) / 8, Refusal::RejectLength)
}
