// The checks of a map's lumps, each on the parts of the file that the directory names: refusals 20 to 30 in their order.
ghost use Rattle.std.specs.Prelude.{◌≡◌, Ok};
ghost use Rattle.record_linedef.specs.Linedefs.{linedef_size};
ghost use Rattle.record_table.specs.Lumps.{LINEDEFS, BLOCKMAP};
ghost use Rattle.map_blockmap.specs.Blockmap.{blockmap_check};
ghost use Rattle.map_lumps.specs.Lumps.{map_lumps, map_lump, record_count, each_place};
ghost use Rattle.map_lumps.specs.Sizes.{size_check, reject_check, sizes_check};
ghost use Rattle.map_check.specs.References.{linedefs_check, sidedefs_check, segs_check, subsectors_check, nodes_check, references_check};
ghost use Rattle.map_check.specs.Lumps.{work_check, lumps_check};

use map_blockmap::judge_blockmap;
use map_lumps::{MapLumps, judge_reject};
use map_reference::{judge_linedefs, judge_nodes, judge_segs, judge_sidedefs, judge_subsectors};
use record::{Node, Sector, Seg, Sidedef, Subsector, Vertex};
use record_field::GameRecord;
use record_linedef::Linedef;
use record_table::{BLOCKMAP, REJECT};
use refusal::Refusal;

// Each check below asks of other lumps and counts, so they are no twins.

// 22. The counts have passed.
fn check_reject(hexen: bool, lumps: &MapLumps) -> Result<(), Refusal>
    requires { each_place (size_check hexen (map_lumps lumps.now.wad.now lumps.now.dir.now lumps.now.marker)) 8 ≡ Ok tt }
    ensures { result ≡ reject_check (map_lumps lumps.now.wad.now lumps.now.dir.now lumps.now.marker) }
{
    judge_reject(
        lumps.lump(REJECT).len(),
        lumps.record_count(Sector::PLACE, Sector::SIZE),
    )
}

// 20 to 22.
fn check_sizes(hexen: bool, lumps: &MapLumps) -> Result<(), Refusal>
    ensures { result ≡ sizes_check hexen (map_lumps lumps.now.wad.now lumps.now.dir.now lumps.now.marker) }
{
    lumps.judge_sizes(hexen)?;
    check_reject(hexen, lumps)
}

fn check_linedefs(hexen: bool, lumps: &MapLumps) -> Result<(), Refusal>
    ensures { result ≡ linedefs_check hexen (map_lumps lumps.now.wad.now lumps.now.dir.now lumps.now.marker) }
{
    judge_linedefs(
        hexen,
        lumps.lump(Linedef::PLACE),
        lumps.record_count(Vertex::PLACE, Vertex::SIZE),
        lumps.record_count(Sidedef::PLACE, Sidedef::SIZE),
    )
}

fn check_sidedefs(lumps: &MapLumps) -> Result<(), Refusal>
    ensures { result ≡ sidedefs_check (map_lumps lumps.now.wad.now lumps.now.dir.now lumps.now.marker) }
{
    judge_sidedefs(
        lumps.lump(Sidedef::PLACE),
        lumps.record_count(Sector::PLACE, Sector::SIZE),
    )
}

fn check_segs(hexen: bool, lumps: &MapLumps) -> Result<(), Refusal>
    ensures { result ≡ segs_check hexen (map_lumps lumps.now.wad.now lumps.now.dir.now lumps.now.marker) }
{
    judge_segs(
        hexen,
        lumps.lump(Seg::PLACE),
        lumps.lump(Linedef::PLACE),
        lumps.record_count(Vertex::PLACE, Vertex::SIZE),
    )
}

fn check_subsectors(lumps: &MapLumps) -> Result<(), Refusal>
    ensures { result ≡ subsectors_check (map_lumps lumps.now.wad.now lumps.now.dir.now lumps.now.marker) }
{
    judge_subsectors(
        lumps.lump(Subsector::PLACE),
        lumps.record_count(Seg::PLACE, Seg::SIZE),
    )
}

fn check_nodes(lumps: &MapLumps) -> Result<(), Refusal>
    ensures { result ≡ nodes_check (map_lumps lumps.now.wad.now lumps.now.dir.now lumps.now.marker) }
{
    judge_nodes(
        lumps.lump(Node::PLACE),
        lumps.record_count(Subsector::PLACE, Subsector::SIZE),
    )
}

// 23 to 27.
fn check_references(hexen: bool, lumps: &MapLumps) -> Result<(), Refusal>
    ensures { result ≡ references_check hexen (map_lumps lumps.now.wad.now lumps.now.dir.now lumps.now.marker) }
{
    check_linedefs(hexen, lumps)?;
    check_sidedefs(lumps)?;
    check_segs(hexen, lumps)?;
    check_subsectors(lumps)?;
    check_nodes(lumps)
}

// 28.
fn check_blockmap(hexen: bool, lumps: &MapLumps) -> Result<(), Refusal>
    ensures { result ≡ blockmap_check (map_lump (map_lumps lumps.now.wad.now lumps.now.dir.now lumps.now.marker) BLOCKMAP)
        (record_count (map_lumps lumps.now.wad.now lumps.now.dir.now lumps.now.marker) LINEDEFS (linedef_size hexen)) }
{
    judge_blockmap(
        lumps.lump(BLOCKMAP),
        lumps.record_count(Linedef::PLACE, Linedef::size(hexen)),
    )
}

// 30. A quarter of the words, so that no product can wrap.
fn check_work(lumps: &MapLumps, words: usize) -> Result<(), Refusal>
    ensures { result ≡ work_check (map_lumps lumps.now.wad.now lumps.now.dir.now lumps.now.marker) words }
{
    refusal::pass_if(
        lumps.record_count(Node::PLACE, Node::SIZE) <= words / 4,
        Refusal::WorkWords,
    )
}

// 20 to 30.
pub fn check_lumps(hexen: bool, lumps: &MapLumps, words: usize) -> Result<(), Refusal>
    ensures { result ≡ lumps_check hexen (map_lumps lumps.now.wad.now lumps.now.dir.now lumps.now.marker) words }
{
    check_sizes(hexen, lumps)?;
    check_references(hexen, lumps)?;
    check_blockmap(hexen, lumps)?;
    check_work(lumps, words)
}
