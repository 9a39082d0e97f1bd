// The field that a refusal 23 to 28 names (W-211), read in place in the map's lumps.
#![tactic(auto)]

ghost use Rattle.std.specs.Prelude.{◌≡◌, ◌<◌, ◌≤◌, true, if◌then◌else◌, IfSome, Ok, length};
ghost use Rattle.refusal.specs.Table.{number_of, record_of};
ghost use Rattle.wad.specs.Header.{most_bytes};
ghost use Rattle.reason_range.specs.Fields.{FieldFits, named_by};
ghost use Rattle.record_field.specs.Records.{record_bytes};
ghost use Rattle.record_linedef.specs.Linedefs.{linedef_size};
ghost use Rattle.record.specs.Sidedefs.{sidedef_size};
ghost use Rattle.record.specs.Vertexes.{vertex_size};
ghost use Rattle.record.specs.Sectors.{sector_size};
ghost use Rattle.record.specs.Segs.{seg_size};
ghost use Rattle.record.specs.Subsectors.{subsector_size};
ghost use Rattle.record.specs.Nodes.{node_size};
ghost use Rattle.record_table.specs.Lumps.{LINEDEFS, SIDEDEFS, SEGS, SSECTORS, NODES, BLOCKMAP};
ghost use Rattle.map_lumps.specs.Lumps.{map_lumps, map_lump, record_count, each_place};
ghost use Rattle.map_lumps.specs.Sizes.{size_check};
ghost use Rattle.reason_field.specs.Named.{field_ok, named_field};
ghost use Rattle.reason_field.specs.Naming.{Nameable};

use map_lumps::MapLumps;
use reason_range::Field;
use record::{Node, Sector, Seg, Sidedef, Subsector, Vertex};
use record_field::GameRecord;
use record_linedef::Linedef;
use record_table::BLOCKMAP;
use refusal::Refusal;

// The field that a refusal 23 to 28 names: the first that is out of its range. The other refusals name none.
pub fn named_field(hexen: bool, wad: &[u8], dir: &[u8], marker: usize, r: Refusal) -> Option<Field>
    requires { field_ok (number_of r) ≡ true → Nameable hexen wad.now dir.now marker (number_of r) (record_of r) }
    ensures value { result
        ≡ (if field_ok (number_of r) then Some (named_field hexen (map_lumps wad.now dir.now marker) (number_of r) (record_of r)) else None) }
    ensures fits { IfSome result (λ f. FieldFits f) }
{
    match r {
        Refusal::LinedefReference(i) => Some(of_linedef(hexen, &MapLumps { wad, dir, marker }, i)),
        Refusal::SidedefReference(i) => Some(of_sidedef(hexen, &MapLumps { wad, dir, marker }, i)),
        Refusal::SegReference(i) => Some(of_seg(hexen, &MapLumps { wad, dir, marker }, i)),
        Refusal::SubsectorReference(i) => Some(of_subsector(
            hexen,
            &MapLumps { wad, dir, marker },
            i,
        )),
        Refusal::NodeReference(i) => Some(of_node(hexen, &MapLumps { wad, dir, marker }, i)),
        Refusal::Blockmap(cell) => Some(of_blockmap(hexen, &MapLumps { wad, dir, marker }, cell)),
        _ => None,
    }
}

// The field that a check names; all 0 where it passes, as no record that is refused does.
fn named(check: Result<(), Field>) -> Field
    ensures { result ≡ named_by check }
{
    check.err().unwrap_or_default()
}

// Each kind of record has a check of its own over other lumps, so one function for all would be no plainer. That the counts have passed
// is known in each arm above alone, so no struct carries it: it would be built in each of them.
fn of_linedef(hexen: bool, lumps: &MapLumps, i: usize) -> Field
    requires counts { each_place (size_check hexen (map_lumps lumps.now.wad.now lumps.now.dir.now lumps.now.marker)) 8 ≡ Ok tt }
    requires i_bound { i < record_count (map_lumps lumps.now.wad.now lumps.now.dir.now lumps.now.marker) LINEDEFS (linedef_size hexen) }
    ensures { (result ≡ named_field hexen (map_lumps lumps.now.wad.now lumps.now.dir.now lumps.now.marker) 23 i) × FieldFits result }
{
    named(reason_record::check_linedef(
        hexen,
        lumps.lump(Linedef::PLACE),
        lumps.record_count(Vertex::PLACE, Vertex::SIZE),
        lumps.record_count(Sidedef::PLACE, Sidedef::SIZE),
        i,
    ))
}

fn of_sidedef(hexen: bool, lumps: &MapLumps, i: usize) -> Field
    requires counts { each_place (size_check hexen (map_lumps lumps.now.wad.now lumps.now.dir.now lumps.now.marker)) 8 ≡ Ok tt }
    requires i_bound { i < record_count (map_lumps lumps.now.wad.now lumps.now.dir.now lumps.now.marker) SIDEDEFS sidedef_size }
    ensures { (result ≡ named_field hexen (map_lumps lumps.now.wad.now lumps.now.dir.now lumps.now.marker) 24 i) × FieldFits result }
{
    named(reason_record::check_sidedef(
        lumps.lump(Sidedef::PLACE),
        lumps.record_count(Sector::PLACE, Sector::SIZE),
        i,
    ))
}

fn of_seg(hexen: bool, lumps: &MapLumps, i: usize) -> Field
    requires counts { each_place (size_check hexen (map_lumps lumps.now.wad.now lumps.now.dir.now lumps.now.marker)) 8 ≡ Ok tt }
    requires i_bound { i < record_count (map_lumps lumps.now.wad.now lumps.now.dir.now lumps.now.marker) SEGS seg_size }
    ensures { (result ≡ named_field hexen (map_lumps lumps.now.wad.now lumps.now.dir.now lumps.now.marker) 25 i) × FieldFits result }
{
    named(reason_record::check_seg(
        hexen,
        lumps.lump(Seg::PLACE),
        lumps.lump(Linedef::PLACE),
        lumps.record_count(Vertex::PLACE, Vertex::SIZE),
        i,
    ))
}

fn of_subsector(hexen: bool, lumps: &MapLumps, i: usize) -> Field
    requires counts { each_place (size_check hexen (map_lumps lumps.now.wad.now lumps.now.dir.now lumps.now.marker)) 8 ≡ Ok tt }
    requires i_bound { i < record_count (map_lumps lumps.now.wad.now lumps.now.dir.now lumps.now.marker) SSECTORS subsector_size }
    ensures { (result ≡ named_field hexen (map_lumps lumps.now.wad.now lumps.now.dir.now lumps.now.marker) 26 i) × FieldFits result }
{
    named(reason_record::check_subsector(
        lumps.lump(Subsector::PLACE),
        lumps.record_count(Seg::PLACE, Seg::SIZE),
        i,
    ))
}

fn of_node(hexen: bool, lumps: &MapLumps, i: usize) -> Field
    requires counts { each_place (size_check hexen (map_lumps lumps.now.wad.now lumps.now.dir.now lumps.now.marker)) 8 ≡ Ok tt }
    requires i_bound { i < record_count (map_lumps lumps.now.wad.now lumps.now.dir.now lumps.now.marker) NODES node_size }
    ensures { (result ≡ named_field hexen (map_lumps lumps.now.wad.now lumps.now.dir.now lumps.now.marker) 27 i) × FieldFits result }
{
    named(reason_record::check_node(
        lumps.lump(Node::PLACE),
        lumps.record_count(Subsector::PLACE, Subsector::SIZE),
        i,
    ))
}

fn of_blockmap(hexen: bool, lumps: &MapLumps, i: usize) -> Field
    requires counts { each_place (size_check hexen (map_lumps lumps.now.wad.now lumps.now.dir.now lumps.now.marker)) 8 ≡ Ok tt }
    requires marker_len_bound { length (map_lump (map_lumps lumps.now.wad.now lumps.now.dir.now lumps.now.marker) BLOCKMAP) ≤ most_bytes }
    ensures { (result ≡ named_field hexen (map_lumps lumps.now.wad.now lumps.now.dir.now lumps.now.marker) 28 i) × FieldFits result }
{
    named(reason_blockmap::offending(
        lumps.lump(BLOCKMAP),
        lumps.record_count(Linedef::PLACE, Linedef::size(hexen)),
        i,
    ))
}
