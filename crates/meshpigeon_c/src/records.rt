// The eight kinds of map record, for C, read and written by number.
ghost use Rattle.std.specs.Prelude.{◌≡◌};
ghost use Rattle.record_thing.specs.Things.{thing_at};
ghost use Rattle.record_linedef.specs.Linedefs.{linedef_at};
ghost use Rattle.record.specs.Sidedefs.{sidedef_at};
ghost use Rattle.record.specs.Vertexes.{vertex_at};
ghost use Rattle.record.specs.Segs.{seg_at};
ghost use Rattle.record.specs.Subsectors.{subsector_at};
ghost use Rattle.record.specs.Nodes.{node_at};
ghost use Rattle.record.specs.Sectors.{sector_at};
ghost use Rattle.export_records.specs.Records.{thing_out, linedef_out, sidedef_out, vertex_out, seg_out, subsector_out, node_out, sector_out};
ghost use Rattle.export_records.specs.Records.{ThingWritten, LinedefWritten, SidedefWritten, VertexWritten, SegWritten, SubsectorWritten, NodeWritten, SectorWritten};

use export_records::{
    LinedefAnswer, NodeAnswer, SectorAnswer, SegAnswer, SidedefAnswer, SubsectorAnswer,
    ThingAnswer, VertexAnswer,
};
use record::{Node, Sector, Seg, Sidedef, Subsector, Vertex};
use record_linedef::Linedef;
use record_thing::Thing;
use refusal::Status;

// Record `index` of THINGS.
#[unsafe(no_mangle)]
pub extern "C" fn meshpigeon_read_thing(lump: &[u8], index: usize, hexen: bool) -> ThingAnswer
    ensures { result ≡ thing_out (thing_at hexen lump.now index) }
{
    export_records::meshpigeon_read_thing(lump, index, hexen)
}

// Record `index` of THINGS of its game replaced.
#[unsafe(no_mangle)]
pub extern "C" fn meshpigeon_write_thing(lump: &mut [u8], index: usize, thing: Thing) -> Status
    ensures { ThingWritten lump.old index thing result lump.new }
{
    export_records::meshpigeon_write_thing(lump, index, thing)
}

// Record `index` of LINEDEFS.
#[unsafe(no_mangle)]
pub extern "C" fn meshpigeon_read_linedef(lump: &[u8], index: usize, hexen: bool) -> LinedefAnswer
    ensures { result ≡ linedef_out (linedef_at hexen lump.now index) }
{
    export_records::meshpigeon_read_linedef(lump, index, hexen)
}

// Record `index` of LINEDEFS of its game replaced.
#[unsafe(no_mangle)]
pub extern "C" fn meshpigeon_write_linedef(
    lump: &mut [u8],
    index: usize,
    linedef: Linedef,
) -> Status
    ensures { LinedefWritten lump.old index linedef result lump.new }
{
    export_records::meshpigeon_write_linedef(lump, index, linedef)
}

// Record `index` of SIDEDEFS.
#[unsafe(no_mangle)]
pub extern "C" fn meshpigeon_read_sidedef(lump: &[u8], index: usize) -> SidedefAnswer
    ensures { result ≡ sidedef_out (sidedef_at lump.now index) }
{
    export_records::meshpigeon_read_sidedef(lump, index)
}

// Record `index` of SIDEDEFS replaced.
#[unsafe(no_mangle)]
pub extern "C" fn meshpigeon_write_sidedef(
    lump: &mut [u8],
    index: usize,
    sidedef: Sidedef,
) -> Status
    ensures { SidedefWritten lump.old index sidedef result lump.new }
{
    export_records::meshpigeon_write_sidedef(lump, index, sidedef)
}

// Record `index` of VERTEXES.
#[unsafe(no_mangle)]
pub extern "C" fn meshpigeon_read_vertex(lump: &[u8], index: usize) -> VertexAnswer
    ensures { result ≡ vertex_out (vertex_at lump.now index) }
{
    export_records::meshpigeon_read_vertex(lump, index)
}

// Record `index` of VERTEXES replaced.
#[unsafe(no_mangle)]
pub extern "C" fn meshpigeon_write_vertex(lump: &mut [u8], index: usize, vertex: Vertex) -> Status
    ensures { VertexWritten lump.old index vertex result lump.new }
{
    export_records::meshpigeon_write_vertex(lump, index, vertex)
}

// Record `index` of SEGS.
#[unsafe(no_mangle)]
pub extern "C" fn meshpigeon_read_seg(lump: &[u8], index: usize) -> SegAnswer
    ensures { result ≡ seg_out (seg_at lump.now index) }
{
    export_records::meshpigeon_read_seg(lump, index)
}

// Record `index` of SEGS replaced.
#[unsafe(no_mangle)]
pub extern "C" fn meshpigeon_write_seg(lump: &mut [u8], index: usize, seg: Seg) -> Status
    ensures { SegWritten lump.old index seg result lump.new }
{
    export_records::meshpigeon_write_seg(lump, index, seg)
}

// Record `index` of SSECTORS.
#[unsafe(no_mangle)]
pub extern "C" fn meshpigeon_read_subsector(lump: &[u8], index: usize) -> SubsectorAnswer
    ensures { result ≡ subsector_out (subsector_at lump.now index) }
{
    export_records::meshpigeon_read_subsector(lump, index)
}

// Record `index` of SSECTORS replaced.
#[unsafe(no_mangle)]
pub extern "C" fn meshpigeon_write_subsector(
    lump: &mut [u8],
    index: usize,
    subsector: Subsector,
) -> Status
    ensures { SubsectorWritten lump.old index subsector result lump.new }
{
    export_records::meshpigeon_write_subsector(lump, index, subsector)
}

// Record `index` of NODES.
#[unsafe(no_mangle)]
pub extern "C" fn meshpigeon_read_node(lump: &[u8], index: usize) -> NodeAnswer
    ensures { result ≡ node_out (node_at lump.now index) }
{
    export_records::meshpigeon_read_node(lump, index)
}

// Record `index` of NODES replaced.
#[unsafe(no_mangle)]
pub extern "C" fn meshpigeon_write_node(lump: &mut [u8], index: usize, node: Node) -> Status
    ensures { NodeWritten lump.old index node result lump.new }
{
    export_records::meshpigeon_write_node(lump, index, node)
}

// Record `index` of SECTORS.
#[unsafe(no_mangle)]
pub extern "C" fn meshpigeon_read_sector(lump: &[u8], index: usize) -> SectorAnswer
    ensures { result ≡ sector_out (sector_at lump.now index) }
{
    export_records::meshpigeon_read_sector(lump, index)
}

// Record `index` of SECTORS replaced.
#[unsafe(no_mangle)]
pub extern "C" fn meshpigeon_write_sector(lump: &mut [u8], index: usize, sector: Sector) -> Status
    ensures { SectorWritten lump.old index sector result lump.new }
{
    export_records::meshpigeon_write_sector(lump, index, sector)
}
