// The eight kinds of map record, read and written by number: 60. Things and linedefs are read by their game, and say which
// they are of; a write of one may be refused 61. An answer for each kind: C has no generic struct.
#![tactic(auto)]

ghost use Rattle.std.specs.Prelude.{◌≡◌};
ghost use Rattle.record_thing.specs.Things.{thing_at};
ghost use Rattle.record_linedef.specs.Linedefs.{linedef_at};
ghost use Rattle.record.specs.Sidedefs.{sidedef_at};
ghost use Rattle.record.specs.Vertexes.{vertex_at};
ghost use Rattle.record.specs.Segs.{seg_at};
ghost use Rattle.record.specs.Subsectors.{subsector_at};
ghost use Rattle.record.specs.Nodes.{node_at};
ghost use Rattle.record.specs.Sectors.{sector_at};
ghost use Rattle.export_records.specs.Records.{thing_out, linedef_out, sidedef_out, vertex_out, seg_out, subsector_out, node_out, sector_out};
ghost use Rattle.export_records.specs.Records.{ThingWritten, LinedefWritten, SidedefWritten, VertexWritten, SegWritten, SubsectorWritten, NodeWritten, SectorWritten};

use record::{Node, Sector, Seg, Sidedef, Subsector, Vertex};
use record_field::{GameRecord, Record};
use record_linedef::Linedef;
use record_thing::Thing;
use refusal::{Refusal, Status};

#[repr(C)]
#[derive(Clone, Copy)]
pub struct ThingAnswer {
    pub status: Status,
    pub thing: Thing,
}

impl From<Result<Thing, Refusal>> for ThingAnswer {
    ghost from_gives = { λ read answer. answer ≡ thing_out read };

    fn from(read: Result<Thing, Refusal>) -> ThingAnswer {
        match read {
            Ok(thing) => ThingAnswer {
                status: Status::ACCEPTED,
                thing,
            },
            Err(r) => ThingAnswer {
                status: Status::from(r),
                thing: Thing::default(),
            },
        }
    }
}

// Record `index` of THINGS.
#[unsafe(no_mangle)]
pub extern "C" fn meshpigeon_read_thing(lump: &[u8], index: usize, hexen: bool) -> ThingAnswer
    ensures { result ≡ thing_out (thing_at hexen lump.now index) }
{
    ThingAnswer::from(Thing::read(lump, index, hexen))
}

// Record `index` of THINGS of its game replaced.
#[unsafe(no_mangle)]
pub extern "C" fn meshpigeon_write_thing(lump: &mut [u8], index: usize, thing: Thing) -> Status
    ensures { ThingWritten lump.old index thing result lump.new }
{
    Status::from(Thing::write(lump, index, thing))
}

#[repr(C)]
#[derive(Clone, Copy)]
pub struct LinedefAnswer {
    pub status: Status,
    pub linedef: Linedef,
}

impl From<Result<Linedef, Refusal>> for LinedefAnswer {
    ghost from_gives = { λ read answer. answer ≡ linedef_out read };

    fn from(read: Result<Linedef, Refusal>) -> LinedefAnswer {
        match read {
            Ok(linedef) => LinedefAnswer {
                status: Status::ACCEPTED,
                linedef,
            },
            Err(r) => LinedefAnswer {
                status: Status::from(r),
                linedef: Linedef::default(),
            },
        }
    }
}

// Record `index` of LINEDEFS.
#[unsafe(no_mangle)]
pub extern "C" fn meshpigeon_read_linedef(lump: &[u8], index: usize, hexen: bool) -> LinedefAnswer
    ensures { result ≡ linedef_out (linedef_at hexen lump.now index) }
{
    LinedefAnswer::from(Linedef::read(lump, index, hexen))
}

// Record `index` of LINEDEFS of its game replaced.
#[unsafe(no_mangle)]
pub extern "C" fn meshpigeon_write_linedef(
    lump: &mut [u8],
    index: usize,
    linedef: Linedef,
) -> Status
    ensures { LinedefWritten lump.old index linedef result lump.new }
{
    Status::from(Linedef::write(lump, index, linedef))
}

#[repr(C)]
#[derive(Clone, Copy)]
pub struct SidedefAnswer {
    pub status: Status,
    pub sidedef: Sidedef,
}

impl From<Result<Sidedef, Refusal>> for SidedefAnswer {
    ghost from_gives = { λ read answer. answer ≡ sidedef_out read };

    fn from(read: Result<Sidedef, Refusal>) -> SidedefAnswer {
        match read {
            Ok(sidedef) => SidedefAnswer {
                status: Status::ACCEPTED,
                sidedef,
            },
            Err(r) => SidedefAnswer {
                status: Status::from(r),
                sidedef: Sidedef::default(),
            },
        }
    }
}

// Record `index` of SIDEDEFS.
#[unsafe(no_mangle)]
pub extern "C" fn meshpigeon_read_sidedef(lump: &[u8], index: usize) -> SidedefAnswer
    ensures { result ≡ sidedef_out (sidedef_at lump.now index) }
{
    SidedefAnswer::from(Sidedef::read(lump, index))
}

// Record `index` of SIDEDEFS replaced.
#[unsafe(no_mangle)]
pub extern "C" fn meshpigeon_write_sidedef(
    lump: &mut [u8],
    index: usize,
    sidedef: Sidedef,
) -> Status
    ensures { SidedefWritten lump.old index sidedef result lump.new }
{
    Status::from(Sidedef::write(lump, index, sidedef))
}

#[repr(C)]
#[derive(Clone, Copy)]
pub struct VertexAnswer {
    pub status: Status,
    pub vertex: Vertex,
}

impl From<Result<Vertex, Refusal>> for VertexAnswer {
    ghost from_gives = { λ read answer. answer ≡ vertex_out read };

    fn from(read: Result<Vertex, Refusal>) -> VertexAnswer {
        match read {
            Ok(vertex) => VertexAnswer {
                status: Status::ACCEPTED,
                vertex,
            },
            Err(r) => VertexAnswer {
                status: Status::from(r),
                vertex: Vertex::default(),
            },
        }
    }
}

// Record `index` of VERTEXES.
#[unsafe(no_mangle)]
pub extern "C" fn meshpigeon_read_vertex(lump: &[u8], index: usize) -> VertexAnswer
    ensures { result ≡ vertex_out (vertex_at lump.now index) }
{
    VertexAnswer::from(Vertex::read(lump, index))
}

// Record `index` of VERTEXES replaced.
#[unsafe(no_mangle)]
pub extern "C" fn meshpigeon_write_vertex(lump: &mut [u8], index: usize, vertex: Vertex) -> Status
    ensures { VertexWritten lump.old index vertex result lump.new }
{
    Status::from(Vertex::write(lump, index, vertex))
}

#[repr(C)]
#[derive(Clone, Copy)]
pub struct SegAnswer {
    pub status: Status,
    pub seg: Seg,
}

impl From<Result<Seg, Refusal>> for SegAnswer {
    ghost from_gives = { λ read answer. answer ≡ seg_out read };

    fn from(read: Result<Seg, Refusal>) -> SegAnswer {
        match read {
            Ok(seg) => SegAnswer {
                status: Status::ACCEPTED,
                seg,
            },
            Err(r) => SegAnswer {
                status: Status::from(r),
                seg: Seg::default(),
            },
        }
    }
}

// Record `index` of SEGS.
#[unsafe(no_mangle)]
pub extern "C" fn meshpigeon_read_seg(lump: &[u8], index: usize) -> SegAnswer
    ensures { result ≡ seg_out (seg_at lump.now index) }
{
    SegAnswer::from(Seg::read(lump, index))
}

// Record `index` of SEGS replaced.
#[unsafe(no_mangle)]
pub extern "C" fn meshpigeon_write_seg(lump: &mut [u8], index: usize, seg: Seg) -> Status
    ensures { SegWritten lump.old index seg result lump.new }
{
    Status::from(Seg::write(lump, index, seg))
}

#[repr(C)]
#[derive(Clone, Copy)]
pub struct SubsectorAnswer {
    pub status: Status,
    pub subsector: Subsector,
}

impl From<Result<Subsector, Refusal>> for SubsectorAnswer {
    ghost from_gives = { λ read answer. answer ≡ subsector_out read };

    fn from(read: Result<Subsector, Refusal>) -> SubsectorAnswer {
        match read {
            Ok(subsector) => SubsectorAnswer {
                status: Status::ACCEPTED,
                subsector,
            },
            Err(r) => SubsectorAnswer {
                status: Status::from(r),
                subsector: Subsector::default(),
            },
        }
    }
}

// Record `index` of SSECTORS.
#[unsafe(no_mangle)]
pub extern "C" fn meshpigeon_read_subsector(lump: &[u8], index: usize) -> SubsectorAnswer
    ensures { result ≡ subsector_out (subsector_at lump.now index) }
{
    SubsectorAnswer::from(Subsector::read(lump, index))
}

// Record `index` of SSECTORS replaced.
#[unsafe(no_mangle)]
pub extern "C" fn meshpigeon_write_subsector(
    lump: &mut [u8],
    index: usize,
    subsector: Subsector,
) -> Status
    ensures { SubsectorWritten lump.old index subsector result lump.new }
{
    Status::from(Subsector::write(lump, index, subsector))
}

#[repr(C)]
#[derive(Clone, Copy)]
pub struct NodeAnswer {
    pub status: Status,
    pub node: Node,
}

impl From<Result<Node, Refusal>> for NodeAnswer {
    ghost from_gives = { λ read answer. answer ≡ node_out read };

    fn from(read: Result<Node, Refusal>) -> NodeAnswer {
        match read {
            Ok(node) => NodeAnswer {
                status: Status::ACCEPTED,
                node,
            },
            Err(r) => NodeAnswer {
                status: Status::from(r),
                node: Node::default(),
            },
        }
    }
}

// Record `index` of NODES.
#[unsafe(no_mangle)]
pub extern "C" fn meshpigeon_read_node(lump: &[u8], index: usize) -> NodeAnswer
    ensures { result ≡ node_out (node_at lump.now index) }
{
    NodeAnswer::from(Node::read(lump, index))
}

// Record `index` of NODES replaced.
#[unsafe(no_mangle)]
pub extern "C" fn meshpigeon_write_node(lump: &mut [u8], index: usize, node: Node) -> Status
    ensures { NodeWritten lump.old index node result lump.new }
{
    Status::from(Node::write(lump, index, node))
}

#[repr(C)]
#[derive(Clone, Copy)]
pub struct SectorAnswer {
    pub status: Status,
    pub sector: Sector,
}

impl From<Result<Sector, Refusal>> for SectorAnswer {
    ghost from_gives = { λ read answer. answer ≡ sector_out read };

    fn from(read: Result<Sector, Refusal>) -> SectorAnswer {
        match read {
            Ok(sector) => SectorAnswer {
                status: Status::ACCEPTED,
                sector,
            },
            Err(r) => SectorAnswer {
                status: Status::from(r),
                sector: Sector::default(),
            },
        }
    }
}

// Record `index` of SECTORS.
#[unsafe(no_mangle)]
pub extern "C" fn meshpigeon_read_sector(lump: &[u8], index: usize) -> SectorAnswer
    ensures { result ≡ sector_out (sector_at lump.now index) }
{
    SectorAnswer::from(Sector::read(lump, index))
}

// Record `index` of SECTORS replaced.
#[unsafe(no_mangle)]
pub extern "C" fn meshpigeon_write_sector(lump: &mut [u8], index: usize, sector: Sector) -> Status
    ensures { SectorWritten lump.old index sector result lump.new }
{
    Status::from(Sector::write(lump, index, sector))
}
