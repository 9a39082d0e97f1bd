// The references of a map's records to each other: refusals 23 to 27, each over one lump. Each lump's count is how many whole
// records it has. The definitions are in specs/.
#![tactic(auto)]

ghost use Rattle.std.specs.Prelude.{◌≡◌, ◌+◌, ◌*◌, ◌/◌, ◌<◌, ◌≤◌, ltb, length};
ghost use Rattle.endian.specs.Unsigned.{u16_at};
ghost use Rattle.refusal.specs.Checks.{each};
ghost use Rattle.record_field.specs.Records.{record_bytes};
ghost use Rattle.record_linedef.specs.Linedefs.{linedef_size, linedef_of};
ghost use Rattle.record.specs.Sidedefs.{sidedef_size, sidedef_of};
ghost use Rattle.record.specs.Segs.{seg_size, seg_of};
ghost use Rattle.record.specs.Subsectors.{subsector_size, subsector_of};
ghost use Rattle.record.specs.Nodes.{node_size};
ghost use Rattle.map_reference.specs.References.{two_sided, linedef_ok, left_ok, seg_ok, subsector_ok, linedef_check, sidedef_check, seg_check, subsector_check, node_check};

use record::{Node, Seg, Sidedef, Subsector};
use record_field::GameRecord;
use record_linedef::{Linedef, NO_SIDEDEF};
use refusal::Refusal;

// Where the fields stand in their records.
pub const START: usize = 0;

pub const END: usize = 2;

pub const FLAGS: usize = 4;

pub const SECTOR: usize = 28;

pub const LINEDEF: usize = 6;

pub const DIRECTION: usize = 8;

pub const NUMBER: usize = 0;

pub const FIRST: usize = 2;

// Whether a linedef's flags say that it is two-sided.
pub fn two_sided(flags: usize) -> bool
    ensures { result ≡ two_sided flags }
{
    flags / 4 % 2 == 1
}

// Each scan below is one statement over its own test and its own lumps, so they are no twins.

fn linedef_ok(hexen: bool, linedefs: &[u8], vertices: usize, sidedefs: usize, i: usize) -> bool
    requires { i < length linedefs.now / linedef_size hexen }
    ensures { result ≡ linedef_ok vertices sidedefs
        (linedef_of hexen (record_bytes linedefs.now (linedef_size hexen) i)) }
{
    let size = Linedef::size(hexen);
    let left = field(linedefs, size, i, Linedef::left_offset(hexen));
    (field(linedefs, size, i, START) < vertices)
        & (field(linedefs, size, i, END) < vertices)
        & (field(linedefs, size, i, Linedef::right_offset(hexen)) < sidedefs)
        & ((left == NO_SIDEDEF) | (left < sidedefs))
        & !(two_sided(field(linedefs, size, i, FLAGS)) & (left == NO_SIDEDEF))
}

pub fn judge_linedefs(
    hexen: bool,
    linedefs: &[u8],
    vertices: usize,
    sidedefs: usize,
) -> Result<(), Refusal>
    ensures { result ≡ each (linedef_check hexen linedefs.now vertices sidedefs)
        (length linedefs.now / linedef_size hexen) }
{
    refusal::judge_each(linedefs.len() / Linedef::size(hexen), |i| {
        refusal::pass_if(
            linedef_ok(hexen, linedefs, vertices, sidedefs, i),
            Refusal::LinedefReference(i),
        )
    })
}

fn sidedef_ok(sidedefs: &[u8], sectors: usize, i: usize) -> bool
    requires { i < length sidedefs.now / sidedef_size }
    ensures { result ≡ ltb (sidedef_of (record_bytes sidedefs.now sidedef_size i)).sector sectors }
{
    field(sidedefs, Sidedef::SIZE, i, SECTOR) < sectors
}

pub fn judge_sidedefs(sidedefs: &[u8], sectors: usize) -> Result<(), Refusal>
    ensures { result ≡ each (sidedef_check sidedefs.now sectors) (length sidedefs.now / sidedef_size) }
{
    refusal::judge_each(sidedefs.len() / Sidedef::SIZE, |i| {
        refusal::pass_if(
            sidedef_ok(sidedefs, sectors, i),
            Refusal::SidedefReference(i),
        )
    })
}

// Whether linedef i is there and has a left side.
pub fn left_ok(hexen: bool, linedefs: &[u8], i: usize) -> bool
    ensures { result ≡ left_ok hexen linedefs.now i }
{
    let size = Linedef::size(hexen);
    if i < linedefs.len() / size {
        return !(field(linedefs, size, i, Linedef::left_offset(hexen)) == NO_SIDEDEF);
    }
    false
}

fn seg_ok(hexen: bool, segs: &[u8], linedefs: &[u8], vertices: usize, i: usize) -> bool
    requires { i < length segs.now / seg_size }
    ensures { result ≡ seg_ok hexen linedefs.now vertices (seg_of (record_bytes segs.now seg_size i)) }
{
    let linedef = field(segs, Seg::SIZE, i, LINEDEF);
    let direction = field(segs, Seg::SIZE, i, DIRECTION);
    (field(segs, Seg::SIZE, i, START) < vertices)
        & (field(segs, Seg::SIZE, i, END) < vertices)
        & (linedef < linedefs.len() / Linedef::size(hexen))
        & ((direction == 0) | ((direction == 1) & left_ok(hexen, linedefs, linedef)))
}

pub fn judge_segs(hexen: bool, segs: &[u8], linedefs: &[u8], vertices: usize) -> Result<(), Refusal>
    ensures { result ≡ each (seg_check hexen segs.now linedefs.now vertices)
        (length segs.now / seg_size) }
{
    refusal::judge_each(segs.len() / Seg::SIZE, |i| {
        refusal::pass_if(
            seg_ok(hexen, segs, linedefs, vertices, i),
            Refusal::SegReference(i),
        )
    })
}

fn subsector_ok(subsectors: &[u8], segs: usize, i: usize) -> bool
    requires { i < length subsectors.now / subsector_size }
    ensures { result ≡ subsector_ok segs (subsector_of (record_bytes subsectors.now subsector_size i)) }
{
    let number = field(subsectors, Subsector::SIZE, i, NUMBER);
    (1 <= number) & (field(subsectors, Subsector::SIZE, i, FIRST) + number <= segs)
}

pub fn judge_subsectors(subsectors: &[u8], segs: usize) -> Result<(), Refusal>
    ensures { result ≡ each (subsector_check subsectors.now segs)
        (length subsectors.now / subsector_size) }
{
    refusal::judge_each(subsectors.len() / Subsector::SIZE, |i| {
        refusal::pass_if(
            subsector_ok(subsectors, segs, i),
            Refusal::SubsectorReference(i),
        )
    })
}

pub fn judge_nodes(nodes: &[u8], subsectors: usize) -> Result<(), Refusal>
    ensures { result ≡ each (node_check nodes.now subsectors) (length nodes.now / node_size) }
{
    refusal::judge_each(nodes.len() / Node::SIZE, |i| {
        refusal::pass_if(
            node::node_ok(nodes, subsectors, i),
            Refusal::NodeReference(i),
        )
    })
}

// The unsigned number at `at` of record i, read in place: lump, size and place of a field differ at each call.
pub fn field(lump: &[u8], size: usize, i: usize, at: usize) -> usize
    requires { (i < length lump.now / size) × (at + 1 < size) }
    ensures { (result ≡ u16_at (record_bytes lump.now size i) at) × (result < 65536) }
{
    endian::u16_at(lump, size * i + at) as usize
}
