// Why a record is refused (23 to 27): the first of its fields that is out of its range, each over one lump, read in
// place. The definitions are in specs/. Callers show that the counts are those that 21 lets pass.
#![tactic(auto)]

ghost use Rattle.std.specs.Prelude.{◌≡◌, ◌+◌, ◌/◌, ◌<◌, ◌≤◌, length};
ghost use Rattle.reason_range.specs.Fields.{FieldFits, field_at, fields_check, named_by};
ghost use Rattle.record_field.specs.Records.{record_bytes};
ghost use Rattle.record_linedef.specs.Linedefs.{linedef_size};
ghost use Rattle.record.specs.Sidedefs.{sidedef_size};
ghost use Rattle.record.specs.Segs.{seg_size};
ghost use Rattle.record.specs.Subsectors.{subsector_size};
ghost use Rattle.record.specs.Nodes.{node_size};
ghost use Rattle.node.specs.Nodes.{nodes_of};
ghost use Rattle.reason_record.specs.RecordFields.{Counted, number_at, left_fields, linedef_fields, sidedef_fields, seg_fields, subsector_fields, child_at, node_fields};

use map_reference::{DIRECTION, END, FIRST, FLAGS, LINEDEF, NUMBER, SECTOR, START};
use node::SUBSECTOR_BIT;
use reason_range::Field;
use record::{Node, Seg, Sidedef, Subsector};
use record_field::GameRecord;
use record_linedef::{Linedef, NO_SIDEDEF};

// Where a node's children stand.
const RIGHT: usize = 24;

const LEFT: usize = 26;

// Refused with the first field of a linedef that is out of its range. The game is a flag here and below, as C's functions take it.
pub fn check_linedef(
    hexen: bool,
    linedefs: &[u8],
    vertices: usize,
    sidedefs: usize,
    i: usize,
) -> Result<(), Field>
    requires { (i < length linedefs.now / linedef_size hexen) × Counted vertices × Counted sidedefs }
    ensures first { result
        ≡ fields_check (linedef_fields hexen (record_bytes linedefs.now (linedef_size hexen) i) vertices sidedefs) }
    ensures fits { FieldFits (named_by result) }
{
    let record = bytes_of(linedefs, Linedef::size(hexen), i);
    number_at(record, START, vertices).check()?;
    number_at(record, END, vertices).check()?;
    number_at(record, Linedef::right_offset(hexen), sidedefs).check()?;
    check_left(hexen, record, sidedefs)
}

// The left sidedef, unless it is absent and optional.
fn check_left(hexen: bool, record: &[u8], sidedefs: usize) -> Result<(), Field>
    requires { (length record.now ≡ linedef_size hexen) × Counted sidedefs }
    ensures first { result ≡ fields_check (left_fields hexen record.now sidedefs) }
    ensures fits { FieldFits (named_by result) }
{
    let left = number_at(record, Linedef::left_offset(hexen), sidedefs);
    let two_sided = map_reference::two_sided(endian::u16_at(record, FLAGS) as usize);
    if (left.number == NO_SIDEDEF) & !two_sided {
        return Ok(());
    }
    left.check()
}

// Of a sidedef.
pub fn check_sidedef(sidedefs: &[u8], sectors: usize, i: usize) -> Result<(), Field>
    requires { (i < length sidedefs.now / sidedef_size) × Counted sectors }
    ensures first { result ≡ fields_check (sidedef_fields (record_bytes sidedefs.now sidedef_size i) sectors) }
    ensures fits { FieldFits (named_by result) }
{
    number_at(bytes_of(sidedefs, Sidedef::SIZE, i), SECTOR, sectors).check()
}

// Of a seg.
pub fn check_seg(
    hexen: bool,
    segs: &[u8],
    linedefs: &[u8],
    vertices: usize,
    i: usize,
) -> Result<(), Field>
    requires { (i < length segs.now / seg_size) × Counted vertices × Counted (length linedefs.now / linedef_size hexen) }
    ensures first { result ≡ fields_check (seg_fields hexen linedefs.now (record_bytes segs.now seg_size i) vertices) }
    ensures fits { FieldFits (named_by result) }
{
    let record = bytes_of(segs, Seg::SIZE, i);
    number_at(record, START, vertices).check()?;
    number_at(record, END, vertices).check()?;
    let linedef = number_at(record, LINEDEF, linedefs.len() / Linedef::size(hexen));
    linedef.check()?;
    let most = usize::from(map_reference::left_ok(hexen, linedefs, linedef.number));
    field_at(record, DIRECTION, 0, most).check()
}

// Of a subsector. Where the number alone exceeds the segs it is named before the first.
pub fn check_subsector(subsectors: &[u8], segs: usize, i: usize) -> Result<(), Field>
    requires { (i < length subsectors.now / subsector_size) × Counted segs }
    ensures first { result ≡ fields_check (subsector_fields (record_bytes subsectors.now subsector_size i) segs) }
    ensures fits { FieldFits (named_by result) }
{
    let record = bytes_of(subsectors, Subsector::SIZE, i);
    let number = field_at(record, NUMBER, 1, segs);
    number.check()?;
    field_at(record, FIRST, 0, segs.saturating_sub(number.number)).check()
}

// Of a node.
pub fn check_node(nodes: &[u8], subsectors: usize, i: usize) -> Result<(), Field>
    requires { (i < nodes_of nodes.now) × (nodes_of nodes.now ≤ 65535) × Counted subsectors }
    ensures first { result ≡ fields_check (node_fields (record_bytes nodes.now node_size i) (nodes_of nodes.now) subsectors) }
    ensures fits { FieldFits (named_by result) }
{
    let record = bytes_of(nodes, Node::SIZE, i);
    let count = nodes.len() / Node::SIZE;
    child_at(record, RIGHT, count, subsectors).check()?;
    child_at(record, LEFT, count, subsectors).check()
}

// A child's range is its kind's.
fn child_at(record: &[u8], at: usize, nodes: usize, subsectors: usize) -> Field
    requires { (at + 1 < length record.now) × (length record.now ≤ 30) × Counted nodes × Counted subsectors }
    ensures { (result ≡ child_at record.now at nodes subsectors) × FieldFits result }
{
    if (endian::u16_at(record, at) as usize) < SUBSECTOR_BIT {
        return number_at(record, at, nodes);
    }
    field_at(record, at, SUBSECTOR_BIT, SUBSECTOR_BIT + subsectors - 1)
}

// The field at `at` of a record, which numbers one of `count` others.
fn number_at(record: &[u8], at: usize, count: usize) -> Field
    requires { (at + 1 < length record.now) × (length record.now ≤ 30) × Counted count }
    ensures { (result ≡ number_at record.now at count) × FieldFits result }
{
    field_at(record, at, 0, count - 1)
}

// The field at `at` of a record, where `least` to `most` is allowed.
fn field_at(record: &[u8], at: usize, least: usize, most: usize) -> Field
    requires { (at + 1 < length record.now) × (length record.now ≤ 30) × (least ≤ 65535) × (most ≤ 131071) }
    ensures { (result ≡ field_at record.now at least most) × FieldFits result }
{
    Field {
        offset: at,
        number: endian::u16_at(record, at) as usize,
        least,
        most,
    }
}

// The bytes of record i. Records of five sizes go through the functions above, which ask for the place of a field and for a record
// short enough to be numbered: a type for each size would be no plainer.
fn bytes_of(lump: &[u8], size: usize, i: usize) -> &[u8]
    requires { i < length lump.now / size }
    ensures { (result.now ≡ record_bytes lump.now size i) × (length result.now ≡ size) }
{
    &lump[size * i..size * i + size]
}
