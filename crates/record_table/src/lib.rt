// The table of a map's lumps, by their places after the marker, 1 to 10: C sees a refusal's place as this number, so that
// no enum stands for it.
#![tactic(auto)]

ghost use Rattle.std.specs.Prelude.{◌≡◌, ◌<◌, ◌≤◌, get_or};
ghost use Rattle.record_table.specs.Lumps.{lump_name, record_size, least_count, most_count, kinds, no_kind};

use record::{Node, Sector, Seg, Sidedef, Subsector, Vertex};
use record_linedef::Linedef;
use record_thing::Thing;

// The places of the two lumps without records; a kind of record carries its own.
pub const REJECT: usize = 9;

pub const BLOCKMAP: usize = 10;

// A lump's name, zero padded, and its record's size in bytes in Doom and in Hexen, 0 where it has no records.
#[derive(Clone, Copy)]
pub struct LumpRow {
    pub name: [u8; 8],
    pub size: usize,
    pub hexen_size: usize,
}

// THINGS to BLOCKMAP, as they follow the marker.
pub const LUMPS: [LumpRow; 10] = [
    LumpRow {
        name: *b"THINGS\0\0",
        size: Thing::SIZE,
        hexen_size: Thing::HEXEN_SIZE,
    },
    LumpRow {
        name: *b"LINEDEFS",
        size: Linedef::SIZE,
        hexen_size: Linedef::HEXEN_SIZE,
    },
    LumpRow {
        name: *b"SIDEDEFS",
        size: Sidedef::SIZE,
        hexen_size: Sidedef::SIZE,
    },
    LumpRow {
        name: *b"VERTEXES",
        size: Vertex::SIZE,
        hexen_size: Vertex::SIZE,
    },
    LumpRow {
        name: *b"SEGS\0\0\0\0",
        size: Seg::SIZE,
        hexen_size: Seg::SIZE,
    },
    LumpRow {
        name: *b"SSECTORS",
        size: Subsector::SIZE,
        hexen_size: Subsector::SIZE,
    },
    LumpRow {
        name: *b"NODES\0\0\0",
        size: Node::SIZE,
        hexen_size: Node::SIZE,
    },
    LumpRow {
        name: *b"SECTORS\0",
        size: Sector::SIZE,
        hexen_size: Sector::SIZE,
    },
    LumpRow {
        name: *b"REJECT\0\0",
        size: 0,
        hexen_size: 0,
    },
    LumpRow {
        name: *b"BLOCKMAP",
        size: 0,
        hexen_size: 0,
    },
];

// How many records the lump may have: the least and the most.
#[derive(Clone, Copy)]
pub struct CountRow(pub usize, pub usize);

// THINGS to SECTORS, a table of its own: REJECT and BLOCKMAP have no records to count, and in one table no row for that.
pub const COUNTS: [CountRow; 8] = [
    CountRow(0, 65535),
    CountRow(1, 65535),
    CountRow(1, 65535),
    CountRow(1, 65535),
    CountRow(1, 65535),
    CountRow(1, 32767),
    CountRow(0, 32767),
    CountRow(1, 65535),
];

// What a kind of record carries as constants of its type: place, size, and size in Hexen.
#[derive(Clone, Copy)]
pub struct KindRow(pub usize, pub usize, pub usize);

const KINDS: [KindRow; 8] = [
    KindRow(Thing::PLACE, Thing::SIZE, Thing::HEXEN_SIZE),
    KindRow(Linedef::PLACE, Linedef::SIZE, Linedef::HEXEN_SIZE),
    KindRow(Sidedef::PLACE, Sidedef::SIZE, Sidedef::SIZE),
    KindRow(Vertex::PLACE, Vertex::SIZE, Vertex::SIZE),
    KindRow(Seg::PLACE, Seg::SIZE, Seg::SIZE),
    KindRow(Subsector::PLACE, Subsector::SIZE, Subsector::SIZE),
    KindRow(Node::PLACE, Node::SIZE, Node::SIZE),
    KindRow(Sector::PLACE, Sector::SIZE, Sector::SIZE),
];

// The name of the lump at a place. A place is a number, 1 to 10, as refusals and C's answers have it.
pub fn lump_name(place: usize) -> [u8; 8]
    requires { (1 ≤ place) × (place ≤ 10) }
    ensures { result ≡ lump_name place }
{
    LUMPS[place - 1].name
}

// The size of its records by the game: a flag and no enum, as C's functions take it.
pub fn record_size(hexen: bool, place: usize) -> usize
    requires { (1 ≤ place) × (place ≤ 10) }
    ensures { result ≡ record_size hexen place }
{
    if hexen {
        return LUMPS[place - 1].hexen_size;
    }
    LUMPS[place - 1].size
}

// The least count of its records.
pub fn least_count(place: usize) -> usize
    requires { (1 ≤ place) × (place ≤ 8) }
    ensures { result ≡ least_count place }
{
    COUNTS[place - 1].0
}

// The most.
pub fn most_count(place: usize) -> usize
    requires { (1 ≤ place) × (place ≤ 8) }
    ensures { result ≡ most_count place }
{
    COUNTS[place - 1].1
}

// Place and sizes of each kind, in the order of their lumps.
pub fn kind_of(i: usize) -> KindRow
    requires { i < 8 }
    ensures { result ≡ get_or kinds i no_kind }
{
    KINDS[i]
}
