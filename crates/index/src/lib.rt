// The records of a name index (W-210): a name and an entry number, and which comes first. The definitions are in
// specs/.
#![tactic(auto)]

pub mod keys;
pub mod names;

ghost use Rattle.std.specs.Prelude.{◌≡◌, ◌+◌, ◌*◌, ◌<◌, ◌≤◌, length};
ghost use Rattle.index.specs.Records.{record_at, precedes};

// A name's eight bytes, zeros after the first zero, and the number of an entry that has it.
#[repr(C)]
#[derive(Clone, Copy, PartialEq, Eq, PartialOrd, Ord)]
pub struct IndexRecord {
    pub name: [u8; 8],
    pub number: u16,
}

// By the name's bytes, and then by the number: `a < b`, but a name's eight bytes are compared at once.
pub fn precedes(a: IndexRecord, b: IndexRecord) -> bool
    ensures { result ≡ precedes a b }
{
    let (x, y) = (keys::key_of(a.name), keys::key_of(b.name));
    (x < y) | (x == y) & (a.number < b.number)
}

// The record of entry `i` of a directory.
pub fn record_at(dir: &[u8], i: usize) -> IndexRecord
    requires { (16 * i + 16 ≤ length dir.now) × (i < 65536) }
    ensures { result ≡ record_at dir.now i }
{
    IndexRecord {
        name: names::padded(wad::part(dir, 16 * i + 8, 8)),
        number: i as u16,
    }
}
