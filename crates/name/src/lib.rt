// Names of eight bytes: which are good, which are the same, and which are a map's. What follows a name's first zero is not
// looked at. A name is a slice of eight bytes, as a directory and C have it: `as_array` would answer an Option that is never None.
#![tactic(auto)]

ghost use Rattle.std.specs.Prelude.{◌≡◌, length};
ghost use Rattle.name.specs.Names.{name_of, character_ok, name_ok, same_name, episode_name, low_name, high_name, map_name_ok};

// The characters of a name from `-` to `_`, a bit for each: `matches!` of their ranges tests up to four times for each character.
const CHARACTERS: u64 = 1688849859223545;

fn character_ok(c: u8) -> bool
    ensures { result ≡ character_ok c }
{
    if c < b'-' {
        return false;
    }
    if b'_' < c {
        return false;
    }
    (CHARACTERS >> ((c - b'-') as u64)) % 2 == 1
}

// One character or more before the zero, all of them good. A zero is no character, so that each byte is tested once.
pub fn name_ok(name: &[u8]) -> bool
    requires { length name.now ≡ 8 }
    ensures { result ≡ name_ok name.now }
{
    for (i, &c) in name.iter().enumerate() {
        if !character_ok(c) {
            return (0 < i) & (c == 0);
        }
    }
    true
}

// The same up to a zero that both have, or in all eight bytes: not `a == b`, which compares what follows the zero.
pub fn same_name(a: &[u8], b: &[u8]) -> bool
    requires { (length a.now ≡ 8) × (length b.now ≡ 8) }
    ensures { result ≡ same_name a.now b.now }
{
    for (x, y) in a.iter().zip(b) {
        if x != y {
            return false;
        }
        if *x == 0 {
            return true;
        }
    }
    true
}

// E, 1-9, M, 1-9
fn episode_name(name: &[u8]) -> bool
    requires { length name.now ≡ 8 }
    ensures { result ≡ episode_name (name_of name.now) }
{
    matches!(name, [b'E', b'1'..=b'9', b'M', b'1'..=b'9', 0, ..])
}

// MAP and 01 to 09
fn low_name(name: &[u8]) -> bool
    requires { length name.now ≡ 8 }
    ensures { result ≡ low_name (name_of name.now) }
{
    matches!(name, [b'M', b'A', b'P', b'0', b'1'..=b'9', 0, ..])
}

// MAP and 10 to 99
fn high_name(name: &[u8]) -> bool
    requires { length name.now ≡ 8 }
    ensures { result ≡ high_name (name_of name.now) }
{
    matches!(name, [b'M', b'A', b'P', b'1'..=b'9', b'0'..=b'9', 0, ..])
}

pub fn map_name_ok(name: &[u8]) -> bool
    ensures { result ≡ map_name_ok name.now }
{
    name.len() == 8 && (episode_name(name) || low_name(name) || high_name(name))
}
