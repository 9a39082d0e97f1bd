// Little-endian numbers of 16 and 32 bits, unsigned and signed, read out of bytes and written into them. The definitions
// are in specs/. Callers show that the bytes lie inside the slice: a type of a slice with a place in it would be built for each number.
#![tactic(auto)]

ghost use Rattle.std.specs.Prelude.{◌≡◌, ◌+◌, ◌<◌, length};
ghost use Rattle.endian.specs.Unsigned.{u16_at, u32_at, put_u16, put_u32};
ghost use Rattle.endian.specs.Signed.{signed, bits_of, i16_at, i32_at, between, natural};

pub fn u16_at(s: &[u8], at: usize) -> u16
    requires { at + 1 < length s.now }
    ensures { result ≡ u16_at s.now at }
{
    u16::from_le_bytes([s[at], s[at + 1]])
}

pub fn u32_at(s: &[u8], at: usize) -> u32
    requires { at + 3 < length s.now }
    ensures { result ≡ u32_at s.now at }
{
    u32::from_le_bytes([s[at], s[at + 1], s[at + 2], s[at + 3]])
}

// The signed number with the bits v.
pub fn signed16(v: u16) -> i16
    ensures { result ≡ signed 32768 v }
{
    v.cast_signed()
}

pub fn i16_at(s: &[u8], at: usize) -> i16
    requires { at + 1 < length s.now }
    ensures { result ≡ i16_at s.now at }
{
    signed16(u16_at(s, at))
}

// A signed number of four bytes as a count: 0 where it is negative.
pub fn natural_at(s: &[u8], at: usize) -> usize
    requires { at + 3 < length s.now }
    ensures { (result ≡ natural (i32_at s.now at)) × (result < 2147483648) }
{
    usize::try_from(u32_at(s, at).cast_signed()).unwrap_or(0)
}

// Whether a signed number of four bytes is least to most. Its bits tell: a negative number's are above every most.
pub fn between_at(s: &[u8], at: usize, least: usize, most: usize) -> bool
    requires { (at + 3 < length s.now) × (most < 2147483648) }
    ensures { result ≡ between (i32_at s.now at) least most }
{
    (least..=most).contains(&(u32_at(s, at) as usize))
}

// The bits of a signed number.
pub fn bits16(v: i16) -> u16
    ensures { result ≡ bits_of 32768 v }
{
    v.cast_unsigned()
}

pub fn put_u16(s: &mut [u8], at: usize, v: u16)
    requires { at + 1 < length s.old }
    ensures { s.new ≡ put_u16 s.old at v }
{
    let [low, high] = v.to_le_bytes();
    s[at] = low;
    s[at + 1] = high;
}

pub fn put_u32(s: &mut [u8], at: usize, v: u32)
    requires { at + 3 < length s.old }
    ensures { s.new ≡ put_u32 s.old at v }
{
    let [first, second, third, fourth] = v.to_le_bytes();
    s[at] = first;
    s[at + 1] = second;
    s[at + 2] = third;
    s[at + 3] = fourth;
}

pub fn put_i16(s: &mut [u8], at: usize, v: i16)
    requires { at + 1 < length s.old }
    ensures { s.new ≡ put_u16 s.old at (bits_of 32768 v) }
{
    put_u16(s, at, bits16(v));
}
