// The kinds of record: what reading and writing one by its number needs of a kind, said once for all of them.
ghost use Rattle.std.specs.Prelude.{◌≡◌, ◌≤◌, ◌<◌, ℕ, Bool, true, false, cond, List, length};
ghost use Rattle.endian.specs.Unsigned.{Bytes};
ghost use Rattle.record_field.specs.Records.{record_at, Written, WrittenIf};
ghost use Rattle.record_field.specs.Lossless.{Codec};

use crate::{inside_check, replace, replace_if};
use refusal::Refusal;

// A kind of record whose bytes lie alike in both games: N of them, its fields by them, and they by its fields.
pub trait Record<const N: usize>: Copy {
    ghost fields_of: { List ℕ → Self };

    ghost bytes_of: { Self → List ℕ };

    // which fields fit their widths
    ghost fits: { Self → Type 0 };

    // The fields of a record's bytes.
    fn parse(b: &[u8]) -> Self
        requires { N ≤ length b.now }
        ensures { result ≡ fields_of b.now };

    // The bytes of a record's fields.
    fn bytes(self) -> [u8; N]
        ensures { result ≡ bytes_of self };

    // N is no large number.
    ghost some: { 0 < N };

    ghost few: { N < 256 };

    // Fields and bytes determine each other.
    ghost lossless: { Codec N fields_of bytes_of fits };

    // Record `index` of a lump, or 60.
    final fn read(lump: &[u8], index: usize) -> Result<Self, Refusal>
        ensures { result ≡ record_at N fields_of lump.now index }
    {
        inside_check(lump, N, index)?;
        let at = N * index;
        Ok(Self::parse(&lump[at..at + N]))
    }

    // Record `index` of a lump replaced, or 60 and nothing written.
    final fn write(lump: &mut [u8], index: usize, fields: Self) -> Result<(), Refusal>
        ensures { Written lump.old N index (bytes_of fields) result lump.new }
    {
        let bytes = fields.bytes();
        replace(lump, N, index, &bytes)
    }
}

// A kind of record with a layout for each game. A record says which game it is of, and what that lacks is 0 in it.
pub trait GameRecord<const DOOM: usize, const HEXEN: usize>: Copy {
    // by the game, Hexen's if true
    ghost fields_of: { Bool → List ℕ → Self };

    ghost bytes_of: { Bool → Self → List ℕ };

    ghost fits: { Bool → Self → Type 0 };

    ghost game_of: { Self → Bool };

    ghost good: { Self → Bool };

    // Whether it is of Hexen.
    fn is_hexen(self) -> bool
        ensures { result ≡ game_of self };

    // Whether what the record's game lacks is 0.
    fn fields_ok(self) -> bool
        ensures { result ≡ good self };

    // The fields of a record's bytes in Doom's layout, and in Hexen's.
    fn parse_doom(b: &[u8]) -> Self
        requires { DOOM ≤ length b.now }
        ensures { result ≡ fields_of false b.now };

    fn parse_hexen(b: &[u8]) -> Self
        requires { HEXEN ≤ length b.now }
        ensures { result ≡ fields_of true b.now };

    // The bytes of a record's fields in Doom's layout, and in Hexen's.
    fn doom_bytes(self) -> [u8; DOOM]
        ensures { result ≡ bytes_of false self };

    fn hexen_bytes(self) -> [u8; HEXEN]
        ensures { result ≡ bytes_of true self };

    ghost some: { (0 < DOOM) × (0 < HEXEN) };

    ghost few: { (DOOM < 256) × (HEXEN < 256) };

    // In either game fields and bytes determine each other, and what was read is good.
    ghost lossless: { (hexen : Bool) → Codec (cond hexen HEXEN DOOM) (fields_of hexen) (bytes_of hexen) (fits hexen) };

    ghost accepted: { (hexen : Bool) (bytes : List ℕ) → Bytes bytes → good (fields_of hexen bytes) ≡ true };

    // The size of a record by its game: `hexen` is a flag here and below, as C's functions take it and C's structs have it.
    final fn size(hexen: bool) -> usize
        ensures { result ≡ cond hexen HEXEN DOOM }
    {
        if hexen { HEXEN } else { DOOM }
    }

    // The fields of a record's bytes.
    final fn parse(b: &[u8], hexen: bool) -> Self
        requires { cond hexen HEXEN DOOM ≤ length b.now }
        ensures { result ≡ fields_of hexen b.now }
    {
        if hexen {
            Self::parse_hexen(b)
        } else {
            Self::parse_doom(b)
        }
    }

    // Record `index` of a lump of the game, or 60.
    final fn read(lump: &[u8], index: usize, hexen: bool) -> Result<Self, Refusal>
        ensures { result ≡ record_at (cond hexen HEXEN DOOM) (fields_of hexen) lump.now index }
    {
        let size = Self::size(hexen);
        inside_check(lump, size, index)?;
        let at = size * index;
        Ok(Self::parse(&lump[at..at + size], hexen))
    }

    // Record `index` of a lump of its game replaced, or 60, then 61, and nothing written.
    final fn write(lump: &mut [u8], index: usize, fields: Self) -> Result<(), Refusal>
        ensures { WrittenIf (good fields) lump.old (cond (game_of fields) HEXEN DOOM) index
            (bytes_of (game_of fields) fields) result lump.new }
    {
        let good = fields.fields_ok();
        if fields.is_hexen() {
            let bytes = fields.hexen_bytes();
            return replace_if(good, lump, HEXEN, index, &bytes);
        }
        let bytes = fields.doom_bytes();
        replace_if(good, lump, DOOM, index, &bytes)
    }
}
