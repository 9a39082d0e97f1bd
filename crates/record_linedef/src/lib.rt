// A record of LINEDEFS: a line between two vertices, with a sidedef on its right and perhaps one on its left, of Doom's
// fourteen bytes or of Hexen's sixteen.
#![tactic(auto)]

ghost use Rattle.std.specs.Prelude.{◌≡◌};
ghost use Rattle.std.proofs.Common.{lit<};
ghost use Rattle.record_linedef.specs.Linedefs.{right_offset, left_offset, linedef_of, linedef_fields_ok, linedef_bytes, no_linedef, LinedefFits};
ghost use Rattle.record_linedef.specs.Codecs.{linedef, linedef-good};

use record_field::GameRecord;

// As a sidedef's number: none. Sidedefs are counted up to 65,535, so that no sidedef has this number.
pub const NO_SIDEDEF: usize = 65535;

// What its game lacks is 0: the arguments in Doom, the tag in Hexen.
#[repr(C)]
#[derive(Clone, Copy)]
pub struct Linedef {
    // Hexen's record, else Doom's: a flag and no enum, as C's struct has it
    pub hexen: bool,
    // numbers of vertices
    pub start: u16,
    pub end: u16,
    pub flags: u16,
    // its action; at most 255 in Hexen
    pub special: u16,
    pub tag: u16,
    // of its action
    pub args: [u8; 5],
    // numbers of sidedefs, or NO_SIDEDEF
    pub right: u16,
    pub left: u16,
}

impl Linedef {
    pub const SIZE: usize = 14;

    pub const HEXEN_SIZE: usize = 16;

    pub const PLACE: usize = 2;

    // Where its right sidedef stands.
    pub fn right_offset(hexen: bool) -> usize
        ensures { result ≡ right_offset hexen }
    {
        if hexen { 12 } else { 10 }
    }

    // And its left one.
    pub fn left_offset(hexen: bool) -> usize
        ensures { result ≡ left_offset hexen }
    {
        if hexen { 14 } else { 12 }
    }
}

impl GameRecord<{ Linedef::SIZE }, { Linedef::HEXEN_SIZE }> for Linedef {
    ghost fields_of = { linedef_of };

    ghost bytes_of = { linedef_bytes };

    ghost fits = { LinedefFits };

    ghost game_of = { λ l. l.hexen };

    ghost good = { linedef_fields_ok };

    ghost some = { (lit< tt, lit< tt) };

    ghost few = { (lit< tt, lit< tt) };

    ghost lossless = { linedef };

    ghost accepted = { linedef-good };

    fn is_hexen(self) -> bool {
        self.hexen
    }

    // Hexen's special is a byte.
    fn fields_ok(self) -> bool {
        if self.hexen {
            return (self.special <= 255) & (self.tag == 0);
        }
        record_field::args_zero(self.args)
    }

    fn parse_doom(b: &[u8]) -> Linedef {
        Linedef {
            hexen: false,
            start: endian::u16_at(b, 0),
            end: endian::u16_at(b, 2),
            flags: endian::u16_at(b, 4),
            special: endian::u16_at(b, 6),
            tag: endian::u16_at(b, 8),
            args: [0; 5],
            right: endian::u16_at(b, 10),
            left: endian::u16_at(b, 12),
        }
    }

    fn parse_hexen(b: &[u8]) -> Linedef {
        Linedef {
            hexen: true,
            start: endian::u16_at(b, 0),
            end: endian::u16_at(b, 2),
            flags: endian::u16_at(b, 4),
            special: u16::from(b[6]),
            tag: 0,
            args: record_field::args_at(b, 7),
            right: endian::u16_at(b, 12),
            left: endian::u16_at(b, 14),
        }
    }

    fn doom_bytes(self) -> [u8; Linedef::SIZE] {
        let mut out = [0; 14];
        endian::put_u16(&mut out, 0, self.start);
        endian::put_u16(&mut out, 2, self.end);
        endian::put_u16(&mut out, 4, self.flags);
        endian::put_u16(&mut out, 6, self.special);
        endian::put_u16(&mut out, 8, self.tag);
        endian::put_u16(&mut out, 10, self.right);
        endian::put_u16(&mut out, 12, self.left);
        out
    }

    fn hexen_bytes(self) -> [u8; Linedef::HEXEN_SIZE] {
        let mut out = [0; 16];
        endian::put_u16(&mut out, 0, self.start);
        endian::put_u16(&mut out, 2, self.end);
        endian::put_u16(&mut out, 4, self.flags);
        record_field::put_action(&mut out, 6, (self.special % 256) as u8, self.args);
        endian::put_u16(&mut out, 12, self.right);
        endian::put_u16(&mut out, 14, self.left);
        out
    }
}

// All 0, and so of Doom: what stands beside a refusal.
impl Default for Linedef {
    ghost is_default = { λ l. l ≡ no_linedef };

    fn default() -> Linedef {
        Linedef::parse_doom(&[0; Linedef::SIZE])
    }
}
