// A record of SIDEDEFS: what one side of a linedef shows, and the sector before it.
ghost use Rattle.std.proofs.Common.{lit<};
ghost use Rattle.record.specs.Sidedefs.{sidedef_of, sidedef_bytes, SidedefFits};
ghost use Rattle.record.specs.Codecs.{sidedef};

use record_field::Record;

#[repr(C)]
#[derive(Clone, Copy, Default)]
pub struct Sidedef {
    pub x_offset: i16,
    pub y_offset: i16,
    // texture names, eight raw bytes
    pub upper: [u8; 8],
    pub lower: [u8; 8],
    pub middle: [u8; 8],
    // number of a sector
    pub sector: u16,
}

impl Sidedef {
    pub const SIZE: usize = 30;

    pub const PLACE: usize = 3;
}

impl Record<{ Sidedef::SIZE }> for Sidedef {
    ghost fields_of = { sidedef_of };

    ghost bytes_of = { sidedef_bytes };

    ghost fits = { SidedefFits };

    ghost some = { lit< tt };

    ghost few = { lit< tt };

    ghost lossless = { sidedef };

    fn parse(b: &[u8]) -> Sidedef {
        Sidedef {
            x_offset: endian::i16_at(b, 0),
            y_offset: endian::i16_at(b, 2),
            upper: record_field::name_at(b, 4),
            lower: record_field::name_at(b, 12),
            middle: record_field::name_at(b, 20),
            sector: endian::u16_at(b, 28),
        }
    }

    fn bytes(self) -> [u8; Sidedef::SIZE] {
        let mut out = [0; 30];
        endian::put_i16(&mut out, 0, self.x_offset);
        endian::put_i16(&mut out, 2, self.y_offset);
        record_field::put_name(&mut out, 4, self.upper);
        record_field::put_name(&mut out, 12, self.lower);
        record_field::put_name(&mut out, 20, self.middle);
        endian::put_u16(&mut out, 28, self.sector);
        out
    }
}
