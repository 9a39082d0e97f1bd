// A record of SECTORS: floor, ceiling and light of an area.
ghost use Rattle.std.proofs.Common.{lit<};
ghost use Rattle.record.specs.Sectors.{sector_of, sector_bytes, SectorFits};
ghost use Rattle.record.specs.Codecs.{sector};

use record_field::Record;

#[repr(C)]
#[derive(Clone, Copy, Default)]
pub struct Sector {
    // heights
    pub floor: i16,
    pub ceiling: i16,
    // flat names, eight raw bytes
    pub floor_flat: [u8; 8],
    pub ceiling_flat: [u8; 8],
    pub light: u16,
    pub special: u16,
    pub tag: u16,
}

impl Sector {
    pub const SIZE: usize = 26;

    pub const PLACE: usize = 8;
}

impl Record<{ Sector::SIZE }> for Sector {
    ghost fields_of = { sector_of };

    ghost bytes_of = { sector_bytes };

    ghost fits = { SectorFits };

    ghost some = { lit< tt };

    ghost few = { lit< tt };

    ghost lossless = { sector };

    fn parse(b: &[u8]) -> Sector {
        Sector {
            floor: endian::i16_at(b, 0),
            ceiling: endian::i16_at(b, 2),
            floor_flat: record_field::name_at(b, 4),
            ceiling_flat: record_field::name_at(b, 12),
            light: endian::u16_at(b, 20),
            special: endian::u16_at(b, 22),
            tag: endian::u16_at(b, 24),
        }
    }

    fn bytes(self) -> [u8; Sector::SIZE] {
        let mut out = [0; 26];
        endian::put_i16(&mut out, 0, self.floor);
        endian::put_i16(&mut out, 2, self.ceiling);
        record_field::put_name(&mut out, 4, self.floor_flat);
        record_field::put_name(&mut out, 12, self.ceiling_flat);
        endian::put_u16(&mut out, 20, self.light);
        endian::put_u16(&mut out, 22, self.special);
        endian::put_u16(&mut out, 24, self.tag);
        out
    }
}
