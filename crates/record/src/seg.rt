// A record of SEGS: a part of a linedef, along the edge of a subsector.
ghost use Rattle.std.proofs.Common.{lit<};
ghost use Rattle.record.specs.Segs.{seg_of, seg_bytes, SegFits};
ghost use Rattle.record.specs.BuiltCodecs.{seg};

use record_field::Record;

#[repr(C)]
#[derive(Clone, Copy, Default)]
pub struct Seg {
    // numbers of vertices
    pub start: u16,
    pub end: u16,
    pub angle: u16,
    // number of a linedef
    pub linedef: u16,
    // 0 along the linedef, 1 against it
    pub direction: u16,
    // distance along the linedef
    pub offset: i16,
}

impl Seg {
    pub const SIZE: usize = 12;

    pub const PLACE: usize = 5;
}

impl Record<{ Seg::SIZE }> for Seg {
    ghost fields_of = { seg_of };

    ghost bytes_of = { seg_bytes };

    ghost fits = { SegFits };

    ghost some = { lit< tt };

    ghost few = { lit< tt };

    ghost lossless = { seg };

    fn parse(b: &[u8]) -> Seg {
        Seg {
            start: endian::u16_at(b, 0),
            end: endian::u16_at(b, 2),
            angle: endian::u16_at(b, 4),
            linedef: endian::u16_at(b, 6),
            direction: endian::u16_at(b, 8),
            offset: endian::i16_at(b, 10),
        }
    }

    fn bytes(self) -> [u8; Seg::SIZE] {
        let mut out = [0; 12];
        endian::put_u16(&mut out, 0, self.start);
        endian::put_u16(&mut out, 2, self.end);
        endian::put_u16(&mut out, 4, self.angle);
        endian::put_u16(&mut out, 6, self.linedef);
        endian::put_u16(&mut out, 8, self.direction);
        endian::put_i16(&mut out, 10, self.offset);
        out
    }
}
