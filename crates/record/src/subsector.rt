// A record of SSECTORS: a row of segs.
ghost use Rattle.std.proofs.Common.{lit<};
ghost use Rattle.record.specs.Subsectors.{subsector_of, subsector_bytes, SubsectorFits};
ghost use Rattle.record.specs.BuiltCodecs.{subsector};

use record_field::Record;

#[repr(C)]
#[derive(Clone, Copy, Default)]
pub struct Subsector {
    // how many segs, and the number of the first
    pub number: u16,
    pub first: u16,
}

impl Subsector {
    pub const SIZE: usize = 4;

    pub const PLACE: usize = 6;
}

impl Record<{ Subsector::SIZE }> for Subsector {
    ghost fields_of = { subsector_of };

    ghost bytes_of = { subsector_bytes };

    ghost fits = { SubsectorFits };

    ghost some = { lit< tt };

    ghost few = { lit< tt };

    ghost lossless = { subsector };

    fn parse(b: &[u8]) -> Subsector {
        Subsector {
            number: endian::u16_at(b, 0),
            first: endian::u16_at(b, 2),
        }
    }

    fn bytes(self) -> [u8; Subsector::SIZE] {
        let mut out = [0; 4];
        endian::put_u16(&mut out, 0, self.number);
        endian::put_u16(&mut out, 2, self.first);
        out
    }
}
