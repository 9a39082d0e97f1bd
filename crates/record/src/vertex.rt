// A record of VERTEXES: a point of the map.
ghost use Rattle.std.proofs.Common.{lit<};
ghost use Rattle.record.specs.Vertexes.{vertex_of, vertex_bytes, VertexFits};
ghost use Rattle.record.specs.Codecs.{vertex};

use record_field::Record;

#[repr(C)]
#[derive(Clone, Copy, Default)]
pub struct Vertex {
    pub x: i16,
    pub y: i16,
}

impl Vertex {
    pub const SIZE: usize = 4;

    pub const PLACE: usize = 4;
}

impl Record<{ Vertex::SIZE }> for Vertex {
    ghost fields_of = { vertex_of };

    ghost bytes_of = { vertex_bytes };

    ghost fits = { VertexFits };

    ghost some = { lit< tt };

    ghost few = { lit< tt };

    ghost lossless = { vertex };

    fn parse(b: &[u8]) -> Vertex {
        Vertex {
            x: endian::i16_at(b, 0),
            y: endian::i16_at(b, 2),
        }
    }

    fn bytes(self) -> [u8; Vertex::SIZE] {
        let mut out = [0; 4];
        endian::put_i16(&mut out, 0, self.x);
        endian::put_i16(&mut out, 2, self.y);
        out
    }
}
