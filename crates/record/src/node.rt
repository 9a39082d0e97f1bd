// A record of NODES: a line that parts the map in two, and what lies on its right and on its left.
ghost use Rattle.std.proofs.Common.{lit<};
ghost use Rattle.record.specs.Nodes.{node_of, node_bytes, NodeFits};
ghost use Rattle.record.specs.BuiltCodecs.{node};

use record_field::Record;

#[repr(C)]
#[derive(Clone, Copy, Default)]
pub struct Node {
    // a point of the line, and its direction
    pub x: i16,
    pub y: i16,
    pub dx: i16,
    pub dy: i16,
    // bounding boxes of the children: top, bottom, left, right
    pub right_box: [i16; 4],
    pub left_box: [i16; 4],
    // children: with bit 0x8000 a subsector, else a node
    pub right: u16,
    pub left: u16,
}

impl Node {
    pub const SIZE: usize = 28;

    pub const PLACE: usize = 7;
}

impl Record<{ Node::SIZE }> for Node {
    ghost fields_of = { node_of };

    ghost bytes_of = { node_bytes };

    ghost fits = { NodeFits };

    ghost some = { lit< tt };

    ghost few = { lit< tt };

    ghost lossless = { node };

    fn parse(b: &[u8]) -> Node {
        Node {
            x: endian::i16_at(b, 0),
            y: endian::i16_at(b, 2),
            dx: endian::i16_at(b, 4),
            dy: endian::i16_at(b, 6),
            right_box: record_field::four_at(b, 8),
            left_box: record_field::four_at(b, 16),
            right: endian::u16_at(b, 24),
            left: endian::u16_at(b, 26),
        }
    }

    fn bytes(self) -> [u8; Node::SIZE] {
        let mut out = [0; 28];
        endian::put_i16(&mut out, 0, self.x);
        endian::put_i16(&mut out, 2, self.y);
        endian::put_i16(&mut out, 4, self.dx);
        endian::put_i16(&mut out, 6, self.dy);
        record_field::put_four(&mut out, 8, self.right_box);
        record_field::put_four(&mut out, 16, self.left_box);
        endian::put_u16(&mut out, 24, self.right);
        endian::put_u16(&mut out, 26, self.left);
        out
    }
}
