// A record of THINGS: a monster, an item or a start, of Doom's ten bytes or of Hexen's twenty.
#![tactic(auto)]

ghost use Rattle.std.specs.Prelude.{◌≡◌};
ghost use Rattle.std.proofs.Common.{lit<};
ghost use Rattle.record_thing.specs.Things.{thing_of, thing_fields_ok, thing_bytes, no_thing, ThingFits};
ghost use Rattle.record_thing.specs.Codecs.{thing, thing-good};

use record_field::GameRecord;

// What its game lacks is 0: id, height, action and arguments in Doom.
#[repr(C)]
#[derive(Clone, Copy)]
pub struct Thing {
    // Hexen's record, else Doom's: a flag and no enum, as C's struct has it
    pub hexen: bool,
    // scripts know it by this number
    pub id: i16,
    pub x: i16,
    pub y: i16,
    // above the floor
    pub height: i16,
    // degrees, 0 is east
    pub angle: u16,
    // the thing type, by its editor number
    pub kind: u16,
    pub flags: u16,
    // what it does, and the arguments of that
    pub action: u8,
    pub args: [u8; 5],
}

impl Thing {
    pub const SIZE: usize = 10;

    pub const HEXEN_SIZE: usize = 20;

    pub const PLACE: usize = 1;
}

impl GameRecord<{ Thing::SIZE }, { Thing::HEXEN_SIZE }> for Thing {
    ghost fields_of = { thing_of };

    ghost bytes_of = { thing_bytes };

    ghost fits = { ThingFits };

    ghost game_of = { λ t. t.hexen };

    ghost good = { thing_fields_ok };

    ghost some = { (lit< tt, lit< tt) };

    ghost few = { (lit< tt, lit< tt) };

    ghost lossless = { thing };

    ghost accepted = { λ hexen bytes h. thing-good hexen bytes };

    fn is_hexen(self) -> bool {
        self.hexen
    }

    fn fields_ok(self) -> bool {
        self.hexen
            | ((self.id == 0)
                & (self.height == 0)
                & (self.action == 0)
                & record_field::args_zero(self.args))
    }

    fn parse_doom(b: &[u8]) -> Thing {
        Thing {
            hexen: false,
            id: 0,
            x: endian::i16_at(b, 0),
            y: endian::i16_at(b, 2),
            height: 0,
            angle: endian::u16_at(b, 4),
            kind: endian::u16_at(b, 6),
            flags: endian::u16_at(b, 8),
            action: 0,
            args: [0; 5],
        }
    }

    fn parse_hexen(b: &[u8]) -> Thing {
        Thing {
            hexen: true,
            id: endian::i16_at(b, 0),
            x: endian::i16_at(b, 2),
            y: endian::i16_at(b, 4),
            height: endian::i16_at(b, 6),
            angle: endian::u16_at(b, 8),
            kind: endian::u16_at(b, 10),
            flags: endian::u16_at(b, 12),
            action: b[14],
            args: record_field::args_at(b, 15),
        }
    }

    fn doom_bytes(self) -> [u8; Thing::SIZE] {
        let mut out = [0; 10];
        endian::put_i16(&mut out, 0, self.x);
        endian::put_i16(&mut out, 2, self.y);
        endian::put_u16(&mut out, 4, self.angle);
        endian::put_u16(&mut out, 6, self.kind);
        endian::put_u16(&mut out, 8, self.flags);
        out
    }

    fn hexen_bytes(self) -> [u8; Thing::HEXEN_SIZE] {
        let mut out = [0; 20];
        endian::put_i16(&mut out, 0, self.id);
        endian::put_i16(&mut out, 2, self.x);
        endian::put_i16(&mut out, 4, self.y);
        endian::put_i16(&mut out, 6, self.height);
        endian::put_u16(&mut out, 8, self.angle);
        endian::put_u16(&mut out, 10, self.kind);
        endian::put_u16(&mut out, 12, self.flags);
        record_field::put_action(&mut out, 14, self.action, self.args);
        out
    }
}

// All 0, and so of Doom: what stands beside a refusal.
impl Default for Thing {
    ghost is_default = { λ t. t ≡ no_thing };

    fn default() -> Thing {
        Thing::parse_doom(&[0; Thing::SIZE])
    }
}
