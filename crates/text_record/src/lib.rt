// The records of a text map (W-206): the fields of a block by document 002, in its order, read off the places of their values. The
// definitions are in specs/.
#![tactic(auto)]

mod given;

ghost use Rattle.std.specs.Prelude.{◌≡◌, map};
ghost use Rattle.text_table.specs.Table.{default_of};
ghost use Rattle.text_table.specs.Rows.{row_of};
ghost use Rattle.text_record.specs.Records.{text_vertex_of, text_linedef_of, text_sidedef_of, text_sector_of, text_thing_of};

pub use given::{Places, string_at};
use text_table::Field;

#[repr(C)]
#[derive(Clone, Copy)]
pub struct TextVertex {
    pub x: f64,
    pub y: f64,
}

#[repr(C)]
#[derive(Clone, Copy)]
pub struct TextLinedef {
    pub id: i32,
    pub v1: i32,
    pub v2: i32,
    pub blocking: bool,
    pub blockmonsters: bool,
    pub twosided: bool,
    pub dontpegtop: bool,
    pub dontpegbottom: bool,
    pub secret: bool,
    pub blocksound: bool,
    pub dontdraw: bool,
    pub mapped: bool,
    pub passuse: bool,
    pub translucent: bool,
    pub jumpover: bool,
    pub blockfloaters: bool,
    pub playercross: bool,
    pub playeruse: bool,
    pub monstercross: bool,
    pub monsteruse: bool,
    pub impact: bool,
    pub playerpush: bool,
    pub monsterpush: bool,
    pub missilecross: bool,
    pub repeatspecial: bool,
    pub special: i32,
    pub arg0: i32,
    pub arg1: i32,
    pub arg2: i32,
    pub arg3: i32,
    pub arg4: i32,
    pub sidefront: i32,
    pub sideback: i32,
    pub comment: Places,
}

#[repr(C)]
#[derive(Clone, Copy)]
pub struct TextSidedef {
    pub offsetx: i32,
    pub offsety: i32,
    pub texturetop: Places,
    pub texturebottom: Places,
    pub texturemiddle: Places,
    pub sector: i32,
    pub comment: Places,
}

#[repr(C)]
#[derive(Clone, Copy)]
pub struct TextSector {
    pub heightfloor: i32,
    pub heightceiling: i32,
    pub texturefloor: Places,
    pub textureceiling: Places,
    pub lightlevel: i32,
    pub special: i32,
    pub id: i32,
    pub comment: Places,
}

#[repr(C)]
#[derive(Clone, Copy)]
pub struct TextThing {
    pub id: i32,
    pub x: f64,
    pub y: f64,
    pub height: f64,
    pub angle: i32,
    // the field `type`, a word of the language
    pub kind: i32,
    pub skill1: bool,
    pub skill2: bool,
    pub skill3: bool,
    pub skill4: bool,
    pub skill5: bool,
    pub ambush: bool,
    pub single: bool,
    pub dm: bool,
    pub coop: bool,
    pub friend: bool,
    pub dormant: bool,
    pub class1: bool,
    pub class2: bool,
    pub class3: bool,
    pub standing: bool,
    pub strifeally: bool,
    pub translucent: bool,
    pub invisible: bool,
    pub special: i32,
    pub arg0: i32,
    pub arg1: i32,
    pub arg2: i32,
    pub arg3: i32,
    pub arg4: i32,
    pub comment: Places,
}

// Each of the five takes the places of a block's values, 0 for none; past their end there is none.
pub fn vertex_of(text: &[u8], places: &[usize; 34]) -> TextVertex
    ensures { result ≡ text_vertex_of text.now places.now }
{
    TextVertex {
        x: given::decimal_field(text, places, 0),
        y: given::decimal_field(text, places, 1),
    }
}

// The rest of the five take the fields of the kind too, for the defaults: past their end every default is 0. Of a linedef
// `id` is the default of its id where the namespace decides. The whole numbers come first, since they are those that
// ask for the fields.
pub fn linedef_of(text: &[u8], fields: &[Field], places: &[usize; 34], id: i32) -> TextLinedef
    ensures { result ≡ text_linedef_of text.now places.now (default_of (map row_of fields.now)) id }
{
    TextLinedef {
        id: given::whole_field(text, fields, places, id, 0),
        v1: given::whole_field(text, fields, places, id, 1),
        v2: given::whole_field(text, fields, places, id, 2),
        special: given::whole_field(text, fields, places, id, 25),
        arg0: given::whole_field(text, fields, places, id, 26),
        arg1: given::whole_field(text, fields, places, id, 27),
        arg2: given::whole_field(text, fields, places, id, 28),
        arg3: given::whole_field(text, fields, places, id, 29),
        arg4: given::whole_field(text, fields, places, id, 30),
        sidefront: given::whole_field(text, fields, places, id, 31),
        sideback: given::whole_field(text, fields, places, id, 32),
        blocking: given::flag_field(text, places, 3),
        blockmonsters: given::flag_field(text, places, 4),
        twosided: given::flag_field(text, places, 5),
        dontpegtop: given::flag_field(text, places, 6),
        dontpegbottom: given::flag_field(text, places, 7),
        secret: given::flag_field(text, places, 8),
        blocksound: given::flag_field(text, places, 9),
        dontdraw: given::flag_field(text, places, 10),
        mapped: given::flag_field(text, places, 11),
        passuse: given::flag_field(text, places, 12),
        translucent: given::flag_field(text, places, 13),
        jumpover: given::flag_field(text, places, 14),
        blockfloaters: given::flag_field(text, places, 15),
        playercross: given::flag_field(text, places, 16),
        playeruse: given::flag_field(text, places, 17),
        monstercross: given::flag_field(text, places, 18),
        monsteruse: given::flag_field(text, places, 19),
        impact: given::flag_field(text, places, 20),
        playerpush: given::flag_field(text, places, 21),
        monsterpush: given::flag_field(text, places, 22),
        missilecross: given::flag_field(text, places, 23),
        repeatspecial: given::flag_field(text, places, 24),
        comment: given::string_field(text, places, 33),
    }
}

pub fn sidedef_of(text: &[u8], fields: &[Field], places: &[usize; 34]) -> TextSidedef
    ensures { result ≡ text_sidedef_of text.now places.now (default_of (map row_of fields.now)) }
{
    TextSidedef {
        offsetx: given::whole_field(text, fields, places, 0, 0),
        offsety: given::whole_field(text, fields, places, 0, 1),
        texturetop: given::string_field(text, places, 2),
        texturebottom: given::string_field(text, places, 3),
        texturemiddle: given::string_field(text, places, 4),
        sector: given::whole_field(text, fields, places, 0, 5),
        comment: given::string_field(text, places, 6),
    }
}

pub fn sector_of(text: &[u8], fields: &[Field], places: &[usize; 34]) -> TextSector
    ensures { result ≡ text_sector_of text.now places.now (default_of (map row_of fields.now)) }
{
    TextSector {
        heightfloor: given::whole_field(text, fields, places, 0, 0),
        heightceiling: given::whole_field(text, fields, places, 0, 1),
        texturefloor: given::string_field(text, places, 2),
        textureceiling: given::string_field(text, places, 3),
        lightlevel: given::whole_field(text, fields, places, 0, 4),
        special: given::whole_field(text, fields, places, 0, 5),
        id: given::whole_field(text, fields, places, 0, 6),
        comment: given::string_field(text, places, 7),
    }
}

pub fn thing_of(text: &[u8], fields: &[Field], places: &[usize; 34]) -> TextThing
    ensures { result ≡ text_thing_of text.now places.now (default_of (map row_of fields.now)) }
{
    TextThing {
        id: given::whole_field(text, fields, places, 0, 0),
        angle: given::whole_field(text, fields, places, 0, 4),
        kind: given::whole_field(text, fields, places, 0, 5),
        special: given::whole_field(text, fields, places, 0, 24),
        arg0: given::whole_field(text, fields, places, 0, 25),
        arg1: given::whole_field(text, fields, places, 0, 26),
        arg2: given::whole_field(text, fields, places, 0, 27),
        arg3: given::whole_field(text, fields, places, 0, 28),
        arg4: given::whole_field(text, fields, places, 0, 29),
        x: given::decimal_field(text, places, 1),
        y: given::decimal_field(text, places, 2),
        height: given::decimal_field(text, places, 3),
        skill1: given::flag_field(text, places, 6),
        skill2: given::flag_field(text, places, 7),
        skill3: given::flag_field(text, places, 8),
        skill4: given::flag_field(text, places, 9),
        skill5: given::flag_field(text, places, 10),
        ambush: given::flag_field(text, places, 11),
        single: given::flag_field(text, places, 12),
        dm: given::flag_field(text, places, 13),
        coop: given::flag_field(text, places, 14),
        friend: given::flag_field(text, places, 15),
        dormant: given::flag_field(text, places, 16),
        class1: given::flag_field(text, places, 17),
        class2: given::flag_field(text, places, 18),
        class3: given::flag_field(text, places, 19),
        standing: given::flag_field(text, places, 20),
        strifeally: given::flag_field(text, places, 21),
        translucent: given::flag_field(text, places, 22),
        invisible: given::flag_field(text, places, 23),
        comment: given::string_field(text, places, 30),
    }
}
