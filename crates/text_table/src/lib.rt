// The names that a text map knows, a table for each scope (W-206). The definitions are in specs/.
#![tactic(auto)]

mod field;
mod name;
mod scope;

ghost use Rattle.std.specs.Prelude.{◌≡◌, ◌≤◌, length, map};
ghost use Rattle.text_table.specs.Table.{fields_of};
ghost use Rattle.text_table.specs.Rows.{row_of};

pub use field::{Fallback, Field, Holds};
pub use name::{field_named, kind_named, zero_ids};
pub use scope::{Scope, scope_number};

// A name, what it holds, and what it is by default.
macro_rules! field {
    ($name:literal, $holds:ident, $default:ident) => {
        Field {
            name: $name,
            holds: Holds::$holds,
            default: Fallback::$default,
        }
    };
}

static GLOBALS: [Field; 1] = [Field {
    name: b"namespace",
    holds: Holds::String,
    default: Fallback::Zero,
}];

static VERTEX: [Field; 2] = [
    field!(b"x", Decimal, Required),
    field!(b"y", Decimal, Required),
];

static LINEDEF: [Field; 34] = [
    field!(b"id", Whole, ByNamespace),
    field!(b"v1", Whole, Required),
    field!(b"v2", Whole, Required),
    field!(b"blocking", Flag, Zero),
    field!(b"blockmonsters", Flag, Zero),
    field!(b"twosided", Flag, Zero),
    field!(b"dontpegtop", Flag, Zero),
    field!(b"dontpegbottom", Flag, Zero),
    field!(b"secret", Flag, Zero),
    field!(b"blocksound", Flag, Zero),
    field!(b"dontdraw", Flag, Zero),
    field!(b"mapped", Flag, Zero),
    field!(b"passuse", Flag, Zero),
    field!(b"translucent", Flag, Zero),
    field!(b"jumpover", Flag, Zero),
    field!(b"blockfloaters", Flag, Zero),
    field!(b"playercross", Flag, Zero),
    field!(b"playeruse", Flag, Zero),
    field!(b"monstercross", Flag, Zero),
    field!(b"monsteruse", Flag, Zero),
    field!(b"impact", Flag, Zero),
    field!(b"playerpush", Flag, Zero),
    field!(b"monsterpush", Flag, Zero),
    field!(b"missilecross", Flag, Zero),
    field!(b"repeatspecial", Flag, Zero),
    field!(b"special", Whole, Zero),
    field!(b"arg0", Whole, Zero),
    field!(b"arg1", Whole, Zero),
    field!(b"arg2", Whole, Zero),
    field!(b"arg3", Whole, Zero),
    field!(b"arg4", Whole, Zero),
    field!(b"sidefront", Whole, Required),
    field!(b"sideback", Whole, MinusOne),
    field!(b"comment", String, Zero),
];

static SIDEDEF: [Field; 7] = [
    field!(b"offsetx", Whole, Zero),
    field!(b"offsety", Whole, Zero),
    field!(b"texturetop", String, Zero),
    field!(b"texturebottom", String, Zero),
    field!(b"texturemiddle", String, Zero),
    field!(b"sector", Whole, Required),
    field!(b"comment", String, Zero),
];

static SECTOR: [Field; 8] = [
    field!(b"heightfloor", Whole, Zero),
    field!(b"heightceiling", Whole, Zero),
    field!(b"texturefloor", String, Required),
    field!(b"textureceiling", String, Required),
    field!(b"lightlevel", Whole, Light),
    field!(b"special", Whole, Zero),
    field!(b"id", Whole, Zero),
    field!(b"comment", String, Zero),
];

static THING: [Field; 31] = [
    field!(b"id", Whole, Zero),
    field!(b"x", Decimal, Required),
    field!(b"y", Decimal, Required),
    field!(b"height", Decimal, Zero),
    field!(b"angle", Whole, Zero),
    field!(b"type", Whole, Required),
    field!(b"skill1", Flag, Zero),
    field!(b"skill2", Flag, Zero),
    field!(b"skill3", Flag, Zero),
    field!(b"skill4", Flag, Zero),
    field!(b"skill5", Flag, Zero),
    field!(b"ambush", Flag, Zero),
    field!(b"single", Flag, Zero),
    field!(b"dm", Flag, Zero),
    field!(b"coop", Flag, Zero),
    field!(b"friend", Flag, Zero),
    field!(b"dormant", Flag, Zero),
    field!(b"class1", Flag, Zero),
    field!(b"class2", Flag, Zero),
    field!(b"class3", Flag, Zero),
    field!(b"standing", Flag, Zero),
    field!(b"strifeally", Flag, Zero),
    field!(b"translucent", Flag, Zero),
    field!(b"invisible", Flag, Zero),
    field!(b"special", Whole, Zero),
    field!(b"arg0", Whole, Zero),
    field!(b"arg1", Whole, Zero),
    field!(b"arg2", Whole, Zero),
    field!(b"arg3", Whole, Zero),
    field!(b"arg4", Whole, Zero),
    field!(b"comment", String, Zero),
];

// The names of a scope: at the top the global name, in a block the fields of its kind.
pub fn fields(scope: Scope) -> &'static [Field]
    ensures rows { map row_of result.now ≡ fields_of scope }
    ensures len { length result.now ≤ 34 }
{
    match scope {
        Scope::Top => &GLOBALS,
        Scope::Vertex => &VERTEX,
        Scope::Linedef => &LINEDEF,
        Scope::Sidedef => &SIDEDEF,
        Scope::Sector => &SECTOR,
        Scope::Thing => &THING,
        Scope::Unknown => &[],
    }
}
