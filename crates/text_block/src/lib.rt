// The blocks of a text map (W-206): how many there are, which one is asked for, and the places of their fields' values.
// The definitions are in specs/.
#![tactic(auto)]

ghost use Rattle.std.specs.Prelude.{false, not, cond, ◌≡◌, length};
ghost use Rattle.text_block.specs.Blocks.{count_of, counted, is_full, is_asked, stops_there, stops_inside, no_places, stored, all_given};

use text_table::{Fallback, Scope};

// What is wanted next: a statement; `=` behind an identifier, from its first byte to the byte behind it; a value for a
// name of the scope, none for an unknown one; `;` behind the value at a place for such a name; or nothing more.
#[derive(Clone, Copy)]
pub enum Wanted {
    Statement,
    Equals(usize, usize),
    Value(Option<usize>),
    Semicolon(Option<usize>, usize),
    NoMore,
}

// Which block is asked for: none; a kind's block of a number; the first of a kind, and nothing behind it; or the first
// of any known kind, and nothing behind its opening brace.
#[derive(Clone, Copy)]
pub enum Asked {
    Nothing,
    Numbered(Scope, usize),
    First(Scope),
    Opening,
}

// How many blocks of each kind.
#[derive(Clone, Copy, Default)]
pub struct Counts {
    pub vertices: usize,
    pub linedefs: usize,
    pub sidedefs: usize,
    pub sectors: usize,
    pub things: usize,
}

// The most blocks of a kind.
const MOST_BLOCKS: usize = 65535;

// How many of a kind; none of another name is counted.
pub fn count_of(c: Counts, kind: Scope) -> usize
    ensures { result ≡ count_of c kind }
{
    match kind {
        Scope::Top => 0,
        Scope::Vertex => c.vertices,
        Scope::Linedef => c.linedefs,
        Scope::Sidedef => c.sidedefs,
        Scope::Sector => c.sectors,
        Scope::Thing => c.things,
        Scope::Unknown => 0,
    }
}

pub fn is_full(c: Counts, kind: Scope) -> bool
    ensures { result ≡ is_full c kind }
{
    MOST_BLOCKS <= count_of(c, kind)
}

// One more of a kind, which was not full where its block opened.
pub fn counted(c: Counts, kind: Scope) -> Counts
    requires { is_full c kind ≡ false }
    ensures { result ≡ counted c kind }
{
    let mut out = c;
    match kind {
        Scope::Top => {}
        Scope::Vertex => out.vertices += 1,
        Scope::Linedef => out.linedefs += 1,
        Scope::Sidedef => out.sidedefs += 1,
        Scope::Sector => out.sectors += 1,
        Scope::Thing => out.things += 1,
        Scope::Unknown => {}
    }
    out
}

// A block of a kind, with so many of its kind before it, is the one that is asked for.
pub fn is_asked(asked: Asked, kind: Scope, before: usize) -> bool
    ensures { result ≡ is_asked asked kind before }
{
    match asked {
        Asked::Numbered(of, number) => (of == kind) & (before == number),
        Asked::First(of) => of == kind,
        Asked::Nothing | Asked::Opening => false,
    }
}

// Nothing more is read behind it.
pub fn stops_there(asked: Asked) -> bool
    ensures { result ≡ stops_there asked }
{
    matches!(asked, Asked::First(_))
}

// Nothing more is read behind the opening brace of a block of this kind.
pub fn stops_inside(asked: Asked, kind: Scope) -> bool
    ensures { result ≡ stops_inside asked kind }
{
    match asked {
        Asked::Opening => kind != Scope::Unknown,
        _ => false,
    }
}

// The places are kept where the block that is asked for ends.
pub fn keep(ok: bool, places: &[usize; 34], kept: &mut [usize; 34])
    ensures { kept.new ≡ cond ok places.now kept.old }
{
    if ok {
        *kept = *places;
    }
}

// No field of a block has a value where it opens.
pub fn clear(ok: bool, places: &mut [usize; 34])
    requires { length places.old ≡ 34 }
    ensures places_after { places.new ≡ cond ok no_places places.old }
    ensures places_len { length places.new ≡ 34 }
{
    if ok {
        *places = [0; 34];
    }
}

// Of a field of the open block the place of its last value. That of an unknown field is passed over.
pub fn store(ok: bool, places: &mut [usize; 34], field: Option<usize>, place: usize)
    requires { length places.old ≡ 34 }
    ensures places_after { places.new ≡ cond ok (stored places.old field place) places.old }
    ensures places_len { length places.new ≡ 34 }
{
    if !ok {
        return;
    }
    if let Some(i) = field {
        if i < places.len() {
            places[i] = place;
        }
    }
}

// All fields of a kind have a value, or a default.
pub fn all_given(kind: Scope, places: &[usize; 34]) -> bool
    ensures { result ≡ all_given kind places.now }
{
    let fields = text_table::fields(kind);
    for (k, field) in fields.iter().enumerate() {
        if (field.default == Fallback::Required) & (places[k] == 0) {
            return false;
        }
    }
    true
}
