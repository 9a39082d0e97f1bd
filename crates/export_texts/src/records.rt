// The records of blocks, as C and Rust are given them: with a refusal every field is 0. What the kinds share is `fields_by`. The rest
// of each function is its own reader of `text_record` and its own struct of C, which has no generic one.
ghost use Rattle.std.specs.Prelude.{◌≡◌, map};
ghost use Rattle.export_texts.specs.Answers.{vertex_out, linedef_out, sidedef_out, sector_out, thing_out};
ghost use Rattle.text_map.specs.Answers.{rows_by};
ghost use Rattle.text_table.specs.Rows.{row_of};

use refusal::{Refusal, Status};
use text_map::BlockFields;
use text_record::{TextLinedef, TextSector, TextSidedef, TextThing, TextVertex};
use text_table::{Field, Scope};

#[repr(C)]
#[derive(Clone, Copy)]
pub struct TextVertexAnswer {
    pub status: Status,
    pub vertex: TextVertex,
    pub next: usize,
}

#[repr(C)]
#[derive(Clone, Copy)]
pub struct TextLinedefAnswer {
    pub status: Status,
    pub linedef: TextLinedef,
    pub next: usize,
}

#[repr(C)]
#[derive(Clone, Copy)]
pub struct TextSidedefAnswer {
    pub status: Status,
    pub sidedef: TextSidedef,
    pub next: usize,
}

#[repr(C)]
#[derive(Clone, Copy)]
pub struct TextSectorAnswer {
    pub status: Status,
    pub sector: TextSector,
    pub next: usize,
}

#[repr(C)]
#[derive(Clone, Copy)]
pub struct TextThingAnswer {
    pub status: Status,
    pub thing: TextThing,
    pub next: usize,
}

pub fn vertex_by(text: &[u8], places: &[usize; 34], f: BlockFields) -> TextVertexAnswer
    ensures { result ≡ vertex_out text.now f places.now }
{
    TextVertexAnswer {
        status: Status::from(f.check),
        vertex: text_record::vertex_of(text, places),
        next: f.next,
    }
}

// The fields of a kind: none where the block is refused, so that every default is 0.
fn fields_by(kind: Scope, check: Result<(), Refusal>) -> &'static [Field]
    ensures { map row_of result.now ≡ rows_by kind check }
{
    match check {
        Ok(()) => text_table::fields(kind),
        Err(_) => &[],
    }
}

pub fn linedef_by(text: &[u8], id: i32, places: &[usize; 34], f: BlockFields) -> TextLinedefAnswer
    ensures { result ≡ linedef_out text.now id f places.now }
{
    let fields = fields_by(Scope::Linedef, f.check);
    TextLinedefAnswer {
        status: Status::from(f.check),
        linedef: text_record::linedef_of(text, fields, places, id),
        next: f.next,
    }
}

pub fn sidedef_by(text: &[u8], places: &[usize; 34], f: BlockFields) -> TextSidedefAnswer
    ensures { result ≡ sidedef_out text.now f places.now }
{
    let fields = fields_by(Scope::Sidedef, f.check);
    TextSidedefAnswer {
        status: Status::from(f.check),
        sidedef: text_record::sidedef_of(text, fields, places),
        next: f.next,
    }
}

pub fn sector_by(text: &[u8], places: &[usize; 34], f: BlockFields) -> TextSectorAnswer
    ensures { result ≡ sector_out text.now f places.now }
{
    let fields = fields_by(Scope::Sector, f.check);
    TextSectorAnswer {
        status: Status::from(f.check),
        sector: text_record::sector_of(text, fields, places),
        next: f.next,
    }
}

pub fn thing_by(text: &[u8], places: &[usize; 34], f: BlockFields) -> TextThingAnswer
    ensures { result ≡ thing_out text.now f places.now }
{
    let fields = fields_by(Scope::Thing, f.check);
    TextThingAnswer {
        status: Status::from(f.check),
        thing: text_record::thing_of(text, fields, places),
        next: f.next,
    }
}
