// Text maps: the summary, the next block, and the records of blocks. An answer for each call: C has no generic struct.
#![tactic(auto)]

mod records;

ghost use Rattle.std.specs.Prelude.{◌≡◌};
ghost use Rattle.export_texts.specs.Answers.{summary_out, block_out, TextJudged, BlockFound};
ghost use Rattle.export_texts.specs.Answers.{VertexNumbered, LinedefNumbered, SidedefNumbered, SectorNumbered, ThingNumbered};
ghost use Rattle.export_texts.specs.Answers.{VertexFrom, LinedefFrom, SidedefFrom, SectorFrom, ThingFrom};

pub use records::{
    TextLinedefAnswer, TextSectorAnswer, TextSidedefAnswer, TextThingAnswer, TextVertexAnswer,
};
use refusal::{Refusal, Status};
use text_map::{TextBlock, TextSummary};
use text_table::Scope;

#[repr(C)]
#[derive(Clone, Copy)]
pub struct TextMapAnswer {
    pub status: Status,
    pub namespace_start: usize,
    pub namespace_end: usize,
    pub vertices: usize,
    pub linedefs: usize,
    pub sidedefs: usize,
    pub sectors: usize,
    pub things: usize,
}

#[repr(C)]
#[derive(Clone, Copy)]
pub struct TextBlockAnswer {
    pub status: Status,
    pub kind: u32,
    pub start: usize,
}

impl From<Result<TextSummary, Refusal>> for TextMapAnswer {
    ghost from_gives = { λ judged answer. answer ≡ summary_out judged };

    fn from(judged: Result<TextSummary, Refusal>) -> TextMapAnswer {
        match judged {
            Ok(s) => TextMapAnswer {
                status: Status::ACCEPTED,
                namespace_start: s.namespace.start,
                namespace_end: s.namespace.end,
                vertices: s.counts.vertices,
                linedefs: s.counts.linedefs,
                sidedefs: s.counts.sidedefs,
                sectors: s.counts.sectors,
                things: s.counts.things,
            },
            Err(r) => TextMapAnswer {
                status: Status::from(r),
                namespace_start: 0,
                namespace_end: 0,
                vertices: 0,
                linedefs: 0,
                sidedefs: 0,
                sectors: 0,
                things: 0,
            },
        }
    }
}

impl From<Result<TextBlock, Refusal>> for TextBlockAnswer {
    ghost from_gives = { λ found answer. answer ≡ block_out found };

    fn from(found: Result<TextBlock, Refusal>) -> TextBlockAnswer {
        match found {
            Ok(b) => TextBlockAnswer {
                status: Status::ACCEPTED,
                kind: b.kind,
                start: b.start,
            },
            Err(r) => TextBlockAnswer {
                status: Status::from(r),
                kind: 0,
                start: 0,
            },
        }
    }
}

// The namespace and how many blocks of each kind, 90 to 93.
#[unsafe(no_mangle)]
pub extern "C" fn meshpigeon_text_map(text: &[u8]) -> TextMapAnswer
    ensures { TextJudged text.now result }
{
    text_map::judge_text(text).into()
}

// The first block of a known kind among the statements from a place on, up to its opening brace, 90 to 94.
#[unsafe(no_mangle)]
pub extern "C" fn meshpigeon_text_block(text: &[u8], place: usize) -> TextBlockAnswer
    ensures { BlockFound text.now place result }
{
    text_map::next_block(text, place).into()
}

// Each kind's block of a number, 90 to 94.
#[unsafe(no_mangle)]
pub extern "C" fn meshpigeon_text_vertex(text: &[u8], number: usize) -> TextVertexAnswer
    ensures { VertexNumbered text.now number result }
{
    let mut places = [0; 34];
    let f = text_map::fields_numbered(text, Scope::Vertex, number, &mut places);
    records::vertex_by(text, &places, f)
}

#[unsafe(no_mangle)]
pub extern "C" fn meshpigeon_text_linedef(text: &[u8], number: usize) -> TextLinedefAnswer
    ensures { LinedefNumbered text.now number result }
{
    let mut places = [0; 34];
    let f = text_map::fields_numbered(text, Scope::Linedef, number, &mut places);
    let id = text_map::id_of(text, f.namespace);
    records::linedef_by(text, id, &places, f)
}

#[unsafe(no_mangle)]
pub extern "C" fn meshpigeon_text_sidedef(text: &[u8], number: usize) -> TextSidedefAnswer
    ensures { SidedefNumbered text.now number result }
{
    let mut places = [0; 34];
    let f = text_map::fields_numbered(text, Scope::Sidedef, number, &mut places);
    records::sidedef_by(text, &places, f)
}

#[unsafe(no_mangle)]
pub extern "C" fn meshpigeon_text_sector(text: &[u8], number: usize) -> TextSectorAnswer
    ensures { SectorNumbered text.now number result }
{
    let mut places = [0; 34];
    let f = text_map::fields_numbered(text, Scope::Sector, number, &mut places);
    records::sector_by(text, &places, f)
}

#[unsafe(no_mangle)]
pub extern "C" fn meshpigeon_text_thing(text: &[u8], number: usize) -> TextThingAnswer
    ensures { ThingNumbered text.now number result }
{
    let mut places = [0; 34];
    let f = text_map::fields_numbered(text, Scope::Thing, number, &mut places);
    records::thing_by(text, &places, f)
}

// The first block of each kind among the statements from a place on, 90 to 94.
#[unsafe(no_mangle)]
pub extern "C" fn meshpigeon_text_vertex_at(text: &[u8], place: usize) -> TextVertexAnswer
    ensures { VertexFrom text.now place result }
{
    let mut places = [0; 34];
    let f = text_map::fields_from(text, Scope::Vertex, place, &mut places);
    records::vertex_by(text, &places, f)
}

#[unsafe(no_mangle)]
pub extern "C" fn meshpigeon_text_linedef_at(
    text: &[u8],
    place: usize,
    namespace_start: usize,
    namespace_end: usize,
) -> TextLinedefAnswer
    ensures { LinedefFrom text.now place namespace_start namespace_end result }
{
    let id = text_map::id_by(text, namespace_start, namespace_end);
    let mut places = [0; 34];
    let f = text_map::fields_from(text, Scope::Linedef, place, &mut places);
    records::linedef_by(text, id, &places, f)
}

#[unsafe(no_mangle)]
pub extern "C" fn meshpigeon_text_sidedef_at(text: &[u8], place: usize) -> TextSidedefAnswer
    ensures { SidedefFrom text.now place result }
{
    let mut places = [0; 34];
    let f = text_map::fields_from(text, Scope::Sidedef, place, &mut places);
    records::sidedef_by(text, &places, f)
}

#[unsafe(no_mangle)]
pub extern "C" fn meshpigeon_text_sector_at(text: &[u8], place: usize) -> TextSectorAnswer
    ensures { SectorFrom text.now place result }
{
    let mut places = [0; 34];
    let f = text_map::fields_from(text, Scope::Sector, place, &mut places);
    records::sector_by(text, &places, f)
}

#[unsafe(no_mangle)]
pub extern "C" fn meshpigeon_text_thing_at(text: &[u8], place: usize) -> TextThingAnswer
    ensures { ThingFrom text.now place result }
{
    let mut places = [0; 34];
    let f = text_map::fields_from(text, Scope::Thing, place, &mut places);
    records::thing_by(text, &places, f)
}
