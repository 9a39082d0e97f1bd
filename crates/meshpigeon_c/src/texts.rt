// Text maps, for C: the summary, the next block, and the records of blocks.
ghost use Rattle.export_texts.specs.Answers.{TextJudged, BlockFound};
ghost use Rattle.export_texts.specs.Answers.{VertexNumbered, LinedefNumbered, SidedefNumbered, SectorNumbered, ThingNumbered};
ghost use Rattle.export_texts.specs.Answers.{VertexFrom, LinedefFrom, SidedefFrom, SectorFrom, ThingFrom};

use export_texts::{
    TextBlockAnswer, TextLinedefAnswer, TextMapAnswer, TextSectorAnswer, TextSidedefAnswer,
    TextThingAnswer, TextVertexAnswer,
};

// The namespace and how many blocks of each kind, 90 to 93.
#[unsafe(no_mangle)]
pub extern "C" fn meshpigeon_text_map(text: &[u8]) -> TextMapAnswer
    ensures { TextJudged text.now result }
{
    export_texts::meshpigeon_text_map(text)
}

// The first block of a known kind among the statements from a place on, up to its opening brace, 90 to 94.
#[unsafe(no_mangle)]
pub extern "C" fn meshpigeon_text_block(text: &[u8], place: usize) -> TextBlockAnswer
    ensures { BlockFound text.now place result }
{
    export_texts::meshpigeon_text_block(text, place)
}

// Each kind's block of a number, 90 to 94.
#[unsafe(no_mangle)]
pub extern "C" fn meshpigeon_text_vertex(text: &[u8], number: usize) -> TextVertexAnswer
    ensures { VertexNumbered text.now number result }
{
    export_texts::meshpigeon_text_vertex(text, number)
}

#[unsafe(no_mangle)]
pub extern "C" fn meshpigeon_text_linedef(text: &[u8], number: usize) -> TextLinedefAnswer
    ensures { LinedefNumbered text.now number result }
{
    export_texts::meshpigeon_text_linedef(text, number)
}

#[unsafe(no_mangle)]
pub extern "C" fn meshpigeon_text_sidedef(text: &[u8], number: usize) -> TextSidedefAnswer
    ensures { SidedefNumbered text.now number result }
{
    export_texts::meshpigeon_text_sidedef(text, number)
}

#[unsafe(no_mangle)]
pub extern "C" fn meshpigeon_text_sector(text: &[u8], number: usize) -> TextSectorAnswer
    ensures { SectorNumbered text.now number result }
{
    export_texts::meshpigeon_text_sector(text, number)
}

#[unsafe(no_mangle)]
pub extern "C" fn meshpigeon_text_thing(text: &[u8], number: usize) -> TextThingAnswer
    ensures { ThingNumbered text.now number result }
{
    export_texts::meshpigeon_text_thing(text, number)
}

// The first block of each kind among the statements from a place on, 90 to 94.
#[unsafe(no_mangle)]
pub extern "C" fn meshpigeon_text_vertex_at(text: &[u8], place: usize) -> TextVertexAnswer
    ensures { VertexFrom text.now place result }
{
    export_texts::meshpigeon_text_vertex_at(text, place)
}

#[unsafe(no_mangle)]
pub extern "C" fn meshpigeon_text_linedef_at(
    text: &[u8],
    place: usize,
    namespace_start: usize,
    namespace_end: usize,
) -> TextLinedefAnswer
    ensures { LinedefFrom text.now place namespace_start namespace_end result }
{
    export_texts::meshpigeon_text_linedef_at(text, place, namespace_start, namespace_end)
}

#[unsafe(no_mangle)]
pub extern "C" fn meshpigeon_text_sidedef_at(text: &[u8], place: usize) -> TextSidedefAnswer
    ensures { SidedefFrom text.now place result }
{
    export_texts::meshpigeon_text_sidedef_at(text, place)
}

#[unsafe(no_mangle)]
pub extern "C" fn meshpigeon_text_sector_at(text: &[u8], place: usize) -> TextSectorAnswer
    ensures { SectorFrom text.now place result }
{
    export_texts::meshpigeon_text_sector_at(text, place)
}

#[unsafe(no_mangle)]
pub extern "C" fn meshpigeon_text_thing_at(text: &[u8], place: usize) -> TextThingAnswer
    ensures { ThingFrom text.now place result }
{
    export_texts::meshpigeon_text_thing_at(text, place)
}
