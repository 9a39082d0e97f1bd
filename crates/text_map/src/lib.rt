// What a text map answers (W-206): its namespace and counts; and a block, by its kind and number or from a place on.
// The definitions are in specs/.
#![tactic(auto)]

ghost use Rattle.std.specs.Prelude.{◌≡◌};
ghost use Rattle.text_table.specs.Scopes.{scope_number};
ghost use Rattle.text_token.specs.Tokens.{bytes_of};
ghost use Rattle.text_map.specs.Answers.{namespace_of, summary_by, text_answer, block_check, opened_check, block_by, block_answer};
ghost use Rattle.text_map.specs.Answers.{fields_by, block_fields, places_by, block_places, numbered, first_from, next_from, id_by, id_of};

use refusal::Refusal;
use text_block::{Asked, Counts};
use text_record::Places;
use text_step::Parse;
use text_table::Scope;

// The namespace's string, and how many blocks of each kind there are.
#[derive(Clone, Copy)]
pub struct TextSummary {
    pub namespace: Places,
    pub counts: Counts,
}

// A block: its kind, 1 to 5, and the place of its name. The kind is a number, as `block_by` has it, since export_texts hands it to C as
// it stands.
#[derive(Clone, Copy)]
pub struct TextBlock {
    pub kind: u32,
    pub start: usize,
}

// What a block's record is read from, beside the places of its values: the check, the place behind the block, and the
// namespace of what was read. The check stands beside the values: FoundBelowTheCount speaks of it, and `places_by` and `rows_by` take it
// alone.
#[derive(Clone, Copy)]
pub struct BlockFields {
    pub check: Result<(), Refusal>,
    pub next: usize,
    pub namespace: Places,
}

// The whole text judged: 90 to 93, or its namespace and counts.
pub fn judge_text(text: &[u8]) -> Result<TextSummary, Refusal>
    ensures { result ≡ text_answer text.now }
{
    let mut kept = [0; 34];
    let s = text_reader::read(text, Asked::Nothing, 0, &mut kept);
    summary_by(text, s)
}

fn summary_by(text: &[u8], s: Parse) -> Result<TextSummary, Refusal>
    ensures { result ≡ summary_by text.now s s.check }
{
    s.check?;
    Ok(TextSummary {
        namespace: namespace_of(text, s),
        counts: s.notes.counts,
    })
}

fn namespace_of(text: &[u8], s: Parse) -> Places
    ensures { result ≡ namespace_of text.now s }
{
    text_record::string_at(text, s.notes.namespace)
}

// 94 comes last.
fn block_check(s: Parse) -> Result<(), Refusal>
    ensures { result ≡ block_check s }
{
    s.check?;
    refusal::pass_if(s.notes.found, Refusal::TextMissing)
}

// The first block of a known kind among the statements from a place on. Its fields are not read.
pub fn next_block(text: &[u8], place: usize) -> Result<TextBlock, Refusal>
    ensures { result ≡ block_answer (next_from text.now place) }
{
    let mut kept = [0; 34];
    let s = text_reader::read(text, Asked::Opening, place, &mut kept);
    block_by(s)
}

// 94 comes last.
fn opened_check(s: Parse) -> Result<(), Refusal>
    ensures { result ≡ opened_check s }
{
    s.check?;
    refusal::pass_if(!text_step::is_top(s.scope), Refusal::TextMissing)
}

fn block_by(s: Parse) -> Result<TextBlock, Refusal>
    ensures { result ≡ block_by s (opened_check s) }
{
    opened_check(s)?;
    Ok(TextBlock {
        kind: kind_of(s.scope),
        start: s.block,
    })
}

fn kind_of(kind: Scope) -> u32
    ensures { result ≡ scope_number kind }
{
    text_table::scope_number(kind) as u32
}

// What the record of block `number` of a kind is read from, after the whole text was judged, and of each field the
// place of its last value.
pub fn fields_numbered(
    text: &[u8],
    kind: Scope,
    number: usize,
    places: &mut [usize; 34],
) -> BlockFields
    ensures value { result ≡ block_fields text.now (numbered text.now kind number) }
    ensures places_after { places.new ≡ block_places (numbered text.now kind number) }
{
    *places = [0; 34];
    let s = text_reader::read(text, Asked::Numbered(kind, number), 0, places);
    fields_by(text, s, places)
}

// The same of the first block of a kind among the statements from a place on.
pub fn fields_from(text: &[u8], kind: Scope, place: usize, places: &mut [usize; 34]) -> BlockFields
    ensures value { result ≡ block_fields text.now (first_from text.now kind place) }
    ensures places_after { places.new ≡ block_places (first_from text.now kind place) }
{
    *places = [0; 34];
    let s = text_reader::read(text, Asked::First(kind), place, places);
    fields_by(text, s, places)
}

fn fields_by(text: &[u8], s: Parse, kept: &mut [usize; 34]) -> BlockFields
    ensures value { result ≡ fields_by text.now s (block_check s) }
    ensures kept_after { kept.new ≡ places_by kept.old (block_check s) }
{
    match block_check(s) {
        Ok(()) => BlockFields {
            check: Ok(()),
            next: s.notes.next,
            namespace: namespace_of(text, s),
        },
        Err(r) => {
            *kept = [0; 34];
            BlockFields {
                check: Err(r),
                next: 0,
                namespace: Places { start: 0, end: 0 },
            }
        }
    }
}

// A linedef's id by default, by the namespace of a summary or of a block's fields.
pub fn id_of(text: &[u8], namespace: Places) -> i32
    ensures { result ≡ id_of text.now namespace }
{
    id_by(text, namespace.start, namespace.end)
}

// The same for any two places: of bytes past the text's end there are none.
pub fn id_by(text: &[u8], start: usize, end: usize) -> i32
    ensures { result ≡ id_by (bytes_of text.now start end) }
{
    if text_table::zero_ids(text_token::bytes_of(text, start, end)) {
        0
    } else {
        -1
    }
}
