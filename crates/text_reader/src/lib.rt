// A text map read statement by statement (W-206): one loop over the whole text, up to its end, its first fault, or what
// is asked for. The definitions are in specs/: there a text is read token by token.
#![tactic(auto)]

ghost use Rattle.std.specs.Prelude.{false, ◌≡◌, length};
ghost use Rattle.text_block.specs.declared.Asked.{Asked};
ghost use Rattle.text_block.specs.declared.Wanted.TheVariants.{Statement, Equals, Value, Semicolon};
ghost use Rattle.text_block.specs.Blocks.{is_full, no_places};
ghost use Rattle.text_reader.specs.Texts.{stand, is_more, start_at, text_from};
ghost use Rattle.text_reader.specs.Inner.{Leads, ReadsOn, Rests};

use text_block::{Asked, Counts, Wanted};
use text_byte as bytes;
use text_step::{Notes, Parse};
use text_table::Scope;
use text_token::Form;

// The text from a place on: where its reading ended, and of each field of the block that was asked for the place of its
// last value, 0 for none: ValueCounts speaks of the places as numbers. The loop counts nothing: each statement says where the next begins.
pub fn read(text: &[u8], asked: Asked, from: usize, kept: &mut [usize; 34]) -> Parse
    requires { kept.old ≡ no_places }
    ensures value { result ≡ (text_from text.now asked from).parse }
    ensures kept_after { kept.new ≡ (text_from text.now asked from).kept }
{
    let mut s = start_at(from);
    let mut places = [0; 34];
    while is_more(s.wanted) {
        s = statement(text, asked, s, &mut places, kept);
    }
    s
}

// A whole statement, or what ends a block or the text.
fn statement(
    text: &[u8],
    asked: Asked,
    s: Parse,
    places: &mut [usize; 34],
    kept: &mut [usize; 34],
) -> Parse
    requires wanted_value { (s.wanted ≡ Statement) × (is_full s.notes.counts s.scope ≡ false) }
    requires places_len { length places.old ≡ 34 }
    ensures leads { Leads text.now asked (stand s places.old kept.old)
        (stand result places.new kept.new) }
    ensures rests { Rests result.wanted × (length places.new ≡ 34) }
{
    match text_name::name_at(text, s.at) {
        Ok(t) => {
            let named = text_step::goes_on(s, t, Wanted::Equals(t.start, t.end));
            behind_name(text, asked, named, t.start, t.end, places)
        }
        Err(t) => {
            let after = text_step::on_end(asked, places, s, t);
            text_block::keep(!s.notes.found & after.notes.found, places, kept);
            after
        }
    }
}

// Behind a name: `=` and what follows it, or an opening brace.
fn behind_name(
    text: &[u8],
    asked: Asked,
    s: Parse,
    start: usize,
    end: usize,
    places: &mut [usize; 34],
) -> Parse
    requires { (s.wanted ≡ Equals start end) × (length places.old ≡ 34) }
    ensures reads_on { ReadsOn text.now asked s places.old result places.new }
    ensures rests { Rests result.wanted × (length places.new ≡ 34) }
{
    let t = text_token::mark_at(text, s.at, bytes::EQUALS_SIGN);
    let name = text_token::bytes_of(text, start, end);
    if t.form == Form::EqualsSign {
        let field = text_table::field_named(s.scope, name);
        let given = text_step::goes_on(s, t, Wanted::Value(field));
        return behind_equals(text, given, field, places);
    }
    text_block::clear(t.form == Form::OpenBrace, places);
    text_step::on_brace(asked, s, t, start, name)
}

// Behind `=`: the value and what follows it.
fn behind_equals(text: &[u8], s: Parse, field: Option<usize>, places: &mut [usize; 34]) -> Parse
    requires { (s.wanted ≡ Value field) × (length places.old ≡ 34) }
    ensures reads_on { (asked : Asked) → ReadsOn text.now asked s places.old result places.new }
    ensures rests { Rests result.wanted × (length places.new ≡ 34) }
{
    let t = text_token::token_at(text, s.at);
    match text_step::judge_value(text, s.scope, t, field) {
        Ok(()) => {
            let judged = text_step::goes_on(s, t, Wanted::Semicolon(field, t.start));
            behind_value(text, judged, field, t.start, places)
        }
        Err(r) => text_step::refused_with(s, r),
    }
}

// Behind the value: `;`.
fn behind_value(
    text: &[u8],
    s: Parse,
    field: Option<usize>,
    place: usize,
    places: &mut [usize; 34],
) -> Parse
    requires { (s.wanted ≡ Semicolon field place) × (length places.old ≡ 34) }
    ensures reads_on { (asked : Asked) → ReadsOn text.now asked s places.old result places.new }
    ensures rests { Rests result.wanted × (length places.new ≡ 34) }
{
    let t = text_token::mark_at(text, s.at, bytes::SEMICOLON);
    text_block::store(t.form == Form::Semicolon, places, field, place);
    text_step::on_semicolon(s, t, field, place)
}

fn is_more(wanted: Wanted) -> bool
    ensures { result ≡ is_more wanted }
{
    !matches!(wanted, Wanted::NoMore)
}

// Before the statements from a place on.
fn start_at(from: usize) -> Parse
    ensures { result ≡ start_at from }
{
    let notes = Notes {
        namespace: 0,
        counts: Counts::default(),
        found: false,
        kind: Scope::Top,
        block: 0,
        next: 0,
    };
    Parse {
        wanted: Wanted::Statement,
        scope: Scope::Top,
        block: 0,
        at: from,
        check: Ok(()),
        notes,
    }
}
