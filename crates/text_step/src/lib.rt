// What a token of a text map does (W-206) where a statement, `=`, a value or `;` is wanted. The definitions are in specs/.
#![tactic(auto)]

ghost use Rattle.std.specs.Prelude.{false, cond, ◌≡◌, ◌≤◌, length, Err};
ghost use Rattle.refusal.specs.declared.Refusal.TheVariants.{TextGrammar, TextNumber};
ghost use Rattle.text_block.specs.Blocks.{is_full};
ghost use Rattle.text_value.specs.Values.{token_read};
ghost use Rattle.text_step.specs.Steps.{goes_on, refused_with, misfit, is_top, is_found, notes_after, wanted_after, closed_block, on_end, wanted_inside, opened_block, on_brace};
ghost use Rattle.text_step.specs.Steps.{held_by, serves, given_as, value_check, notes_assigned, on_semicolon};

use refusal::Refusal;
use text_block::{Asked, Counts, Wanted};
use text_table::{Holds, Scope};
use text_token::{Form, Token};
use text_value::{Misread, Value};

// What was noted so far: the place of the last namespace's value, 0 for none; the counts; and whether the block that is asked for was
// found, its kind, the place of its name, and the place behind it. Found is a flag beside what was found, and 0 no place, since theorems
// speak of them so: EndsAsked of `found`, SameStand of `kind`, LastNamespaceCounts of `namespace`, `block_check` and `fields_by` of the rest.
#[derive(Clone, Copy)]
pub struct Notes {
    pub namespace: usize,
    pub counts: Counts,
    pub found: bool,
    pub kind: Scope,
    pub block: usize,
    pub next: usize,
}

// How far a text was read: what is wanted next; in which scope, and where the open block's name stands; the place to go on; the
// refusal, if any; and what was noted. The check stands beside the values: PutBetween speaks of it, and of what was read before it.
#[derive(Clone, Copy)]
pub struct Parse {
    pub wanted: Wanted,
    pub scope: Scope,
    pub block: usize,
    pub at: usize,
    pub check: Result<(), Refusal>,
    pub notes: Notes,
}

// Behind a token that fits, in the same scope.
pub fn goes_on(s: Parse, t: Token, wanted: Wanted) -> Parse
    ensures { result ≡ goes_on s t wanted }
{
    Parse {
        wanted,
        at: t.next,
        check: Ok(()),
        ..s
    }
}

pub fn refused_with(s: Parse, r: Refusal) -> Parse
    ensures { result ≡ refused_with s r }
{
    Parse {
        wanted: Wanted::NoMore,
        check: Err(r),
        ..s
    }
}

fn misfit(s: Parse, t: Token) -> Parse
    ensures { result ≡ misfit s t }
{
    refused_with(s, Refusal::TextGrammar(t.start))
}

pub fn is_top(scope: Scope) -> bool
    ensures { result ≡ is_top scope }
{
    scope == Scope::Top
}

// No statement: in a block a closing brace may come, and at the top the text's end. (The kind of the open block was not full where it
// opened, so that it can be counted.)
pub fn on_end(asked: Asked, places: &[usize; 34], s: Parse, t: Token) -> Parse
    requires { is_full s.notes.counts s.scope ≡ false }
    ensures { result ≡ on_end asked places.now s t }
{
    let top = is_top(s.scope);
    if !top & (t.form == Form::CloseBrace) {
        return closed_block(asked, places, s, t);
    }
    if top & (t.form == Form::End) {
        return goes_on(s, t, Wanted::NoMore);
    }
    misfit(s, t)
}

// A closing brace: 92 there where a field without default is missing.
fn closed_block(asked: Asked, places: &[usize; 34], s: Parse, t: Token) -> Parse
    requires { is_full s.notes.counts s.scope ≡ false }
    ensures { result ≡ closed_block asked places.now s t }
{
    if text_block::all_given(s.scope, places) {
        return Parse {
            wanted: wanted_after(asked, s),
            scope: Scope::Top,
            block: 0,
            at: t.next,
            check: Ok(()),
            notes: notes_after(asked, s, t.next),
        };
    }
    refused_with(s, Refusal::TextField(t.start))
}

// The open block is the one that is asked for.
fn is_found(asked: Asked, s: Parse) -> bool
    ensures { result ≡ is_found asked s }
{
    text_block::is_asked(
        asked,
        s.scope,
        text_block::count_of(s.notes.counts, s.scope),
    )
}

fn wanted_after(asked: Asked, s: Parse) -> Wanted
    ensures { result ≡ wanted_after asked s }
{
    if text_block::stops_there(asked) & is_found(asked, s) {
        return Wanted::NoMore;
    }
    Wanted::Statement
}

// What is noted where the open block ends.
fn notes_after(asked: Asked, s: Parse, next: usize) -> Notes
    requires { is_full s.notes.counts s.scope ≡ false }
    ensures { result ≡ notes_after asked s next }
{
    let counts = text_block::counted(s.notes.counts, s.scope);
    if is_found(asked, s) {
        return Notes {
            counts,
            found: true,
            kind: s.scope,
            block: s.block,
            next,
            ..s.notes
        };
    }
    Notes { counts, ..s.notes }
}

// An opening brace behind a name at the top.
pub fn on_brace(asked: Asked, s: Parse, t: Token, start: usize, name: &[u8]) -> Parse
    ensures { result ≡ on_brace asked s t start name.now }
{
    if is_top(s.scope) & (t.form == Form::OpenBrace) {
        return opened_block(asked, s, t, start, text_table::kind_named(name));
    }
    misfit(s, t)
}

// A block of a kind opens: 93 at its name where there are too many.
fn opened_block(asked: Asked, s: Parse, t: Token, start: usize, kind: Scope) -> Parse
    ensures { result ≡ opened_block asked s t start kind }
{
    if text_block::is_full(s.notes.counts, kind) {
        return refused_with(s, Refusal::TextBlocks(start));
    }
    Parse {
        wanted: wanted_inside(asked, kind),
        scope: kind,
        block: start,
        at: t.next,
        check: Ok(()),
        ..s
    }
}

fn wanted_inside(asked: Asked, kind: Scope) -> Wanted
    ensures { result ≡ wanted_inside asked kind }
{
    if text_block::stops_inside(asked, kind) {
        return Wanted::NoMore;
    }
    Wanted::Statement
}

// A token where a value is wanted for a name of the scope, none for an unknown one.
pub fn judge_value(text: &[u8], scope: Scope, t: Token, field: Option<usize>) -> Result<(), Refusal>
    requires { (t.start ≤ t.end) × (t.end ≤ length text.now) }
    ensures { result ≡ value_check (held_by scope field) (token_read text.now t) t.start }
{
    let held = held_by(scope, field);
    value_check(held, text_value::read(text, t), t.start)
}

// What a name of a scope holds; none, which is anything, for an unknown one.
fn held_by(scope: Scope, field: Option<usize>) -> Option<Holds>
    ensures { result ≡ held_by scope field }
{
    text_table::fields(scope).get(field?).map(|f| f.holds)
}

// 90 for no value or one of the wrong kind, and 91 for a number past its limits where its kind is right.
fn value_check(
    held: Option<Holds>,
    reading: Result<Value, Misread>,
    at: usize,
) -> Result<(), Refusal>
    ensures { result ≡ value_check held reading at }
{
    match reading {
        Ok(v) => refusal::pass_if(serves(held, given_as(v)), Refusal::TextGrammar(at)),
        Err(Misread::WholePast) => past(serves(held, Holds::Whole), at),
        Err(Misread::DecimalPast) => past(serves(held, Holds::Decimal), at),
        Err(Misread::NoValue) => Err(Refusal::TextGrammar(at)),
    }
}

fn past(served: bool, at: usize) -> Result<(), Refusal>
    ensures { result ≡ Err (cond served (TextNumber at) (TextGrammar at)) }
{
    if served {
        return Err(Refusal::TextNumber(at));
    }
    Err(Refusal::TextGrammar(at))
}

fn given_as(v: Value) -> Holds
    ensures { result ≡ given_as v }
{
    match v {
        Value::Whole(_) => Holds::Whole,
        Value::Decimal(_) => Holds::Decimal,
        Value::Text(_, _) => Holds::String,
        Value::Flag(_) => Holds::Flag,
    }
}

// A whole number serves for a decimal.
fn serves(held: Option<Holds>, given: Holds) -> bool
    ensures { result ≡ serves held given }
{
    match held {
        Some(held) => (held == given) | ((held == Holds::Decimal) & (given == Holds::Whole)),
        None => true,
    }
}

// `;` behind a value.
pub fn on_semicolon(s: Parse, t: Token, field: Option<usize>, place: usize) -> Parse
    ensures { result ≡ on_semicolon s t field place }
{
    if t.form == Form::Semicolon {
        return Parse {
            wanted: Wanted::Statement,
            at: t.next,
            check: Ok(()),
            notes: notes_assigned(s, field, place),
            ..s
        };
    }
    misfit(s, t)
}

// The only name that the top knows is the namespace: the last one's value counts. One expression for both cases, so that the notes
// stay in registers.
fn notes_assigned(s: Parse, field: Option<usize>, place: usize) -> Notes
    ensures { result ≡ notes_assigned s field place }
{
    let named = is_top(s.scope) & field.is_some();
    Notes {
        namespace: if named { place } else { s.notes.namespace },
        ..s.notes
    }
}
