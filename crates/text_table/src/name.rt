// A word's place among the names that a text map knows (W-206). The definitions are in specs/.
ghost use Rattle.std.specs.Prelude.{false, cond, ◌≡◌, eqb, length, get_or, position};
ghost use Rattle.text_byte.specs.Bytes.{lower};
ghost use Rattle.text_table.specs.Scopes.{scope_of};
ghost use Rattle.text_table.specs.Names.{every, letter_at, is_name, field_named, kind_named, zero_ids};

use crate::field::Field;
use crate::scope::Scope;
use text_byte as bytes;

// The kinds of block.
static KINDS: [&[u8]; 5] = [b"vertex", b"linedef", b"sidedef", b"sector", b"thing"];

// The namespaces whose linedefs have id 0 by default.
static ZERO_IDS: [&[u8]; 3] = [b"Doom", b"Heretic", b"Strife"];

// Which name of a scope the word is, if any.
pub fn field_named(scope: Scope, word: &[u8]) -> Option<usize>
    ensures { result ≡ field_named scope word.now }
{
    field_in(crate::fields(scope), word)
}

fn field_in(fields: &[Field], word: &[u8]) -> Option<usize>
    ensures { result ≡ position (λ f. is_name word.now false f.name.now) fields.now }
{
    fields.iter().position(|f| is_name(f.name, word, false))
}

// The kind of block that a word names.
pub fn kind_named(word: &[u8]) -> Scope
    ensures { result ≡ kind_named word.now }
{
    scope_of(name_in(&KINDS, word))
}

fn name_in(names: &[&[u8]], word: &[u8]) -> Option<usize>
    ensures { result ≡ position (λ n. is_name word.now false n.now) names.now }
{
    names.iter().position(|name| is_name(name, word, false))
}

fn scope_of(place: Option<usize>) -> Scope
    ensures { result ≡ scope_of place }
{
    match place {
        Some(0) => Scope::Vertex,
        Some(1) => Scope::Linedef,
        Some(2) => Scope::Sidedef,
        Some(3) => Scope::Sector,
        Some(4) => Scope::Thing,
        _ => Scope::Unknown,
    }
}

// Linedefs have id 0 by default in this namespace.
pub fn zero_ids(namespace: &[u8]) -> bool
    ensures { result ≡ zero_ids namespace.now }
{
    ZERO_IDS.iter().any(|name| is_name(name, namespace, true))
}

// The word is the name: as long, and the same letter by letter. The length tells most names apart.
fn is_name(name: &[u8], word: &[u8], exact: bool) -> bool
    ensures { result ≡ is_name word.now exact name.now }
{
    (name.len() == word.len()) && is_spelled(name, word, exact)
}

// From the last letter on, since names of one length differ there first. Only the word's letters are made small, so that
// eq_ignore_ascii_case would pass more.
fn is_spelled(name: &[u8], word: &[u8], exact: bool) -> bool
    requires { length word.now ≡ length name.now }
    ensures { result ≡ every (λ k. eqb (letter_at word.now exact k) (get_or name.now k 0)) (length word.now) }
{
    for k in (0..word.len()).rev() {
        if letter(exact, word[k]) != name[k] {
            return false;
        }
    }
    true
}

// A byte, small unless it is compared as it stands.
fn letter(exact: bool, b: u8) -> u8
    ensures { result ≡ cond exact b (lower b) }
{
    if exact { b } else { bytes::lower(b) }
}
