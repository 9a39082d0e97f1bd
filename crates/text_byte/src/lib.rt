// Which bytes are what in a text map (W-206). The definitions are in specs/.
#![tactic(auto)]

ghost use Rattle.std.specs.Prelude.{◌≡◌, ◌+◌, ◌-◌, ◌≤◌, ◌<◌, ℕ, Bool, length, get_or};
ghost use Rattle.text_byte.specs.Bytes.{is_blank, is_mark, opens_line, opens_comment, ends_word, is_digit, is_hex_digit, is_letter, is_name_byte, lower};
ghost use Rattle.text_byte.specs.Spans.{span_end, other_at};
ghost use Rattle.text_byte.specs.WordBytes.{is_plain, stops_word};

use std::simd::prelude::*;

// How many bytes are compared at once.
pub const NEAR: usize = 32;

pub const NEWLINE: u8 = b'\n';

pub const DOUBLE_QUOTE: u8 = b'"';

pub const STAR: u8 = b'*';

pub const SLASH: u8 = b'/';

pub const SEMICOLON: u8 = b';';

pub const EQUALS_SIGN: u8 = b'=';

pub const BACKSLASH: u8 = b'\\';

pub const OPEN_BRACE: u8 = b'{';

pub const CLOSE_BRACE: u8 = b'}';

// The byte at a place, 0 past the end.
pub fn byte_at(text: &[u8], at: usize) -> u8
    ensures { result ≡ get_or text.now at 0 }
{
    text.get(at).copied().unwrap_or(0)
}

// The first place from `from` on that fails the test, or `end`.
pub fn span_end<F: Fn(usize) -> bool>(from: usize, end: usize, test: F) -> usize
    requires { (i : ℕ) → i < end → F.pre test i }
    ensures { (p : ℕ → Bool) → ((i : ℕ) (b : Bool) → i < end → F.post test i b → b ≡ p i)
        → result ≡ span_end p from (end - from) }
{
    for at in from..end {
        if !test(at) {
            return at;
        }
    }
    from.max(end)
}

// The first of the next 32 bytes that has the value, or the place behind them: all are compared at once.
pub fn near_end(text: &[u8], from: usize, b: u8) -> usize
    requires { from + 32 ≤ length text.now }
    ensures { result ≡ span_end (other_at text.now b) from 32 }
{
    let marks = u8x32::from_slice(&text[from..])
        .simd_eq(u8x32::splat(b))
        .to_bitmask();
    if marks == 0 {
        return from + NEAR;
    }
    from + marks.trailing_zeros() as usize
}

pub fn is_blank(b: u8) -> bool
    ensures { result ≡ is_blank b }
{
    matches!(b, b' ' | b'\t' | b'\n' | b'\r')
}

pub fn is_mark(b: u8) -> bool
    ensures { result ≡ is_mark b }
{
    matches!(b, b'{' | b'}' | b'(' | b')' | b';' | b'=' | b'\'')
}

pub fn opens_line(b: u8, c: u8) -> bool
    ensures { result ≡ opens_line b c }
{
    (b == SLASH) & (c == SLASH)
}

pub fn opens_comment(b: u8, c: u8) -> bool
    ensures { result ≡ opens_comment b c }
{
    (b == SLASH) & (c == STAR)
}

// A byte that ends no word, whatever follows. Tested first, since most bytes of words are such.
pub fn is_plain(b: u8) -> bool
    ensures { result ≡ is_plain b }
{
    if b >= b'>' {
        return (b != OPEN_BRACE) & (b != CLOSE_BRACE);
    }
    matches!(b, b'0'..=b':')
}

// White space, a mark or a quote: a word ends there, whatever follows. Tested first is what most often stands behind a word.
pub fn stops_word(b: u8) -> bool
    ensures { result ≡ stops_word b }
{
    if (b == b' ') | (b == SEMICOLON) {
        return true;
    }
    is_blank(b) | is_mark(b) | (b == DOUBLE_QUOTE)
}

// A word ends before white space, a mark, a quote, or a comment.
pub fn ends_word(b: u8, c: u8) -> bool
    ensures { result ≡ ends_word b c }
{
    if b == SLASH {
        return (c == SLASH) | (c == STAR);
    }
    stops_word(b)
}

pub fn is_digit(b: u8) -> bool
    ensures { result ≡ is_digit b }
{
    b.is_ascii_digit()
}

pub fn is_hex_digit(b: u8) -> bool
    ensures { result ≡ is_hex_digit b }
{
    b.is_ascii_hexdigit()
}

pub fn is_letter(b: u8) -> bool
    ensures { result ≡ is_letter b }
{
    b.is_ascii_alphabetic() | (b == b'_')
}

// A letter or a digit. Small letters are tested first, since most bytes of names are such.
pub fn is_name_byte(b: u8) -> bool
    ensures { result ≡ is_name_byte b }
{
    b.is_ascii_lowercase() || is_letter(b) || is_digit(b)
}

pub fn lower(b: u8) -> u8
    ensures { result ≡ lower b }
{
    b.to_ascii_lowercase()
}
