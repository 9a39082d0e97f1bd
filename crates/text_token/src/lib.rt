// The tokens of a text map (W-206): behind white space and comments a mark, a string or a word is cut out, as places in the text. The
// definitions are in specs/.
#![tactic(auto)]

ghost use Rattle.std.specs.Prelude.{true, false, not, ◌||◌, ◌≡◌, ◌+◌, ◌-◌, ◌≤◌, ◌<◌, eqb, length};
ghost use Rattle.text_byte.specs.Bytes.{double_quote, backslash, is_mark};
ghost use Rattle.text_byte.specs.Spans.{span_end};
ghost use Rattle.text_token.specs.Tokens.{mark_form, in_word, quote_end, ended, string_to, word_to, token_here, token_behind, token_at, bytes_of, word_of, Placed};
ghost use Rattle.text_token.specs.Inner.{ends_run, StringRun};

use memchr::memchr2;
use text_byte as bytes;
use text_gap::Gap;

// What a token is: the text's end; a comment or string that is never closed, which ends the text too; a word; a string;
// or a mark.
#[derive(Clone, Copy, PartialEq, Eq)]
pub enum Form {
    End,
    Unclosed,
    Word,
    String,
    OpenBrace,
    CloseBrace,
    OpenParenthesis,
    CloseParenthesis,
    Semicolon,
    EqualsSign,
    Apostrophe,
}

// A token's form, its first byte, the byte behind its last (of a string: the closing quote), and the place to go on.
#[derive(Clone, Copy)]
pub struct Token {
    pub form: Form,
    pub start: usize,
    pub end: usize,
    pub next: usize,
}

// The token at a place or behind the white space and comments there.
pub fn token_at(text: &[u8], at: usize) -> Token
    ensures value { result ≡ token_at text.now at }
    ensures placed { Placed text.now at result }
{
    token_behind(text, text_gap::gap_at(text, at))
}

// The same, quick where the token is this mark.
pub fn mark_at(text: &[u8], from: usize, mark: u8) -> Token
    requires { is_mark mark ≡ true }
    ensures value { result ≡ token_at text.now from }
    ensures placed { Placed text.now from result }
{
    let at = text_gap::blank_end(text, from);
    if at < text.len() {
        if text[at] == mark {
            return Token {
                form: mark_form(mark),
                start: at,
                end: at + 1,
                next: at + 1,
            };
        }
    }
    token_at(text, at)
}

fn token_behind(text: &[u8], g: Gap) -> Token
    ensures { result ≡ token_behind text.now g }
{
    if g.at < text.len() {
        return token_here(text, g.at);
    }
    if text_gap::is_open(g.mode) {
        return ended(text, Form::Unclosed);
    }
    ended(text, Form::End)
}

fn token_here(text: &[u8], at: usize) -> Token
    requires { at < length text.now }
    ensures { result ≡ token_here text.now at }
{
    let b = text[at];
    if b == bytes::DOUBLE_QUOTE {
        return string_to(text, at, quote_end(text, at + 1));
    }
    if bytes::is_mark(b) {
        return Token {
            form: mark_form(b),
            start: at,
            end: at + 1,
            next: at + 1,
        };
    }
    word_to(at, word_end(text, at + 1))
}

// The form of a mark.
fn mark_form(b: u8) -> Form
    ensures { result ≡ mark_form b }
{
    match b {
        b'{' => Form::OpenBrace,
        b'}' => Form::CloseBrace,
        b'(' => Form::OpenParenthesis,
        b')' => Form::CloseParenthesis,
        b';' => Form::Semicolon,
        b'=' => Form::EqualsSign,
        _ => Form::Apostrophe,
    }
}

fn string_to(text: &[u8], at: usize, end: usize) -> Token
    ensures { result ≡ string_to text.now at end }
{
    if end < text.len() {
        return Token {
            form: Form::String,
            start: at,
            end,
            next: end + 1,
        };
    }
    ended(text, Form::Unclosed)
}

// A word from its first byte to the byte behind its last.
pub fn word_to(at: usize, end: usize) -> Token
    ensures { result ≡ word_to at end }
{
    Token {
        form: Form::Word,
        start: at,
        end,
        next: end,
    }
}

fn ended(text: &[u8], form: Form) -> Token
    ensures { result ≡ ended text.now form }
{
    Token {
        form,
        start: text.len(),
        end: text.len(),
        next: text.len(),
    }
}

// Past the bytes of a word.
fn word_end(text: &[u8], from: usize) -> usize
    ensures { result ≡ span_end (in_word text.now) from (length text.now - from) }
{
    bytes::span_end(from, text.len(), |at| in_word(text, at))
}

fn in_word(text: &[u8], at: usize) -> bool
    requires { at < length text.now }
    ensures { result ≡ in_word text.now at }
{
    let b = text[at];
    bytes::is_plain(b) || !bytes::ends_word(b, bytes::byte_at(text, at + 1))
}

// The closing quote of a string: a backslash takes the next byte, whatever it is. Each run says where the loop goes on.
fn quote_end(text: &[u8], from: usize) -> usize
    ensures { result ≡ quote_end text.now false from (length text.now - from) }
{
    let mut at = string_run(text, from);
    while at < text.len() {
        if text[at] == bytes::DOUBLE_QUOTE {
            return at;
        }
        if text.len() - at == 1 {
            return text.len();
        }
        at = string_run(text, at + 2);
    }
    at
}

// Past the bytes of a string that are neither a quote nor a backslash. In most strings one is near: a search of the whole rest begins
// with 64 bytes at once.
fn string_run(text: &[u8], from: usize) -> usize
    ensures { StringRun text.now from result }
{
    if text.len() < from {
        return from;
    }
    if bytes::NEAR <= text.len() - from {
        let quote = bytes::near_end(text, from, bytes::DOUBLE_QUOTE);
        let at = quote.min(bytes::near_end(text, from, bytes::BACKSLASH));
        if at < from + bytes::NEAR {
            return at;
        }
    }
    far_end(text, from)
}

// Apart from the look at the next bytes, which is inlined.
#[inline(never)]
fn far_end(text: &[u8], from: usize) -> usize
    requires { from ≤ length text.now }
    ensures { result ≡ span_end (λ i. not (ends_run text.now i)) from (length text.now - from) }
{
    match memchr2(bytes::DOUBLE_QUOTE, bytes::BACKSLASH, &text[from..]) {
        Some(i) => from + i,
        None => text.len(),
    }
}

// The bytes of a word.
pub fn word_of(text: &[u8], t: Token) -> &[u8]
    requires { (t.start ≤ t.end) × (t.end ≤ length text.now) }
    ensures { result.now ≡ word_of text.now t }
{
    &text[t.start..t.end]
}

// The bytes from `start` up to `end`, as far as the text has them.
pub fn bytes_of(text: &[u8], start: usize, end: usize) -> &[u8]
    ensures { result.now ≡ bytes_of text.now start end }
{
    text.get(start..end.min(text.len())).unwrap_or(&[])
}
