// The identifiers of a text map (W-206): a letter, and then letters and digits. The definitions are in specs/.
#![tactic(auto)]

ghost use Rattle.std.specs.Prelude.{true, false, cond, ◌≡◌, ◌-◌, ◌≤◌, IfOk, IfErr, MatchResult, length, get_or};
ghost use Rattle.text_byte.specs.Bytes.{is_name_byte};
ghost use Rattle.text_byte.specs.Spans.{span_end};
ghost use Rattle.text_token.specs.Tokens.{token_at, Placed};
ghost use Rattle.text_name.specs.Identifiers.{identifier_ok, is_identifier};

use text_byte as bytes;
use text_token::{Form, Token};

// The token at a place or behind the white space and comments there: an identifier, or else the token that stands in its
// place. Quick where it is an identifier: letters and digits up to a byte that ends any word are one, if the first is a letter.
pub fn name_at(text: &[u8], from: usize) -> Result<Token, Token>
    ensures ok { IfOk result (λ t. (t ≡ token_at text.now from) × (is_identifier text.now t ≡ true)) }
    ensures err { IfErr result (λ t. (t ≡ token_at text.now from) × (is_identifier text.now t ≡ false)) }
    ensures placed { MatchResult result (Placed text.now from) (Placed text.now from) }
{
    let at = text_gap::blank_end(text, from);
    let end = name_end(text, at);
    if end < text.len() {
        if (at < end) & bytes::stops_word(text[end]) {
            let good = bytes::is_letter(text[at]);
            return name_if(good, text_token::word_to(at, end));
        }
    }
    let t = text_token::token_at(text, at);
    name_if(is_identifier(text, t), t)
}

fn name_if(good: bool, t: Token) -> Result<Token, Token>
    ensures { result ≡ cond good (Ok t) (Err t) }
{
    if good { Ok(t) } else { Err(t) }
}

fn is_identifier(text: &[u8], t: Token) -> bool
    requires { (t.start ≤ t.end) × (t.end ≤ length text.now) }
    ensures { result ≡ is_identifier text.now t }
{
    match t.form {
        Form::Word => identifier_ok(text_token::word_of(text, t)),
        _ => false,
    }
}

fn identifier_ok(word: &[u8]) -> bool
    ensures { result ≡ identifier_ok word.now }
{
    bytes::is_letter(bytes::byte_at(word, 0)) & (name_end(word, 0) == word.len())
}

// Past letters and digits.
fn name_end(text: &[u8], from: usize) -> usize
    ensures { result ≡ span_end (λ i. is_name_byte (get_or text.now i 0)) from (length text.now - from) }
{
    bytes::span_end(from, text.len(), |i| bytes::is_name_byte(text[i]))
}
