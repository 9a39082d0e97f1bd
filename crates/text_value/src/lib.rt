// The values of a text map (W-206): a token as a whole number, a decimal, the places of a string or a flag. The
// definitions are in specs/.
#![tactic(auto)]

mod number;

ghost use Rattle.std.specs.Prelude.{◌≡◌, ◌-◌, ◌≤◌, ◌<◌, min, length};
ghost use Rattle.text_value.specs.Numbers.{digits_from};
ghost use Rattle.text_value.specs.Values.{is_true, is_false, whole_read, number_read, word_read, token_read};
ghost use Rattle.text_value.specs.Inner.Forms.{hex_read, point_read};

use number as numbers;
use text_byte as bytes;
use text_token::{Form, Token};

// A value: of a string the places after its opening quote and of its closing one.
#[derive(Clone, Copy)]
pub enum Value {
    Whole(i32),
    Decimal(f64),
    Text(usize, usize),
    Flag(bool),
}

// Why a token is no value: a whole number or a decimal past its limits; or anything else.
#[derive(Clone, Copy, PartialEq, Eq)]
pub enum Misread {
    WholePast,
    DecimalPast,
    NoValue,
}

// A token as a value.
pub fn read(text: &[u8], t: Token) -> Result<Value, Misread>
    requires { (t.start ≤ t.end) × (t.end ≤ length text.now) }
    ensures { result ≡ token_read text.now t }
{
    match t.form {
        Form::String => Ok(Value::Text(t.start + 1, t.end)),
        Form::Word => word_read(text_token::word_of(text, t)),
        _ => Err(Misread::NoValue),
    }
}

fn word_read(word: &[u8]) -> Result<Value, Misread>
    ensures { result ≡ word_read word.now }
{
    if is_true(word) {
        return Ok(Value::Flag(true));
    }
    if is_false(word) {
        return Ok(Value::Flag(false));
    }
    if numbers::is_hex(word) {
        return hex_read(word);
    }
    number_read(word)
}

// Behind 0x only hexadecimal digits make a value.
fn hex_read(word: &[u8]) -> Result<Value, Misread>
    ensures { result ≡ hex_read word.now }
{
    let d = numbers::digits_at(word, 16, 0, 2);
    if d.end == word.len() {
        return whole_read(false, d.number);
    }
    Err(Misread::NoValue)
}

fn is_true(word: &[u8]) -> bool
    ensures { result ≡ is_true word.now }
{
    word.eq_ignore_ascii_case(b"true")
}

fn is_false(word: &[u8]) -> bool
    ensures { result ≡ is_false word.now }
{
    word.eq_ignore_ascii_case(b"false")
}

fn number_read(word: &[u8]) -> Result<Value, Misread>
    ensures { result ≡ number_read word.now }
{
    let first = bytes::byte_at(word, 0);
    let at = numbers::behind_sign(first);
    let d = numbers::digits_at(word, 10, 0, at);
    if numbers::whole_ok(word, at, d.end) {
        return whole_read(first == numbers::MINUS_SIGN, d.number);
    }
    if numbers::is_point(word, at, d.end) {
        return decimal_read(word, first == numbers::MINUS_SIGN, at, d.end, d.number);
    }
    Err(Misread::NoValue)
}

fn whole_read(minus: bool, n: u64) -> Result<Value, Misread>
    ensures { result ≡ whole_read minus n }
{
    if n <= numbers::most_of(minus) {
        return Ok(Value::Whole(numbers::signed(minus, n)));
    }
    Err(Misread::WholePast)
}

// The digits before the point come to `before`.
fn decimal_read(
    word: &[u8],
    minus: bool,
    at: usize,
    point: usize,
    before: u64,
) -> Result<Value, Misread>
    requires { (at < point) × ((point < length word.now)
        × (before ≡ min (digits_from word.now 10 0 at (point - at)) 9007199254740992)) }
    ensures { result ≡ point_read word.now minus at point }
{
    let d = numbers::digits_at(word, 10, before, point + 1);
    let end = word.len();
    if d.end != end {
        return Err(Misread::NoValue);
    }
    if (end - at <= 16) & (end - point <= 7) {
        let quotient = numbers::quotient(minus, d.number, end - (point + 1));
        return Ok(Value::Decimal(quotient));
    }
    Err(Misread::DecimalPast)
}
