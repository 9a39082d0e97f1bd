// The value of one field of a text map (W-206), by what it holds: that at the place of its last assignment, or the
// default of its row. The definitions are in specs/.
ghost use Rattle.std.specs.Prelude.{◌≡◌, ◌<◌, map};
ghost use Rattle.text_table.specs.Table.{default_of};
ghost use Rattle.text_table.specs.Rows.{row_of};
ghost use Rattle.text_record.specs.Fields.{value_at, default_whole, whole_or, decimal_or, string_or, flag_or};
ghost use Rattle.text_record.specs.Fields.{whole_field, decimal_field, string_field, flag_field};

use text_table::{Fallback, Field};
use text_value::{Misread, Value};

// A string in the text: after its opening quote, and at its closing one; both 0 where there is none.
#[repr(C)]
#[derive(Clone, Copy)]
pub struct Places {
    pub start: usize,
    pub end: usize,
}

// A whole number; `id` is the default where the namespace decides.
pub fn whole_field(text: &[u8], fields: &[Field], places: &[usize; 34], id: i32, k: usize) -> i32
    requires { k < 34 }
    ensures { result ≡ whole_field text.now places.now (default_of (map row_of fields.now)) id k }
{
    let default = default_at(fields, k);
    whole_or(default_whole(id, default), value_at(text, places[k]))
}

pub fn decimal_field(text: &[u8], places: &[usize; 34], k: usize) -> f64
    requires { k < 34 }
    ensures { result ≡ decimal_field text.now places.now k }
{
    decimal_or(value_at(text, places[k]))
}

pub fn string_field(text: &[u8], places: &[usize; 34], k: usize) -> Places
    requires { k < 34 }
    ensures { result ≡ string_field text.now places.now k }
{
    string_at(text, places[k])
}

pub fn flag_field(text: &[u8], places: &[usize; 34], k: usize) -> bool
    requires { k < 34 }
    ensures { result ≡ flag_field text.now places.now k }
{
    flag_or(value_at(text, places[k]))
}

// The string at the place of a value.
pub fn string_at(text: &[u8], place: usize) -> Places
    ensures { result ≡ string_or (value_at text.now place) }
{
    string_or(value_at(text, place))
}

fn value_at(text: &[u8], place: usize) -> Result<Value, Misread>
    ensures { result ≡ value_at text.now place }
{
    if place == 0 {
        return Err(Misread::NoValue);
    }
    text_value::read(text, text_token::token_at(text, place))
}

// Past the last field every default is 0.
fn default_at(fields: &[Field], k: usize) -> Fallback
    ensures { result ≡ default_of (map row_of fields.now) k }
{
    if k < fields.len() {
        return fields[k].default;
    }
    Fallback::Zero
}

fn default_whole(id: i32, default: Fallback) -> i32
    ensures { result ≡ default_whole id default }
{
    match default {
        Fallback::ByNamespace => id,
        Fallback::MinusOne => -1,
        Fallback::Light => 160,
        Fallback::Required | Fallback::Zero => 0,
    }
}

fn whole_or(default: i32, reading: Result<Value, Misread>) -> i32
    ensures { result ≡ whole_or default reading }
{
    match reading {
        Ok(Value::Whole(z)) => z,
        _ => default,
    }
}

// A whole number serves for a decimal.
fn decimal_or(reading: Result<Value, Misread>) -> f64
    ensures { result ≡ decimal_or reading }
{
    match reading {
        Ok(Value::Whole(z)) => z as f64,
        Ok(Value::Decimal(x)) => x,
        _ => 0.0,
    }
}

fn string_or(reading: Result<Value, Misread>) -> Places
    ensures { result ≡ string_or reading }
{
    match reading {
        Ok(Value::Text(start, end)) => Places { start, end },
        _ => Places { start: 0, end: 0 },
    }
}

fn flag_or(reading: Result<Value, Misread>) -> bool
    ensures { result ≡ flag_or reading }
{
    matches!(reading, Ok(Value::Flag(true)))
}
