// What every kind of record shares: a record as a part of its lump, `size` bytes from `size * index` on, and the fields that
// are no single numbers. specs/ has the definitions.
#![tactic(auto)]

mod kinds;

ghost use Rattle.std.specs.Prelude.{◌≡◌, ◌+◌, ◌≤◌, ◌<◌, length};
ghost use Rattle.std.proofs.Math.Seq.{paste};
ghost use Rattle.record_field.specs.Fields.{name_at, four_at, put_four, args_at, args_zero, put_action};
ghost use Rattle.record_field.specs.Records.{inside_check, Written, WrittenIf};

pub use kinds::{GameRecord, Record};
use refusal::Refusal;

// 60 unless the record lies wholly inside the lump.
pub fn inside_check(lump: &[u8], size: usize, index: usize) -> Result<(), Refusal>
    requires { 0 < size }
    ensures { result ≡ inside_check lump.now size index }
{
    refusal::pass_if(index < lump.len() / size, Refusal::RecordBounds)
}

// The record's bytes replaced, or 60 and nothing written.
pub fn replace(lump: &mut [u8], size: usize, index: usize, bytes: &[u8]) -> Result<(), Refusal>
    requires { (0 < size) × (length bytes.now ≡ size) }
    ensures { Written lump.old size index bytes.now result lump.new }
{
    inside_check(lump, size, index)?;
    let at = size * index;
    lump[at..at + size].copy_from_slice(bytes);
    Ok(())
}

// The record's bytes replaced where its fields are good, or 60, then 61, and nothing written.
pub fn replace_if(
    good: bool,
    lump: &mut [u8],
    size: usize,
    index: usize,
    bytes: &[u8],
) -> Result<(), Refusal>
    requires { (0 < size) × (length bytes.now ≡ size) }
    ensures { WrittenIf good lump.old size index bytes.now result lump.new }
{
    inside_check(lump, size, index).and(refusal::pass_if(good, Refusal::RecordFields))?;
    // Not by `replace`, which would divide again to ask what was just answered.
    let at = size * index;
    lump[at..at + size].copy_from_slice(bytes);
    Ok(())
}

// The eight bytes of a name; `args_at` copies five. Each has a definition that spells its bytes out, so one function of any size would
// be no plainer. Sizes and places are arguments here: the traits have them as const parameters.
pub fn name_at(s: &[u8], at: usize) -> [u8; 8]
    requires { at + 7 < length s.now }
    ensures { result ≡ name_at s.now at }
{
    let mut name = [0; 8];
    name.copy_from_slice(&s[at..at + 8]);
    name
}

// The eight bytes of a name written from at on.
pub fn put_name(s: &mut [u8], at: usize, name: [u8; 8])
    requires { at + 7 < length s.old }
    ensures { s.new ≡ paste s.old at (name_at name 0) 8 }
{
    s[at..at + 8].copy_from_slice(&name);
}

// Four signed numbers in a row, spelt out: a closure that reads the one at i would be no plainer.
pub fn four_at(b: &[u8], at: usize) -> [i16; 4]
    requires { at + 7 < length b.now }
    ensures { result ≡ four_at b.now at }
{
    [
        endian::i16_at(b, at),
        endian::i16_at(b, at + 2),
        endian::i16_at(b, at + 4),
        endian::i16_at(b, at + 6),
    ]
}

// Four signed numbers written from at on.
pub fn put_four(s: &mut [u8], at: usize, v: [i16; 4])
    requires { at + 7 < length s.old }
    ensures { s.new ≡ put_four s.old at v }
{
    endian::put_i16(s, at, v[0]);
    endian::put_i16(s, at + 2, v[1]);
    endian::put_i16(s, at + 4, v[2]);
    endian::put_i16(s, at + 6, v[3]);
}

// The five arguments of an action.
pub fn args_at(b: &[u8], at: usize) -> [u8; 5]
    requires { at + 4 < length b.now }
    ensures { result ≡ args_at b.now at }
{
    let mut args = [0; 5];
    args.copy_from_slice(&b[at..at + 5]);
    args
}

// An action and its five arguments written from at on.
pub fn put_action(s: &mut [u8], at: usize, action: u8, args: [u8; 5])
    requires { at + 5 < length s.old }
    ensures { s.new ≡ put_action s.old at action args }
{
    s[at] = action;
    s[at + 1..at + 6].copy_from_slice(&args);
}

// Whether all five arguments are 0.
pub fn args_zero(args: [u8; 5]) -> bool
    ensures { result ≡ args_zero args }
{
    args == [0; 5]
}
