// The directory: refusals 5 and 6, and with the header's the question of refusals 1 to 6.
ghost use Rattle.std.specs.Prelude.{◌≡◌, ◌+◌, ◌*◌, ◌<◌, ◌≤◌, length, Ok};
ghost use Rattle.refusal.specs.Checks.{each};
ghost use Rattle.wad.specs.Header.{head_of, entry_count, file_header_check};
ghost use Rattle.wad.specs.Entries.{offset_at, size_at, inside_ok, entry_check, directory_of, file_check, directory_answer};

use crate::header::{Header, judge_header};
use crate::parts::part;
use refusal::Refusal;

// A file's directory: its count of lumps and its start.
#[derive(Clone, Copy)]
pub struct Directory {
    pub count: usize,
    pub start: usize,
}

// The offset is looked at only where the size is above 0.
fn inside_ok(len: usize, dir: &[u8], i: usize) -> bool
    requires { (len ≤ 16777216) × (16 * i + 16 ≤ length dir.now) }
    ensures { result ≡ inside_ok len (offset_at dir.now i) (size_at dir.now i) }
{
    let at = 16 * i;
    if endian::between_at(dir, at + 4, 0, 0) {
        return true;
    }
    endian::between_at(dir, at + 4, 1, len)
        & endian::between_at(dir, at, 12, len)
        & (endian::natural_at(dir, at) + endian::natural_at(dir, at + 4) <= len)
}

fn judge_entry(len: usize, dir: &[u8], i: usize) -> Result<(), Refusal>
    requires { (len ≤ 16777216) × (16 * i + 16 ≤ length dir.now) }
    ensures { result ≡ entry_check len dir.now i }
{
    refusal::pass_if(inside_ok(len, dir, i), Refusal::EntryBounds(i))?;
    refusal::pass_if(
        name::name_ok(part(dir, 16 * i + 8, 8)),
        Refusal::EntryName(i),
    )
}

// 5 and 6 of each entry in turn.
pub fn judge_entries(len: usize, dir: &[u8], count: usize) -> Result<(), Refusal>
    requires { (len ≤ 16777216) × (16 * count ≤ length dir.now) }
    ensures { result ≡ each (entry_check len dir.now) count }
{
    refusal::judge_each(count, |i| judge_entry(len, dir, i))
}

// The directory's bytes, of a file whose header passes.
pub fn directory_of(wad: &[u8]) -> &[u8]
    requires { file_header_check (length wad.now) (head_of wad.now) ≡ Ok tt }
    ensures result_value { result.now ≡ directory_of wad.now }
    ensures result_len { length result.now ≡ 16 * entry_count (head_of wad.now) }
{
    let head = Header::of(wad);
    part(wad, head.start(), 16 * head.count())
}

// How many entries the directory has, of a file whose header passes.
pub fn entry_count(wad: &[u8]) -> usize
    requires { file_header_check (length wad.now) (head_of wad.now) ≡ Ok tt }
    ensures { result ≡ entry_count (head_of wad.now) }
{
    Header::of(wad).count()
}

// Header and directory, 1 to 6.
pub fn judge_file(wad: &[u8]) -> Result<(), Refusal>
    ensures { result ≡ file_check wad.now }
{
    judge_header(wad)?;
    judge_entries(wad.len(), directory_of(wad), entry_count(wad))
}

// Judges header and directory, 1 to 6, and answers the count of lumps and the directory's start.
pub fn judge_directory(wad: &[u8]) -> Result<Directory, Refusal>
    ensures { result ≡ directory_answer wad.now }
{
    judge_file(wad)?;
    let head = Header::of(wad);
    Ok(Directory {
        count: head.count(),
        start: head.start(),
    })
}
