// An entry's part of the file: refusal 7, and the part itself.
ghost use Rattle.std.specs.Prelude.{◌≡◌, ◌+◌, ◌*◌, ◌<◌, ◌≤◌, length};
ghost use Rattle.wad.specs.Lump.{entry_size, entry_offset, lump_at, entry_answer, entry_lump};

use crate::entries::{directory_of, entry_count, judge_file};
use crate::parts::part_if;
use refusal::Refusal;

// Where an entry's part of the file starts, and the part's size.
#[derive(Clone, Copy)]
pub struct Entry {
    pub offset: usize,
    pub size: usize,
}

// The functions of one entry ask for that entry alone, whatever the directory's count.
pub fn entry_size(dir: &[u8], i: usize) -> usize
    requires { 16 * i + 16 ≤ length dir.now }
    ensures { (result ≡ entry_size dir.now i) × (result < 2147483648) }
{
    endian::natural_at(dir, 16 * i + 4)
}

pub fn entry_offset(dir: &[u8], i: usize) -> usize
    requires { 16 * i + 16 ≤ length dir.now }
    ensures { (result ≡ entry_offset dir.now i) × (result < 2147483648) }
{
    if entry_size(dir, i) == 0 {
        return 0;
    }
    endian::natural_at(dir, 16 * i)
}

// The part of the file that entry i of the directory names.
pub fn lump_at<'a>(wad: &'a [u8], dir: &[u8], i: usize) -> &'a [u8]
    requires { 16 * i + 16 ≤ length dir.now }
    ensures { result.now ≡ lump_at wad.now dir.now i }
{
    part_if(wad, entry_offset(dir, i), entry_size(dir, i))
}

// Where an entry's part of the file lies, 1 to 7.
pub fn find_entry(wad: &[u8], number: usize) -> Result<Entry, Refusal>
    ensures { result ≡ entry_answer wad.now number }
{
    judge_file(wad)?;
    refusal::pass_if(number < entry_count(wad), Refusal::EntryNumber)?;
    let dir = directory_of(wad);
    Ok(Entry {
        offset: entry_offset(dir, number),
        size: entry_size(dir, number),
    })
}

// An entry's part of the file itself; an empty part where the entry is refused, or has size 0.
pub fn lump(wad: &[u8], number: usize) -> &[u8]
    ensures { result.now ≡ entry_lump wad.now number }
{
    match find_entry(wad, number) {
        Ok(entry) => part_if(wad, entry.offset, entry.size),
        Err(_) => &[],
    }
}
