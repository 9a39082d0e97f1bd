// Builds a name index (W-210): every entry is put into a lent slice of records, the slice is sorted in place and then
// written out. The definitions are in specs/.
#![tactic(auto)]

ghost use Rattle.index_build.specs.Building.{Builds};

mod sorting;
mod writing;

use index::IndexRecord;
use refusal::Refusal;

// Writes the index of a file into the front of `out`; the sorted records stay in the front of `records`. Refuses 1 to
// 6 (the file) and 86 (records or output too short); a refusal changes neither.
pub fn build(wad: &[u8], records: &mut [IndexRecord], out: &mut [u8]) -> Result<usize, Refusal>
    ensures { Builds wad.now records.old out.old result records.new
        out.new }
{
    writing::judge(wad, records.len(), out.len())?;
    let count = wad::entry_count(wad);
    let front = &mut records[..count];
    sorting::arrange(wad, front);
    writing::put_head(wad, out);
    writing::write(front, out);
    Ok(11 + 10 * count)
}
