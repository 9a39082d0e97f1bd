// The full check of a name index beside its file (W-210). The definitions are in specs/.
#![tactic(auto)]

mod head;
mod records;

ghost use Rattle.std.specs.Prelude.{◌≡◌};
ghost use Rattle.index_check.specs.Checking.{index_head_check, index_check};

use head::head_ok;
pub use head::record_offset;
pub use records::{IndexedDirectory, record_in};
use refusal::Refusal;

// 1 to 6 of the file, 82 and 83: what a lookup asks first too.
pub fn judge_head(wad: &[u8], index: &[u8]) -> Result<(), Refusal>
    ensures { result ≡ index_head_check wad.now index.now }
{
    wad::judge_file(wad)?;
    refusal::pass_if(
        head_ok(wad::entry_count(wad), wad.len(), index),
        Refusal::IndexHead,
    )?;
    refusal::pass_if(endian::u16_at(index, 3) == 1, Refusal::IndexVersion)
}

// And 84 for any other difference. Records in order, each of an entry, and as many as there are entries, can be no others than
// the index has: so nothing is sorted here.
pub fn judge(wad: &[u8], index: &[u8]) -> Result<(), Refusal>
    ensures { result ≡ index_check wad.now index.now }
{
    judge_head(wad, index)?;
    let records = IndexedDirectory {
        dir: wad::directory_of(wad),
        count: wad::entry_count(wad),
        index,
    };
    records.judge_records()
}
