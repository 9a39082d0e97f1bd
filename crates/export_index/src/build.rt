// A name index, built.
ghost use Rattle.export_index.specs.IndexBuilding.{IndexBuilt};

use index::IndexRecord;
use refusal::LengthAnswer;

// The index of a file, written into the front of a lent buffer, over lent records that are sorted in place: 1 to 6, and 86.
#[unsafe(no_mangle)]
pub extern "C" fn meshpigeon_index_build(
    wad: &[u8],
    records: &mut [IndexRecord],
    out: &mut [u8],
) -> LengthAnswer
    ensures { IndexBuilt wad.now records.old out.old result records.new
        out.new }
{
    LengthAnswer::from(index_build::build(wad, records, out))
}
