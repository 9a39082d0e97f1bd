// A name index beside a file, for C: built, checked whole, and looked up in.
ghost use Rattle.export_index.specs.Answers.{IndexJudged, IndexFound};
ghost use Rattle.export_index.specs.IndexBuilding.{IndexBuilt};

use export_index::IndexAnswer;
use index::IndexRecord;
use refusal::{LengthAnswer, Status};

// Whether the index is that of the file's directory, 1 to 6 and 82 to 84.
#[unsafe(no_mangle)]
pub extern "C" fn meshpigeon_index_check(wad: &[u8], index: &[u8]) -> Status
    ensures { IndexJudged wad.now index.now result }
{
    export_index::meshpigeon_index_check(wad, index)
}

// The last entry of a name of eight bytes, by the index, 1 to 6, 82, 83 and 11.
#[unsafe(no_mangle)]
pub extern "C" fn meshpigeon_index_find(wad: &[u8], index: &[u8], name: &[u8]) -> IndexAnswer
    ensures { IndexFound wad.now index.now name.now result }
{
    export_index::meshpigeon_index_find(wad, index, name)
}

// The index of a file, written into the front of a lent buffer, over lent records that are sorted in place: 1 to 6, and 86.
#[unsafe(no_mangle)]
pub extern "C" fn meshpigeon_index_build(
    wad: &[u8],
    records: &mut [IndexRecord],
    out: &mut [u8],
) -> LengthAnswer
    ensures { IndexBuilt wad.now records.old out.old result records.new
        out.new }
{
    export_index::meshpigeon_index_build(wad, records, out)
}
