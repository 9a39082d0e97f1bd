// A name index beside a file: its full check, the lookup by it, and (`build`) the index built.
#![tactic(auto)]

mod build;

ghost use Rattle.std.specs.Prelude.{◌≡◌};
ghost use Rattle.export_index.specs.Answers.{index_entry_out, IndexJudged, IndexFound};

pub use build::meshpigeon_index_build;
use refusal::Status;
use wad::MarkerSearch;

#[repr(C)]
#[derive(Clone, Copy)]
pub struct IndexAnswer {
    pub status: Status,
    pub entry: usize,
    pub compared: usize,
}

// As `MarkerAnswer` of export_files is made: C has a struct for each of the two searches, with a name of its own for the entry.
impl From<MarkerSearch> for IndexAnswer {
    ghost from_gives = { λ search answer. answer ≡ index_entry_out search };

    fn from(search: MarkerSearch) -> IndexAnswer {
        let compared = search.compared;
        match search.marker {
            Ok(entry) => IndexAnswer {
                status: Status::ACCEPTED,
                entry,
                compared,
            },
            Err(r) => IndexAnswer {
                status: Status::from(r),
                entry: 0,
                compared,
            },
        }
    }
}

// Whether the index is that of the file's directory, 1 to 6 and 82 to 84.
#[unsafe(no_mangle)]
pub extern "C" fn meshpigeon_index_check(wad: &[u8], index: &[u8]) -> Status
    ensures { IndexJudged wad.now index.now result }
{
    Status::from(index_check::judge(wad, index))
}

// The last entry of a name of eight bytes, by the index, 1 to 6, 82, 83 and 11.
#[unsafe(no_mangle)]
pub extern "C" fn meshpigeon_index_find(wad: &[u8], index: &[u8], name: &[u8]) -> IndexAnswer
    ensures { IndexFound wad.now index.now name.now result }
{
    IndexAnswer::from(index_find::find(wad, index, name))
}
