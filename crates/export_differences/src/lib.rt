// What changed between two maps, as C and Rust ask for it.
#![tactic(auto)]

ghost use Rattle.std.specs.Prelude.{◌≡◌};
ghost use Rattle.export_differences.specs.Differences.{refused_in, differences_out, DifferencesGiven};

use difference::CompareError;
use refusal::{Refusal, Status};

// The numbers by which C is told the file: MESHPIGEON_NO_FILE, MESHPIGEON_OLD and MESHPIGEON_NEW. Inside, `CompareError` says it.
const NEITHER: u32 = 0;

const OLD: u32 = 1;

const NEW: u32 = 2;

// The file is noted with a refusal of a map: 1 the old one, 2 the new one. The counts are those of the eight lumps of
// records, 0 with a refusal.
#[repr(C)]
#[derive(Clone, Copy)]
pub struct DifferencesAnswer {
    pub status: Status,
    pub file: u32,
    pub counts: [usize; 8],
}

impl From<Result<[usize; 8], CompareError>> for DifferencesAnswer {
    ghost from_gives = { λ found answer. answer ≡ differences_out found };

    fn from(found: Result<[usize; 8], CompareError>) -> DifferencesAnswer {
        match found {
            Ok(counts) => DifferencesAnswer {
                status: Status::ACCEPTED,
                file: NEITHER,
                counts,
            },
            Err(CompareError::Old(r)) => refused_in(OLD, r),
            Err(CompareError::New(r)) => refused_in(NEW, r),
            Err(CompareError::Both(r)) => refused_in(NEITHER, r),
        }
    }
}

fn refused_in(file: u32, r: Refusal) -> DifferencesAnswer
    ensures { result ≡ refused_in file r }
{
    DifferencesAnswer {
        status: Status::from(r),
        file,
        counts: [0; 8],
    }
}

// The maps of two names of eight bytes, each in its file, both judged over the same lent words, four for each node; the numbers of the
// new one's changed records are listed lump by lump.
#[unsafe(no_mangle)]
pub extern "C" fn meshpigeon_differences(
    old_wad: &[u8],
    old_name: &[u8],
    new_wad: &[u8],
    new_name: &[u8],
    words: &mut [u16],
    list: &mut [u16],
) -> DifferencesAnswer
    ensures { DifferencesGiven old_wad.now old_name.now new_wad.now
        new_name.now words.old list.old result words.new list.new }
{
    let found = difference::compare_maps(old_wad, old_name, new_wad, new_name, words, list);
    DifferencesAnswer::from(found)
}
