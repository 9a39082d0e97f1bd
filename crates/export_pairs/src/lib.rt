// A pair of files: a patch over a base. An answer for each call: C has no generic struct.
#![tactic(auto)]

ghost use Rattle.std.specs.Prelude.{◌≡◌};
ghost use Rattle.pair.specs.Answers.{pair_entry};
ghost use Rattle.export_pairs.specs.Pairs.{file_number, pair_entry_out, pair_map_out, PairMapJudged};

use pair::{File, PairEntry, PairVerdict};
use refusal::Status;

// The file is noted with 1 to 6, 12 and above, and acceptance: 1 the base, 2 the patch; 0 with 10 and 11.
#[repr(C)]
#[derive(Clone, Copy)]
pub struct PairEntryAnswer {
    pub status: Status,
    pub file: u32,
    pub offset: usize,
    pub size: usize,
}

#[repr(C)]
#[derive(Clone, Copy)]
pub struct PairMapAnswer {
    pub status: Status,
    pub file: u32,
    pub depth: usize,
    pub marker: usize,
}

// The number by which an answer notes the file.
fn file_number(file: Option<File>) -> u32
    ensures { result ≡ file_number file }
{
    match file {
        None => 0,
        Some(File::Base) => 1,
        Some(File::Patch) => 2,
    }
}

impl From<PairEntry> for PairEntryAnswer {
    ghost from_gives = { λ found answer. answer ≡ pair_entry_out found };

    fn from(found: PairEntry) -> PairEntryAnswer {
        let file = file_number(found.file);
        match found.entry {
            Ok(entry) => PairEntryAnswer {
                status: Status::ACCEPTED,
                file,
                offset: entry.offset,
                size: entry.size,
            },
            Err(r) => PairEntryAnswer {
                status: Status::from(r),
                file,
                offset: 0,
                size: 0,
            },
        }
    }
}

impl From<PairVerdict> for PairMapAnswer {
    ghost from_gives = { λ judged answer. answer ≡ pair_map_out judged };

    fn from(judged: PairVerdict) -> PairMapAnswer {
        let file = file_number(judged.file);
        match judged.verdict {
            Ok(accepted) => PairMapAnswer {
                status: Status::ACCEPTED,
                file,
                depth: accepted.depth,
                marker: accepted.marker,
            },
            Err(r) => PairMapAnswer {
                status: Status::from(r),
                file,
                depth: 0,
                marker: 0,
            },
        }
    }
}

// Where the lump of a name of eight bytes lies, and in which file: 1 to 6 of the patch, of the base, and 11.
#[unsafe(no_mangle)]
pub extern "C" fn meshpigeon_pair_find<'a>(
    base: &'a [u8],
    patch: &'a [u8],
    name: &[u8],
) -> PairEntryAnswer
    ensures { result ≡ pair_entry_out (pair_entry base.now patch.now name.now) }
{
    PairEntryAnswer::from(pair::find(base, patch, name))
}

// The map of a name of eight bytes, out of the file that has its marker, judged over lent words, four for each node.
#[unsafe(no_mangle)]
pub extern "C" fn meshpigeon_pair_judge_map<'a>(
    base: &'a [u8],
    patch: &'a [u8],
    name: &[u8],
    words: &mut [u16],
) -> PairMapAnswer
    ensures { PairMapJudged base.now patch.now name.now words.old result
        words.new }
{
    PairMapAnswer::from(pair::judge_map(base, patch, name, words))
}
