// The box's pair of files: a lump or a map by its name, out of a patch where it has the name, otherwise out of the base. Both
// files are judged whole first. The definitions are in specs/.
#![tactic(auto)]

mod search;

ghost use Rattle.std.specs.Prelude.{◌≡◌};
ghost use Rattle.pair.specs.Search.{file_of};
ghost use Rattle.pair.specs.Answers.{pair_entry, pair_lump, PairAnswered};

use map_check::Accepted;
use refusal::Refusal;
pub use search::File;
use search::{search_lump, search_map};
use wad::Entry;

// What is answered of a lump.
#[derive(Clone, Copy)]
pub struct PairEntry {
    pub file: Option<File>,
    pub entry: Result<Entry, Refusal>,
}

// What is answered of a map.
#[derive(Clone, Copy)]
pub struct PairVerdict {
    pub file: Option<File>,
    pub verdict: Result<Accepted, Refusal>,
}

// The patch if it is noted, else the base.
fn file_of<'a>(base: &'a [u8], patch: &'a [u8], file: Option<File>) -> &'a [u8]
    ensures { result.now ≡ file_of base.now patch.now file }
{
    match file {
        Some(File::Patch) => patch,
        Some(File::Base) | None => base,
    }
}

// Where the lump of a name of eight bytes lies: 1 to 6 of the patch, of the base, and 11.
pub fn find<'a>(base: &'a [u8], patch: &'a [u8], name: &[u8]) -> PairEntry
    ensures { result ≡ pair_entry base.now patch.now name.now }
{
    let search = search_lump(base, patch, name);
    let file = search.file;
    match search.marker {
        Ok(i) => {
            let dir = wad::directory_of(file_of(base, patch, file));
            PairEntry {
                file,
                entry: Ok(Entry {
                    offset: wad::entry_offset(dir, i),
                    size: wad::entry_size(dir, i),
                }),
            }
        }
        Err(r) => PairEntry {
            file,
            entry: Err(r),
        },
    }
}

// The lump itself, a part of whichever file holds it; an empty part where it is refused, or has size 0.
pub fn pick<'a>(base: &'a [u8], patch: &'a [u8], name: &[u8]) -> &'a [u8]
    ensures { result.now ≡ pair_lump base.now patch.now name.now }
{
    let found = find(base, patch, name);
    match found.entry {
        Ok(entry) => wad::part_if(file_of(base, patch, found.file), entry.offset, entry.size),
        Err(_) => &base[0..0],
    }
}

// The map of a name, judged wholly in the file that has its marker: 1 to 6 of the patch, of the base, 10, 11, and the rest of the
// map check, which leaves the lent words as it does for one file.
pub fn judge_map<'a>(base: &'a [u8], patch: &'a [u8], name: &[u8], words: &mut [u16]) -> PairVerdict
    ensures { PairAnswered base.now patch.now name.now words.old result
        words.new }
{
    let search = search_map(base, patch, name);
    let file = search.file;
    match search.marker {
        Ok(i) => PairVerdict {
            file,
            verdict: map_check::judge_at(file_of(base, patch, file), i, words),
        },
        Err(r) => PairVerdict {
            file,
            verdict: Err(r),
        },
    }
}
