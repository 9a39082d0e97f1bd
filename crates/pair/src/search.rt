// Which of the two files of a pair has a name (W-207): refusals 1 to 6 of the patch, then of the base, 10 and 11.
ghost use Rattle.std.specs.Prelude.{◌≡◌, Ok, Err};
ghost use Rattle.wad.specs.Entries.{file_check};
ghost use Rattle.pair.specs.Search.{last_named, either_named, search_pair, lump_search, map_search};

use refusal::Refusal;

// One file of a pair.
#[derive(Clone, Copy, Debug, PartialEq, Eq)]
pub enum File {
    Base,
    Patch,
}

// What a search of both files answers: the file that has the entry, or is refused, and the entry or the refusal. No file is noted
// where the name is refused, or neither file has it.
#[derive(Clone, Copy)]
pub struct PairSearch {
    pub file: Option<File>,
    pub marker: Result<usize, Refusal>,
}

// The last entry of a name. A name of another length than eight bytes is no fault: no entry has it.
fn last_named(wad: &[u8], name: &[u8]) -> Result<usize, Refusal>
    requires { file_check wad.now ≡ Ok tt }
    ensures { result ≡ last_named wad.now name.now }
{
    if name.len() == 8 {
        let search = wad::last_named(wad::directory_of(wad), wad::entry_count(wad), name);
        return search.marker;
    }
    Err(Refusal::EntryMissing)
}

fn not_searched(file: Option<File>, r: Refusal) -> PairSearch
    ensures { result ≡ record { file = file; marker = Err r } }
{
    PairSearch {
        file,
        marker: Err(r),
    }
}

// The patch's entry, otherwise the base's, otherwise 11.
fn either_named(base: &[u8], patch: &[u8], name: &[u8]) -> PairSearch
    requires { (file_check base.now ≡ Ok tt) × (file_check patch.now ≡ Ok tt) }
    ensures { result ≡ either_named base.now patch.now name.now }
{
    if let Ok(i) = last_named(patch, name) {
        return PairSearch {
            file: Some(File::Patch),
            marker: Ok(i),
        };
    }
    if let Ok(i) = last_named(base, name) {
        return PairSearch {
            file: Some(File::Base),
            marker: Ok(i),
        };
    }
    not_searched(None, Refusal::EntryMissing)
}

// Both files are judged before the name is.
fn search_pair(base: &[u8], patch: &[u8], name: &[u8], asked: Result<(), Refusal>) -> PairSearch
    ensures { result ≡ search_pair base.now patch.now name.now asked }
{
    if let Err(r) = wad::judge_file(patch) {
        return not_searched(Some(File::Patch), r);
    }
    if let Err(r) = wad::judge_file(base) {
        return not_searched(Some(File::Base), r);
    }
    if let Err(r) = asked {
        return not_searched(None, r);
    }
    either_named(base, patch, name)
}

// Nothing is asked of a lump's name.
pub fn search_lump(base: &[u8], patch: &[u8], name: &[u8]) -> PairSearch
    ensures { result ≡ lump_search base.now patch.now name.now }
{
    search_pair(base, patch, name, Ok(()))
}

// 10 comes after both files' refusals.
pub fn search_map(base: &[u8], patch: &[u8], name: &[u8]) -> PairSearch
    ensures { result ≡ map_search base.now patch.now name.now }
{
    search_pair(
        base,
        patch,
        name,
        refusal::pass_if(name::map_name_ok(name), Refusal::MapName),
    )
}
