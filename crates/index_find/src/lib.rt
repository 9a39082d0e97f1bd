// The last entry of a name by an index (W-210). The definitions are in specs/.
#![tactic(auto)]

mod halves;

ghost use Rattle.std.specs.Prelude.{◌≡◌, ◌*◌, ◌<◌, ◌≤◌, ⊤, eqb, length, MatchOption};
ghost use Rattle.refusal.specs.declared.Refusal.TheVariants.{EntryMissing};
ghost use Rattle.refusal.specs.Checks.{unless, ◌and_then◌};
ghost use Rattle.index.specs.Index.{record_offset};
ghost use Rattle.index_check.specs.Checking.{index_head_check};
ghost use Rattle.index_find.specs.Finding.{believed, lookup, find_answer};
ghost use Rattle.index_find.specs.Inner.{entry_of};

use halves::gone_past;
use index_check::IndexedDirectory;
use refusal::Refusal;
use wad::MarkerSearch;

// The entry of a number from the index, if there is such an entry and it has the name.
fn believed(at: &IndexedDirectory, name: &[u8], number: usize) -> Result<usize, Refusal>
    requires { length name.now ≡ 8 }
    ensures { result ≡ believed at.now.dir.now at.now.count name.now number }
{
    if number < at.count && name::same_name(wad::part(at.dir, 16 * number + 8, 8), name) {
        Ok(number)
    } else {
        Err(Refusal::EntryMissing)
    }
}

// The entry of the last record gone past, if that record has the asked name. Its name is not compared again.
fn entry_of(at: &IndexedDirectory, name: &[u8], last: Option<usize>) -> Result<usize, Refusal>
    requires eight { length name.now ≡ 8 }
    requires last_bound { MatchOption last ⊤ (λ i. i < at.now.count) }
    ensures { result ≡ entry_of at.now.dir.now at.now.count at.now.index.now name.now last }
{
    match last {
        Some(i) => believed(at, name, at.record(i).number as usize),
        None => Err(Refusal::EntryMissing),
    }
}

// What the index leads to.
fn look_up(at: &IndexedDirectory, name: &[u8]) -> MarkerSearch
    requires { length name.now ≡ 8 }
    ensures { result ≡ lookup at.now.dir.now at.now.count at.now.index.now name.now }
{
    let gone = gone_past(at, name);
    MarkerSearch {
        marker: entry_of(at, name, gone.last),
        compared: gone.compared,
    }
}

// The file and the index's head, and then a name of another length than eight bytes: no entry has it.
fn judge(wad: &[u8], index: &[u8], name: &[u8]) -> Result<(), Refusal>
    ensures { result ≡ (index_head_check wad.now index.now and_then unless (eqb (length name.now) 8) EntryMissing) }
{
    index_check::judge_head(wad, index)?;
    refusal::pass_if(name.len() == 8, Refusal::EntryMissing)
}

// The last entry of the name, and how many names were compared: 1 to 6 of the file, 82 (head), 83 (version) and 11
// (no such entry).
pub fn find(wad: &[u8], index: &[u8], name: &[u8]) -> MarkerSearch
    ensures { result ≡ find_answer wad.now index.now name.now }
{
    match judge(wad, index, name) {
        Ok(()) => {
            let at = IndexedDirectory {
                dir: wad::directory_of(wad),
                count: wad::entry_count(wad),
                index,
            };
            look_up(&at, name)
        }
        Err(r) => MarkerSearch {
            marker: Err(r),
            compared: 0,
        },
    }
}
