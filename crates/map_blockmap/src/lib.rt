// BLOCKMAP: refusal 28. Cells may share lists and lists may overlap, so no list is walked by itself: one pass from the lump's
// end notes for each place that an offset can reach whether the words from there on end a list well. The definitions are in
// specs/.
#![tactic(auto)]

ghost use Rattle.std.specs.Prelude.{true, ◌&&◌, cond, ◌≡◌, ◌+◌, ◌-◌, ◌^◌, ◌<◌, ◌≤◌, min, ltb, eqb, length};
ghost use Rattle.refusal.specs.Checks.{each};
ghost use Rattle.map_blockmap.specs.Blockmap.{word_count, word_at, cells_of, side_ok, header_ok, list_ok, cell_check, blockmap_check};
ghost use Rattle.map_blockmap.specs.Notes.{ends_well, NotedFrom, Noted};

use refusal::Refusal;

// As many places as a 16-bit offset and the word after it can reach.
const PLACES: usize = 65537;

// A lump of fewer words is noted in as many places: clearing all of them would take longer than the whole check of a small map.
const FEW: usize = 1024;

// 28: the header, then the cells in turn.
pub fn judge_blockmap(lump: &[u8], linedefs: usize) -> Result<(), Refusal>
    ensures { result ≡ blockmap_check lump.now linedefs }
{
    if !header_ok(lump) {
        return Err(Refusal::Blockmap(0));
    }
    Lists { lump, linedefs }.judge()
}

fn header_ok(lump: &[u8]) -> bool
    ensures { result ≡ header_ok lump.now }
{
    if lump.len() < 8 {
        return false;
    }
    (lump.len() % 2 == 0)
        & side_ok(word_at(lump, 2))
        & side_ok(word_at(lump, 3))
        & (4 + cells_of(lump) <= lump.len() / 2)
}

fn side_ok(n: usize) -> bool
    ensures { result ≡ side_ok n }
{
    (1 <= n) & (n <= 512)
}

pub fn cells_of(lump: &[u8]) -> usize
    requires { 8 ≤ length lump.now }
    ensures { (result ≡ cells_of lump.now) × (result < 4294967296) }
{
    word_at(lump, 2) * word_at(lump, 3)
}

pub fn word_at(lump: &[u8], i: usize) -> usize
    requires { i < word_count lump.now }
    ensures { (result ≡ word_at lump.now i) × (result < 65536) }
{
    endian::u16_at(lump, 2 * i) as usize
}

// The lists of a lump whose header is good, with the count of linedefs that they may name.
#[derive(Clone, Copy)]
struct Lists<'a> {
    lump: &'a [u8],
    linedefs: usize,
    ghost header: { header_ok lump.now ≡ true },
}

impl Lists<'_> {
    // The cells in turn.
    fn judge(&self) -> Result<(), Refusal>
        ensures { result ≡ each (cell_check self.now.lump.now self.now.linedefs) (cells_of self.now.lump.now) }
    {
        if self.lump.len() / 2 < FEW {
            return self.judge_in::<FEW>();
        }
        self.judge_in::<PLACES>()
    }

    // The same with N notes, which are enough.
    fn judge_in<const N: usize>(&self) -> Result<(), Refusal>
        requires { (min (word_count self.now.lump.now) 65536 < N) × (N < 2 ^ 63) }
        ensures { result ≡ each (cell_check self.now.lump.now self.now.linedefs) (cells_of self.now.lump.now) }
    {
        let mut notes = [false; N];
        self.judge_noting(&mut notes)
    }

    // The same over notes that are long enough.
    fn judge_noting(&self, notes: &mut [bool]) -> Result<(), Refusal>
        requires { min (word_count self.now.lump.now) 65536 < length notes.old }
        ensures { result ≡ each (cell_check self.now.lump.now self.now.linedefs) (cells_of self.now.lump.now) }
    {
        self.note_all(notes);
        self.judge_cells(notes)
    }

    fn judge_cells(&self, notes: &[bool]) -> Result<(), Refusal>
        requires { Noted self.now.lump.now self.now.linedefs notes.now }
        ensures { result ≡ each (cell_check self.now.lump.now self.now.linedefs) (cells_of self.now.lump.now) }
    {
        let cells = cells_of(self.lump);
        refusal::judge_each(cells, |i| {
            refusal::pass_if(self.cell_ok(cells, notes, i), Refusal::Blockmap(i))
        })
    }

    // One look at the notes tells of a cell's list.
    fn cell_ok(&self, cells: usize, notes: &[bool], i: usize) -> bool
        requires cells_value { (cells ≡ cells_of self.now.lump.now) × (i < cells) }
        requires noted { Noted self.now.lump.now self.now.linedefs notes.now }
        ensures { result ≡ list_ok self.now.lump.now self.now.linedefs (word_at self.now.lump.now (4 + i)) }
    {
        let offset = word_at(self.lump, 4 + i);
        if offset < 4 + cells {
            return false;
        }
        if self.lump.len() / 2 <= offset {
            return false;
        }
        (word_at(self.lump, offset) == 0) & notes[offset + 1]
    }

    // Notes for every place that an offset can reach whether the words from there on end a list well.
    fn note_all(&self, notes: &mut [bool])
        requires { min (word_count self.now.lump.now) 65536 < length notes.old }
        ensures { Noted self.now.lump.now self.now.linedefs notes.new }
    {
        let top = (self.lump.len() / 2).min(65536);
        let well = self.ends_from(top);
        self.note_below(top, well, notes);
    }

    // Whether the words from `first` on end a list well.
    fn ends_from(&self, first: usize) -> bool
        requires { first ≤ word_count self.now.lump.now }
        ensures { result ≡ ends_well self.now.lump.now self.now.linedefs (word_count self.now.lump.now - first) }
    {
        let mut well = false;
        for at in (first..self.lump.len() / 2).rev() {
            well = ends_at(word_at(self.lump, at), self.linedefs, well);
        }
        well
    }

    // Notes for each place below `top` whether the words from there on end a list well. The words from `top` on do as `well`
    // says.
    fn note_below(&self, top: usize, well: bool, notes: &mut [bool])
        requires top_bound { (top ≤ word_count self.now.lump.now) × (top < length notes.old) }
        requires well_value { well ≡ ends_well self.now.lump.now self.now.linedefs (word_count self.now.lump.now - top) }
        ensures { NotedFrom self.now.lump.now self.now.linedefs 0 top notes.new }
    {
        notes[top] = well;
        let mut ends = well;
        for at in (0..top).rev() {
            ends = ends_at(word_at(self.lump, at), self.linedefs, ends);
            notes[at] = ends;
        }
    }
}

// Whether a list ends well at a word, which `after` says of the next.
fn ends_at(word: usize, linedefs: usize, after: bool) -> bool
    ensures { result ≡ cond (eqb word 65535) true (ltb word linedefs && after) }
{
    if word == 65535 {
        return true;
    }
    (word < linedefs) & after
}
