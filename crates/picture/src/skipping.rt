// Posts of length 0, stepped over. A column can have millions of them, and many columns can share them: to step over one costs
// far less than to judge or to paint it.
ghost use Rattle.std.specs.Prelude.{◌≡◌, ◌+◌, ◌*◌, ◌≤◌, length};
ghost use Rattle.picture.specs.Stepping.{past_empty, Stepped, Notes, Over, Block};

use super::notes::{is_noted, note};

// Posts of length 0 at `row`, which may stand from `at` on.
#[derive(Clone, Copy)]
pub struct EmptyPosts<'a> {
    pub lump: &'a [u8],
    pub at: usize,
    pub row: u8,
    pub ghost inside: { at ≤ length lump.now },
}

impl EmptyPosts<'_> {
    // How many posts of four bytes fit, at most `most`.
    fn fitting(&self, most: usize) -> usize
        ensures { self.now.at + 4 * result ≤ length self.now.lump.now }
    {
        most.min((self.lump.len() - self.at) / 4)
    }

    // Past the posts, at most `most` of them.
    fn skip(&self, most: usize) -> usize
        requires { self.now.at + 4 * most ≤ length self.now.lump.now }
        ensures { result ≡ past_empty most self.now.lump.now self.now.row self.now.at }
    {
        let lump = self.lump;
        for i in 0..most {
            let at = self.at + 4 * i;
            if lump[at] != self.row {
                return at;
            }
            if lump[at + 1] != 0 {
                return at;
            }
        }
        self.at + 4 * most
    }

    // Past the posts, up to the next place that has a slot. Most posts are not followed by one: so that is asked first.
    pub fn skip_ahead(&self) -> usize
        ensures { Stepped self.now.lump.now self.now.row self.now.at result }
    {
        if self.lump.len() - self.at < 4 {
            return self.at;
        }
        if self.lump[self.at] != self.row {
            return self.at;
        }
        self.skip(self.fitting((1027 - self.at % 1024) / 4 % 256))
    }

    // Past a block of 1,024 bytes, or past what stands at its beginning.
    fn skip_block(&self, notes: &mut [u8]) -> usize
        requires no_end { self.now.row ≡ 255 → ⊥ }
        requires notes { Notes (Block self.now.lump.now) notes.old }
        ensures over { Over self.now.lump.now self.now.at result }
        ensures notes_2 { Notes (Block self.now.lump.now) notes.new }
    {
        if is_noted(notes, self.at) {
            return self.at + 1024;
        }
        let to = self.skip(self.fitting(256));
        if to - self.at == 1024 {
            note(notes, self.at);
        }
        to
    }
}

// Past posts of length 0, as far as they are at `row` or stand in blocks that are noted. Where the first columns have noted the
// blocks that hold no other posts, the next ones go on by whole blocks.
pub fn skip_posts(lump: &[u8], from: usize, row: u8, notes: &mut [u8]) -> usize
    requires from_in_bounds { (from ≤ length lump.now) × (row ≡ 255 → ⊥) }
    requires notes { Notes (Block lump.now) notes.old }
    ensures over { Over lump.now from result }
    ensures notes_2 { Notes (Block lump.now) notes.new }
{
    let mut at = EmptyPosts {
        lump,
        at: from,
        row,
    }
    .skip_ahead();
    if 4 <= at % 1024 {
        return at;
    }
    // No `for` and no iterator: how far a step goes is what `skip_block` answers.
    loop {
        let to = EmptyPosts { lump, at, row }.skip_block(notes);
        if to - at < 1024 {
            return to;
        }
        at = to;
    }
}
