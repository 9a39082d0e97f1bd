// The columns of a picture, judged: 53 and 54. Columns can share their posts, millions of them. Where a column comes to a place
// that a column before it came to, and that one passed, the rest is known; notes are kept of such places.
ghost use Rattle.std.specs.Prelude.{◌≡◌, ◌+◌, ◌*◌, ◌≤◌, ◌<◌, length, Ok};
ghost use Rattle.refusal.specs.Checks.{each};
ghost use Rattle.picture.specs.Judging.{posts_check, column_check};
ghost use Rattle.picture.specs.Stepping.{Notes};
ghost use Rattle.picture.specs.Inner.{Good};

use crate::notes::{is_noted, note};
use crate::skipping::EmptyPosts;
use refusal::Refusal;

// A lump that holds the offsets of its columns, and the picture's size.
#[derive(Clone, Copy)]
pub struct Columns<'a> {
    pub lump: &'a [u8],
    pub width: usize,
    pub height: usize,
    pub ghost table: { 8 + 4 * width ≤ length lump.now },
    pub ghost low: { height < 255 },
}

impl Columns<'_> {
    // The columns from left to right. A short lump has few slots, and to clear more would take longer than to judge it.
    pub fn judge(&self) -> Result<(), Refusal>
        ensures { result ≡ each (column_check self.now.lump.now self.now.width self.now.height) self.now.width }
    {
        if self.lump.len() <= 65536 {
            self.judge_noting::<256>()
        } else {
            self.judge_noting::<65536>()
        }
    }

    fn judge_noting<const SLOTS: usize>(&self) -> Result<(), Refusal>
        requires { SLOTS ≤ 65536 }
        ensures { result ≡ each (column_check self.now.lump.now self.now.width self.now.height) self.now.width }
    {
        let mut notes = [0u8; SLOTS];
        for column in 0..self.width {
            self.judge_column(column, &mut notes)?;
        }
        Ok(())
    }

    // Inlined into both sizes of notes: a call for each column takes longer than a short column.
    #[inline(always)]
    fn judge_column(&self, column: usize, notes: &mut [u8]) -> Result<(), Refusal>
        requires column_lt_width { column < self.now.width }
        requires notes { Notes (Good self.now.lump.now self.now.height) notes.old }
        ensures value { result ≡ column_check self.now.lump.now self.now.width self.now.height column }
        ensures notes_2 { column_check self.now.lump.now self.now.width self.now.height column ≡ Ok tt
            → Notes (Good self.now.lump.now self.now.height) notes.new }
    {
        let offset = endian::u32_at(self.lump, 8 + 4 * column) as usize;
        if offset < 8 + 4 * self.width {
            return Err(Refusal::PostBounds(column));
        }
        self.judge_posts(column, offset, notes)
    }

    // The posts from `from` on, down to the end byte or to a place from which on they are known to be good.
    fn judge_posts(&self, column: usize, from: usize, notes: &mut [u8]) -> Result<(), Refusal>
        requires from_nonzero { 0 < from }
        requires notes { Notes (Good self.now.lump.now self.now.height) notes.old }
        ensures value { result ≡ posts_check (length self.now.lump.now) self.now.lump.now self.now.height column from 0 }
        ensures notes_2 { posts_check (length self.now.lump.now) self.now.lump.now self.now.height column from 0 ≡ Ok tt
            → Notes (Good self.now.lump.now self.now.height) notes.new }
    {
        let lump = self.lump;
        let height = self.height;
        let mut at = from;
        let mut row: usize = 0;
        // No `for`: a step is as long as the post that stands there and the empty ones behind it.
        while at < lump.len() {
            let start = lump[at] as usize;
            if start == 255 {
                return Ok(());
            }
            if lump.len() - at < 4 {
                return Err(Refusal::PostBounds(column));
            }
            let count = lump[at + 1] as usize;
            let next = at + 4 + count;
            if lump.len() < next {
                return Err(Refusal::PostBounds(column));
            }
            let end = start + count;
            if (row <= start) & (end <= height) {
                if is_noted(notes, at) {
                    return Ok(());
                }
                note(notes, at);
                row = end;
                at = EmptyPosts {
                    lump,
                    at: next,
                    row: end as u8,
                }
                .skip_ahead();
            } else {
                return Err(Refusal::PostRows(column));
            }
        }
        Err(Refusal::PostBounds(column))
    }
}
