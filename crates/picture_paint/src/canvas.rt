// A picture that has passed, painted column by column over cleared planes.
ghost use Rattle.std.specs.Prelude.{◌≡◌, ◌+◌, ◌*◌, ◌≤◌, ◌<◌, length, Ok};
ghost use Rattle.refusal.specs.Checks.{each};
ghost use Rattle.picture_header.specs.Layout.{height_of, post_end, end_row};
ghost use Rattle.picture.specs.Judging.{posts_check, column_check};
ghost use Rattle.picture.specs.Stepping.{Notes, Block};
ghost use Rattle.picture_paint.specs.Inner.{PaintsPost, PaintsPosts, AllColumns};

use picture::skip_posts;

// A lump whose columns have passed, and two planes that the picture fits into.
#[derive(Drop)]
pub struct Canvas<'a> {
    pub lump: &'a [u8],
    pub width: usize,
    pub colour: &'a mut [u8],
    pub cover: &'a mut [u8],
    pub ghost table: { 8 + 4 * width ≤ length lump.now },
    pub ghost passes: { each (column_check lump.now width (height_of lump.now)) width ≡ Ok tt },
    pub ghost colours: { height_of lump.now * width ≤ length colour.now },
    pub ghost covers: { height_of lump.now * width ≤ length cover.now },
}

impl Canvas<'_> {
    ghost use Rattle.picture_paint.specs.Canvases.{IsSamePicture};

    // Paints every column. A short lump has few slots for notes, and to clear more would take longer than to paint it.
    pub fn paint_columns(&mut self)
        ensures same { IsSamePicture self.old self.new }
        ensures painted { AllColumns self.old.lump.now self.old.width self.old.colour.now self.old.cover.now
            self.new.colour.now self.new.cover.now }
    {
        if self.lump.len() <= 65536 {
            self.paint_noting::<256>();
        } else {
            self.paint_noting::<65536>();
        }
    }

    fn paint_noting<const SLOTS: usize>(&mut self)
        requires { SLOTS ≤ 65536 }
        ensures same { IsSamePicture self.old self.new }
        ensures painted { AllColumns self.old.lump.now self.old.width self.old.colour.now self.old.cover.now
            self.new.colour.now self.new.cover.now }
    {
        let mut notes = [0u8; SLOTS];
        let lump = self.lump;
        for column in 0..self.width {
            let offset = endian::u32_at(lump, 8 + 4 * column) as usize;
            self.paint_posts(offset, column, &mut notes);
        }
    }

    // Paints the posts from `from` on, down to the end byte. It is inlined into both sizes of notes.
    #[inline(always)]
    fn paint_posts(&mut self, from: usize, column: usize, notes: &mut [u8])
        requires inside { column < self.old.width }
        requires passes { posts_check (length self.old.lump.now) self.old.lump.now (height_of self.old.lump.now) column from 0 ≡ Ok tt }
        requires notes { Notes (Block self.old.lump.now) notes.old }
        ensures same { IsSamePicture self.old self.new }
        ensures painted { PaintsPosts self.old.lump.now self.old.width column from self.old.colour.now self.old.cover.now
            self.new.colour.now self.new.cover.now }
        ensures notes_2 { Notes (Block self.old.lump.now) notes.new }
    {
        let lump = self.lump;
        let mut at = from;
        // No `for` and no iterator: how far a step goes is what `skip_posts` answers.
        loop {
            let start = lump[at];
            if start == 255 {
                return;
            }
            let next = self.paint_post(at, column);
            at = skip_posts(lump, next, start, notes);
        }
    }

    // Paints the post at `at`, and answers where the next one is.
    fn paint_post(&mut self, at: usize, column: usize) -> usize
        requires { (column < self.old.width) × (post_end self.old.lump.now at ≤ length self.old.lump.now)
            × (end_row self.old.lump.now at ≤ height_of self.old.lump.now) }
        ensures value { result ≡ post_end self.old.lump.now at }
        ensures same { IsSamePicture self.old self.new }
        ensures painted { PaintsPost self.old.lump.now self.old.width column at self.old.colour.now self.old.cover.now
            self.new.colour.now self.new.cover.now }
    {
        let lump = self.lump;
        let width = self.width;
        let colour = &mut *self.colour;
        let cover = &mut *self.cover;
        let start = lump[at] as usize;
        let count = lump[at + 1] as usize;
        for i in 0..count {
            let to = (start + i) * width + column;
            colour[to] = lump[at + 3 + i];
            cover[to] = 1;
        }
        at + 4 + count
    }
}
