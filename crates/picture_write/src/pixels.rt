// Pixels to be written as a picture (W-201), and the columns of posts that they make. They are judged, and where bytes are
// written there is place for them.
ghost use Rattle.std.specs.Prelude.{◌≡◌, ◌+◌, ◌*◌, ◌≤◌, ◌<◌, length};
ghost use Rattle.std.proofs.lemmas.List.Edits.{sets};
ghost use Rattle.picture_write.specs.Runs.{post_of, column_bytes};
ghost use Rattle.picture_write.specs.Pixels.{pixel_at, covered_at};
ghost use Rattle.picture_write.specs.Inner.Runs.{run_bytes};
ghost use Rattle.picture_write.specs.Inner.Columns.{start_of_column, offsets_to, columns_to};

use crate::cover::Cover;

// A cover, and a plane of colours of the same size.
#[derive(Clone, Copy)]
pub struct Pixels<'a> {
    pub cover: Cover<'a>,
    pub colour: &'a [u8],
    pub ghost colours: { cover.height * cover.width ≤ length colour.now },
}

impl Pixels<'_> {
    // The column offsets and the columns, each column's offset with it.
    pub fn write_columns(&self, out: &mut [u8])
        requires { start_of_column self.now.cover.width self.now.cover.height self.now.cover.bytes.now self.now.cover.width
            ≤ length out.old }
        ensures { out.new ≡ sets (sets out.old 8
            (offsets_to self.now.cover.width self.now.cover.height self.now.cover.bytes.now self.now.cover.width))
            (8 + 4 * self.now.cover.width)
            (columns_to self.now.cover.width self.now.cover.height self.now.colour.now self.now.cover.bytes.now
            self.now.cover.width) }
    {
        let mut to = 8 + 4 * self.cover.width;
        for column in 0..self.cover.width {
            endian::put_u32(out, 8 + 4 * column, to as u32);
            to = self.write_column(column, out, to);
        }
    }

    // One column from `from` on, and where the next one begins. The place goes beside the lent `out`: as a slice of its rest, what
    // stays as found would be no plainer to say.
    fn write_column(&self, column: usize, out: &mut [u8], from: usize) -> usize
        requires column_lt_width { column < self.now.cover.width }
        requires room { from + length (column_bytes (pixel_at self.now.colour.now self.now.cover.width column)
            (covered_at self.now.cover.bytes.now self.now.cover.width column) self.now.cover.height) ≤ length out.old }
        ensures value { result ≡ from + length (column_bytes (pixel_at self.now.colour.now self.now.cover.width column)
            (covered_at self.now.cover.bytes.now self.now.cover.width column) self.now.cover.height) }
        ensures out_after { out.new ≡ sets out.old from (column_bytes (pixel_at self.now.colour.now self.now.cover.width column)
            (covered_at self.now.cover.bytes.now self.now.cover.width column) self.now.cover.height) }
    {
        let mut to = from;
        let mut row: usize = 0;
        // No `for`: one over the rows looks at the cover twice more, and took 1.6 of the time.
        while row < self.cover.height {
            let count = self.cover.run_length(column, row);
            to = self.write_run(column, row, count, out, to);
            row = (row + count + 1).min(self.cover.height);
        }
        out[to] = 255;
        to + 1
    }

    // The run's post, if there is a run, and where the next byte goes.
    fn write_run(&self, column: usize, row: usize, count: usize, out: &mut [u8], at: usize) -> usize
        requires inside { (column < self.now.cover.width) × (row + count ≤ self.now.cover.height) }
        requires room { at + length (run_bytes (pixel_at self.now.colour.now self.now.cover.width column) row count)
            ≤ length out.old }
        ensures value { result ≡ at + length (run_bytes (pixel_at self.now.colour.now self.now.cover.width column) row count) }
        ensures out_after { out.new ≡ sets out.old at
            (run_bytes (pixel_at self.now.colour.now self.now.cover.width column) row count) }
    {
        if count == 0 {
            return at;
        }
        self.write_post(column, row, count, out, at);
        at + 4 + count
    }

    // Start row, length, 0, the pixels, 0.
    fn write_post(&self, column: usize, row: usize, count: usize, out: &mut [u8], at: usize)
        requires inside { (column < self.now.cover.width) × (row + count ≤ self.now.cover.height) }
        requires room { at + 4 + count ≤ length out.old }
        ensures { out.new ≡ sets out.old at (post_of (pixel_at self.now.colour.now self.now.cover.width column) row count) }
    {
        out[at] = row as u8;
        out[at + 1] = count as u8;
        out[at + 2] = 0;
        for i in 0..count {
            out[at + 3 + i] = self.colour_at(column, row + i);
        }
        out[at + 3 + count] = 0;
    }

    fn colour_at(&self, column: usize, row: usize) -> u8
        requires { (column < self.now.cover.width) × (row < self.now.cover.height) }
        ensures { result ≡ pixel_at self.now.colour.now self.now.cover.width column row }
    {
        self.colour[row * self.cover.width + column]
    }
}
