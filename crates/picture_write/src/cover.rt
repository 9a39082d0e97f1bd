// The cover of a picture to be written (W-201): how long its lump will be, and how long each unbroken run is, of the cover alone.
ghost use Rattle.std.specs.Prelude.{◌≡◌, ◌*◌, ◌-◌, ◌≤◌, ◌<◌, length};
ghost use Rattle.picture_write.specs.Runs.{run_from, column_length};
ghost use Rattle.picture_write.specs.Pixels.{covered_at};
ghost use Rattle.picture_write.specs.Inner.Columns.{start_of_column};

// A plane of the size that a picture may have.
#[derive(Clone, Copy)]
pub struct Cover<'a> {
    pub bytes: &'a [u8],
    pub width: usize,
    pub height: usize,
    pub ghost narrow: { width ≤ 320 },
    pub ghost low: { height ≤ 200 },
    pub ghost covers: { height * width ≤ length bytes.now },
}

impl Cover<'_> {
    // How long the lump will be: the header, the offsets and all columns.
    pub fn written_length(&self) -> usize
        ensures { result ≡ start_of_column self.now.width self.now.height self.now.bytes.now self.now.width }
    {
        let mut total = 8 + 4 * self.width;
        for column in 0..self.width {
            total += self.column_length(column);
        }
        total
    }

    // The end byte, four bytes for each run, and one for each covered pixel.
    fn column_length(&self, column: usize) -> usize
        requires { column < self.now.width }
        ensures { result ≡ column_length (covered_at self.now.bytes.now self.now.width column) self.now.height }
    {
        let mut runs: usize = 0;
        let mut pixels: usize = 0;
        let mut above = false;
        for row in 0..self.height {
            let here = self.covers(column, row);
            runs += (here & !above) as usize;
            pixels += here as usize;
            above = here;
        }
        1 + 4 * runs + pixels
    }

    // How many rows from `row` on are covered without a break.
    pub fn run_length(&self, column: usize, row: usize) -> usize
        requires { (column < self.now.width) × (row ≤ self.now.height) }
        ensures { result ≡ run_from (covered_at self.now.bytes.now self.now.width column) row (self.now.height - row) }
    {
        for count in 0..self.height - row {
            if !self.covers(column, row + count) {
                return count;
            }
        }
        self.height - row
    }

    fn covers(&self, column: usize, row: usize) -> bool
        requires { (column < self.now.width) × (row < self.now.height) }
        ensures { result ≡ covered_at self.now.bytes.now self.now.width column row }
    {
        self.bytes[row * self.width + column] == 1
    }
}
