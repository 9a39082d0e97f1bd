// Why BLOCKMAP is refused 28: the first field of its header, or of one cell, that is out of its range. The cell's list is
// walked once. The definitions are in specs/.
#![tactic(auto)]

ghost use Rattle.std.specs.Prelude.{◌++◌, ◌≡◌, ◌+◌, ◌-◌, ◌<◌, ◌≤◌, length};
ghost use Rattle.map_blockmap.specs.Blockmap.{word_count, word_at, cells_of};
ghost use Rattle.reason_range.specs.Fields.{fields_check, named_by};
ghost use Rattle.wad.specs.Header.{most_bytes};
ghost use Rattle.reason_blockmap.specs.Fields.{size_field, word_field, length_fields, number_fields, cell_fields, fields_if_cell, blockmap_fields, FitsIf};

use map_blockmap::word_at;
use reason_range::Field;
use wad::MOST_BYTES;

// The mark that ends a list.
const LIST_END: usize = 65535;

// Refused with the first field out of its range, of the header and of the cell with that number.
pub fn offending(lump: &[u8], linedefs: usize, cell: usize) -> Result<(), Field>
    ensures first { result ≡ fields_check (blockmap_fields lump.now linedefs cell) }
    ensures fits { FitsIf lump.now linedefs (named_by result) }
{
    size_field(lump, 8).check()?;
    let columns = word_field(lump, 2, 1, 512);
    columns.check()?;
    let rows = word_field(lump, 3, 1, 512);
    rows.check()?;
    after_rows(lump, columns.number * rows.number, linedefs, cell)
}

// What comes after the rows. That the lump is no longer than a file is known once its size has been checked. The three steps below
// ask for it, and a struct that is built between two of them would be no plainer.
fn after_rows(lump: &[u8], cells: usize, linedefs: usize, cell: usize) -> Result<(), Field>
    requires cells_value { (cells ≡ cells_of lump.now) × (cells ≤ 262144) }
    requires in_bounds { (8 ≤ length lump.now) × (length lump.now ≤ most_bytes) }
    ensures { result ≡ fields_check (length_fields lump.now ++ fields_if_cell lump.now linedefs cell) }
{
    let offsets = size_field(lump, 8 + 2 * cells);
    offsets.check()?;
    size_field(lump, lump.len() + lump.len() % 2).check()?;
    if cell < cells {
        return of_cell(lump, cells, linedefs, cell);
    }
    Ok(())
}

// The fields of a cell, where the header is good.
fn of_cell(lump: &[u8], cells: usize, linedefs: usize, cell: usize) -> Result<(), Field>
    requires cells_value { (cells ≡ cells_of lump.now) × (cell < cells) }
    requires cells_bound { (4 + cells ≤ word_count lump.now) × (length lump.now ≤ most_bytes) }
    ensures { result ≡ fields_check (cell_fields lump.now linedefs cell) }
{
    let offset = word_field(lump, 4 + cell, 4 + cells, lump.len() / 2 - 1);
    offset.check()?;
    let leading = word_field(lump, offset.number, 0, 0);
    leading.check()?;
    of_numbers(lump, linedefs, offset.number + 1)
}

// The words from `first` on, up to the mark.
fn of_numbers(lump: &[u8], linedefs: usize, first: usize) -> Result<(), Field>
    requires { (first ≤ word_count lump.now) × (length lump.now ≤ most_bytes) }
    ensures { result ≡ fields_check (number_fields lump.now linedefs (word_count lump.now - first)) }
{
    let last = linedefs.saturating_sub(1);
    for at in first..lump.len() / 2 {
        if word_at(lump, at) == LIST_END {
            return Ok(());
        }
        word_field(lump, at, 0, last).check()?;
    }
    size_field(lump, lump.len() + 2).check()
}

fn size_field(lump: &[u8], least: usize) -> Field
    ensures { result ≡ size_field lump.now least }
{
    Field {
        offset: 0,
        number: lump.len(),
        least,
        most: MOST_BYTES,
    }
}

fn word_field(lump: &[u8], i: usize, least: usize, most: usize) -> Field
    requires { i < word_count lump.now }
    ensures { result ≡ word_field lump.now i least most }
{
    Field {
        offset: 2 * i,
        number: word_at(lump, i),
        least,
        most,
    }
}
