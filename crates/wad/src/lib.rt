// A WAD file's header and directory (refusals 1 to 6), its entries, and the search for a map's marker. Every question judges the
// whole directory first, so that its answer can be relied on whatever the bytes are. The definitions are in specs/.
#![tactic(auto)]

mod entries;
mod header;
mod lumps;
mod map;
mod parts;

pub use entries::{Directory, directory_of, entry_count, judge_directory, judge_file};
pub use header::MOST_BYTES;
pub use lumps::{Entry, entry_offset, entry_size, find_entry, lump_at};
pub use map::{MarkerSearch, find_map, last_named, search_map};
pub use parts::{part, part_if};
