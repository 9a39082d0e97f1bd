// A file's directory, for C.
ghost use Rattle.std.specs.Prelude.{◌≡◌};
ghost use Rattle.wad.specs.Entries.{directory_answer};
ghost use Rattle.wad.specs.Lump.{entry_answer};
ghost use Rattle.wad.specs.Map.{search_answer};
ghost use Rattle.export_files.specs.Files.{directory_out, entry_out, marker_out};

use export_files::{DirectoryAnswer, EntryAnswer, MarkerAnswer};

// Header and directory, 1 to 6.
#[unsafe(no_mangle)]
pub extern "C" fn meshpigeon_directory(wad: &[u8]) -> DirectoryAnswer
    ensures { result ≡ directory_out (directory_answer wad.now) }
{
    export_files::meshpigeon_directory(wad)
}

// Where an entry's part of the file lies, 1 to 7.
#[unsafe(no_mangle)]
pub extern "C" fn meshpigeon_entry(wad: &[u8], number: usize) -> EntryAnswer
    ensures { result ≡ entry_out (entry_answer wad.now number) }
{
    export_files::meshpigeon_entry(wad, number)
}

// A map's marker by its name of eight bytes, and how many names were compared: 1 to 6, 10 and 11.
#[unsafe(no_mangle)]
pub extern "C" fn meshpigeon_find_map(wad: &[u8], name: &[u8]) -> MarkerAnswer
    ensures { result ≡ marker_out (search_answer wad.now name.now) }
{
    export_files::meshpigeon_find_map(wad, name)
}
