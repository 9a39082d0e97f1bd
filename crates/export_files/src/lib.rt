// A file's directory. An answer for each call: C has no generic struct.
#![tactic(auto)]

ghost use Rattle.std.specs.Prelude.{◌≡◌};
ghost use Rattle.wad.specs.Entries.{directory_answer};
ghost use Rattle.wad.specs.Lump.{entry_answer};
ghost use Rattle.wad.specs.Map.{search_answer};
ghost use Rattle.export_files.specs.Files.{directory_out, entry_out, marker_out};

use refusal::{Refusal, Status};
use wad::{Directory, Entry, MarkerSearch};

#[repr(C)]
#[derive(Clone, Copy)]
pub struct DirectoryAnswer {
    pub status: Status,
    pub count: usize,
    pub start: usize,
}

#[repr(C)]
#[derive(Clone, Copy)]
pub struct EntryAnswer {
    pub status: Status,
    pub offset: usize,
    pub size: usize,
}

// `compared` counts the names that the search compared, with 11 (no such entry) too. Any other refusal leaves it 0.
#[repr(C)]
#[derive(Clone, Copy)]
pub struct MarkerAnswer {
    pub status: Status,
    pub marker: usize,
    pub compared: usize,
}

impl From<Result<Directory, Refusal>> for DirectoryAnswer {
    ghost from_gives = { λ listed answer. answer ≡ directory_out listed };

    fn from(listed: Result<Directory, Refusal>) -> DirectoryAnswer {
        match listed {
            Ok(directory) => DirectoryAnswer {
                status: Status::ACCEPTED,
                count: directory.count,
                start: directory.start,
            },
            Err(r) => DirectoryAnswer {
                status: Status::from(r),
                count: 0,
                start: 0,
            },
        }
    }
}

impl From<Result<Entry, Refusal>> for EntryAnswer {
    ghost from_gives = { λ found answer. answer ≡ entry_out found };

    fn from(found: Result<Entry, Refusal>) -> EntryAnswer {
        match found {
            Ok(entry) => EntryAnswer {
                status: Status::ACCEPTED,
                offset: entry.offset,
                size: entry.size,
            },
            Err(r) => EntryAnswer {
                status: Status::from(r),
                offset: 0,
                size: 0,
            },
        }
    }
}

// As `IndexAnswer` of export_index is made: C has a struct for each of the two searches, with a name of its own for the entry.
impl From<MarkerSearch> for MarkerAnswer {
    ghost from_gives = { λ search answer. answer ≡ marker_out search };

    fn from(search: MarkerSearch) -> MarkerAnswer {
        let compared = search.compared;
        match search.marker {
            Ok(marker) => MarkerAnswer {
                status: Status::ACCEPTED,
                marker,
                compared,
            },
            Err(r) => MarkerAnswer {
                status: Status::from(r),
                marker: 0,
                compared,
            },
        }
    }
}

// Header and directory, 1 to 6.
#[unsafe(no_mangle)]
pub extern "C" fn meshpigeon_directory(wad: &[u8]) -> DirectoryAnswer
    ensures { result ≡ directory_out (directory_answer wad.now) }
{
    DirectoryAnswer::from(wad::judge_directory(wad))
}

// Where an entry's part of the file lies, 1 to 7.
#[unsafe(no_mangle)]
pub extern "C" fn meshpigeon_entry(wad: &[u8], number: usize) -> EntryAnswer
    ensures { result ≡ entry_out (entry_answer wad.now number) }
{
    EntryAnswer::from(wad::find_entry(wad, number))
}

// A map's marker by its name of eight bytes, and how many names were compared: 1 to 6, 10 and 11.
#[unsafe(no_mangle)]
pub extern "C" fn meshpigeon_find_map(wad: &[u8], name: &[u8]) -> MarkerAnswer
    ensures { result ≡ marker_out (search_answer wad.now name.now) }
{
    MarkerAnswer::from(wad::search_map(wad, name))
}
