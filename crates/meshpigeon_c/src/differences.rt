// What changed between two maps, for C.
ghost use Rattle.export_differences.specs.Differences.{DifferencesGiven};

use export_differences::DifferencesAnswer;

// The maps of two names of eight bytes, each in its file, both judged over the same lent words, four for each node; the numbers of the
// new one's changed records are listed lump by lump.
#[unsafe(no_mangle)]
pub extern "C" fn meshpigeon_differences(
    old_wad: &[u8],
    old_name: &[u8],
    new_wad: &[u8],
    new_name: &[u8],
    words: &mut [u16],
    list: &mut [u16],
) -> DifferencesAnswer
    ensures { DifferencesGiven old_wad.now old_name.now new_wad.now
        new_name.now words.old list.old result words.new list.new }
{
    export_differences::meshpigeon_differences(old_wad, old_name, new_wad, new_name, words, list)
}
