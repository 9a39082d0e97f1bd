// A map with the reason of its verdict, for C.
ghost use Rattle.export_why.specs.Reasons.{ReasonGiven};

use export_why::ReasonAnswer;

// The map of a name of eight bytes, judged over lent words, four for each node; the reason is printed into the front of the output.
#[unsafe(no_mangle)]
pub extern "C" fn meshpigeon_why(
    wad: &[u8],
    name: &[u8],
    words: &mut [u16],
    out: &mut [u8],
) -> ReasonAnswer
    ensures { ReasonGiven wad.now name.now words.old out.old result
        words.new out.new }
{
    export_why::meshpigeon_why(wad, name, words, out)
}
