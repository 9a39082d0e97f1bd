// NODES of a map renumbered, as C and Rust ask for it.
#![tactic(auto)]

ghost use Rattle.export_renumber.specs.Renumberings.{RenumberingGiven};

use refusal::LengthAnswer;

// The map of a name of eight bytes, judged over lent words, four for each node; then the list of old numbers, and where it is good the
// renumbered NODES in the front of the output. 1 to 32 and 70 to 74.
#[unsafe(no_mangle)]
pub extern "C" fn meshpigeon_renumber(
    wad: &[u8],
    name: &[u8],
    words: &mut [u16],
    order: &[u16],
    out: &mut [u8],
) -> LengthAnswer
    ensures { RenumberingGiven wad.now name.now words.old order.now
        out.old result words.new out.new }
{
    LengthAnswer::from(renumber::renumber(wad, name, words, order, out))
}
