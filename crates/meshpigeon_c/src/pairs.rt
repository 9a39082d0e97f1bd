// A pair of files, for C: a patch over a base.
ghost use Rattle.std.specs.Prelude.{◌≡◌};
ghost use Rattle.pair.specs.Answers.{pair_entry};
ghost use Rattle.export_pairs.specs.Pairs.{pair_entry_out, PairMapJudged};

use export_pairs::{PairEntryAnswer, PairMapAnswer};

// Where the lump of a name of eight bytes lies, and in which file: 1 to 6 of the patch, of the base, and 11.
#[unsafe(no_mangle)]
pub extern "C" fn meshpigeon_pair_find<'a>(
    base: &'a [u8],
    patch: &'a [u8],
    name: &[u8],
) -> PairEntryAnswer
    ensures { result ≡ pair_entry_out (pair_entry base.now patch.now name.now) }
{
    export_pairs::meshpigeon_pair_find(base, patch, name)
}

// The map of a name of eight bytes, out of the file that has its marker, judged over lent words, four for each node.
#[unsafe(no_mangle)]
pub extern "C" fn meshpigeon_pair_judge_map<'a>(
    base: &'a [u8],
    patch: &'a [u8],
    name: &[u8],
    words: &mut [u16],
) -> PairMapAnswer
    ensures { PairMapJudged base.now patch.now name.now words.old result
        words.new }
{
    export_pairs::meshpigeon_pair_judge_map(base, patch, name, words)
}
