// A map, its game, a point's descent, its draw order, and its first hazard, for C.
ghost use Rattle.std.specs.Prelude.{◌≡◌};
ghost use Rattle.node_descent.specs.Walks.{descent};
ghost use Rattle.map_lumps.specs.Games.{game_answer};
ghost use Rattle.export_maps.specs.Maps.{MapJudged, game_out, descent_out, OrderDrawn};
ghost use Rattle.export_maps.specs.Hazards.{HazardJudged};

use export_maps::{DescentAnswer, GameAnswer, HazardAnswer, MapAnswer, OrderAnswer};

// The map of a name of eight bytes, judged over lent words, four for each node.
#[unsafe(no_mangle)]
pub extern "C" fn meshpigeon_judge_map(wad: &[u8], name: &[u8], words: &mut [u16]) -> MapAnswer
    ensures { MapJudged wad.now name.now words.old result words.new }
{
    export_maps::meshpigeon_judge_map(wad, name, words)
}

// The game of a map by its marker's entry number, 1 to 7: Hexen exactly if the eleventh entry after it is BEHAVIOR.
#[unsafe(no_mangle)]
pub extern "C" fn meshpigeon_map_game(wad: &[u8], marker: usize) -> GameAnswer
    ensures { result ≡ game_out (game_answer wad.now marker) }
{
    export_maps::meshpigeon_map_game(wad, marker)
}

// The subsector of a point, over any NODES bytes and any count of subsectors, 40 to 43.
#[unsafe(no_mangle)]
pub extern "C" fn meshpigeon_descend(
    nodes: &[u8],
    subsectors: usize,
    x: i16,
    y: i16,
) -> DescentAnswer
    ensures { result ≡ descent_out (descent nodes.now subsectors x y) }
{
    export_maps::meshpigeon_descend(nodes, subsectors, x, y)
}

// The subsectors for a point, front first, over any NODES bytes and any count of subsectors, 40 to 42 and 44 to 46. They are
// written into the lent words, one more than there are nodes.
#[unsafe(no_mangle)]
pub extern "C" fn meshpigeon_draw_order(
    nodes: &[u8],
    subsectors: usize,
    x: i16,
    y: i16,
    words: &mut [u16],
) -> OrderAnswer
    ensures { OrderDrawn nodes.now subsectors x y words.old result words.new }
{
    export_maps::meshpigeon_draw_order(nodes, subsectors, x, y, words)
}

// The map of a name of eight bytes, judged over lent words, four for each node; and where it is accepted its first hazard.
#[unsafe(no_mangle)]
pub extern "C" fn meshpigeon_hazard(wad: &[u8], name: &[u8], words: &mut [u16]) -> HazardAnswer
    ensures { HazardJudged wad.now name.now words.old result words.new }
{
    export_maps::meshpigeon_hazard(wad, name, words)
}
