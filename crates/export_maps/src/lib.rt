// A map, its game, a point's descent, its draw order, and its first hazard. An answer for each call: C has no generic struct.
#![tactic(auto)]

mod hazards;

ghost use Rattle.std.specs.Prelude.{◌≡◌};
ghost use Rattle.node_descent.specs.Walks.{descent};
ghost use Rattle.map_lumps.specs.Games.{game_answer};
ghost use Rattle.export_maps.specs.Maps.{MapJudged, map_out, game_out, descent_out, order_out, OrderDrawn};

pub use hazards::{HazardAnswer, meshpigeon_hazard};
use map_check::Accepted;
use map_lumps::Game;
use node_descent::Descent;
use refusal::{Refusal, Status};

#[repr(C)]
#[derive(Clone, Copy)]
pub struct MapAnswer {
    pub status: Status,
    pub depth: usize,
    pub marker: usize,
}

#[repr(C)]
#[derive(Clone, Copy)]
pub struct GameAnswer {
    pub status: Status,
    pub hexen: bool,
}

#[repr(C)]
#[derive(Clone, Copy)]
pub struct DescentAnswer {
    pub status: Status,
    pub subsector: usize,
    pub count: usize,
}

#[repr(C)]
#[derive(Clone, Copy)]
pub struct OrderAnswer {
    pub status: Status,
    pub count: usize,
}

impl From<Result<Accepted, Refusal>> for MapAnswer {
    ghost from_gives = { λ judged answer. answer ≡ map_out judged };

    fn from(judged: Result<Accepted, Refusal>) -> MapAnswer {
        match judged {
            Ok(accepted) => MapAnswer {
                status: Status::ACCEPTED,
                depth: accepted.depth,
                marker: accepted.marker,
            },
            Err(r) => MapAnswer {
                status: Status::from(r),
                depth: 0,
                marker: 0,
            },
        }
    }
}

impl From<Result<Game, Refusal>> for GameAnswer {
    ghost from_gives = { λ told answer. answer ≡ game_out told };

    fn from(told: Result<Game, Refusal>) -> GameAnswer {
        match told {
            Ok(game) => GameAnswer {
                status: Status::ACCEPTED,
                hexen: game == Game::Hexen,
            },
            Err(r) => GameAnswer {
                status: Status::from(r),
                hexen: false,
            },
        }
    }
}

impl From<Result<Descent, Refusal>> for DescentAnswer {
    ghost from_gives = { λ found answer. answer ≡ descent_out found };

    fn from(found: Result<Descent, Refusal>) -> DescentAnswer {
        match found {
            Ok(descent) => DescentAnswer {
                status: Status::ACCEPTED,
                subsector: descent.subsector,
                count: descent.count,
            },
            Err(r) => DescentAnswer {
                status: Status::from(r),
                subsector: 0,
                count: 0,
            },
        }
    }
}

impl From<Result<usize, Refusal>> for OrderAnswer {
    ghost from_gives = { λ drawn answer. answer ≡ order_out drawn };

    fn from(drawn: Result<usize, Refusal>) -> OrderAnswer {
        match drawn {
            Ok(count) => OrderAnswer {
                status: Status::ACCEPTED,
                count,
            },
            Err(r) => OrderAnswer {
                status: Status::from(r),
                count: 0,
            },
        }
    }
}

// The map of a name of eight bytes, judged over lent words, four for each node.
#[unsafe(no_mangle)]
pub extern "C" fn meshpigeon_judge_map(wad: &[u8], name: &[u8], words: &mut [u16]) -> MapAnswer
    ensures { MapJudged wad.now name.now words.old result words.new }
{
    MapAnswer::from(map_check::judge_map(wad, name, words))
}

// The game of a map by its marker's entry number, 1 to 7: Hexen exactly if the eleventh entry after it is BEHAVIOR.
#[unsafe(no_mangle)]
pub extern "C" fn meshpigeon_map_game(wad: &[u8], marker: usize) -> GameAnswer
    ensures { result ≡ game_out (game_answer wad.now marker) }
{
    GameAnswer::from(map_lumps::map_game(wad, marker))
}

// The subsector of a point, over any NODES bytes and any count of subsectors, 40 to 43.
#[unsafe(no_mangle)]
pub extern "C" fn meshpigeon_descend(
    nodes: &[u8],
    subsectors: usize,
    x: i16,
    y: i16,
) -> DescentAnswer
    ensures { result ≡ descent_out (descent nodes.now subsectors x y) }
{
    DescentAnswer::from(node_descent::descend(nodes, subsectors, x, y))
}

// The subsectors for a point, front first, over any NODES bytes and any count of subsectors, 40 to 42 and 44 to 46. They are
// written into the lent words, one more than there are nodes.
#[unsafe(no_mangle)]
pub extern "C" fn meshpigeon_draw_order(
    nodes: &[u8],
    subsectors: usize,
    x: i16,
    y: i16,
    words: &mut [u16],
) -> OrderAnswer
    ensures { OrderDrawn nodes.now subsectors x y words.old result words.new }
{
    OrderAnswer::from(draw_order::draw_order(nodes, subsectors, x, y, words))
}
