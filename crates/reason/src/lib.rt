// Why a map is judged as it is (W-211): the map check, and with its verdict the reason, printed into a lent output. The
// definitions are in specs/.
#![tactic(auto)]

ghost use Rattle.std.specs.Prelude.{◌≡◌, ◌*◌, ◌+◌, ◌<◌, ◌≤◌, length, Ok};
ghost use Rattle.wad.specs.Header.{head_of, entry_count};
ghost use Rattle.wad.specs.Entries.{file_check};
ghost use Rattle.node.specs.Nodes.{nodes_of};
ghost use Rattle.node_graph.specs.Judging.{Judgeable};
ghost use Rattle.map_lumps.specs.Lumps.{map_lumps};
ghost use Rattle.map_lumps.specs.Games.{game_at};
ghost use Rattle.reason.specs.Printing.{answer_by, ReasonTold, ReasonToldAt};
ghost use Rattle.reason.specs.Inner.{RefusedBelow, RefusalTold, GraphTold};

use map_check::Accepted;
use map_lumps::{MapLumps, Marker};
use record::Node;
use refusal::Refusal;

// The bytes of a printed field.
const FIELD_SIZE: usize = 16;

// The verdict, and how many bytes were printed with it. 85 stands alone.
#[derive(Clone, Copy)]
pub struct Reason {
    pub verdict: Result<Accepted, Refusal>,
    pub length: usize,
}

// The map of the asked name, judged as map_check::judge_map does, over the same words; the reason is printed into the front of the
// output where there is room for it.
pub fn judge_map(wad: &[u8], name: &[u8], words: &mut [u16], out: &mut [u8]) -> Reason
    ensures { ReasonTold wad.now name.now words.old out.old result
        words.new out.new }
{
    match wad::find_map(wad, name) {
        Err(r) => Reason {
            verdict: Err(r),
            length: 0,
        },
        Ok(marker) => judge_at(wad, marker, words, out),
    }
}

// From a marker on that was found.
fn judge_at(wad: &[u8], marker: usize, words: &mut [u16], out: &mut [u8]) -> Reason
    requires { (file_check wad.now ≡ Ok tt) × (marker < entry_count (head_of wad.now)) }
    ensures { ReasonToldAt wad.now marker words.old out.old result
        words.new out.new }
{
    let dir = wad::directory_of(wad);
    let entry = Marker {
        dir,
        count: wad::entry_count(wad),
        entry: marker,
    };
    if let Err(r) = map_check::judge_below(wad, &entry, words.len()) {
        return tell_refusal(wad, &entry, r, out);
    }
    let lumps = MapLumps { wad, dir, marker };
    tell_graph(lumps.lump(Node::PLACE), marker, words, out)
}

// Below 31: a field with 23 to 28, and nothing otherwise.
fn tell_refusal(wad: &[u8], marker: &Marker, r: Refusal, out: &mut [u8]) -> Reason
    requires { RefusedBelow wad.now marker.now.dir.now marker.now.count marker.now.entry r }
    ensures { RefusalTold (game_at marker.now.dir.now marker.now.count marker.now.entry)
        (map_lumps wad.now marker.now.dir.now marker.now.entry) r out.old result out.new }
{
    let hexen = marker.is_hexen();
    let Some(field) = reason_field::named_field(hexen, wad, marker.dir, marker.entry, r) else {
        return answer(Err(r), 0, out.len());
    };
    if out.len() < FIELD_SIZE {
        return answer(Err(r), FIELD_SIZE, out.len());
    }
    reason_range::put_field(out, field);
    Reason {
        verdict: Err(r),
        length: FIELD_SIZE,
    }
}

// 31, 32, or accepted.
fn tell_graph(nodes: &[u8], marker: usize, words: &mut [u16], out: &mut [u8]) -> Reason
    requires { Judgeable nodes.now (nodes_of nodes.now) words.old }
    ensures { GraphTold nodes.now marker words.old out.old result
        words.new out.new }
{
    let room = out.len();
    let told = node_path::judge(nodes, nodes.len() / Node::SIZE, words, out);
    answer(
        map_check::verdict_of(told.verdict, marker),
        told.length,
        room,
    )
}

// 85 where there is no room.
fn answer(verdict: Result<Accepted, Refusal>, length: usize, room: usize) -> Reason
    ensures { result ≡ answer_by verdict length room }
{
    if length <= room {
        Reason { verdict, length }
    } else {
        Reason {
            verdict: Err(Refusal::ReasonRoom),
            length: 0,
        }
    }
}
